// Changes: q of a picture, from its pixels' rises, falls and squared moves.
ghost use Rattle.std.specs.Prelude.{◌≡◌, ◌≤◌};
ghost use Rattle.rules.specs.Changes.{root as root_of};
ghost use Rattle.luma_changes.specs.Changes.{Asked, Changed, spread_of};

// V = n × sum of e² − (sum of e)², where the sum of e is `up` less `down`.
fn spread(n: u32, up: u32, down: u32, squares: u32) -> u64
    ensures { result ≡ spread_of n up down squares }
{
    let sum = u64::from(up.abs_diff(down));
    let square = sum * sum;
    let all = u64::from(n) * u64::from(squares);
    all.saturating_sub(square)
}

// The greatest q with q² × n² at most 10,000 × V, by bisection.
fn root(v: u64, n: u64) -> u64
    requires { Asked v n }
    ensures { (result ≡ root_of v n) × (result ≤ 51000) }
{
    let target = 10000 * v;
    let mut low: u64 = 0;
    let mut high: u64 = 51001;
    // No plainer as a `for`: each turn halves what lies between.
    while low + 1 < high {
        let mid = (low + high) / 2;
        if mid * mid * n * n <= target {
            low = mid;
        } else {
            high = mid;
        }
    }
    low
}

// q of a picture of n pixels, rounded to the nearest or cut off. Numbers that no picture gives get some q, at most
// 25,500: 0 as it is written, which nothing goes by.
pub fn change(n: u32, up: u32, down: u32, squares: u32, rounds: bool) -> u64
    ensures { Changed n up down squares rounds result }
{
    if n == 0 || 14101 < n || 65025 * n < squares {
        return 0;
    }
    let v = spread(n, up, down, squares);
    if rounds {
        return (root(4 * v, u64::from(n)) + 1) / 2;
    }
    root(v, u64::from(n))
}
