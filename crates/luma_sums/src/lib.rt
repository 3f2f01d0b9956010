// Sums of blocks: what a run of a row adds to them, and what two rows add at once.
#![tactic(auto)]

ghost use Rattle.std.specs.Prelude.{◌≡◌, [], ◌∷◌, ◌+◌, ◌*◌, ◌/◌, ◌<◌, ◌≤◌, length};
ghost use Rattle.rules.specs.Bytes.{total};
ghost use Rattle.luma_sums.specs.Sums.{Added, Laid, Edged, Part, Lined, Blocks};

// Block columns that the sums have room for: 239 at most.
pub const COLUMNS: usize = 240;

// The sums of a block row.
pub type Sums = [u32; COLUMNS];

// The sum of the bytes. Where their number is a constant at the call, the compiler makes wide sums of bytes of it.
fn total_of(s: &[u8]) -> u32
    requires { length s.now ≤ 65536 }
    ensures { result ≡ total s.now }
{
    s.iter().map(|b| u32::from(*b)).sum()
}

// Adds the bytes to the sum of block column c, where that is one of the first w.
fn part(sums: &mut Sums, w: usize, c: usize, bytes: &[u8])
    requires { (w ≤ 240) × (c < w → length bytes.now ≤ 65536) }
    ensures { Part w c bytes.now sums.old sums.new }
{
    if c < w {
        sums[c] = sums[c].wrapping_add(total_of(bytes));
    }
}

// Adds k whole blocks of n bytes of each of R rows, which begin in s at the places `at`, to the sums from block
// column c on.
fn whole<const R: usize>(sums: &mut Sums, c: usize, k: usize, s: &[u8], at: [usize; R], n: usize)
    requires { Lined n c k s.now at }
    ensures { Blocks n c k s.now at.entry sums.old sums.new }
{
    for j in 0..k {
        let mut sum = sums[c + j];
        for place in at {
            let from = place + j * n;
            sum = sum.wrapping_add(total_of(&s[from..from + n]));
        }
        sums[c + j] = sum;
    }
}

// The same. Each call has a constant width, so that the compiler makes a loop of its own for it, with wide sums of
// bytes. Widths of 4, 2 and 1 are in `row_blocks`: tried here, and two rows of blocks of 8 took 1.4 times as long.
pub fn blocks<const R: usize>(
    sums: &mut Sums,
    c: usize,
    k: usize,
    s: &[u8],
    at: [usize; R],
    n: usize,
)
    requires { Lined n c k s.now at }
    ensures { Blocks n c k s.now at.entry sums.old sums.new }
{
    match n {
        32 => whole(sums, c, k, s, at, 32),
        16 => whole(sums, c, k, s, at, 16),
        8 => whole(sums, c, k, s, at, 8),
        _ => whole(sums, c, k, s, at, n),
    }
}

// The same, of one row: two rows are taken together only of blocks of 8 columns and more.
fn row_blocks(sums: &mut Sums, c: usize, k: usize, row: &[u8], n: usize)
    requires { Lined n c k row.now (0 ∷ []) }
    ensures { Blocks n c k row.now (0 ∷ []) sums.old sums.new }
{
    match n {
        4 => whole(sums, c, k, row, [0], 4),
        2 => whole(sums, c, k, row, [0], 2),
        1 => whole(sums, c, k, row, [0], 1),
        _ => blocks(sums, c, k, row, [0], n),
    }
}

// As many whole blocks of n bytes as there are in m, `room` at most. Where all of a row is
// there, no division is needed.
fn fitting(n: usize, room: usize, m: usize) -> usize
    requires { (0 < n) × (n ≤ 64) × (room ≤ 240) }
    ensures { (result ≤ room) × (result * n ≤ m) × (result < room → m < result * n + n) }
{
    if room * n <= m { room } else { m / n }
}

// Adds bytes of a row, from block column c on: whole blocks, then what is left.
fn add_blocks(sums: &mut Sums, n: usize, w: usize, c: usize, bytes: &[u8])
    requires { Edged n w bytes.now }
    ensures { Added n w (c * n) bytes.now sums.old sums.new }
{
    if w <= c {
        return;
    }
    let k = fitting(n, w - c, bytes.len());
    row_blocks(sums, c, k, bytes, n);
    part(sums, w, c + k, &bytes[k * n..]);
}

// Adds bytes of a row, from column x on, to the sums of their block columns, of n columns each.
// Columns past the first w blocks are dropped. Bytes that begin inside a block are taken up to its edge first.
pub fn add_run(sums: &mut Sums, n: usize, w: usize, x: usize, bytes: &[u8])
    requires { Laid n w x bytes.now }
    ensures { Added n w x bytes.now sums.old sums.new }
{
    if x == 0 {
        add_blocks(sums, n, w, 0, bytes);
        return;
    }
    let c = x / n;
    let head = bytes.len().min(c * n + n - x);
    part(sums, w, c, &bytes[..head]);
    if head == bytes.len() {
        return;
    }
    add_blocks(sums, n, w, c + 1, &bytes[head..]);
}
