// Reading ahead, for speed only: no figure goes by what these functions answer.
#![tactic(auto)]

ghost use Rattle.std.specs.Prelude.{◌≤◌};

// Reads a byte of each 64 of the first n bytes and of the next 64, in order, so that the memory sends them together
// and whoever goes through them waits once, in whatever order that is. The answer is yes, and nothing goes by it; it
// keeps the reads in the program.
pub fn fetch(f: &[u8], n: u64) -> bool
    requires { n ≤ 268435456 }
{
    let end = f.len().min(n as usize + 64);
    let mut sum = 0;
    for at in (0..end).step_by(64) {
        sum += f[at] as u64;
    }
    sum <= 4 * (end as u64 + 64)
}
