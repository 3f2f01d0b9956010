// Writing what a call comes to: an answer or an index.
#![tactic(auto)]

ghost use Rattle.std.specs.Prelude.{◌≡◌, ◌++◌, ◌≤◌, length, drop};
ghost use Rattle.replay_outcomes.specs.Codes.{code, three_words, index_code, HasBits};

use rules::{Index, Refusal};

// An answer, as 17 bytes at the front of out.
pub fn put(out: &mut [u8], a: Result<u64, Refusal>)
    requires { 17 ≤ length out.old }
    ensures { out.new ≡ code a ++ drop 17 out.old }
{
    let (kind, first, second) = match a {
        Ok(n) => (0, n, 0),
        Err(e) => (1, e.number, e.place),
    };
    out[0] = kind;
    words::put64(out, 1, first);
    words::put64(out, 9, second);
}

fn put_three(out: &mut [u8], kind: u8, a: u64, b: u64, c: u64)
    requires { length out.old ≡ 25 }
    ensures { out.new ≡ three_words kind a b c }
{
    out[0] = kind;
    words::put64(out, 1, a);
    words::put64(out, 9, b);
    words::put64(out, 17, c);
}

// An index's answer, as the 25 bytes of out.
pub fn put_index(out: &mut [u8], a: Result<Index, Refusal>)
    requires { (length out.old ≡ 25) × HasBits a }
    ensures { out.new ≡ index_code a }
{
    match a {
        Ok(i) => put_three(out, 0, i.ic.to_bits(), i.ip.to_bits(), i.value.to_bits()),
        Err(e) => put_three(out, 1, e.number, e.place, 0),
    }
}
