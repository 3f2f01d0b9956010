// Numbers in byte strings: little-endian words, read and written at a place. Two widths stay two functions: each is
// one call of its number's own method, and one generic function would need a trait for that.
#![tactic(auto)]

ghost use Rattle.std.specs.Prelude.{◌≡◌, ◌+◌, ◌*◌, ◌≤◌, length};
ghost use Rattle.rules.specs.Bytes.{word32 as rule32, word64 as rule64, bytes_of};
ghost use Rattle.words.specs.Written.{written};

// The 32-bit word at a place.
#[tactic(auto, unfolding(rules::specs::Bytes::word32))]
pub fn word32(s: &[u8], at: usize) -> u32
    requires { at + 4 ≤ length s.now }
    ensures { result ≡ rule32 s.now at }
{
    u32::from_le_bytes([s[at], s[at + 1], s[at + 2], s[at + 3]])
}

// The 64-bit word at a place.
#[tactic(auto, unfolding(rules::specs::Bytes::word64))]
pub fn word64(s: &[u8], at: usize) -> u64
    requires { at + 8 ≤ length s.now }
    ensures { result ≡ rule64 s.now at }
{
    let low = word32(s, at);
    let high = word32(s, at + 4);
    u64::from(low) + 4294967296 * u64::from(high)
}

// A 32-bit word written at a place; every other byte stays as it was.
pub fn put32(s: &mut [u8], at: usize, x: u32)
    requires { at + 4 ≤ length s.old }
    ensures { s.new ≡ written at (bytes_of 4 x) s.old }
{
    s[at..at + 4].copy_from_slice(&x.to_le_bytes());
}

// A 64-bit word written at a place; every other byte stays as it was.
pub fn put64(s: &mut [u8], at: usize, x: u64)
    requires { at + 8 ≤ length s.old }
    ensures { s.new ≡ written at (bytes_of 8 x) s.old }
{
    s[at..at + 8].copy_from_slice(&x.to_le_bytes());
}
