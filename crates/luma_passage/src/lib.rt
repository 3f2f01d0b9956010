// R-12, repeats in a passage: counted in the map of repeats that the luma words have, by the ones of its words, each
// under a mask.
#![tactic(auto)]

ghost use Rattle.std.specs.Prelude.{◌≡◌, ◌+◌, ◌/◌, ◌%◌, ◌^◌, ◌≤◌, ◌<◌};
ghost use Rattle.std.specs.Int.Count.{ones};
ghost use Rattle.luma_passage.specs.Contract.{BetweenPost, AnswerPost};

use luma_state::{Words, layout};
use rules::Refusal;

// How many of a word's n bits from bit `from` on are ones.
fn ones_within(word: u64, from: usize, n: usize) -> u64
    requires { (1 ≤ n) × (from + n ≤ 64) }
    ensures { (result ≤ n) × (result ≡ ones (word / 2 ^ from % 2 ^ n)) }
{
    let mask = (u64::MAX >> (layout::MAP_BITS - n)) << from;
    u64::from((word & mask).count_ones())
}

// How many pictures from a up to but without b are repeated, word by word. Safe for every a and b.
fn repeated_between(luma: &Words, a: usize, b: usize) -> u64
    ensures { BetweenPost luma.now a b result }
{
    if layout::PICTURES < b || b <= a {
        return 0;
    }
    let mut found: u64 = 0;
    for j in a / layout::MAP_BITS..b.div_ceil(layout::MAP_BITS) {
        let from = a.max(layout::MAP_BITS * j);
        let to = b.min(layout::MAP_BITS * (j + 1));
        let word = luma[layout::REPEATS + j];
        found += ones_within(word, from % layout::MAP_BITS, to - from);
    }
    found
}

// The answer for a passage of n whole pictures: 26, or the count.
pub fn passage(luma: &Words, n: usize, a: usize, b: usize) -> Result<u64, Refusal>
    ensures { AnswerPost luma.now n a b result }
{
    if b < a || n < b {
        return Err(Refusal::NO_PASSAGE);
    }
    Ok(repeated_between(luma, a, b))
}
