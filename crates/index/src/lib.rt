// The index, each operation one of binary64 and rounded once.
#![tactic(auto)]

ghost use Rattle.std.specs.Prelude.{◌<◌, ◌^◌, ◌≡◌, not, T};
ghost use Rattle.std.specs.Float.Ieee.{is_nan};
ghost use Rattle.rules.specs.Index.{index_of, index_bits};
ghost use Rattle.index.specs.Counts.{no_index, IndexFrom};

use rules::Index;

// Zeros, where there is no index. No Option: `index_from` cannot fail, and `IndexFrom` says zeros.
fn no_index() -> Index
    ensures { result ≡ no_index }
{
    Index {
        ic: 0.0,
        ip: 0.0,
        value: 0.0,
    }
}

// Ic = 4 × (unrepeated / N), Ip = cells / (cells + lost), index = 1 + (Ic × Ip). Below 2 ^ 52 each count, and the sum
// of two, is exact as an f64.
pub fn index_of_totals(unrepeated: u64, pictures: u64, packets: u64, lost: u64) -> Index
    requires few_unrepeated { unrepeated < 2 ^ 52 }
    requires few_pictures { pictures < 2 ^ 52 }
    requires few_packets { packets < 2 ^ 52 }
    requires few_lost { lost < 2 ^ 52 }
    ensures { result ≡ index_of unrepeated pictures packets lost }
{
    let ic = 4.0 * (unrepeated as f64 / pictures as f64);
    let ip = packets as f64 / (packets + lost) as f64;
    let value = 1.0 + ic * ip;
    Index { ic, ip, value }
}

// The index of any counts: the rule's of those that a sample can have, zeros of others.
pub fn index_from(unrepeated: u32, pictures: u32, packets: u32, lost: u32) -> Index
    ensures { IndexFrom unrepeated pictures packets lost result }
{
    if 1 <= pictures && unrepeated <= pictures && 1 <= packets {
        index_of_totals(
            unrepeated as u64,
            pictures as u64,
            packets as u64,
            lost as u64,
        )
    } else {
        no_index()
    }
}

// The index's 64 bits.
#[tactic(auto, unfolding(rules::specs::Index::index_bits))]
pub fn index_bits(i: Index) -> u64
    requires { T (not (is_nan i.value)) }
    ensures { result ≡ index_bits i }
{
    i.value.to_bits()
}
