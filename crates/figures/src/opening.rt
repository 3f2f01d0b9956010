// Opening: the refusal that it meets, and the sizes that follow from it.
ghost use Rattle.std.specs.Prelude.{◌≡◌};
ghost use Rattle.rules.specs.Opening.{good_size, good_time, good_pid, level_up_to};
ghost use Rattle.figures.specs.Opening.{OpeningFault, sizes_of};

use crate::editions::is_edition;
use rules::Opening;

// Not refused by 1.
#[tactic(auto, unfolding(rules::specs::Opening::good_size))]
pub fn good_size(width: u32, height: u32) -> bool
    ensures { result ≡ good_size width height }
{
    let w = width as u64;
    let h = height as u64;
    (30..=1088).contains(&h) && (15..=1920).contains(&w) && h <= 2 * w && w <= 4 * h
}

// Not refused by 2.
#[tactic(auto, unfolding(rules::specs::Opening::good_time))]
pub fn good_time(time: u32) -> bool
    ensures { result ≡ good_time time }
{
    (10000..=200000).contains(&time)
}

// Not refused by 3.
#[tactic(auto, unfolding(rules::specs::Opening::good_pid))]
pub fn good_pid(pid: u32) -> bool
    ensures { result ≡ good_pid pid }
{
    pid <= 8191
}

// The number of the opening's refusal, 0 for none: a number and no Option, since the luma side keeps it so in a word
// of its lent state (`OpeningFault`).
#[tactic(auto, unfolding(rules::specs::Opening::opening_fault))]
pub fn opening_fault(o: Opening) -> u64
    ensures { OpeningFault o result }
{
    if !good_size(o.width, o.height) {
        return 1;
    }
    if !good_time(o.time) {
        return 2;
    }
    if !good_pid(o.pid) {
        return 3;
    }
    if !is_edition(o.edition) {
        return 20;
    }
    0
}

// What follows from an opening's width and height: level k, side 2^k of a block, its 4^k bytes, w columns, h lines,
// and a picture's bytes.
#[derive(Drop)]
pub struct Sizes {
    pub level: u64,
    pub side: u64,
    pub area: u64,
    pub columns: u64,
    pub lines: u64,
    pub picture: u64,
}

// The greatest k with H / 2^k at least 30, 5 at most.
fn level(height: u64) -> u64
    ensures { result ≡ level_up_to 5 height }
{
    for k in (1..6).rev() {
        if 30 <= height >> k {
            return k;
        }
    }
    0
}

pub fn sizes_of(o: Opening) -> Sizes
    ensures { result ≡ sizes_of o }
{
    let width = o.width as u64;
    let height = o.height as u64;
    let level = level(height);
    let side = 1 << level;
    Sizes {
        level,
        side,
        area: side * side,
        columns: width / side,
        lines: height / side,
        picture: width * height,
    }
}
