// The end of a picture of the luma side: its change, whether it is repeated, the cut score that it settles, and room
// in the ring for the next.
#![tactic(auto)]

ghost use Rattle.std.specs.Prelude.{◌≡◌, ℕ, ◌+◌, ◌*◌, ◌%◌, ◌^◌, ◌<◌, ◌≤◌, length, slice_index};
ghost use Rattle.luma_state.specs.State.{Fits};
ghost use Rattle.luma_picture.specs.Contract.{again_of, ChangeOf, ScoreOf, noted, next_picture, AtPictureEnd};
ghost use Rattle.luma_picture.specs.Contract.{PictureEnded};

use luma_state::{Grid, Progress, Words, layout, slot_of};
use luma_tiles::Bins;

// 1 if no pixel moved since the previous picture.
fn again_of(s: Progress) -> u64
    ensures { result ≡ again_of s }
{
    u64::from(s.pictures != 0 && figures::low(s.squares) == 0)
}

// The change of the picture that ends, rounded to the nearest or cut off; 0 for the first.
fn change_of(g: Grid, s: Progress, rounds: bool) -> u64
    requires { Fits g }
    ensures { ChangeOf g s rounds result }
{
    if s.pictures == 0 {
        return 0;
    }
    let m = luma_state::moves_in(s);
    let n = (g.lines * g.columns) as u32;
    luma_changes::change(n, m.up, m.down, m.squares, rounds)
}

// A cut score, and what the next one needs again: the smaller of two differences. Zeros where none is settled yet,
// and no Option, since `noted` says what is written for every picture.
#[derive(Clone, Copy)]
struct Settled {
    score: u64,
    kept: u64,
}

// The cut score that picture i settles, that of picture i - 2: four differences, and what the last one kept.
fn score_of(bins: &Bins, i: usize, kept: u64) -> Settled
    ensures { ScoreOf bins.now i kept result }
{
    if i < 3 {
        return Settled { score: 0, kept: 0 };
    }
    let b = slot_of(i - 3);
    let y = slot_of(i - 1);
    let z = slot_of(i);
    let next = luma_cuts::least_of_two(bins, b, y, z);
    if i < 4 {
        return Settled {
            score: 0,
            kept: next,
        };
    }
    let a = slot_of(i - 4);
    let x = slot_of(i - 2);
    let score = luma_cuts::least_of_six(bins, kept, next, a, b, x, z);
    Settled { score, kept: next }
}

// Picture i's change, its bit in the map of repeats, the cut score of picture i - 2, and what the next one needs.
fn note(luma: &mut Words, i: usize, q: u64, again: u64, settled: Settled)
    requires { i < 750 }
    ensures { luma.new ≡ noted luma.old i q again settled.score settled.kept }
{
    luma[layout::CHANGES + i] = q;
    let j = layout::REPEATS + i / layout::MAP_BITS;
    let bit = again << (i % layout::MAP_BITS);
    luma[j] = luma[j].wrapping_add(bit);
    luma[layout::SETTLED + i] = settled.score;
    luma[layout::KEPT] = settled.kept;
}

fn next_picture(s: Progress, again: u64) -> Progress
    requires { (s.pictures < 750) × (again ≤ 1) }
    ensures { result ≡ next_picture s again }
{
    Progress {
        pictures: s.pictures + 1,
        fresh: s.fresh.wrapping_add(1 - again),
        line: 0,
        row: 0,
        col: 0,
        left: 0,
        ups: 0,
        downs: 0,
        squares: 0,
        ..s
    }
}

// At the end of a picture: its change, whether it is repeated, the cut score of the picture two before it, and room
// in the ring for the next.
pub fn end_picture(luma: &mut Words, bins: &mut Bins, g: Grid, s: Progress) -> Progress
    requires { AtPictureEnd g s }
    ensures { PictureEnded g s luma.old bins.old result luma.new
        bins.new }
{
    let i = s.pictures;
    let again = again_of(s);
    let settled = score_of(bins, i, luma[layout::KEPT]);
    let opening = luma_state::opening_in(luma);
    let rounds = figures::rounds_to_nearest(opening.edition);
    let q = change_of(g, s, rounds);
    note(luma, i, q, again, settled);
    let next = slot_of(i + 1);
    luma_tiles::clear(bins, next);
    next_picture(s, again)
}
