// Steps through a piece: the bytes of a row, of the surplus rows, a picture's end.
ghost use Rattle.std.specs.Prelude.{◌≡◌, ◌≤◌};
ghost use Rattle.luma_state.specs.State.{Fits, Sane};
ghost use Rattle.luma_rows.specs.Contract.{Taking};
ghost use Rattle.luma.specs.Contract.{passed_on, Finishing, Finished, Passed, Stepped, Ran, stopped_at};

use luma_blocks::{Picture, Sums};
use luma_rows::Taken;
use luma_state::{Grid, Progress, Words, layout};
use luma_tiles::Bins;

// t bytes of the surplus rows.
fn skip(s: Progress, t: usize) -> Taken
    requires { t ≤ s.left }
    ensures { (result.used ≡ t) × (result.state ≡ passed_on s t) }
{
    Taken {
        used: t,
        state: Progress {
            fed: s.fed.wrapping_add(t as u64),
            left: s.left - t,
            ..s
        },
    }
}

// Bytes of the surplus rows, up to the picture's end or that of the piece.
fn pass(g: Grid, s: Progress, rest: &[u8]) -> Taken
    requires { (Taking g s rest.now) × (s.line ≡ g.lines) }
    ensures { Passed g s rest.now result }
{
    skip(s, s.left.min(rest.len()))
}

// The picture's end, where it is reached.
fn finish(luma: &mut Words, bins: &mut Bins, g: Grid, t: Taken) -> Taken
    requires { Finishing g t }
    ensures { Finished g t luma.old bins.old result luma.new bins.new }
{
    let s = t.state;
    if s.line < g.lines || 0 < s.left {
        return t;
    }
    Taken {
        state: luma_picture::end_picture(luma, bins, g, s),
        ..t
    }
}

// Some bytes of a piece, at least one. Its four arrays come one by one here and in `run`, as the C call
// `carolsedge_feed_luma` lends them.
fn step(
    luma: &mut Words,
    sums: &mut Sums,
    bins: &mut Bins,
    picture: &mut Picture,
    g: Grid,
    s: Progress,
    rest: &[u8],
) -> Taken
    requires { Taking g s rest.now }
    ensures { Stepped g s luma.old sums.old bins.old picture.old
        rest.now result luma.new sums.new bins.new picture.new }
{
    let t = if g.lines <= s.line {
        pass(g, s, rest)
    } else {
        luma_rows::draw(sums, bins, picture, g, s, rest)
    };
    finish(luma, bins, g, t)
}

// A byte past 750 pictures.
fn stopped(g: Grid, s: Progress) -> Progress
    requires { Fits g }
    ensures { result ≡ stopped_at g s }
{
    Progress {
        status: 10,
        place: (layout::PICTURES as u64) * (g.bytes as u64),
        ..s
    }
}

// A whole piece.
pub fn run(
    luma: &mut Words,
    sums: &mut Sums,
    bins: &mut Bins,
    picture: &mut Picture,
    g: Grid,
    start: Progress,
    piece: &[u8],
) -> Progress
    requires { (Fits g) × (Sane g start) }
    ensures { Ran g start luma.old sums.old bins.old picture.old
        piece.now result luma.new sums.new bins.new picture.new }
{
    let mut s = start;
    let mut at = 0;
    // No plainer: a step says how many bytes it took, up to the end of a row, a picture or the piece, so no range or
    // iterator has the places where steps begin.
    while at < piece.len() {
        if s.pictures == layout::PICTURES {
            return stopped(g, s);
        }
        let t = step(luma, sums, bins, picture, g, s, &piece[at..]);
        s = t.state;
        at += t.used;
    }
    s
}
