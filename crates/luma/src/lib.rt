// The luma side: pictures that come in pieces, cut anywhere, over memory that the caller lends. Whatever that memory
// holds, every call is safe.
#![tactic(auto)]

ghost use Rattle.std.specs.Prelude.{◌≡◌};
ghost use Rattle.luma.specs.Contract.{Replied, inside_of, OpenPost, FeedPost, SummaryPost, totals_in};

mod steps;

use crate::steps::run;
pub use luma_blocks::{COLUMNS, PIXELS, Picture, Sums};
pub use luma_state::layout::WORDS;
use luma_state::{Progress, grid_of, layout, load, placed, store};
pub use luma_state::{Words, opening_in};
pub use luma_tiles::{BINS, Bins};
use rules::{Opening, Refusal};

// A refusal that holds is a number (0 for none) and a place here, and no Option, since `Summarised` and `totals_in`
// speak of them as the words hold them. They give the number its names too: `status` and `number` are one word.

// What a seal needs: the refusal that holds, bytes fed, whether they end inside a picture, whole pictures, and those
// of them that are not repeated.
#[derive(Clone, Copy)]
pub struct Summary {
    pub status: u64,
    pub place: u64,
    pub fed: u64,
    pub inside: bool,
    pub pictures: u64,
    pub fresh: u64,
}

// What an index call reads (document 02, R-7): the refusal that holds (number 0: none) and its place; whole pictures,
// and those of them that are not repeated.
#[derive(Clone, Copy)]
pub struct Totals {
    pub number: u64,
    pub place: u64,
    pub pictures: u64,
    pub fresh: u64,
}

fn reply(s: Progress, n: u64) -> Result<u64, Refusal>
    ensures { Replied s n result }
{
    if s.status != 0 {
        return Err(Refusal {
            number: s.status,
            place: s.place,
        });
    }
    Ok(n)
}

// Opens the state. Its four arrays come one by one here and in `feed`, as the C calls `carolsedge_open` and
// `carolsedge_feed_luma` lend them.
pub fn open(
    luma: &mut Words,
    sums: &mut Sums,
    bins: &mut Bins,
    picture: &mut Picture,
    o: Opening,
) -> Result<u64, Refusal>
    ensures { OpenPost o result luma.new sums.new bins.new picture.new }
{
    let f = figures::opening_fault(o);
    luma_state::begin(luma, sums, bins, picture, o, f);
    if f != 0 {
        return Err(Refusal {
            number: f,
            place: 0,
        });
    }
    Ok(0)
}

// Feeds a piece.
pub fn feed(
    luma: &mut Words,
    sums: &mut Sums,
    bins: &mut Bins,
    picture: &mut Picture,
    piece: &[u8],
) -> Result<u64, Refusal>
    ensures { FeedPost luma.old sums.old bins.old picture.old
        piece.now result luma.new sums.new bins.new picture.new }
{
    let n = piece.len() as u64;
    let s = load(luma);
    if s.status != 0 {
        return Err(Refusal {
            number: s.status,
            place: s.place,
        });
    }
    let o = opening_in(luma);
    let wrong = figures::opening_fault(o);
    if wrong != 0 {
        return Ok(n);
    }
    let g = grid_of(o);
    if !placed(g, s) {
        return Ok(n);
    }
    let r = run(luma, sums, bins, picture, g, s, piece);
    store(luma, r);
    reply(r, n)
}

// Whether the place is not a picture's start.
fn inside_of(s: Progress) -> bool
    ensures { result ≡ inside_of s }
{
    s.line != 0 || s.row != 0 || s.col != 0
}

pub fn summarise(luma: &Words) -> Summary
    ensures { SummaryPost luma.now result }
{
    let s = load(luma);
    Summary {
        status: s.status,
        place: s.place,
        fed: s.fed,
        inside: inside_of(s),
        pictures: s.pictures as u64,
        fresh: s.fresh,
    }
}

// The totals, and no word beside them.
pub fn totals_in(luma: &Words) -> Totals
    ensures { result ≡ totals_in luma.now }
{
    Totals {
        number: luma[layout::STATUS],
        place: luma[layout::PLACE],
        pictures: luma[layout::COUNT],
        fresh: luma[layout::FRESH],
    }
}
