// What the lent arrays of the luma side mean: its scalars, the sizes of its pictures, where everything is, and how it
// is opened, read and kept between calls.
#![tactic(auto)]

ghost use Rattle.std.specs.Prelude.{◌≡◌, ◌+◌, ◌*◌, ◌%◌, ◌^◌, ◌≤◌};

pub mod layout;
mod opened;
mod stored;

pub use layout::Words;
use luma_changes::Moves;
pub use opened::begin;
pub use stored::{grid_of, load, opening_in, placed, store};

// The sizes of a sample's pictures: rows of `width` bytes, blocks of `side` by `side` of them, `columns` by `lines`
// pixels, `bytes` in all.
// The second and the third tile column begin at the columns `second` and `third`.
// No invariant, and `Fits` is asked instead, since `grid_of` cannot fail: it takes an opening that is refused too.
#[derive(Clone, Copy)]
pub struct Grid {
    pub width: usize,
    pub side: usize,
    pub columns: usize,
    pub lines: usize,
    pub bytes: usize,
    pub second: usize,
    pub third: usize,
}

// The scalars of the state: the refusal that holds, bytes fed, whole pictures and those that are not repeated, the
// place in the current picture, and how its pixels moved so far.
// `status` is a number, 0 for none, and no Option, since `loaded` gives the lent words as they lie.
// It goes beside a grid, and not with it in one struct, since `Live`, `Goes` and `Sane` speak of the two.
#[derive(Clone, Copy)]
pub struct Progress {
    pub status: u64,
    pub place: u64,
    pub fed: u64,
    pub pictures: usize,
    pub fresh: u64,
    pub line: usize,
    pub row: usize,
    pub col: usize,
    pub left: usize,
    pub ups: u64,
    pub downs: u64,
    pub squares: u64,
}

// How the current picture's pixels moved so far.
pub fn moves_in(s: Progress) -> Moves
    ensures { (result.up ≡ s.ups % 2 ^ 32)
        × (result.down ≡ s.downs % 2 ^ 32)
        × (result.squares ≡ s.squares % 2 ^ 32) }
{
    Moves {
        up: figures::low(s.ups),
        down: figures::low(s.downs),
        squares: figures::low(s.squares),
    }
}

// Where the counts of picture i are in the ring.
pub fn slot_of(i: usize) -> usize
    ensures { (result ≡ 144 * (i % 5)) × (result + 144 ≤ 720) }
{
    luma_tiles::PICTURE_BINS * (i % luma_tiles::RING)
}
