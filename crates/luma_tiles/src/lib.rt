// The histograms of a reduced picture: 16 bins for each of nine tiles. Five pictures' counts, 144 each,
// lie in one array, as a ring.
#![tactic(auto)]

ghost use Rattle.std.specs.Prelude.{◌≡◌, ◌+◌, ◌<◌, ◌≤◌, [], ◌∷◌};
ghost use Rattle.rules.specs.Histograms.{bin};
ghost use Rattle.luma_tiles.specs.Bins.{Cleared, in_tile, Grown, Three, Columns, CountedRow, Row};

// How many bins a tile and a picture's nine tiles have, how many pictures the ring has, and the counts in all.
pub const TILE_BINS: usize = 16;

pub const PICTURE_BINS: usize = 9 * TILE_BINS;

pub const RING: usize = 5;

pub const BINS: usize = RING * PICTURE_BINS;

// The ring's counts.
pub type Bins = [u32; BINS];

// The tiles of a picture of `columns` by `lines` pixels: the first tile column begins at column 0, the others at
// `second` and `third`.
#[derive(Clone, Copy)]
pub struct Tiles {
    pub columns: usize,
    pub lines: usize,
    pub second: usize,
    pub third: usize,
}

// The bin of a value.
fn bin_of(v: u8) -> usize
    ensures { (result ≡ bin v) × (result < 16) }
{
    (v / 16) as usize
}

// Clears the counts from `base` on, for a picture. Here and below a picture's counts are named by their base, and not
// lent as a slice, since `Counts`, `Kept` and `CountedRow` say where they lie among the lent ones.
pub fn clear(counts: &mut Bins, base: usize)
    requires { base + 144 ≤ 720 }
    ensures { Cleared base counts.old counts.new }
{
    counts[base..base + PICTURE_BINS].fill(0);
}

// One pixel of value v more, in tile t of the counts from `base` on.
fn count(counts: &mut Bins, base: usize, t: usize, v: u8)
    requires { (base + 144 ≤ 720) × (t < 9) }
    ensures { Grown base (in_tile t (v ∷ [])) counts.old counts.new }
{
    let i = base + (TILE_BINS * t + bin_of(v));
    counts[i] = counts[i].wrapping_add(1);
}

// Pixels of each of the three tiles from t on, as many of one as of the others. One tile after the other, so that a
// count is rarely raised twice in a row: it would have to wait.
fn count_columns(
    counts: &mut Bins,
    base: usize,
    t: usize,
    first: &[u8],
    second: &[u8],
    third: &[u8],
)
    requires { Columns base t first.now second.now third.now }
    ensures { Three base t first.now second.now third.now counts.old counts.new }
{
    for i in 0..first.len() {
        count(counts, base, t, first[i]);
        count(counts, base, t + 1, second[i]);
        count(counts, base, t + 2, third[i]);
    }
}

// The pixels that a tile has more than the others in a row.
fn count_rest(counts: &mut Bins, base: usize, t: usize, pixels: &[u8])
    requires { (base + 144 ≤ 720) × (t < 9) }
    ensures { Grown base (in_tile t pixels.now) counts.old counts.new }
{
    for v in pixels {
        count(counts, base, t, *v);
    }
}

// Row r of the pixels, in the counts from `base` on. No tile has fewer columns than the last.
pub fn count_row(counts: &mut Bins, base: usize, pixels: &[u8], tiles: Tiles, r: usize)
    requires { Row tiles r base pixels.now }
    ensures { CountedRow tiles.columns tiles.lines r base pixels.now counts.old counts.new }
{
    let from = r * tiles.columns;
    let (first, others) = pixels[from..from + tiles.columns].split_at(tiles.second);
    let (middle, last) = others.split_at(tiles.third - tiles.second);
    let t = 3 * (3 * r / tiles.lines);
    let m = last.len();
    count_columns(counts, base, t, &first[..m], &middle[..m], last);
    count_rest(counts, base, t, &first[m..]);
    count_rest(counts, base, t + 1, &middle[m..]);
}
