// Sums of the blocks of a picture whose bytes come in pieces.
#![tactic(auto)]

ghost use Rattle.std.specs.Prelude.{◌≡◌, true, ◌+◌, ◌*◌, ◌/◌, ◌%◌, ◌^◌, ◌≤◌, ◌<◌, length};
ghost use Rattle.luma_blocks.specs.Rows.{Ready, Advanced, TwoNext, Onward, FedRows};
ghost use Rattle.luma_blocks.specs.Pixels.{Finishing, RowDone};

pub use luma_sums::{COLUMNS, Sums};

// Pixels that a picture has room for: 14,101 at most.
pub const PIXELS: usize = 14104;

// A picture's pixels.
pub type Picture = [u8; PIXELS];

// A place in a block row, from its first row on, and how many bytes of a piece were taken to get there.
#[derive(Clone, Copy)]
pub struct Spot {
    pub row: usize,
    pub col: usize,
    pub used: usize,
}

// How a picture's rows are divided: rows of `width` bytes, blocks of `side` rows and columns, `columns` in a row.
#[derive(Clone, Copy)]
pub struct Shape {
    pub side: usize,
    pub columns: usize,
    pub width: usize,
}

// The place t bytes on, in the same row or at the start of the next.
fn advance(width: usize, p: Spot, t: usize) -> Spot
    requires { (p.col + t ≤ width) × (p.row < 64) × (0 < width) × (width ≤ 1920) × (p.used + t < 2 ^ 64) }
    ensures { Advanced width p t result }
{
    let used = p.used + t;
    let col = p.col + t;
    if col == width {
        Spot {
            row: p.row + 1,
            col: 0,
            used,
        }
    } else {
        Spot {
            row: p.row,
            col,
            used,
        }
    }
}

// Whether two whole rows come next in the piece. Blocks of fewer than 8 columns, and of more than 16, are faster row
// by row. Two rows are read side by side, and memory is quick only where it is read in order: so both are read ahead.
fn two_next(shape: Shape, p: Spot, piece: &[u8]) -> bool
    requires { (Ready shape.width shape.side shape.columns p.row p.col) × (p.used ≤ length piece.now) }
    ensures { result ≡ true → TwoNext shape.width shape.side shape.columns p (length piece.now) }
{
    8 <= shape.side
        && shape.side <= 16
        && p.col == 0
        && p.row + 2 <= shape.side
        && shape.columns * shape.side <= shape.width
        && 2 * shape.width <= piece.len() - p.used
        && read_ahead::fetch(&piece[p.used..], 2 * shape.width as u64)
}

// Some bytes of a block row: two whole rows together, whose sums are added at once, or up to the end of the row or of
// the piece.
fn take_some(sums: &mut Sums, shape: Shape, p: Spot, piece: &[u8]) -> Spot
    requires { (Ready shape.width shape.side shape.columns p.row p.col) × (p.used < length piece.now) }
    ensures { Onward shape.width shape.side shape.columns piece.now p sums.old result sums.new }
{
    if two_next(shape, p, piece) {
        let below = p.used + shape.width;
        luma_sums::blocks(sums, 0, shape.columns, piece, [p.used, below], shape.side);
        return Spot {
            row: p.row + 2,
            col: 0,
            used: below + shape.width,
        };
    }
    let t = (shape.width - p.col).min(piece.len() - p.used);
    luma_sums::add_run(
        sums,
        shape.side,
        shape.columns,
        p.col,
        &piece[p.used..p.used + t],
    );
    advance(shape.width, p, t)
}

// Takes in a piece from a place of a block row on, up to the end of the piece or of the block row.
pub fn feed_rows(sums: &mut Sums, shape: Shape, row: usize, col: usize, piece: &[u8]) -> Spot
    requires { Ready shape.width shape.side shape.columns row col }
    ensures { FedRows shape.width shape.side shape.columns row col piece.now sums.old result sums.new }
{
    let mut p = Spot { row, col, used: 0 };
    // No plainer as a `for`: how many bytes a turn takes is known only after it.
    while p.used < piece.len() && p.row != shape.side {
        p = take_some(sums, shape, p, piece);
    }
    p
}

// A pixel, of a block's sum and of how many bytes the block has.
fn pixel_of(sum: u32, area: u32) -> u8
    requires { 0 < area }
    ensures { (result ≡ sum / area % 256) × (sum < 2 ^ 32) }
{
    (sum / area % 256) as u8
}

// At the end of block row b: its pixels, of the sums, which are cleared for the next. No `Shape`: a row's width plays
// no part.
pub fn finish_row(pixels: &mut Picture, sums: &mut Sums, n: usize, w: usize, b: usize)
    requires { Finishing n w b }
    ensures { RowDone n w b pixels.old sums.old pixels.new
        sums.new }
{
    let area = (n * n) as u32;
    let base = b * w;
    for c in 0..w {
        pixels[base + c] = pixel_of(sums[c], area);
        sums[c] = 0;
    }
}
