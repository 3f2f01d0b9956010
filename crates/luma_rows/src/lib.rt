// The current picture of the luma side: bytes of its block rows are taken in, and at the end of each its pixels are
// made, counted and compared.
#![tactic(auto)]

ghost use Rattle.std.specs.Prelude.{◌≡◌, ℕ, ◌+◌, ◌<◌, ◌≤◌, length, Some};
ghost use Rattle.luma_changes.specs.Figures.{Compared};
ghost use Rattle.luma_state.specs.State.{Fits, slot};
ghost use Rattle.luma_rows.specs.Contract.{Keeps, moved_to, next_row, AtRowEnd, RowEnded, Puts, AtPlainRows};
ghost use Rattle.luma_rows.specs.Contract.{CountedRows, PlainRows, Took, Taking};

use luma_blocks::{Picture, Shape, Sums};
use luma_changes::Moves;
use luma_state::{Grid, Progress};
use luma_tiles::{Bins, Tiles};

// The old pixels of a block row.
type Kept = [u8; luma_blocks::COLUMNS];

// Bytes that were taken in, and the state after them.
#[derive(Clone, Copy)]
pub struct Taken {
    pub used: usize,
    pub state: Progress,
}

// ---- bytes of a picture

fn moved_to(s: Progress, row: usize, col: usize, used: usize) -> Progress
    ensures { result ≡ moved_to s row col used }
{
    Progress {
        fed: s.fed.wrapping_add(used as u64),
        row,
        col,
        ..s
    }
}

// The place after j block rows, whose pixels have moved so.
fn next_row(g: Grid, s: Progress, j: usize, m: Moves) -> Progress
    requires { (Fits g) × (s.line + j ≤ g.lines) }
    ensures { result ≡ next_row g s j m }
{
    Progress {
        line: s.line + j,
        row: 0,
        col: 0,
        left: g.bytes - g.lines * g.side * g.width,
        ups: u64::from(m.up),
        downs: u64::from(m.down),
        squares: u64::from(m.squares),
        ..s
    }
}

// The w pixels from `base` on, before they change. A base here and in `put`, and no slice, since `Keeps` and `Puts`
// speak of the whole picture.
fn keep(kept: &mut Kept, picture: &Picture, base: usize, w: usize)
    requires { (w ≤ 240) × (base + w ≤ 14104) }
    ensures { Keeps base w picture.now kept.old kept.new }
{
    kept[..w].copy_from_slice(&picture[base..base + w]);
}

// Counts j rows of the picture, from its current one on.
fn count_rows(bins: &mut Bins, picture: &Picture, g: Grid, s: Progress, j: usize)
    requires { (Fits g) × (s.line + j ≤ g.lines) }
    ensures { CountedRows g.columns g.lines s.line j (slot s.pictures) picture.now
        bins.old bins.new }
{
    let own = luma_state::slot_of(s.pictures);
    let tiles = Tiles {
        columns: g.columns,
        lines: g.lines,
        second: g.second,
        third: g.third,
    };
    for r in s.line..s.line + j {
        luma_tiles::count_row(bins, own, picture, tiles, r);
    }
}

// At the end of a block row: its pixels are made of the sums, counted, and compared with the previous picture's.
fn end_row(
    sums: &mut Sums,
    bins: &mut Bins,
    picture: &mut Picture,
    g: Grid,
    s: Progress,
) -> Progress
    requires { AtRowEnd g s }
    ensures { RowEnded g s sums.old bins.old picture.old result sums.new
        bins.new picture.new }
{
    let w = g.columns;
    let base = s.line * w;
    let mut kept = [0u8; luma_blocks::COLUMNS];
    keep(&mut kept, picture, base, w);
    luma_blocks::finish_row(picture, sums, g.side, w, s.line);
    count_rows(bins, picture, g, s, 1);
    let m = luma_changes::compare_run(
        luma_state::moves_in(s),
        &kept[..w],
        &picture[base..base + w],
    );
    next_row(g, s, 1, m)
}

// The first w bytes of the string become the pixels from `base` on.
fn put(picture: &mut Picture, base: usize, rest: &[u8], w: usize)
    requires { (w ≤ length rest.now) × (base + w ≤ 14104) }
    ensures { Puts base w rest.now picture.old picture.new }
{
    // No `copy_from_slice`: the archive for C would need `memmove` from outside.
    for j in 0..w {
        picture[base + j] = rest[j];
    }
}

// How many whole rows of blocks of one byte come next in the picture, if any do.
fn plain_rows(g: Grid, s: Progress, rest: &[u8]) -> Option<usize>
    requires { (Taking g s rest.now) × (s.line < g.lines) }
    ensures { (j : ℕ) → result ≡ Some j → AtPlainRows g s rest.now j }
{
    if g.side != 1 || s.col != 0 || g.width != g.columns {
        return None;
    }
    let j = (rest.len() / g.width).min(g.lines - s.line);
    if 0 < j { Some(j) } else { None }
}

// Old pixels, before they change, and as many bytes: as many at a time as `compare_run` takes.
fn compare(m: Moves, old: &[u8], new: &[u8]) -> Moves
    requires { length old.now ≡ length new.now }
    ensures { Compared old.now 0 new.now 0 (length new.now) m result }
{
    let mut sums = m;
    for c in (0..new.len()).step_by(luma_blocks::COLUMNS) {
        let t = luma_blocks::COLUMNS.min(new.len() - c);
        sums = luma_changes::compare_run(sums, &old[c..c + t], &new[c..c + t]);
    }
    sums
}

// j such rows: their bytes are the pixels. No sum is made, and the sums stay what they were, none.
fn take_plain(
    bins: &mut Bins,
    picture: &mut Picture,
    g: Grid,
    s: Progress,
    rest: &[u8],
    j: usize,
) -> Progress
    requires { AtPlainRows g s rest.now j }
    ensures { PlainRows g s j bins.old picture.old rest.now result
        bins.new picture.new }
{
    let base = s.line * g.columns;
    let k = j * g.columns;
    let m = compare(
        luma_state::moves_in(s),
        &picture[base..base + k],
        &rest[..k],
    );
    put(picture, base, rest, k);
    count_rows(bins, picture, g, s, j);
    let t = moved_to(s, 0, 0, k);
    next_row(g, t, j, m)
}

// Bytes of a block row, up to its end or that of the piece.
pub fn draw(
    sums: &mut Sums,
    bins: &mut Bins,
    picture: &mut Picture,
    g: Grid,
    s: Progress,
    rest: &[u8],
) -> Taken
    requires { (Taking g s rest.now) × (s.line < g.lines) }
    ensures { Took g s sums.old bins.old picture.old rest.now result
        sums.new bins.new picture.new }
{
    if let Some(j) = plain_rows(g, s, rest) {
        let used = j * g.columns;
        let e = take_plain(bins, picture, g, s, rest, j);
        return Taken { used, state: e };
    }
    let shape = Shape {
        side: g.side,
        columns: g.columns,
        width: g.width,
    };
    let p = luma_blocks::feed_rows(sums, shape, s.row, s.col, rest);
    let used = p.used;
    let t = moved_to(s, p.row, p.col, used);
    if p.row == g.side {
        let e = end_row(sums, bins, picture, g, t);
        return Taken { used, state: e };
    }
    Taken { used, state: t }
}
