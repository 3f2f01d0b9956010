// What the lent words hold between calls: the luma side's numbers and its opening.
ghost use Rattle.std.specs.Prelude.{◌≡◌, ◌^◌, ◌≤◌, ◌<◌};
ghost use Rattle.rules.specs.Columns.{Boundary};
ghost use Rattle.luma_state.specs.State.{loaded, opening_in, grid_of};
ghost use Rattle.luma_state.specs.Contract.{Stored, Placed};

use crate::layout::Words;
use crate::{Grid, Progress, layout};
use rules::Opening;

pub fn load(luma: &Words) -> Progress
    ensures { result ≡ loaded luma.now }
{
    Progress {
        status: luma[layout::STATUS],
        place: luma[layout::PLACE],
        fed: luma[layout::FED],
        pictures: luma[layout::COUNT] as usize,
        fresh: luma[layout::FRESH],
        line: luma[layout::LINE] as usize,
        row: luma[layout::ROW] as usize,
        col: luma[layout::COL] as usize,
        left: luma[layout::LEFT] as usize,
        ups: luma[layout::UPS],
        downs: luma[layout::DOWNS],
        squares: luma[layout::SQUARES],
    }
}

pub fn store(luma: &mut Words, s: Progress)
    ensures { Stored luma.old s luma.new }
{
    luma[layout::STATUS] = s.status;
    luma[layout::PLACE] = s.place;
    luma[layout::FED] = s.fed;
    luma[layout::COUNT] = s.pictures as u64;
    luma[layout::FRESH] = s.fresh;
    luma[layout::LINE] = s.line as u64;
    luma[layout::ROW] = s.row as u64;
    luma[layout::COL] = s.col as u64;
    luma[layout::LEFT] = s.left as u64;
    luma[layout::UPS] = s.ups;
    luma[layout::DOWNS] = s.downs;
    luma[layout::SQUARES] = s.squares;
}

pub fn opening_in(luma: &Words) -> Opening
    ensures { result ≡ opening_in luma.now }
{
    Opening {
        width: figures::low(luma[layout::WIDTH]),
        height: figures::low(luma[layout::HEIGHT]),
        time: figures::low(luma[layout::TIME]),
        pid: figures::low(luma[layout::PID]),
        edition: figures::low(luma[layout::EDITION]),
    }
}

// Boundary k of w columns: the least c with 3c at least k × w.
fn boundary(k: u64, w: u64) -> u64
    requires { (k ≤ 2) × (w < 2 ^ 32) }
    ensures { (Boundary k w result) × (result < 2 ^ 32) }
{
    (k * w + 2) / 3
}

pub fn grid_of(o: Opening) -> Grid
    ensures { result ≡ grid_of o }
{
    let z = figures::sizes_of(o);
    Grid {
        width: o.width as usize,
        side: z.side as usize,
        columns: z.columns as usize,
        lines: z.lines as usize,
        bytes: z.picture as usize,
        second: boundary(1, z.columns) as usize,
        third: boundary(2, z.columns) as usize,
    }
}

// Whether the place lies inside a picture: always, unless the words were not made by these calls.
pub fn placed(g: Grid, s: Progress) -> bool
    ensures { Placed g s result }
{
    if layout::PICTURES < s.pictures {
        return false;
    }
    if s.line < g.lines {
        return s.row < g.side && s.col < g.width;
    }
    s.line == g.lines && 0 < s.left
}
