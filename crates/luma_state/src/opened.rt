// A sample that is opened: nothing has been fed.
ghost use Rattle.std.specs.Prelude.{[]};
ghost use Rattle.figures.specs.Opening.{OpeningFault};
ghost use Rattle.luma_state.specs.State.{Means};

use crate::layout;
use crate::layout::Words;
use luma_blocks::{Picture, Sums};
use luma_tiles::Bins;
use rules::Opening;

// The arrays of a sample that is opened with o; f is the number of its refusal, 0 for none.
pub fn begin(
    luma: &mut Words,
    sums: &mut Sums,
    bins: &mut Bins,
    picture: &mut Picture,
    o: Opening,
    f: u64,
)
    requires { OpeningFault o f }
    ensures { Means luma.new sums.new bins.new picture.new o [] }
{
    *luma = [0u64; layout::WORDS];
    *sums = [0u32; luma_blocks::COLUMNS];
    *bins = [0u32; luma_tiles::BINS];
    *picture = [0u8; luma_blocks::PIXELS];
    luma[layout::STATUS] = f;
    luma[layout::WIDTH] = o.width as u64;
    luma[layout::HEIGHT] = o.height as u64;
    luma[layout::TIME] = o.time as u64;
    luma[layout::PID] = o.pid as u64;
    luma[layout::EDITION] = o.edition as u64;
}
