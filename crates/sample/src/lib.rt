// A stream sample: opened, fed on two sides, sealed. Its state is memory that the caller lends, in arrays of fixed
// sizes: the capture side's walk words, collected bytes, numbers and table of units, and the luma side's words, block
// sums, bins and picture. Every call is safe and ends on any contents of them, and expects no checking by its caller.
#![tactic(auto)]

ghost use Rattle.capture.specs.State.{arrays_of};
ghost use Rattle.sample_questions.specs.State.{sample_of};
ghost use Rattle.capture.specs.Contract as side-capture;
ghost use Rattle.luma.specs.Contract as side-luma;
ghost use Rattle.sample.specs.Contract.{OpenPost};

mod owned;

use capture::Numbers;
use capture_units::Table;
use capture_walk::{Collected, WalkWords};
pub use owned::Sample;
use rules::{Opening, Refusal};
pub use sample_questions::{index, repeats};
pub use sample_seal::seal;

// Opens a sample, and answers 0, or refusal 1, 2, 3 or 20, which all calls after it repeat.
pub fn open(
    walk: &mut WalkWords,
    kept: &mut Collected,
    numbers: &mut Numbers,
    table: &mut Table,
    luma: &mut luma::Words,
    sums: &mut luma::Sums,
    bins: &mut luma::Bins,
    picture: &mut luma::Picture,
    o: Opening,
) -> Result<u64, Refusal>
    ensures { OpenPost o result (sample_of
        (arrays_of walk.new kept.new numbers.new table.new)
        luma.new sums.new bins.new picture.new) }
{
    let number = figures::opening_fault(o);
    capture::open(
        walk,
        kept,
        numbers,
        table,
        number,
        o.pid as u64,
        o.edition as u64,
    );
    luma::open(luma, sums, bins, picture, o)
}

// Feeds a piece of the capture.
pub fn feed_capture(
    walk: &mut WalkWords,
    kept: &mut Collected,
    numbers: &mut Numbers,
    table: &mut Table,
    piece: &[u8],
) -> Result<u64, Refusal>
    ensures { side-capture.FeedPost
        (arrays_of walk.old kept.old numbers.old table.old)
        piece.now result
        (arrays_of walk.new kept.new numbers.new table.new) }
{
    capture::feed(walk, kept, numbers, table, piece)
}

// Feeds a piece of the luma.
pub fn feed_luma(
    luma: &mut luma::Words,
    sums: &mut luma::Sums,
    bins: &mut luma::Bins,
    picture: &mut luma::Picture,
    piece: &[u8],
) -> Result<u64, Refusal>
    ensures { side-luma.FeedPost luma.old sums.old bins.old
        picture.old piece.now result luma.new sums.new bins.new
        picture.new }
{
    luma::feed(luma, sums, bins, picture, piece)
}
