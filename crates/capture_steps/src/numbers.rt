// The walk's numbers: in the lent words, refused, and in a step.
ghost use Rattle.std.specs.Prelude.{◌≡◌};
ghost use Rattle.capture_steps.specs.State.{loaded};
ghost use Rattle.capture_steps.specs.Contract.{refused_as, Stored};

use crate::types::{Event, Step, Walk, WalkWords};

// Word by word: the places are the layout of the lent memory (`loaded`).
pub fn load(words: &WalkWords) -> Walk
    ensures { result ≡ loaded words.now }
{
    Walk {
        status: words[0],
        place: words[1],
        fed: words[2],
        at: words[3],
        size: words[4],
        got: words[5],
        left: words[6],
        frames: words[7],
        skipped: words[8],
    }
}

pub fn store(words: &mut WalkWords, s: Walk)
    ensures { Stored words.old s words.new }
{
    words[0] = s.status;
    words[1] = s.place;
    words[2] = s.fed;
    words[3] = s.at;
    words[4] = s.size;
    words[5] = s.got;
    words[6] = s.left;
    words[7] = s.frames;
    words[8] = s.skipped;
}

pub fn refused(s: Walk, number: u64, place: u64) -> Walk
    ensures { result ≡ refused_as s number place }
{
    Walk {
        status: number,
        place,
        ..s
    }
}

pub fn step(taken: usize, walk: Walk, event: Event) -> Step
    ensures { result ≡ record { taken = taken; walk = walk; event = event } }
{
    Step { taken, walk, event }
}
