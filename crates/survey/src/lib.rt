// A survey (document 02, R-4): which identifier of a capture has most good packets. The capture comes in pieces, cut
// anywhere; the walk finds the cells. The state is three lent arrays: the walk's words and collected bytes, and the
// counts. Every call is safe on any contents of them.
#![tactic(auto)]

ghost use Rattle.std.specs.Prelude.{◌≡◌};
ghost use Rattle.survey.specs.State.{state_of};
ghost use Rattle.survey.specs.Contract.{Opened, FeedPost, AskPost, Goes, Replies};

use capture_walk::{Collected, Walk, WalkWords};
use rules::{Most, Refusal};
pub use survey_counts::{Counts, IDENTIFIERS};

// Opens a fresh survey. C lends the three arrays one by one, here and in `feed`: they are in no struct, and `ask`
// reads but two of them.
pub fn open(walk: &mut WalkWords, kept: &mut Collected, counts: &mut Counts)
    ensures { Opened (state_of walk.new kept.new counts.new) }
{
    capture_walk::open(walk, kept);
    *counts = [0; IDENTIFIERS];
}

// A whole piece.
fn run(kept: &mut Collected, counts: &mut Counts, start: Walk, piece: &[u8]) -> Walk
    ensures { Goes kept.old counts.old start piece.now
        kept.new counts.new result }
{
    let mut s = start;
    let mut i = 0;
    // no `for`: each step says how many bytes it took
    while i < piece.len() {
        let r = capture_walk::next(kept, s, piece, i);
        survey_counts::take(counts, piece, r.event);
        s = r.walk;
        i += r.taken;
    }
    s
}

// What a feed of n bytes answers, when it has been taken in. `ask` makes this refusal too, in its own lines: one
// function for both would need a contract and laws of its own (`Replies` is of a feed alone), more than it saves.
fn reply(w: Walk, n: u64) -> Result<u64, Refusal>
    ensures { Replies w n result }
{
    if w.status != 0 {
        return Err(Refusal {
            number: figures::listed_number(w.status),
            place: w.place,
        });
    }
    Ok(n)
}

// Feeds a piece.
pub fn feed(
    walk: &mut WalkWords,
    kept: &mut Collected,
    counts: &mut Counts,
    piece: &[u8],
) -> Result<u64, Refusal>
    ensures { FeedPost (state_of walk.old kept.old counts.old)
        piece.now result (state_of walk.new kept.new counts.new) }
{
    let old = capture_walk::load(walk);
    let s = run(kept, counts, old, piece);
    capture_walk::store(walk, s);
    reply(s, piece.len() as u64)
}

// Asks what the capture so far comes to. Changes nothing.
pub fn ask(walk: &WalkWords, counts: &Counts) -> Result<Most, Refusal>
    ensures { AskPost walk.now counts.now result }
{
    let s = capture_walk::load(walk);
    if s.status != 0 {
        return Err(Refusal {
            number: figures::listed_number(s.status),
            place: s.place,
        });
    }
    if capture_walk::inside(s) {
        return Err(Refusal::capture_unfinished(s.fed));
    }
    let best = survey_counts::with_most(counts);
    let most = u64::from(counts[best]);
    if most == 0 {
        return Err(Refusal::NO_GOOD_PACKET);
    }
    Ok(Most {
        identifier: best as u64,
        count: most,
    })
}
