// Good packets, counted by identifier.
#![tactic(auto)]

ghost use Rattle.std.specs.Prelude.{◌≡◌, ◌<◌, [], ◌∷◌};
ghost use Rattle.rules.specs.Survey.{HasMost, identifiers};
ghost use Rattle.capture_steps.specs.Contract.{Fits, Lies, cells_of, whole_of};
ghost use Rattle.survey_counts.specs.Table.{count_in, Tallied};

use capture_cells::Cell;
use capture_steps::{Event, Run};
use rules::Condition;

// How many identifiers there are, and the lent table: how many good packets each of them has.
pub const IDENTIFIERS: usize = 8192;

pub type Counts = [u32; IDENTIFIERS];

// A cell more.
fn add(counts: &mut Counts, c: Cell)
    requires { c.identifier < 8192 }
    ensures { Tallied counts.old (c ∷ []) counts.new }
{
    if matches!(c.condition, Condition::Good) {
        let at = c.identifier as usize;
        counts[at] = counts[at].wrapping_add(1);
    }
}

// A run of cells.
fn add_run(counts: &mut Counts, piece: &[u8], r: Run)
    requires { Lies r piece.now }
    ensures { Tallied counts.old (cells_of r piece.now) counts.new }
{
    for k in 0..r.many {
        add(counts, r.cell(piece, k));
    }
}

// What an event brings.
pub fn take(counts: &mut Counts, piece: &[u8], e: Event)
    requires { Fits e piece.now }
    ensures { Tallied counts.old (whole_of e piece.now) counts.new }
{
    match e {
        Event::Whole(c) => add(counts, c),
        Event::Cells(r) => add_run(counts, piece, r),
        Event::Nothing | Event::Shown(_) | Event::Refused => {}
    }
}

// The identifier with the highest count, the lowest among equals.
pub fn with_most(counts: &Counts) -> usize
    ensures { HasMost (count_in counts.now) identifiers result }
{
    let mut best = 0;
    for (i, count) in counts.iter().enumerate() {
        if counts[best] < *count {
            best = i;
        }
    }
    best
}
