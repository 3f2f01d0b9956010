// Counts of one identifier, cell by cell: the table of units, bad cells, and refusal 9. The edition decides how a
// cell is seen.
#![tactic(auto)]

ghost use Rattle.std.specs.Prelude.{◌≡◌, ◌&&◌, ◌==◌};
ghost use Rattle.rules.specs.Packets.{is_damaged};
ghost use Rattle.capture_units.specs.Units.{as_known, is_of, seen as seen_by};
ghost use Rattle.capture_steps.specs.Contract.{Lies, cells_of};
ghost use Rattle.capture_counts.specs.Counts.{Checks, Accounts, Takes, Runs};
ghost use Rattle.capture_counts.specs.Counts.{with_bad, with_nine, Included, passed_by};

use capture_cells::{Cell, is_bad, is_damaged};
use capture_steps::Run;
use capture_units::{Table, Units};
use rules::Condition;

// status, place: refusal 9, or 0; pid: the identifier; bad: bad cells; units: the state of the table; edition: of the
// rules that the cells are counted by. No Option for the refusal: C lends these as words that may hold anything, and
// what is stored loads again (`Stored` of `capture`).
#[derive(Clone, Copy, Default)]
pub struct Tally {
    pub status: u64,
    pub place: u64,
    pub pid: u64,
    pub bad: u64,
    pub units: Units,
    pub edition: u64,
}

// Whether a cell is of the identifier.
fn wanted(c: Cell, pid: u64) -> bool
    ensures { result ≡ is_of pid c }
{
    !is_bad(c.condition) && c.identifier == pid
}

// A condition where damage is known, or is not: then a damaged cell is taken as a good one is.
fn as_known(known: bool, k: Condition) -> Condition
    ensures { result ≡ as_known known k }
{
    match k {
        Condition::Damaged if !known => Condition::Good,
        _ => k,
    }
}

// A cell as the edition sees it: its damage counts only where it is known, its splice mark only where it is heeded.
fn seen(c: Cell, edition: u64) -> Cell
    ensures { result ≡ seen_by edition c }
{
    Cell {
        condition: as_known(figures::knows_damage(edition), c.condition),
        splice: figures::heeds_splices(edition) && c.splice,
        ..c
    }
}

// Whether a cell of the identifier is damaged before the first unit.
fn is_early(s: Units, c: Cell) -> bool
    ensures { result ≡ (s.count == 0) && is_damaged c.condition }
{
    s.count == 0 && is_damaged(c.condition)
}

// One bad cell more.
fn with_bad(t: Tally) -> Tally
    ensures { result ≡ with_bad t }
{
    Tally {
        bad: t.bad.wrapping_add(1),
        ..t
    }
}

// Refusal 9, at byte 3 of the cell that starts at `place`.
fn nine(t: Tally, place: u64) -> Tally
    ensures { result ≡ with_nine t place }
{
    Tally {
        status: 9,
        place: place.wrapping_add(3),
        ..t
    }
}

// A cell of the identifier, as the edition sees it, is whole.
fn include(table: &mut Table, t: Tally, d: Cell) -> Tally
    ensures { Included table.old t d table.new result }
{
    if is_early(t.units, d) {
        return with_bad(t);
    }
    Tally {
        units: capture_units::add_cell(table, t.units, d),
        ..t
    }
}

// One that is not of the identifier is whole.
fn pass(t: Tally, c: Cell) -> Tally
    ensures { result ≡ passed_by t c }
{
    if is_bad(c.condition) { with_bad(t) } else { t }
}

// A cell is shown: refusal 9, if it would begin a 751st unit.
pub fn check(t: Tally, c: Cell) -> Tally
    ensures { Checks t c result }
{
    if wanted(c, t.pid) && capture_units::is_full(t.units, seen(c, t.edition)) {
        return nine(t, c.place);
    }
    t
}

// A cell is whole.
pub fn account(table: &mut Table, t: Tally, c: Cell) -> Tally
    ensures { Accounts table.old t c table.new result }
{
    if wanted(c, t.pid) {
        return include(table, t, seen(c, t.edition));
    }
    pass(t, c)
}

// A cell is shown and whole at once. Whether it is wanted, and how it is seen, is asked once for both.
fn take_cell(table: &mut Table, t: Tally, c: Cell) -> Tally
    ensures { Takes table.old t c table.new result }
{
    if wanted(c, t.pid) {
        let d = seen(c, t.edition);
        if capture_units::is_full(t.units, d) {
            return nine(t, c.place);
        }
        return include(table, t, d);
    }
    pass(t, c)
}

// A run of cells, up to the first that shows refusal 9.
pub fn add_run(table: &mut Table, start: Tally, piece: &[u8], r: Run) -> Tally
    requires { Lies r piece.now }
    ensures { Runs table.old start (cells_of r piece.now) table.new result }
{
    let mut t = start;
    for k in 0..r.many {
        t = take_cell(table, t, r.cell(piece, k));
        if t.status != 0 {
            return t;
        }
    }
    t
}
