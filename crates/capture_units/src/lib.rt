// The units of the cells of PID, kept in a lent table: unit j has the five words from 5 * j on.
// Cells come one by one. Every function is safe on any table and any `Units`.
#![tactic(auto)]

ghost use Rattle.std.specs.Prelude.{◌≡◌, ◌+◌, ◌<◌, ◌⊎◌, MatchOption};
ghost use Rattle.capture_units.specs.State.{unit_at, unit_set};
ghost use Rattle.capture_units.specs.Contract.{loss_of, begun_by, joined_by, marked_by, taken_into, Begun, Joined};
ghost use Rattle.capture_units.specs.Contract.{Marked};
ghost use Rattle.capture_units.specs.Contract.{Added, Full, Row};

use capture_cells::{Cell, is_damaged};
use rules::UnitRow;

// A sample has so many units at most, and each has so many words in the table.
pub const MOST_UNITS: usize = 750;

pub const UNIT_WORDS: usize = 5;

pub const TABLE_WORDS: usize = MOST_UNITS * UNIT_WORDS;

// C lends the table as words (include/carolsedge.h), so a unit is five of them, and no struct of its own lies there.
pub type Table = [u64; TABLE_WORDS];

// What is kept beside the table: the number of units, the counter that the next gap is measured from, and the totals
// over all units.
#[derive(Clone, Copy, Default)]
pub struct Units {
    pub count: u64,
    pub previous: u64,
    pub packets: u64,
    pub lost: u64,
}

// The words of a unit.
#[derive(Clone, Copy)]
pub struct Unit {
    pub least: u64,
    pub greatest: u64,
    pub packets: u64,
    pub lost: u64,
    pub damaged: u64,
}

fn unit_at(table: &Table, j: usize) -> Unit
    requires { j < 750 }
    ensures { result ≡ unit_at table.now j }
{
    let at = UNIT_WORDS * j;
    Unit {
        least: table[at],
        greatest: table[at + 1],
        packets: table[at + 2],
        lost: table[at + 3],
        damaged: table[at + 4],
    }
}

fn put_unit(table: &mut Table, j: usize, u: Unit)
    requires { j < 750 }
    ensures { table.new ≡ unit_set table.old j u }
{
    let at = UNIT_WORDS * j;
    table[at] = u.least;
    table[at + 1] = u.greatest;
    table[at + 2] = u.packets;
    table[at + 3] = u.lost;
    table[at + 4] = u.damaged;
}

// What a cell shows as lost: the first one shows nothing, and so does one with a splice mark.
fn loss(s: Units, c: Cell) -> u64
    ensures { result ≡ loss_of s c }
{
    if s.count == 0 {
        return 0; // no cell comes before the first
    }
    if c.splice {
        return 0;
    }
    figures::gap_loss(s.previous, c.counter)
}

fn begun(time: u64, lost: u64) -> Unit
    ensures { result ≡ begun_by time lost }
{
    Unit {
        least: time,
        greatest: time,
        packets: 1,
        lost,
        damaged: 0,
    }
}

fn joined(u: Unit, time: u64, lost: u64) -> Unit
    ensures { result ≡ joined_by u time lost }
{
    Unit {
        least: u.least.min(time),
        greatest: u.greatest.max(time),
        packets: u.packets.wrapping_add(1),
        lost: u.lost.wrapping_add(lost),
        ..u
    }
}

// A unit with one damaged cell more.
fn marked(u: Unit) -> Unit
    ensures { result ≡ marked_by u }
{
    Unit {
        damaged: u.damaged.wrapping_add(1),
        ..u
    }
}

// What is kept once the cell is in one of `count` units.
fn taken(s: Units, count: u64, counter: u64, lost: u64) -> Units
    ensures { result ≡ taken_into s count counter lost }
{
    Units {
        count,
        previous: counter,
        packets: s.packets.wrapping_add(1),
        lost: s.lost.wrapping_add(lost),
    }
}

// A cell that begins a unit.
fn begin(table: &mut Table, s: Units, c: Cell) -> Units
    ensures { Begun table.old s c result table.new }
{
    if MOST_UNITS as u64 <= s.count {
        return s;
    }
    let lost = loss(s, c);
    put_unit(table, s.count as usize, begun(c.time, lost));
    taken(s, s.count + 1, c.counter, lost)
}

// The number of the last unit, where the table has one.
fn last(s: Units) -> Option<usize>
    ensures { MatchOption result ((s.count ≡ 0) ⊎ (750 < s.count)) (λ j. (s.count ≡ j + 1) × (j < 750)) }
{
    if s.count == 0 || s.count > MOST_UNITS as u64 {
        return None;
    }
    Some((s.count - 1) as usize)
}

// A cell of the last unit.
fn join(table: &mut Table, s: Units, c: Cell) -> Units
    ensures { Joined table.old s c result table.new }
{
    let Some(j) = last(s) else {
        return s;
    };
    let lost = loss(s, c);
    let u = unit_at(table, j);
    put_unit(table, j, joined(u, c.time, lost));
    taken(s, s.count, c.counter, lost)
}

// A damaged cell, in the last unit: the state beside the table stays.
fn mark(table: &mut Table, s: Units)
    ensures { Marked table.old s table.new }
{
    if let Some(j) = last(s) {
        let u = unit_at(table, j);
        put_unit(table, j, marked(u));
    }
}

// Takes a cell of PID in, from the first on that is not damaged. One that would begin a 751st unit changes nothing.
pub fn add_cell(table: &mut Table, s: Units, c: Cell) -> Units
    ensures { Added table.old s c result table.new }
{
    if s.count == 0 {
        return begin(table, s, c);
    }
    if is_damaged(c.condition) { // it begins no unit, whatever its start mark
        mark(table, s);
        return s;
    }
    if c.start {
        return begin(table, s, c);
    }
    join(table, s, c)
}

// Whether a cell would begin a 751st unit.
pub fn is_full(s: Units, c: Cell) -> bool
    ensures { Full s c result }
{
    if s.count < MOST_UNITS as u64 {
        return false;
    }
    !is_damaged(c.condition) && c.start
}

// The row of unit j, as a record has it. Zeros past the table, and no Option: it cannot fail, and its caller asks for
// units that there are.
pub fn row(table: &Table, j: usize) -> UnitRow
    ensures { Row table.now j result }
{
    if MOST_UNITS <= j {
        return UnitRow {
            least: 0,
            greatest: 0,
            size: 0,
            packets: 0,
            lost: 0,
            damaged: 0,
        };
    }
    let u = unit_at(table, j);
    let packets = figures::low(u.packets);
    UnitRow {
        least: u.least,
        greatest: u.greatest,
        size: figures::low(184 * u64::from(packets)),
        packets,
        lost: figures::low(u.lost),
        damaged: figures::low(u.damaged),
    }
}
