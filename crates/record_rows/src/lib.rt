// All rows of a record in one call: the record is tested once, and its rows are then read one after the other into
// rows that the caller lends. A lent row is the row's figures, each a number of 64 bits.
#![tactic(auto)]

ghost use Rattle.std.specs.Prelude.{◌≡◌, ◌+◌, ◌*◌, ◌≤◌, length};
ghost use Rattle.rules.specs.Bytes.{word32 as rule32};
ghost use Rattle.record_rows.specs.Rows.{unit_figures, scene_figures, unit_row, scene_row, rows_over};
ghost use Rattle.record_rows.specs.Rows.{UnitsRead, ScenesRead};

use rules::{Refusal, SceneRow, UnitRow};

// How many figures a row has.
pub const UNIT_FIGURES: usize = 6;

pub const SCENE_FIGURES: usize = 7;

// A unit row's figures, in document 01's order.
pub fn unit_figures(u: UnitRow) -> [u64; UNIT_FIGURES]
    ensures { result ≡ unit_figures u }
{
    [
        u.least,
        u.greatest,
        u.size as u64,
        u.packets as u64,
        u.lost as u64,
        u.damaged as u64,
    ]
}

// A scene row's figures, in document 01's order.
pub fn scene_figures(s: SceneRow) -> [u64; SCENE_FIGURES]
    ensures { result ≡ scene_figures s }
{
    [
        s.first as u64,
        s.pictures as u64,
        s.repeated as u64,
        s.longest as u64,
        s.score as u64,
        s.peak as u64,
        s.change as u64,
    ]
}

// The unit rows of a record that was accepted and has so many, over the first of the lent rows.
fn put_units(bytes: &[u8], units: usize, rows: &mut [[u64; UNIT_FIGURES]])
    requires { (64 + 32 * units ≤ length bytes.now) × (units ≤ length rows.old) }
    ensures { rows.new ≡ rows_over units (unit_row bytes.now) rows.old }
{
    for j in 0..units {
        rows[j] = unit_figures(record_reader::unit_row(bytes, j));
    }
}

// The scene rows of a record that was accepted and has so many units and scenes, over the first of the lent rows.
// One function for both kinds was tried: its closures need clauses of their own, longer than the loop that they
// replace.
fn put_scenes(bytes: &[u8], units: usize, scenes: usize, rows: &mut [[u64; SCENE_FIGURES]])
    requires { (units ≡ rule32 bytes.now 8) × (64 + 32 * (units + scenes) ≤ length bytes.now) ×
        (scenes ≤ length rows.old) }
    ensures { rows.new ≡ rows_over scenes (scene_row bytes.now) rows.old }
{
    for j in 0..scenes {
        rows[j] = scene_figures(record_reader::scene_row(bytes, units, j));
    }
}

// All unit rows of a record. Answers their number, or refuses: 16, 17 or 18, then 15 where fewer rows are lent, its
// place the number of rows needed. Rows past the record's are as they were, and after a refusal all are.
pub fn read_units(bytes: &[u8], rows: &mut [[u64; UNIT_FIGURES]]) -> Result<u64, Refusal>
    ensures { UnitsRead bytes.now rows.old result rows.new }
{
    let counts = record_reader::open(bytes)?;
    if rows.len() < counts.units {
        return Err(Refusal::no_room(counts.units as u64));
    }
    put_units(bytes, counts.units, rows);
    Ok(counts.units as u64)
}

// All scene rows of a record, likewise: two functions, since the lent rows of each kind have a type of their own.
pub fn read_scenes(bytes: &[u8], rows: &mut [[u64; SCENE_FIGURES]]) -> Result<u64, Refusal>
    ensures { ScenesRead bytes.now rows.old result rows.new }
{
    let counts = record_reader::open(bytes)?;
    if rows.len() < counts.scenes {
        return Err(Refusal::no_room(counts.scenes as u64));
    }
    put_scenes(bytes, counts.units, counts.scenes, rows);
    Ok(counts.scenes as u64)
}
