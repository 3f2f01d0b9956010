// Units of rows in order: counted, made row by row, and written.
#![tactic(auto)]

ghost use Rattle.std.specs.Prelude.{◌≡◌, ◌+◌, ◌*◌, ◌%◌, ◌≤◌, ◌<◌, length};
ghost use Rattle.rules.specs.Rtp.{missing_at, rtp_units_in};
ghost use Rattle.rtp_order.specs.Order.{Stayed};
ghost use Rattle.rtp_units.specs.Units.{joined as rule_joined, ends_at, told, Counts, Front, Told};

mod lists;

pub use lists::Lists;
use rules::{Refusal, UnitRow};

fn number(row: u64) -> usize
    ensures { (result ≡ row % 4096) × (result < 4096) }
{
    (row % 4096) as usize
}

// How many places are missing just before row i, in order.
fn missing(rows: &[u64], i: usize) -> u64
    requires { i < length rows.now }
    ensures { result ≡ missing_at rows.now i }
{
    if i == 0 {
        return 0;
    }
    let last = rows[i - 1] / 4096;
    (rows[i] / 4096).saturating_sub(last + 1)
}

// Whether row i, in order, ends a unit.
fn ends(marker: &[u8], rows: &[u64], i: usize) -> bool
    requires { (i < length rows.now) × Stayed (length marker.now) rows.now }
    ensures { result ≡ ends_at marker.now rows.now i }
{
    marker[number(rows[i])] != 0 || i + 1 == rows.len()
}

// How many units the rows in order have.
fn count_units(marker: &[u8], rows: &[u64]) -> usize
    requires { Stayed (length marker.now) rows.now }
    ensures { (result ≤ length rows.now) × Counts marker.now rows.now result }
{
    let mut units = 0;
    for i in 0..rows.len() {
        if ends(marker, rows, i) {
            units += 1;
        }
    }
    units
}

const NO_UNIT: UnitRow = UnitRow {
    least: 0,
    greatest: 0,
    size: 0,
    packets: 0,
    lost: 0,
    damaged: 0,
};

// A unit with one row more.
fn joined(u: UnitRow, time: u64, size: u16, missing: u64) -> UnitRow
    requires { (u.size + size < 4294967296) × (u.packets + 1 < 4294967296) × (u.lost + missing < 4294967296) }
    ensures { result ≡ rule_joined u time size missing }
{
    UnitRow {
        least: if u.packets == 0 {
            time
        } else {
            u.least.min(time)
        },
        greatest: u.greatest.max(time),
        size: u.size + u32::from(size),
        packets: u.packets + 1,
        lost: u.lost + missing as u32,
        damaged: 0,
    }
}

// The unit rows, at the front of a buffer that has room for them.
fn write_units(lists: &Lists, rows: &[u64], buffer: &mut [u8])
    requires stayed { (length rows.now ≤ 4096) × Stayed (length lists.now.marker.now) rows.now }
    requires room { 32 * length (rtp_units_in (told lists.now) rows.now) ≤ length buffer.old }
    ensures { Front (rtp_units_in (told lists.now) rows.now) buffer.old buffer.new }
{
    let Lists { marker, time, size } = *lists;
    let mut unit = NO_UNIT;
    let mut j = 0;
    for i in 0..rows.len() {
        let k = number(rows[i]);
        unit = joined(unit, time[k], size[k], missing(rows, i));
        if ends(marker, rows, i) {
            record_writer::write_unit(buffer, 32 * j, unit);
            unit = NO_UNIT;
            j += 1;
        }
    }
}

// The unit rows of rows in order, if the buffer has room for them: how many they are, or 15.
pub fn put_units(lists: &Lists, rows: &[u64], buffer: &mut [u8]) -> Result<u64, Refusal>
    requires stayed { (length rows.now ≤ 4096) × Stayed (length lists.now.marker.now) rows.now }
    ensures { Told (rtp_units_in (told lists.now) rows.now) buffer.old result buffer.new }
{
    let units = count_units(lists.marker, rows);
    let needed = 32 * units;
    if buffer.len() < needed {
        return Err(Refusal::no_room(needed as u64));
    }
    write_units(lists, rows, buffer);
    Ok(units as u64)
}
