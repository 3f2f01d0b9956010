// The record of what was fed, written into a lent buffer from the table of units and the luma words.
#![tactic(auto)]

ghost use Rattle.std.specs.Prelude.{◌≤◌, ◌<◌, length};
ghost use Rattle.rules.specs.Record.{record_length, scene_offset};
ghost use Rattle.sealing.specs.Contract.{UnitsWritten, ScenesWritten, RecordWritten};

use capture_units::Table;
use rules::Header;

// The rows of n units, after the header.
fn write_units(buffer: &mut [u8], table: &Table, n: usize)
    requires { scene_offset n ≤ length buffer.old }
    ensures { UnitsWritten table.now n buffer.old buffer.new }
{
    for j in 0..n {
        let at = 64 + 32 * j;
        let row = capture_units::row(table, j);
        record_writer::write_unit(buffer, at, row);
    }
}

// The rows of the first n scenes of the pictures, after those of the units: each scene goes up to the next start.
fn write_scenes(
    buffer: &mut [u8],
    luma: &luma_state::Words,
    units: usize,
    n: usize,
    pictures: usize,
    time: u64,
)
    requires { record_length units n ≤ length buffer.old }
    ensures { ScenesWritten luma.now pictures time units n buffer.old
        buffer.new }
{
    let mut start = 0;
    for j in 0..n {
        let at = 64 + 32 * (units + j);
        let next = luma_scenes::next_start(luma, pictures, time, start);
        let row = luma_scenes::scene_row(luma, start, next);
        record_writer::write_scene(buffer, at, row);
        start = next;
    }
}

// The whole record with the header h, whose counts say how many rows there are.
pub fn write_record(buffer: &mut [u8], table: &Table, luma: &luma_state::Words, h: Header)
    requires { (record_length h.units h.scenes ≤ length buffer.old)
        × (record_length h.units h.scenes < 4294967296) }
    ensures { RecordWritten table.now luma.now h buffer.old
        buffer.new }
{
    let units = h.units as usize;
    record_writer::write_header(buffer, h);
    write_units(buffer, table, units);
    write_scenes(
        buffer,
        luma,
        units,
        h.scenes as usize,
        h.pictures as usize,
        h.time as u64,
    );
}
