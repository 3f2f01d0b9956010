// Writing a record: its header, and rows at the places that the caller gives; every other byte of the buffer stands
// unaltered.
#![tactic(auto)]

ghost use Rattle.std.specs.Prelude.{◌≡◌, ◌++◌, ◌+◌, ◌*◌, ◌≤◌, ◌<◌, ◌^◌, length};
ghost use Rattle.rules.specs.Bytes.{bytes_of};
ghost use Rattle.rules.specs.Record.{record_length, header_bytes, unit_bytes, scene_bytes};
ghost use Rattle.rules.specs.Seal.{over};
ghost use Rattle.words.specs.Written.{written};

use rules::{Header, SceneRow, UnitRow};

// Four words from a place on.
fn put_four(s: &mut [u8], at: usize, a: u32, b: u32, c: u32, d: u32)
    requires { at + 16 ≤ length s.old }
    ensures { s.new
        ≡ written at (bytes_of 4 a ++ bytes_of 4 b ++ bytes_of 4 c ++ bytes_of 4 d) s.old }
{
    words::put32(s, at, a);
    words::put32(s, at + 4, b);
    words::put32(s, at + 8, c);
    words::put32(s, at + 12, d);
}

// The header, at the front.
pub fn write_header(buffer: &mut [u8], h: Header)
    requires { (64 ≤ length buffer.old) × (record_length h.units h.scenes < 2 ^ 32) }
    ensures { buffer.new ≡ over (header_bytes h) buffer.old }
{
    let scenes = 64 + 32 * h.units;
    let size = 64 + 32 * (h.units + h.scenes);
    put_four(buffer, 0, h.edition, size, h.units, 64);
    put_four(buffer, 16, h.scenes, scenes, h.width, h.height);
    put_four(buffer, 32, h.time, h.pid, h.pictures, h.frames);
    words::put32(buffer, 48, h.skipped);
    words::put32(buffer, 52, h.bad);
    words::put64(buffer, 56, h.index);
}

// A unit row, from a place on.
pub fn write_unit(buffer: &mut [u8], at: usize, row: UnitRow)
    requires { at + 32 ≤ length buffer.old }
    ensures { buffer.new ≡ written at (unit_bytes row) buffer.old }
{
    words::put64(buffer, at, row.least);
    words::put64(buffer, at + 8, row.greatest);
    put_four(
        buffer,
        at + 16,
        row.size,
        row.packets,
        row.lost,
        row.damaged,
    );
}

// A scene row, from a place on.
pub fn write_scene(buffer: &mut [u8], at: usize, row: SceneRow)
    requires { at + 32 ≤ length buffer.old }
    ensures { buffer.new ≡ written at (scene_bytes row) buffer.old }
{
    put_four(
        buffer,
        at,
        row.first,
        row.pictures,
        row.repeated,
        row.longest,
    );
    put_four(buffer, at + 16, row.score, row.peak, row.change, 0);
}
