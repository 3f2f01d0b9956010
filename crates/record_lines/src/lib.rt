// R-1: the lines of a record's sheet, of 100 columns and a line feed, put into a lent buffer.
// Each function that puts a text answers the place after it; every other byte of the buffer stays as it was.
#![tactic(auto)]

ghost use Rattle.std.specs.Prelude.{◌≡◌, ◌∷◌, [], ◌+◌, ◌-◌, ◌*◌, ◌^◌, ◌≤◌, ◌<◌, length, replicate};
ghost use Rattle.rules.specs.Bytes.{word32, All};
ghost use Rattle.rules.specs.Reading.{unit_at, scene_at};
ghost use Rattle.rules.specs.Digits.{decimal, hex_in};
ghost use Rattle.record_lines.specs.Put.{Put, Fits, lines_to};
ghost use Rattle.rules.specs.Sheet.{aligned, columns, ending, header_line, unit_line, scene_line, blank_line};

use record_text::put_text;
use rules::{Header, SceneRow, UnitRow};

// So many spaces.
fn put_spaces(buffer: &mut [u8], at: usize, n: usize) -> usize
    requires { at + n ≤ length buffer.old }
    ensures { Put at n (replicate n 32) buffer.old result buffer.new }
{
    let end = at + n;
    buffer[at..end].fill(b' ');
    end
}

// A number, right-aligned.
fn put_number(buffer: &mut [u8], at: usize, width: usize, n: u64) -> usize
    requires { (1 ≤ width) × (n < 10 ^ width) × (at + width ≤ length buffer.old) }
    ensures { Put at width (aligned width (decimal n)) buffer.old result buffer.new }
{
    let mut digits = [0u8; 20];
    let k = io::decimal(n, &mut digits);
    let start = put_spaces(buffer, at, width - k);
    put_text(buffer, start, &digits[..k])
}

// Numbers, each right-aligned in so many columns.
fn put_numbers(buffer: &mut [u8], at: usize, width: usize, numbers: &[u64]) -> usize
    requires each_fits { (1 ≤ width) × All (Fits width) numbers.now }
    requires room { at + width * length numbers.now ≤ length buffer.old }
    ensures { Put at (width * length numbers.now) (columns width numbers.now)
        buffer.old result buffer.new }
{
    let mut end = at;
    for n in numbers {
        end = put_number(buffer, end, width, *n);
    }
    end
}

// A number's 16 hexadecimal digits, right-aligned in 21 columns.
fn put_bits(buffer: &mut [u8], at: usize, n: u64) -> usize
    requires { at + 21 ≤ length buffer.old }
    ensures { Put at 21 (aligned 21 (hex_in 16 n)) buffer.old result buffer.new }
{
    let start = put_spaces(buffer, at, 4);
    record_text::put_hex(buffer, start, n)
}

// A line's end after so many columns.
fn end_line(buffer: &mut [u8], at: usize, used: usize) -> usize
    requires { (used ≤ 100) × (at + (101 - used) ≤ length buffer.old) }
    ensures { Put at (101 - used) (ending used) buffer.old result buffer.new }
{
    let last = put_spaces(buffer, at, 100 - used);
    put_text(buffer, last, b"\n")
}

// Line 1: W, H, N and the index bits.
pub fn header_line(buffer: &mut [u8], at: usize, h: Header) -> usize
    requires { at + 101 ≤ length buffer.old }
    ensures { Put at 101 (header_line h) buffer.old result buffer.new }
{
    let figures = [h.width as u64, h.height as u64, h.pictures as u64];
    let first = put_text(buffer, at, b" ");
    let index = put_numbers(buffer, first, 11, &figures);
    let end = put_bits(buffer, index, h.index);
    end_line(buffer, end, 55)
}

// The line of unit row j, with its damaged cells where the record's edition knows damage.
fn unit_line(buffer: &mut [u8], at: usize, known: bool, j: u32, u: UnitRow) -> usize
    requires { at + 101 ≤ length buffer.old }
    ensures { Put at 101 (unit_line known j u) buffer.old result buffer.new }
{
    let first = put_text(buffer, at, b"U");
    let second = put_numbers(buffer, first, 11, &[j as u64]);
    let third = put_numbers(buffer, second, 21, &[u.least, u.greatest]);
    let counts = [u.size as u64, u.packets as u64, u.lost as u64];
    let end = put_numbers(buffer, third, 11, &counts);
    if known {
        let last = put_numbers(buffer, end, 11, &[u.damaged as u64]);
        return end_line(buffer, last, 98);
    }
    end_line(buffer, end, 87)
}

// The line of scene row j.
fn scene_line(buffer: &mut [u8], at: usize, j: u32, s: SceneRow) -> usize
    requires { at + 101 ≤ length buffer.old }
    ensures { Put at 101 (scene_line j s) buffer.old result buffer.new }
{
    let figures = [
        j as u64,
        s.first as u64,
        s.pictures as u64,
        s.repeated as u64,
        s.longest as u64,
        s.score as u64,
        s.peak as u64,
        s.change as u64,
    ];
    let first = put_text(buffer, at, b"S");
    let end = put_numbers(buffer, first, 11, &figures);
    end_line(buffer, end, 89)
}

// A line for each of the units. It and the two below are not one function that takes a closure for line j:
// its contract would have to say what each call puts, and is longer than the three loops.
pub fn put_units(buffer: &mut [u8], at: usize, bytes: &[u8], units: usize, known: bool) -> usize
    requires rows_there { (units ≤ 750) × (64 + 32 * units ≤ length bytes.now) }
    requires room { at + 101 * units ≤ length buffer.old }
    ensures { Put at (101 * units) (lines_to units (λ j. unit_line known j (unit_at bytes.now j)))
        buffer.old result buffer.new }
{
    let mut end = at;
    for j in 0..units {
        let row = record_reader::unit_row(bytes, j);
        end = unit_line(buffer, end, known, j as u32, row);
    }
    end
}

// A line for each of the scenes, of a record of so many units.
pub fn put_scenes(buffer: &mut [u8], at: usize, bytes: &[u8], units: usize, scenes: usize) -> usize
    requires counts { (units ≡ word32 bytes.now 8) × (scenes ≤ 250) }
    requires rows_there { 64 + 32 * (units + scenes) ≤ length bytes.now }
    requires room { at + 101 * scenes ≤ length buffer.old }
    ensures { Put at (101 * scenes) (lines_to scenes (λ j. scene_line j (scene_at bytes.now j)))
        buffer.old result buffer.new }
{
    let mut end = at;
    for j in 0..scenes {
        let row = record_reader::scene_row(bytes, units, j);
        end = scene_line(buffer, end, j as u32, row);
    }
    end
}

// So many blank lines.
pub fn put_blanks(buffer: &mut [u8], at: usize, n: usize) -> usize
    requires { at + 101 * n ≤ length buffer.old }
    ensures { Put at (101 * n) (lines_to n (λ j. blank_line)) buffer.old result buffer.new }
{
    let mut end = at;
    for _ in 0..n {
        end = end_line(buffer, end, 0);
    }
    end
}
