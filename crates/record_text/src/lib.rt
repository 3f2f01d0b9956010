// The text of document 01's lines, made into a lent buffer: each function answers how many bytes it put at the
// front; the rest of the buffer stays as it was.
#![tactic(auto)]

ghost use Rattle.std.specs.Prelude.{◌≡◌, ◌∷◌, ◌+◌, ◌*◌, ◌≤◌, length};
ghost use Rattle.io.specs.Counts.{IsPrefixLen};
ghost use Rattle.rules.specs.Seal.{over};
ghost use Rattle.words.specs.Written.{written};
ghost use Rattle.rules.specs.Digits.{hex_in};
ghost use Rattle.record_text.specs.Lines.{field, fields, line_of, sample_line, unit_line, scene_line, refused_line};

use rules::{Header, SceneRow, UnitRow};

// Some bytes at a place; the answer is the place after them.
pub fn put_text(buffer: &mut [u8], at: usize, text: &[u8]) -> usize
    requires { at + length text.now ≤ length buffer.old }
    ensures { (result ≡ at + length text.now)
        × (buffer.new ≡ written at text.now buffer.old) }
{
    // No `copy_from_slice`: the archive for C would need `memmove` from outside.
    for j in 0..text.len() {
        buffer[at + j] = text[j];
    }
    at + text.len()
}

// A space and a number.
fn put_field(buffer: &mut [u8], at: usize, n: u64) -> usize
    requires { at + 21 ≤ length buffer.old }
    ensures { (result ≡ at + length (field n))
        × (result ≤ at + 21)
        × (buffer.new ≡ written at (field n) buffer.old) }
{
    buffer[at] = b' ';
    let mut digits = [0u8; 20];
    let k = io::decimal(n, &mut digits);
    put_text(buffer, at + 1, &digits[..k])
}

// Each number with a space before it.
pub fn put_fields(buffer: &mut [u8], at: usize, numbers: &[u64]) -> usize
    requires { at + 21 * length numbers.now ≤ length buffer.old }
    ensures { (result ≡ at + length (fields numbers.now))
        × (result ≤ at + 21 * length numbers.now)
        × (buffer.new ≡ written at (fields numbers.now) buffer.old) }
{
    let mut end = at;
    for n in numbers {
        end = put_field(buffer, end, *n);
    }
    end
}

// A space and 16 hexadecimal digits.
pub fn put_hex(buffer: &mut [u8], at: usize, n: u64) -> usize
    requires { at + 17 ≤ length buffer.old }
    ensures { (result ≡ at + 17) × (buffer.new ≡ written at (32 ∷ hex_in 16 n) buffer.old) }
{
    buffer[at] = b' ';
    let mut digits = [0u8; 16];
    let k = io::hex(n, 16, &mut digits);
    digits.make_ascii_uppercase();
    put_text(buffer, at + 1, &digits[..k])
}

// A word, each number with a space before it and an end, at the buffer's front.
pub fn put_line(buffer: &mut [u8], word: &[u8], numbers: &[u64], end: &[u8]) -> usize
    requires room { length word.now + 21 * length numbers.now + length end.now ≤ length buffer.old }
    ensures size { result ≡ length (line_of word.now numbers.now end.now) }
    ensures prefix { IsPrefixLen result buffer.new }
    ensures bytes { buffer.new ≡ over (line_of word.now numbers.now end.now) buffer.old }
{
    let start = put_text(buffer, 0, word);
    let figures = put_fields(buffer, start, numbers);
    put_text(buffer, figures, end)
}

// Line 1: the header's figures.
pub fn sample_line(buffer: &mut [u8], h: Header) -> usize
    requires { 200 ≤ length buffer.old }
    ensures size { result ≡ length (sample_line h) }
    ensures prefix { IsPrefixLen result buffer.new }
    ensures bytes { buffer.new ≡ over (sample_line h) buffer.old }
{
    let numbers = [
        h.width as u64,
        h.height as u64,
        h.time as u64,
        h.pid as u64,
        h.pictures as u64,
        h.frames as u64,
        h.skipped as u64,
        h.bad as u64,
    ];
    let word = put_text(buffer, 0, b"sample");
    let figures = put_fields(buffer, word, &numbers);
    let index = put_hex(buffer, figures, h.index);
    put_text(buffer, index, b"\n")
}

// The line of unit row j.
pub fn unit_line(buffer: &mut [u8], j: u64, u: UnitRow) -> usize
    requires { 200 ≤ length buffer.old }
    ensures size { result ≡ length (unit_line j u) }
    ensures prefix { IsPrefixLen result buffer.new }
    ensures bytes { buffer.new ≡ over (unit_line j u) buffer.old }
{
    let numbers = [
        j,
        u.least,
        u.greatest,
        u.size as u64,
        u.packets as u64,
        u.lost as u64,
    ];
    put_line(buffer, b"unit", &numbers, b"\n")
}

// The line of scene row j.
pub fn scene_line(buffer: &mut [u8], j: u64, s: SceneRow) -> usize
    requires { 200 ≤ length buffer.old }
    ensures size { result ≡ length (scene_line j s) }
    ensures prefix { IsPrefixLen result buffer.new }
    ensures bytes { buffer.new ≡ over (scene_line j s) buffer.old }
{
    let numbers = [
        j,
        s.first as u64,
        s.pictures as u64,
        s.repeated as u64,
        s.longest as u64,
        s.score as u64,
        s.peak as u64,
        s.change as u64,
    ];
    put_line(buffer, b"scene", &numbers, b"\n")
}

// The line of a refusal.
pub fn refused_line(buffer: &mut [u8], number: u64) -> usize
    requires { 200 ≤ length buffer.old }
    ensures size { result ≡ length (refused_line number) }
    ensures prefix { IsPrefixLen result buffer.new }
    ensures bytes { buffer.new ≡ over (refused_line number) buffer.old }
{
    put_line(buffer, b"refused", &[number], b"\n")
}
