// What programs print of an answer and of bytes. Each line, and each run of digits, is made in a buffer and written at
// once to standard output.
#![tactic(auto)]

ghost use Rattle.std.specs.Prelude.{◌≡◌, ◌+◌, ◌*◌, ◌≤◌, ◌<◌, length};
ghost use Rattle.io.specs.Counts.{IsPrefixLen};
ghost use Rattle.rules.specs.Seal.{over};
ghost use Rattle.program_text.specs.Text.{answer_text, bits_text, hex_text};
ghost use Rattle.program_text.specs.Text.{digit as digit_of};

use record_text::put_line;
use rules::Refusal;

// An answer, at the front of the line. It is no `print!`, as no contract says what that prints, and `bytes` does.
fn put_answer(
    line: &mut [u8],
    done: &[u8],
    refused: &[u8],
    a: Result<u64, Refusal>,
    end: &[u8],
) -> usize
    requires room_if_done { length done.now + 42 + length end.now ≤ length line.old }
    requires room_if_refused { length refused.now + 42 + length end.now ≤ length line.old }
    ensures size { result ≡ length (answer_text done.now refused.now a end.now) }
    ensures prefix { IsPrefixLen result line.new }
    ensures bytes { line.new ≡ over (answer_text done.now refused.now a end.now) line.old }
{
    match a {
        Ok(n) => put_line(line, done, &[n], end),
        Err(e) => put_line(line, refused, &[e.number, e.place], end),
    }
}

// Prints an answer: `done` and the length, or `refused`, the number and the place, and then `end`.
pub fn print_answer<P: Print>(
    rt: &P,
    done: &[u8],
    refused: &[u8],
    a: Result<u64, Refusal>,
    end: &[u8],
) -> std::io::Result<()>
    requires short_done { length done.now ≤ 16 }
    requires short_refused { length refused.now ≤ 16 }
    requires short_end { length end.now ≤ 1 }
{
    let mut line = [0u8; 64];
    let n = put_answer(&mut line, done, refused, a, end);
    rt.write_all(&line[..n])
}

// A word, 16 hexadecimal digits with capital letters and an end, at the front of the line.
fn put_bits(line: &mut [u8], word: &[u8], bits: u64, end: &[u8]) -> usize
    requires { length word.now + 17 + length end.now ≤ length line.old }
    ensures size { result ≡ length (bits_text word.now bits end.now) }
    ensures prefix { IsPrefixLen result line.new }
    ensures bytes { line.new ≡ over (bits_text word.now bits end.now) line.old }
{
    let start = record_text::put_text(line, 0, word);
    let digits = record_text::put_hex(line, start, bits);
    record_text::put_text(line, digits, end)
}

// Prints a word and a float's bits, and then a line feed.
pub fn print_bits<P: Print>(rt: &P, word: &[u8], bits: u64) -> std::io::Result<()>
    requires { length word.now ≤ 16 }
{
    let mut line = [0u8; 64];
    let n = put_bits(&mut line, word, bits, b"\n");
    rt.write_all(&line[..n])
}

// The hexadecimal digit of a number below 16, in lower case.
fn digit(d: u8) -> u8
    requires { d < 16 }
    ensures { result ≡ digit_of d }
{
    if d < 10 { b'0' + d } else { b'a' - 10 + d }
}

// Each byte as two hexadecimal digits.
fn put_hex(text: &mut [u8], bytes: &[u8]) -> usize
    requires { 2 * length bytes.now ≤ length text.old }
    ensures size { result ≡ 2 * length bytes.now }
    ensures prefix { IsPrefixLen result text.new }
    ensures bytes { text.new ≡ over (hex_text bytes.now) text.old }
{
    for (i, byte) in bytes.iter().enumerate() {
        text[2 * i] = digit(*byte / 16);
        text[2 * i + 1] = digit(*byte % 16);
    }
    2 * bytes.len()
}

// Prints each byte as two hexadecimal digits, in lower case, in runs of at most 8,192 bytes.
pub fn print_hex<P: Print>(rt: &P, bytes: &[u8]) -> std::io::Result<()> {
    let mut text = [0u8; 16384];
    for run in bytes.chunks(8192) {
        let n = put_hex(&mut text, run);
        rt.write_all(&text[..n])?;
    }
    Ok(())
}
