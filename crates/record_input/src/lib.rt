// Reading a record from standard input, for the programs that print one.
#![tactic(auto)]

ghost use Rattle.std.specs.Prelude.{◌<◌, ◌≤◌, length, take, IfOk};
ghost use Rattle.std.specs.Io.KnownBytes.{Consumes, IsAtEnd};

use arrayvec::ArrayString;
use std::fmt::Write;
use std::io::{self, Read};

// Reads until the input ends or the buffer is full, and answers how many bytes it read: those that the input had next,
// and fewer than the buffer holds only where the input is at its end. A read that fails is no end of the input, and is
// answered as an error.
pub fn read_from<S: Read>(source: &mut S, input: &mut [u8]) -> io::Result<usize>
    ensures in_bounds { IfOk result (λ n. n ≤ length input.new) }
    ensures bytes { IfOk result (λ n. Consumes (S.remaining source.old) (S.remaining source.new) (take n input.new)) }
    ensures end { IfOk result (λ n. n < length input.new → IsAtEnd (S.remaining source.new)) }
{
    let mut end: usize = 0;
    // No `for`: how many reads it takes is not known before. The library reads until the end to a `Vec` alone.
    while end < input.len() {
        match source.read(&mut input[end..])? {
            0 => break,
            n => end += n,
        }
    }
    Ok(end)
}

// The same of standard input. The longest record has 32,064 bytes: of longer input 65,536 are enough to refuse it.
pub fn read<R: Input>(rt: &R, input: &mut [u8]) -> io::Result<usize>
    ensures { IfOk result (λ n. n ≤ length input.new) }
{
    read_from(&mut rt.reader(), input)
}

// The system's words for an error, without its number.
fn reason(text: &str) -> &str {
    match text.split_once(" (os error ") {
        Some((words, _)) => words,
        None => text,
    }
}

// Writes a line to standard error: what failed, the name that it is about, a colon and the reason. The library's text
// of an error has at most 256 bytes beside the number, so it fits; one that did not would be written with its number.
pub fn fail_of<R: Eprint>(rt: &R, what: &str, name: &str, error: &io::Error) -> io::Result<()> {
    let mut text = ArrayString::<512>::new();
    match write!(text, "{error}") {
        Ok(()) => eprintln!(rt; "{what}{name}: {}", reason(text.as_str())),
        Err(_) => eprintln!(rt; "{what}{name}: {error}"),
    }
}

// The same where what failed has no name.
pub fn fail<R: Eprint>(rt: &R, what: &str, error: &io::Error) -> io::Result<()> {
    fail_of(rt, what, "", error)
}
