// The program's words.
ghost use Rattle.std.specs.Prelude.{◌≤◌, length};

use rules::Opening;
use std::env::{Env, FillError};

// A 32-bit number in decimal; none for a word that is none, or has a sign, which `parse` would take.
fn decimal(word: &[u8]) -> Option<u32> {
    let text = str::from_utf8(word).ok()?;
    if text.starts_with('+') {
        return None;
    }
    text.parse().ok()
}

// Whether there is a word of this number, the program's name being word 0.
fn is_there<E: Env>(rt: &E, i: usize) -> bool {
    !matches!(rt.arg(i, &mut [0u8; 1]), Err(FillError::NotPresent))
}

// How many words there are, the program's name among them, as far as ten.
pub fn count<E: Env>(rt: &E) -> usize
    ensures { result ≤ 10 }
{
    (0..10).take_while(|i| is_there(rt, *i)).count()
}

// A word, put into the buffer; an empty one where it is missing or too long for the buffer.
pub fn word_at<'a, E: Env>(rt: &E, i: usize, buffer: &'a mut [u8]) -> &'a [u8]
    ensures { length result.now ≤ length buffer.old }
{
    let n = rt.arg(i, buffer).unwrap_or(0);
    &buffer[..n]
}

fn number_at<E: Env>(rt: &E, i: usize) -> Option<u32> {
    decimal(word_at(rt, i, &mut [0u8; 4096]))
}

// The edition of the rules: the eighth word, and 1 where it is missing.
fn edition_at<E: Env>(rt: &E, words: usize) -> Option<u32> {
    if words < 9 { Some(1) } else { number_at(rt, 8) }
}

// What W, H, D, PID and EDITION say, where all are numbers; `words` is how many words there are, the program's name
// among them.
pub fn opening<E: Env>(rt: &E, words: usize) -> Option<Opening> {
    Some(Opening {
        width: number_at(rt, 1)?,
        height: number_at(rt, 2)?,
        time: number_at(rt, 3)?,
        pid: number_at(rt, 4)?,
        edition: edition_at(rt, words)?,
    })
}
