// Runs a script of calls from standard input, and prints a line for each: what a call answered and, of a seal, its
// whole buffer afterwards.
//
// The script: five 32-bit little-endian words W, H, d, PID and the rule edition, then calls. `C` or `L`, a 32-bit
// length and as many bytes: a feed of that side. `S` and a 32-bit length: a seal into a buffer of so many bytes, each
// 0xA5 before. `I`: the index, whose bits are printed. `R` and 32-bit numbers a and b: the repeats of a passage.
// Anything else, or the end of the script inside a call, ends the run.
#![tactic(auto)]

ghost use Rattle.std.specs.Prelude.{◌≡◌, ◌≤◌};

use rules::Opening;
use sample::Sample;
use std::io::{self, Read};

// The opening; answers whether its words were there.
fn run_opening<P: Print, S: Read>(rt: &P, source: &mut S, sample: &mut Sample) -> io::Result<bool> {
    let mut words = [0u8; 20];
    if record_input::read_from(source, &mut words)? < 20 {
        return Ok(false);
    }
    let o = Opening {
        width: words::word32(&words, 0),
        height: words::word32(&words, 4),
        time: words::word32(&words, 8),
        pid: words::word32(&words, 12),
        edition: words::word32(&words, 16),
    };
    let a = sample.open(o);
    match a {
        Ok(_) => rt.write_all(b"open ok\n")?,
        Err(_) => program_text::print_answer(rt, b"", b"open refused", a, b"\n")?,
    }
    Ok(true)
}

// A seal, where its buffer is not too long.
fn run_seal<R: Print + Eprint>(rt: &R, sample: &Sample, length: u32) -> io::Result<bool> {
    let mut space = [0xA5u8; 65536];
    let Some(buffer) = space.get_mut(..length as usize) else {
        eprintln!(rt; "replay_main: a buffer above 65,536 bytes ends the run")?;
        return Ok(false);
    };
    let a = sample.seal(buffer);
    program_text::print_answer(rt, b"seal", b"seal refused", a, b" ")?;
    program_text::print_hex(rt, buffer)?;
    rt.write_all(b"\n")?;
    Ok(true)
}

fn run_index<P: Print>(rt: &P, sample: &Sample) -> io::Result<bool> {
    match sample.index() {
        Ok(i) => program_text::print_bits(rt, b"index", index::index_bits(i))?,
        Err(e) => program_text::print_answer(rt, b"", b"index refused", Err(e), b"\n")?,
    }
    Ok(true)
}

fn run_repeats<P: Print, S: Read>(rt: &P, source: &mut S, sample: &Sample) -> io::Result<bool> {
    let mut ends = [0u8; 8];
    if record_input::read_from(source, &mut ends)? < 8 {
        return Ok(false);
    }
    let a = words::word32(&ends, 0);
    let b = words::word32(&ends, 4);
    let answer = sample.repeats(a, b);
    program_text::print_answer(rt, b"repeats", b"repeats refused", answer, b"\n")?;
    Ok(true)
}

// A feed: reads a piece of so many bytes into the front of the lent one, of 1,048,576, and gives it to `feed`, which
// prints its line. False: it is longer, or the script ends inside it.
fn run_feed<E: Eprint, S: Read, F: FnOnce(&[u8]) -> io::Result<()>>(
    rt: &E,
    source: &mut S,
    piece: &mut [u8],
    length: u32,
    feed: F,
) -> io::Result<bool>
    requires { F.IsAlwaysCallable feed }
{
    let Some(read) = piece.get_mut(..length as usize) else {
        eprintln!(rt; "replay_main: a piece above 1,048,576 bytes ends the run")?;
        return Ok(false);
    };
    if record_input::read_from(source, read)? < read.len() {
        return Ok(false);
    }
    feed(read)?;
    Ok(true)
}

// The next call; answers whether there was one.
fn run_call<R: Print + Eprint, S: Read>(
    rt: &R,
    source: &mut S,
    sample: &mut Sample,
    piece: &mut [u8],
) -> io::Result<bool> {
    let mut kind = [0u8; 1];
    if record_input::read_from(source, &mut kind)? < 1 {
        return Ok(false);
    }
    match kind[0] {
        b'I' => return run_index(rt, sample),
        b'R' => return run_repeats(rt, source, sample),
        _ => {}
    }
    let mut word = [0u8; 4];
    if record_input::read_from(source, &mut word)? < 4 {
        return Ok(false);
    }
    let length = words::word32(&word, 0);
    match kind[0] {
        b'C' => run_feed(rt, source, piece, length, |read| {
            let a = sample.feed_capture(read);
            program_text::print_answer(rt, b"capture", b"capture refused", a, b"\n")
        }),
        b'L' => run_feed(rt, source, piece, length, |read| {
            let a = sample.feed_luma(read);
            program_text::print_answer(rt, b"luma", b"luma refused", a, b"\n")
        }),
        b'S' => run_seal(rt, sample, length),
        _ => Ok(false),
    }
}

// A proved loop has to end, and nothing says that a script does: the turns are counted up to a
// number that no run reaches.
fn main(rt: HostRuntime) -> io::Result<()> {
    let mut source = rt.reader();
    let mut sample = Sample::new();
    let mut piece = [0u8; 1048576];
    if !run_opening(&rt, &mut source, &mut sample)? {
        return Ok(());
    }
    for _ in 0..u64::MAX {
        if !run_call(&rt, &mut source, &mut sample, &mut piece)? {
            return Ok(());
        }
    }
    Ok(())
}
