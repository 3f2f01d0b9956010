// Feeding a side from a file or from standard input, until its end or until it is refused:
// what comes later is ignored.
use rules::Refusal;
use std::fs;
use std::io::{self, Read};
use std::rt::Files;

// Says on standard error that a side cannot be read, and why.
fn fail<R: Eprint>(rt: &R, name: &str, error: &io::Error) -> io::Result<()> {
    if name == "-" {
        return record_input::fail(rt, "cannot read standard input", error);
    }
    record_input::fail_of(rt, "cannot read ", name, error)
}

// Gives what is read to `feed`, piece by piece; answers whether the last byte was seen. A proved loop has to end,
// and nothing says that a file does: the turns are counted up to a number that no run reaches. The piece is lent,
// so that no turn has to clear one.
fn feed_from<S: Read, F: FnMut(&[u8]) -> Result<u64, Refusal>>(
    source: &mut S,
    piece: &mut [u8],
    mut feed: F,
) -> io::Result<bool>
    requires { F.IsAlwaysCallable feed }
{
    for _ in 0..u64::MAX {
        let n = source.read(piece)?;
        if n == 0 || feed(&piece[..n]).is_err() {
            return Ok(true);
        }
    }
    Ok(false)
}

// The same of the file or the input of that name.
fn feed_named<R: Files + Input, F: FnMut(&[u8]) -> Result<u64, Refusal>>(
    rt: &R,
    name: &str,
    piece: &mut [u8],
    feed: F,
) -> io::Result<bool>
    requires { F.IsAlwaysCallable feed }
{
    if name == "-" {
        return feed_from(&mut rt.reader(), piece, feed);
    }
    feed_from(&mut fs::open(rt, name)?, piece, feed)
}

// Gives a whole side to `feed`; answers whether it could be read, and otherwise standard error says why.
pub fn feed_whole<R: Files + Input + Eprint, F: FnMut(&[u8]) -> Result<u64, Refusal>>(
    rt: &R,
    name: &str,
    piece: &mut [u8],
    feed: F,
) -> io::Result<bool>
    requires { F.IsAlwaysCallable feed }
{
    match feed_named(rt, name, piece, feed) {
        Ok(whole) => Ok(whole),
        Err(error) => {
            fail(rt, name, &error)?;
            Ok(false)
        }
    }
}
