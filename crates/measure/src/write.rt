// Writing the record: to RECORD.part, which is renamed to RECORD once it is whole. So RECORD is missing or whole
// wherever a run is interrupted. What exists already under one of the two names is left alone.
ghost use Rattle.std.specs.Prelude.{◌≡◌, ◌<◌, ◌≤◌, ◌++◌, ◌⊎◌, length, codes, MatchOption};

use arrayvec::ArrayString;
use std::fs::{self, OpenFile, OpenOptions};
use std::io::{self, ErrorKind, Write};
use std::rt::Files;

// With `.part` and the 0 that ends a path, the longest RECORD fills 4,096 bytes.
const LONGEST_NAME: usize = 4090;

// Why a step of writing is not done.
#[derive(Drop)]
enum Failure {
    Taken,
    Io(io::Error),
}

impl From<io::Error> for Failure {
    fn from(error: io::Error) -> Failure {
        Failure::Io(error)
    }
}

// Says on standard error why RECORD is not written.
fn fail<R: Eprint>(rt: &R, failure: Failure, name: &str) -> io::Result<()> {
    match failure {
        Failure::Taken => eprintln!(rt;
            "{name}: exists already, and is left alone; remove it, or choose another RECORD"
        ),
        Failure::Io(error) => record_input::fail_of(rt, "cannot write ", name, &error),
    }
}

// Finds that nothing has the name. To rename something to the name that it has does nothing, whatever it is.
fn find_free<R: Files>(rt: &R, name: &str) -> Result<(), Failure> {
    match fs::rename(rt, name, name) {
        Ok(()) => Err(Failure::Taken),
        Err(error) if error.kind() == ErrorKind::NotFound => Ok(()),
        Err(error) => Err(Failure::Io(error)),
    }
}

// Creates RECORD.part, and answers its file, or none after a message on standard error. Its mode is what the umask
// leaves of a file's. While it exists, no other run writes this RECORD.
fn create_part<R: Files + Eprint>(rt: &R, part: &str) -> io::Result<Option<R::File>> {
    match OpenOptions::new()
        .write(true)
        .create_new(true)
        .open(rt, part)
    {
        Ok(file) => Ok(Some(file)),
        Err(error) => {
            refuse_part(rt, part, &error)?;
            Ok(None)
        }
    }
}

// Says on standard error why RECORD.part is not created.
fn refuse_part<R: Eprint>(rt: &R, part: &str, error: &io::Error) -> io::Result<()> {
    if error.kind() != ErrorKind::AlreadyExists {
        return record_input::fail_of(rt, "cannot create ", part, error);
    }
    eprintln!(rt; "{part}: exists already, and the record is written there first")?;
    eprintln!(rt;
        "hint: an interrupted run may have left it; if nobody needs it, remove it and run again"
    )
}

fn remove_part<R: Files + Eprint>(rt: &R, part: &str) -> io::Result<bool> {
    match fs::remove_file(rt, part) {
        Ok(()) => Ok(true),
        Err(error) => {
            record_input::fail_of(rt, "cannot remove ", part, &error)?;
            Ok(false)
        }
    }
}

// Whether RECORD.part can be created. It is removed at once: a run that is interrupted while it reads leaves no file.
fn try_part<R: Files + Eprint>(rt: &R, part: &str) -> io::Result<bool> {
    match create_part(rt, part)? {
        Some(_file) => remove_part(rt, part),
        None => Ok(false),
    }
}

// Fills the new file and closes it; answers an error where the record is not on its device.
fn fill<F: Write + OpenFile + Drop>(file: F, record: &[u8]) -> io::Result<()> {
    let mut file = file;
    file.write_all(record)?;
    file.sync_all()
}

// Renames the whole part to RECORD. The library has no rename that fails if the name is taken, so `find_free` comes
// just before (docs/DECISIONS.md, The command).
fn rename_part<R: Files>(rt: &R, part: &str, name: &str) -> Result<(), Failure> {
    find_free(rt, name)?;
    Ok(fs::rename(rt, part, name)?)
}

// Fills the part and renames it.
fn finish_part<R: Files>(
    rt: &R,
    file: R::File,
    part: &str,
    name: &str,
    record: &[u8],
) -> Result<(), Failure> {
    fill(file, record)?;
    rename_part(rt, part, name)
}

// Writes the part and renames it to RECORD. If that fails, it removes the part and then says why: a message into a
// closed pipe ends the run.
fn write_part<R: Files + Eprint>(
    rt: &R,
    part: &str,
    name: &str,
    record: &[u8],
) -> io::Result<bool> {
    let Some(file) = create_part(rt, part)? else {
        return Ok(false);
    };
    match finish_part(rt, file, part, name, record) {
        Ok(()) => Ok(true),
        Err(failure) => {
            remove_part(rt, part)?;
            fail(rt, failure, name)?;
            Ok(false)
        }
    }
}

// The part's name; none where RECORD is empty or too long.
fn part_name(name: &str) -> Option<ArrayString<4096>>
    ensures { MatchOption result
        ((length name.now ≡ 0) ⊎ (4090 < length name.now))
        (λ part. (0 < length name.now) × (length name.now ≤ 4090) × (part.bytes ≡ name.now ++ codes ".part")) }
{
    if name.is_empty() || LONGEST_NAME < name.len() {
        return None;
    }
    let mut part = ArrayString::new();
    part.push_str(name);
    part.push_str(".part");
    Some(part)
}

fn refuse_name<R: Eprint>(rt: &R) -> io::Result<()> {
    eprintln!(rt; "RECORD is empty or longer than 4,090 bytes; choose another name")
}

// Whether RECORD can be written, as far as can be known before any input is read; otherwise standard error says why.
pub fn can_write<R: Files + Eprint>(rt: &R, name: &str) -> io::Result<bool> {
    let Some(part) = part_name(name) else {
        refuse_name(rt)?;
        return Ok(false);
    };
    if let Err(failure) = find_free(rt, name) {
        fail(rt, failure, name)?;
        return Ok(false);
    }
    try_part(rt, part.as_str())
}

// Writes the record under its name; answers whether it is there, and otherwise standard error says why.
pub fn write_record<R: Files + Eprint>(rt: &R, name: &str, record: &[u8]) -> io::Result<bool> {
    match part_name(name) {
        Some(part) => write_part(rt, part.as_str(), name, record),
        None => {
            refuse_name(rt)?;
            Ok(false)
        }
    }
}
