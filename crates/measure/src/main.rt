// measure W H D PID CAPTURE LUMA RECORD [EDITION]: a capture and luma pictures go in, a record comes out.
//
// EDITION is that of the rules, and 1 if it is missing.
// CAPTURE and LUMA are files; one of them may be `-`, standard input. Prints `sealed LENGTH` and writes RECORD, or
// prints `refused NUMBER PLACE` and writes no file. A RECORD that exists already is left alone, and nothing is read.
#![tactic(auto)]

mod arguments;
mod side;
mod write;

use rules::{Opening, Refusal};
use sample::Sample;
use std::io;
use std::rt::Files;

// CAPTURE, LUMA and RECORD, as text.
#[derive(Clone, Copy)]
struct Names<'a> {
    capture: &'a str,
    luma: &'a str,
    record: &'a str,
}

fn usage<R: Eprint>(rt: &R) -> io::Result<()> {
    eprintln!(rt;
        "usage: measure W H D PID CAPTURE LUMA RECORD [EDITION] (D: microseconds; CAPTURE or LUMA may be -)"
    )
}

// How such a sample is usually mended.
fn hint<R: Eprint>(rt: &R, number: u64) -> io::Result<()> {
    match number {
        5 => eprintln!(rt;
            "hint: CAPTURE is no little-endian libpcap file of microseconds; editcap -F pcap IN OUT makes one"
        ),
        6 => eprintln!(rt;
            "hint: CAPTURE is not of Ethernet; capture on one Ethernet interface (tcpdump -i NAME)"
        ),
        12 => eprintln!(rt; "hint: no packet of CAPTURE has this PID; the video's may be another"),
        _ => Ok(()),
    }
}

// Writes the record that was sealed at the buffer's front, or says why there is none.
fn deliver<R: Files + Print + Eprint>(
    rt: &R,
    sealed: Result<u64, Refusal>,
    buffer: &[u8],
    name: &str,
) -> io::Result<()> {
    match sealed {
        Ok(length) => {
            let Some(record) = buffer.get(..length as usize) else {
                return Ok(());
            };
            if write::write_record(rt, name, record)? {
                program_text::print_answer(rt, b"sealed", b"refused", sealed, b"\n")?;
            }
            Ok(())
        }
        Err(refusal) => {
            program_text::print_answer(rt, b"sealed", b"refused", sealed, b"\n")?;
            hint(rt, refusal.number)
        }
    }
}

// Opens a sample, feeds both sides and seals. An opening that is refused is no error here: sealing refuses too,
// with the same number. No record is longer than the buffer: 64 bytes, and 32 for each of 750 units and 250 scenes.
fn measure<R: Files + Input + Print + Eprint>(rt: &R, o: Opening, names: &Names) -> io::Result<()> {
    let mut sample = Sample::new();
    let _ = sample.open(o);
    let mut piece = [0u8; 65536];
    if !side::feed_whole(
        rt,
        names.capture,
        &mut piece,
        |bytes| sample.feed_capture(bytes),
    )? {
        return Ok(());
    }
    if !side::feed_whole(rt, names.luma, &mut piece, |bytes| sample.feed_luma(bytes))? {
        return Ok(());
    }
    let mut buffer = [0u8; 32064];
    let sealed = sample.seal(&mut buffer);
    deliver(rt, sealed, &buffer, names.record)
}

// Measures where the names are text, as the library's paths are, and the record has a place to go to.
fn measure_named<R: Files + Input + Print + Eprint>(
    rt: &R,
    o: Opening,
    capture: &[u8],
    luma: &[u8],
    record: &[u8],
) -> io::Result<()> {
    let (Ok(capture), Ok(luma), Ok(record)) = (
        str::from_utf8(capture),
        str::from_utf8(luma),
        str::from_utf8(record),
    ) else {
        return eprintln!(rt; "CAPTURE, LUMA or RECORD is no text in UTF-8; choose another name");
    };
    if !write::can_write(rt, record)? {
        return Ok(());
    }
    let names = Names {
        capture,
        luma,
        record,
    };
    measure(rt, o, &names)
}

fn main(rt: HostRuntime) -> io::Result<()> {
    let words = arguments::count(&rt);
    if words != 8 && words != 9 {
        return usage(&rt);
    }
    let Some(o) = arguments::opening(&rt, words) else {
        return usage(&rt);
    };
    let mut capture = [0u8; 4096];
    let capture = arguments::word_at(&rt, 5, &mut capture);
    let mut luma = [0u8; 4096];
    let luma = arguments::word_at(&rt, 6, &mut luma);
    let mut record = [0u8; 4096];
    let record = arguments::word_at(&rt, 7, &mut record);
    if matches!(capture, b"-") && matches!(luma, b"-") {
        return usage(&rt);
    }
    if capture.is_empty() || luma.is_empty() {
        return eprintln!(rt;
            "CAPTURE or LUMA is empty or longer than 4,096 bytes; choose another name"
        );
    }
    measure_named(&rt, o, capture, luma, record)
}
