// The program `sheet`: reads a record on standard input and prints its pages, or the refusal as `show` does. If
// standard input cannot be read, only standard error says so. No sheet has more than 17 pages.
#![tactic(auto)]

use std::io;

fn print_sheet<P: Print>(rt: &P, bytes: &[u8]) -> io::Result<()> {
    let mut pages = [0u8; 103020];
    let mut text = [0u8; 200];
    match record_sheet::sheet(bytes, &mut pages) {
        Ok(n) => rt.write_all(&pages[..n as usize]),
        Err(refusal) => {
            let n = record_text::refused_line(&mut text, refusal.number);
            rt.write_all(&text[..n])
        }
    }
}

fn main(rt: HostRuntime) -> io::Result<()> {
    let mut input = [0u8; 65536];
    match record_input::read(&rt, &mut input) {
        Ok(n) => print_sheet(&rt, &input[..n]),
        Err(error) => {
            record_input::fail(&rt, "cannot read standard input", &error)?;
            eprintln!(rt; "usage: sheet < RECORD")
        }
    }
}
