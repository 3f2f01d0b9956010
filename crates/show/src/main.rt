// Program `show`: reads a record on standard input and prints its figures, a line for the sample and one
// for each row, or the refusal. If standard input cannot be read, only standard error says so.
#![tactic(auto)]

ghost use Rattle.std.specs.Prelude.{◌≡◌, ◌+◌, ◌*◌, ◌≤◌, length};
ghost use Rattle.rules.specs.Bytes.{word32};

use record_reader::RowCounts;
use std::io;

fn show_units<P: Print>(rt: &P, bytes: &[u8], units: usize) -> io::Result<()>
    requires { 64 + 32 * units ≤ length bytes.now }
{
    let mut text = [0u8; 200];
    for j in 0..units {
        let row = record_reader::unit_row(bytes, j);
        let n = record_text::unit_line(&mut text, j as u64, row);
        rt.write_all(&text[..n])?;
    }
    Ok(())
}

// Not one function with `show_units`: it would need a trait for rows, longer than both loops.
fn show_scenes<P: Print>(rt: &P, bytes: &[u8], units: usize, scenes: usize) -> io::Result<()>
    requires { (units ≡ word32 bytes.now 8) × (64 + 32 * (units + scenes) ≤ length bytes.now) }
{
    let mut text = [0u8; 200];
    for j in 0..scenes {
        let row = record_reader::scene_row(bytes, units, j);
        let n = record_text::scene_line(&mut text, j as u64, row);
        rt.write_all(&text[..n])?;
    }
    Ok(())
}

fn show<P: Print>(rt: &P, bytes: &[u8]) -> io::Result<()> {
    let mut text = [0u8; 200];
    match record_reader::open(bytes) {
        Ok(RowCounts { units, scenes }) => {
            let n = record_text::sample_line(&mut text, record_reader::header_figures(bytes));
            rt.write_all(&text[..n])?;
            show_units(rt, bytes, units)?;
            show_scenes(rt, bytes, units, scenes)
        }
        Err(refusal) => {
            let n = record_text::refused_line(&mut text, refusal.number);
            rt.write_all(&text[..n])
        }
    }
}

fn main(rt: HostRuntime) -> io::Result<()> {
    let mut input = [0u8; 65536];
    match record_input::read(&rt, &mut input) {
        Ok(n) => show(&rt, &input[..n]),
        Err(error) => {
            record_input::fail(&rt, "cannot read standard input", &error)?;
            eprintln!(rt; "usage: show < RECORD")
        }
    }
}
