// Program `busiest W H d N`: writes the luma of a sample with the greatest number of scenes, or prints the refusal as
// `show` does. An argument that is missing or no number of 1 to 9 digits counts as 0; further ones are ignored.
#![tactic(auto)]

ghost use Rattle.std.specs.Prelude.{◌<◌};

use std::env::Env;
use std::io;

fn number_at<E: Env>(rt: &E, i: usize) -> u32 {
    let mut word = [0u8; 4096];
    match rt.arg(i, &mut word) {
        Ok(n) => luma_busiest::argument(&word[..n]),
        Err(_) => luma_busiest::argument(b""),
    }
}

fn print_refusal<P: Print>(rt: &P, number: u64) -> io::Result<()> {
    let mut text = [0u8; 200];
    let n = record_text::refused_line(&mut text, number);
    rt.write_all(&text[..n])
}

// Writes piece i, of 65,536 bytes or what is left of the luma, or the refusal; whether more may follow. The four
// figures come one by one, as `luma_piece` takes them.
fn write_piece<P: Print>(
    rt: &P,
    width: u32,
    height: u32,
    time: u32,
    pictures: u32,
    i: u64,
) -> io::Result<bool>
    requires { i < 23907 }
{
    let mut piece = [0u8; 65536];
    match luma_busiest::luma_piece(width, height, time, pictures, i * 65536, &mut piece) {
        Ok(n) => {
            let end = n as usize;
            rt.write_all(&piece[..end])?;
            Ok(n == 65536)
        }
        Err(e) => {
            print_refusal(rt, e.number)?;
            Ok(false)
        }
    }
}

// No luma has more than 23,907 pieces.
fn main(rt: HostRuntime) -> io::Result<()> {
    let width = number_at(&rt, 1);
    let height = number_at(&rt, 2);
    let time = number_at(&rt, 3);
    let pictures = number_at(&rt, 4);
    for i in 0..23907 {
        if !write_piece(&rt, width, height, time, pictures, i)? {
            return Ok(());
        }
    }
    Ok(())
}
