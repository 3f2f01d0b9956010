// The busiest possible sample, as C functions.
ghost use Rattle.std.specs.Prelude.{◌≡◌, length};
ghost use Rattle.rules.specs.Busiest.{most_answer, busiest_answer, busiest_piece};
ghost use Rattle.c_numbers.specs.Numbers.{number_of, value_of};

use c_numbers::{number_of, value_of};

// The greatest number of scenes that so many pictures of this display time can have. The value is that number, or 0
// on a refusal: 2, then 14 or 10.
#[unsafe(no_mangle)]
pub extern "C" fn carolsedge_most_scenes(time: u32, pictures: u32, value: &mut u64) -> u32
    ensures numbered { result ≡ number_of (most_answer time pictures) }
    ensures valued { value.new ≡ value_of (most_answer time pictures) }
{
    let a = luma_busiest::most_scenes(time, pictures);
    *value = value_of(a);
    number_of(a)
}

// Fills a piece with the bytes, from byte `at` on, of luma that has that many scenes. The value is how many bytes
// were written, or 0 on a refusal: 1, then as above.
#[unsafe(no_mangle)]
pub extern "C" fn carolsedge_busiest_luma(
    width: u32,
    height: u32,
    time: u32,
    pictures: u32,
    at: u64,
    piece: &mut [u8],
    value: &mut u64,
) -> u32
    ensures numbered { result ≡ number_of (busiest_answer width height time pictures at (length piece.old)) }
    ensures valued { value.new ≡
        value_of (busiest_answer width height time pictures at (length piece.old)) }
    ensures bytes { piece.new ≡ busiest_piece width height time pictures at piece.old }
{
    let a = luma_busiest::luma_piece(width, height, time, pictures, at, piece);
    *value = value_of(a);
    number_of(a)
}
