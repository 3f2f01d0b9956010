// The busiest possible sample: the greatest number of scenes for N and d, and the luma of a sample that has so many.
#![tactic(auto)]

ghost use Rattle.std.specs.Prelude.{◌-◌, ◌*◌, ◌≤◌, ◌<◌, ◌≡◌, true, length};
ghost use Rattle.rules.specs.Seal.{over};
ghost use Rattle.rules.specs.Opening.{good_size, good_time};
ghost use Rattle.rules.specs.Busiest.{least_between, most_answer, shade, argument_of};
ghost use Rattle.rules.specs.Busiest.{busiest_part, busiest_answer, busiest_piece};

use rules::Refusal;

// m: the least distance of two starts. `good_time` is asked here, in `shade_of` and in `fill_pictures`: a type of
// good times is no plainer, since these three alone would take it, each to open it again.
fn least_between(time: u32) -> u64
    requires { good_time time ≡ true }
    ensures { result ≡ least_between time }
{
    600000u64.div_ceil(time as u64)
}

// The greatest number of scenes of so many pictures.
pub fn most_scenes(time: u32, pictures: u32) -> Result<u64, Refusal>
    ensures { result ≡ most_answer time pictures }
{
    if !figures::good_time(time) {
        return Err(Refusal::DISPLAY_TIME);
    }
    if pictures == 0 {
        return Err(Refusal::NO_PICTURE);
    }
    if 750 < pictures {
        return Err(Refusal::TOO_MANY_PICTURES);
    }
    if pictures < 3 {
        return Ok(1);
    }
    let n = pictures as u64;
    let m = least_between(time);
    Ok(1 + (n - 3) / m)
}

// The value of every byte of picture i of the busiest luma.
fn shade_of(time: u32, i: u64) -> u8
    requires { good_time time ≡ true }
    ensures { result ≡ shade time i }
{
    let run = i / least_between(time);
    if run % 2 == 0 { 0 } else { 255 }
}

// Fills the piece from byte `at` of the luma on, picture by picture, and tells how many bytes it wrote.
fn fill_pictures(
    width: u32,
    height: u32,
    time: u32,
    pictures: u32,
    at: u64,
    piece: &mut [u8],
) -> u64
    requires good_size { good_size width height ≡ true }
    requires good_time { good_time time ≡ true }
    requires few_pictures { pictures ≤ 750 }
    ensures length { result ≡ length (busiest_part width height time pictures at (length piece.old)) }
    ensures bytes { piece.new ≡
        over (busiest_part width height time pictures at (length piece.old)) piece.old }
{
    let size = width as u64 * height as u64;
    let all = pictures as u64 * size;
    if all <= at {
        return 0;
    }
    let end = (all - at).min(piece.len() as u64);
    for i in at / size..(at + end).div_ceil(size) {
        let from = (i * size).saturating_sub(at) as usize;
        let to = ((i + 1) * size - at).min(end) as usize;
        piece[from..to].fill(shade_of(time, i));
    }
    end
}

// Fills a lent piece with the busiest luma's bytes from byte `at` on, and answers how many it wrote: fewer than the
// piece holds where the luma ends. On a refusal the piece stays as it was. The figures come one by one, as the C
// call `carolsedge_busiest_luma` takes them.
pub fn luma_piece(
    width: u32,
    height: u32,
    time: u32,
    pictures: u32,
    at: u64,
    piece: &mut [u8],
) -> Result<u64, Refusal>
    ensures answered { result ≡ busiest_answer width height time pictures at (length piece.old) }
    ensures bytes { piece.new ≡ busiest_piece width height time pictures at piece.old }
{
    if !figures::good_size(width, height) {
        return Err(Refusal::PICTURE_SIZE);
    }
    most_scenes(time, pictures)?;
    Ok(fill_pictures(width, height, time, pictures, at, piece))
}

// The number that a program's argument counts as.
pub fn argument(word: &[u8]) -> u32
    ensures { result ≡ argument_of word.now }
{
    if 9 < word.len() {
        return 0;
    }
    let mut n: u32 = 0;
    for digit in word {
        if !digit.is_ascii_digit() {
            return 0;
        }
        n = 10 * n + (*digit - b'0') as u32;
    }
    n
}
