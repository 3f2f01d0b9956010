// A sample's calls as C functions. A slice goes as a pointer and a length, an array as a pointer. Each function is
// thin: it hands its memory to the call of the crate below and splits the answer into numbers (`c_numbers`).
#![tactic(auto)]

ghost use Rattle.std.specs.Prelude.{◌≡◌};
ghost use Rattle.rules.specs.Calls.{seal};
ghost use Rattle.capture.specs.State.{arrays_of};
ghost use Rattle.sample_questions.specs.State.{sample_of, words_in};
ghost use Rattle.replay.specs.Run.{Replayed};
ghost use Rattle.c_sample.specs.Replies.{index_figures};
ghost use Rattle.c_sample.specs.Contract.{Opened, FedCapture, FedLuma, Told, IndexTold, CountTold};

use c_numbers::{listed_number, number_of, value_of};
use capture::Numbers;
use capture_units::Table;
use capture_walk::{Collected, WalkWords};
use rules::{Index, Opening, Refusal};

// Opens a sample. The place of 1, 2, 3 and 20 is 0.
#[unsafe(no_mangle)]
pub extern "C" fn carolsedge_open(
    walk: &mut WalkWords,
    kept: &mut Collected,
    numbers: &mut Numbers,
    table: &mut Table,
    luma: &mut luma::Words,
    sums: &mut luma::Sums,
    bins: &mut luma::Bins,
    picture: &mut luma::Picture,
    width: u32,
    height: u32,
    time: u32,
    pid: u32,
    edition: u32,
) -> u32
    ensures { Opened (record { width = width; height = height; time = time; pid = pid; edition = edition }) result
        (sample_of (arrays_of walk.new kept.new numbers.new table.new)
        luma.new sums.new bins.new picture.new) }
{
    let o = Opening {
        width,
        height,
        time,
        pid,
        edition,
    };
    let a = sample::open(walk, kept, numbers, table, luma, sums, bins, picture, o);
    number_of(a)
}

// Feeds a piece of the capture. The value is the piece's length, or the refusal's place.
#[unsafe(no_mangle)]
pub extern "C" fn carolsedge_feed_capture(
    walk: &mut WalkWords,
    kept: &mut Collected,
    numbers: &mut Numbers,
    table: &mut Table,
    piece: &[u8],
    value: &mut u64,
) -> u32
    ensures { FedCapture
        (arrays_of walk.old kept.old numbers.old table.old)
        piece.now result value.new
        (arrays_of walk.new kept.new numbers.new table.new) }
{
    let a = sample::feed_capture(walk, kept, numbers, table, piece);
    *value = value_of(a);
    number_of(a)
}

// Feeds a piece of the luma. The value is the piece's length, or the refusal's place.
#[unsafe(no_mangle)]
pub extern "C" fn carolsedge_feed_luma(
    luma: &mut luma::Words,
    sums: &mut luma::Sums,
    bins: &mut luma::Bins,
    picture: &mut luma::Picture,
    piece: &[u8],
    value: &mut u64,
) -> u32
    ensures { FedLuma luma.old sums.old bins.old picture.old
        piece.now result value.new luma.new sums.new bins.new
        picture.new }
{
    let a = sample::feed_luma(luma, sums, bins, picture, piece);
    *value = value_of(a);
    number_of(a)
}

// Seals what was fed into the buffer. The value is the record's length, or the refusal's place; of 15
// that is the length needed.
#[unsafe(no_mangle)]
pub extern "C" fn carolsedge_seal(
    walk: &WalkWords,
    kept: &Collected,
    numbers: &Numbers,
    table: &Table,
    luma: &luma::Words,
    buffer: &mut [u8],
    value: &mut u64,
) -> u32
    ensures { Told
        (words_in (arrays_of walk.now kept.now numbers.now table.now)
        luma.now)
        (seal buffer.old) result value.new buffer.new }
{
    let a = sample::seal(walk, kept, numbers, table, luma, buffer);
    *value = value_of(a);
    number_of(a)
}

fn put_three(three: &mut [f64; 3], i: Index)
    ensures { three.new ≡ index_figures i }
{
    *three = [i.ic, i.ip, i.value];
}

// The index of what was fed so far: Ic, Ip and the index. The place is the refusal's, or 0; on a refusal the lent
// three are as they were.
#[unsafe(no_mangle)]
pub extern "C" fn carolsedge_index(
    numbers: &Numbers,
    luma: &luma::Words,
    three: &mut [f64; 3],
    place: &mut u64,
) -> u32
    ensures { IndexTold numbers.now luma.now three.old result place.new
        three.new }
{
    match sample::index(numbers, luma) {
        Ok(i) => {
            put_three(three, i);
            *place = 0;
            0
        }
        Err(e) => {
            *place = e.place;
            listed_number(e.number)
        }
    }
}

// Counts the repeated pictures from a up to but without b. The value is the count, or the refusal's place.
#[unsafe(no_mangle)]
pub extern "C" fn carolsedge_repeats(luma: &luma::Words, a: u32, b: u32, value: &mut u64) -> u32
    ensures { CountTold luma.now a b result value.new }
{
    let answer = sample::repeats(luma, a, b);
    *value = value_of(answer);
    number_of(answer)
}

// Opens as a script says (include/carolsedge.h has its form), makes its calls, and writes what every one comes to.
// False, and out is as it was, where there is no room for it all.
#[unsafe(no_mangle)]
pub extern "C" fn carolsedge_replay(script: &[u8], out: &mut [u8]) -> bool
    ensures { Replayed script.now out.old result out.new }
{
    replay::replay(script, out)
}
