// A shelf (document 02, R-13) as C functions: each hands its memory to the call of `shelf` or `shelf_writer` and
// splits the answer into numbers.
#![tactic(auto)]

ghost use Rattle.c_shelf.specs.Contract.{ShelfOpened, PartTaken, ShelfWritten};

use c_numbers::{listed_number, number_of, value_of};

// Tests a whole shelf, and gives how many records it holds and how many cells they lost. The place of 28 is the
// number of the first record that the reader refuses; on a refusal the lent array is as it was.
#[unsafe(no_mangle)]
pub extern "C" fn carolsedge_shelf_open(bytes: &[u8], totals: &mut [u64; 2], place: &mut u64) -> u32
    ensures { ShelfOpened bytes.now totals.old result place.new
        totals.new }
{
    match shelf::open(bytes) {
        Ok(shelf) => {
            *totals = [shelf.records as u64, shelf.lost];
            *place = 0;
            0
        }
        Err(e) => {
            *place = e.place;
            listed_number(e.number)
        }
    }
}

// Tests a whole shelf, and gives where record j starts and ends.
#[unsafe(no_mangle)]
pub extern "C" fn carolsedge_shelf_part(
    bytes: &[u8],
    j: usize,
    part: &mut [u64; 2],
    place: &mut u64,
) -> u32
    ensures { PartTaken bytes.now j part.old result place.new
        part.new }
{
    match shelf::part(bytes, j) {
        Ok(taken) => {
            *part = [taken.start as u64, taken.end as u64];
            *place = 0;
            0
        }
        Err(e) => {
            *place = e.place;
            listed_number(e.number)
        }
    }
}

// Writes a shelf of records that lie end to end, each as long as its number in `lengths` says. The value is the
// shelf's length, or the refusal's place; of 15 that is the length needed. A refusal leaves the buffer as it was.
#[unsafe(no_mangle)]
pub extern "C" fn carolsedge_shelf_write(
    records: &[u8],
    lengths: &[u32],
    buffer: &mut [u8],
    value: &mut u64,
) -> u32
    ensures { ShelfWritten records.now lengths.now buffer.old result
        value.new buffer.new }
{
    let a = shelf_writer::write(records, lengths, buffer);
    *value = value_of(a);
    number_of(a)
}
