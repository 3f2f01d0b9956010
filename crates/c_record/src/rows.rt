// All rows of a record at once, as C functions.
ghost use Rattle.c_record.specs.Rows.{UnitsGiven, ScenesGiven};

use c_numbers::{number_of, value_of};
use record_rows::{SCENE_FIGURES, UNIT_FIGURES};

// Tests the record once, and gives all its unit rows. The count is their number, or the refusal's place; of 15 that
// is the number of rows needed. Rows past the record's are as they were, and after a refusal all are.
#[unsafe(no_mangle)]
pub extern "C" fn carolsedge_read_units(
    bytes: &[u8],
    rows: &mut [[u64; UNIT_FIGURES]],
    count: &mut u64,
) -> u32
    ensures { UnitsGiven bytes.now rows.old result count.new rows.new }
{
    let a = record_rows::read_units(bytes, rows);
    *count = value_of(a);
    number_of(a)
}

// All its scene rows, likewise.
#[unsafe(no_mangle)]
pub extern "C" fn carolsedge_read_scenes(
    bytes: &[u8],
    rows: &mut [[u64; SCENE_FIGURES]],
    count: &mut u64,
) -> u32
    ensures { ScenesGiven bytes.now rows.old result count.new rows.new }
{
    let a = record_rows::read_scenes(bytes, rows);
    *count = value_of(a);
    number_of(a)
}
