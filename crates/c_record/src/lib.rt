// Reading and verifying a record and printing its sheet, as C functions: each hands its memory to the call of the
// crate below and splits the answer into numbers.
#![tactic(auto)]

mod rows;

ghost use Rattle.std.specs.Prelude.{◌≡◌};
ghost use Rattle.index.specs.Counts.{NoNan};
ghost use Rattle.c_record.specs.Figures.{figures_of, reached_figures, failing_figures};
ghost use Rattle.c_record.specs.Contract.{HeaderRead, UnitRead, SceneRead, Verified, SheetPrinted};

use c_numbers::{listed_number, number_of, value_of};
use record_verify::{Failing, Reached, Verdict};
use rules::Header;

// A mark fails: no number of the table of refusals.
const NOT_SEALED: u32 = 100;

fn put_header(figures: &mut [u64; 12], h: Header)
    ensures { figures.new ≡ figures_of h }
{
    *figures = [
        h.edition as u64,
        h.units as u64,
        h.scenes as u64,
        h.width as u64,
        h.height as u64,
        h.time as u64,
        h.pid as u64,
        h.pictures as u64,
        h.frames as u64,
        h.skipped as u64,
        h.bad as u64,
        h.index,
    ];
}

fn put_reached(verdict: &mut [u64; 11], x: Reached)
    requires { NoNan x.index }
    ensures { verdict.new ≡ reached_figures x }
{
    let i = x.index;
    *verdict = [
        0,
        0,
        0,
        0,
        x.unrepeated,
        x.pictures,
        x.packets,
        x.lost,
        i.ic.to_bits(),
        i.ip.to_bits(),
        i.value.to_bits(),
    ];
}

fn put_failing(verdict: &mut [u64; 11], f: Failing)
    ensures { verdict.new ≡ failing_figures f }
{
    *verdict = [f.mark, f.row, f.found, f.limit, 0, 0, 0, 0, 0, 0, 0];
}

// Tests the whole record, and gives its header's figures. The place of 16 to 19 is 0; on a refusal the
// lent array is as it was.
#[unsafe(no_mangle)]
pub extern "C" fn carolsedge_read_header(bytes: &[u8], figures: &mut [u64; 12]) -> u32
    ensures { HeaderRead bytes.now figures.old result figures.new }
{
    match record_reader::header(bytes) {
        Ok(h) => {
            put_header(figures, h);
            0
        }
        Err(e) => listed_number(e.number),
    }
}

// Tests the whole record, and gives unit row j.
#[unsafe(no_mangle)]
pub extern "C" fn carolsedge_read_unit(bytes: &[u8], j: usize, row: &mut [u64; 6]) -> u32
    ensures { UnitRead bytes.now j row.old result row.new }
{
    match record_reader::unit(bytes, j) {
        Ok(u) => {
            *row = record_rows::unit_figures(u);
            0
        }
        Err(e) => listed_number(e.number),
    }
}

// Tests the whole record, and gives scene row j.
#[unsafe(no_mangle)]
pub extern "C" fn carolsedge_read_scene(bytes: &[u8], j: usize, row: &mut [u64; 7]) -> u32
    ensures { SceneRead bytes.now j row.old result row.new }
{
    match record_reader::scene(bytes, j) {
        Ok(s) => {
            *row = record_rows::scene_figures(s);
            0
        }
        Err(e) => listed_number(e.number),
    }
}

// Tests the whole record, and says whether a seal could have left it: 0, with the totals of its rows and the index
// that they reach; 100, with the mark that fails first; or the refusal, and the lent verdict is as it was.
#[unsafe(no_mangle)]
pub extern "C" fn carolsedge_verify(bytes: &[u8], verdict: &mut [u64; 11]) -> u32
    ensures { Verified bytes.now verdict.old result verdict.new }
{
    match record_verify::verify(bytes) {
        Ok(Verdict::CouldBeSealed(x)) => {
            put_reached(verdict, x);
            0
        }
        Ok(Verdict::CouldNotBeSealed(f)) => {
            put_failing(verdict, f);
            NOT_SEALED
        }
        Err(e) => listed_number(e.number),
    }
}

// Prints a record's sheet into the buffer. The value is the pages' length, or the refusal's place; of 15
// that is the length needed.
#[unsafe(no_mangle)]
pub extern "C" fn carolsedge_sheet(bytes: &[u8], buffer: &mut [u8], value: &mut u64) -> u32
    ensures { SheetPrinted bytes.now buffer.old result value.new
        buffer.new }
{
    let a = record_sheet::sheet(bytes, buffer);
    *value = value_of(a);
    number_of(a)
}
