// What a lost count can hide, as a C function.
ghost use Rattle.std.specs.Prelude.{◌≡◌, length};
ghost use Rattle.rules.specs.GapRuns.{gap_answer, table_after};
ghost use Rattle.c_numbers.specs.Numbers.{number_of, value_of};

use c_numbers::{number_of, value_of};

// For each total from 0 to 14 n, how many runs of n gaps lose it. The value is the number of entries, or the
// refusal's place; of 15 that is the number of entries needed. A refusal leaves the table as it was.
#[unsafe(no_mangle)]
pub extern "C" fn carolsedge_gap_runs(n: u32, table: &mut [u64], value: &mut u64) -> u32
    ensures numbered { result ≡ number_of (gap_answer n (length table.old)) }
    ensures valued { value.new ≡ value_of (gap_answer n (length table.old)) }
    ensures entries { table.new ≡ table_after n table.old }
{
    let a = gap_runs::gap_table(n, table);
    *value = value_of(a);
    number_of(a)
}
