// What a lost count can hide (R-10): how many runs of n gaps have one lost total.
#![tactic(auto)]

ghost use Rattle.std.specs.Prelude.{◌≡◌, ◌+◌, ◌<◌, ◌≤◌, length};
ghost use Rattle.rules.specs.GapRuns.{gap_lost, TableGiven};
ghost use Rattle.gap_runs.specs.Entries.{entry_at, one_more, Small, started, grown};

use rules::Refusal;

// What a gap loses.
fn gap_lost(g: usize) -> usize
    requires { g < 16 }
    ensures { result ≡ gap_lost g }
{
    g.saturating_sub(1)
}

// The entry of what is left of l, or 0 if less than that is left.
fn entry_at(entries: &[u64], l: usize, lost: usize) -> u64
    requires { l < length entries.now }
    ensures { result ≡ entry_at entries.now l lost }
{
    if lost <= l { entries[l - lost] } else { 0 }
}

// Entry l with one gap more, which may be any of 16.
fn one_more(entries: &[u64], l: usize) -> u64
    requires { Small (l + 1) entries.now }
    ensures { result ≡ one_more entries.now l }
{
    let mut sum = 0;
    for g in 0..16 {
        sum += entry_at(entries, l, gap_lost(g));
    }
    sum
}

// The entries of no gap: one run that loses 0.
fn start(entries: &mut [u64])
    requires { 1 ≤ length entries.old }
    ensures { entries.new ≡ started (length entries.old) }
{
    entries.fill(0);
    entries[0] = 1;
}

// The entries with one gap more, from the last to the first, so that each finds those before it as they were.
fn grow(entries: &mut [u64])
    requires { Small (length entries.old) entries.old }
    ensures { entries.new ≡ grown entries.old }
{
    for l in (0..entries.len()).rev() {
        entries[l] = one_more(entries, l);
    }
}

// For each total from 0 to 14 n, how many runs of n gaps lose it. Answers the number of entries, or refuses:
// 24 for n above 15, then 15 for a table shorter than that, its place the number needed. Entries past these are as
// they were.
pub fn gap_table(n: u32, table: &mut [u64]) -> Result<u64, Refusal>
    ensures { TableGiven n table.old result table.new }
{
    if 15 < n {
        return Err(Refusal::LONG_GAPS);
    }
    let size = 14 * n as usize + 1;
    if table.len() < size {
        return Err(Refusal::no_room(size as u64));
    }
    let entries = &mut table[..size];
    start(entries);
    for _ in 0..n {
        grow(entries);
    }
    Ok(size as u64)
}
