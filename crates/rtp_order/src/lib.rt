// RTP packets in order: places from sequence numbers, and of each place the row that came first.
#![tactic(auto)]

ghost use Rattle.std.specs.Prelude.{◌≡◌, ◌≤◌, length};
ghost use Rattle.rules.specs.Rtp.{ordered};
ghost use Rattle.rtp_order.specs.Order.{new_places, Kept};

mod arrival;

// Of rows in order those of new places, moved to the front; how many they are.
fn keep(rows: &mut [u64]) -> usize
    ensures { Kept rows.new (new_places 0 rows.old) result }
{
    let mut place = 0;
    let mut kept = 0;
    for i in 0..rows.len() {
        let row = rows[i];
        if row / 4096 != place {
            rows[kept] = row;
            place = row / 4096;
            kept += 1;
        }
    }
    kept
}

// The rows that stay, in their order, at the front of `rows`; how many they are. No two rows are equal numbers, so an
// unstable sort, which needs no buffer, puts them in the one order there is.
pub fn put_in_order(sequence: &[u16], rows: &mut [u64]) -> usize
    requires row_count { (1 ≤ length sequence.now) × (length sequence.now ≤ 4096) }
    requires as_many { length rows.old ≡ length sequence.now }
    ensures { Kept rows.new (ordered sequence.now) result }
{
    arrival::put_rows(sequence, rows);
    rows.sort_unstable();
    keep(rows)
}
