// Rows in arrival order: a place for each, from sequence numbers that wrap.
ghost use Rattle.std.specs.Prelude.{◌≡◌, ◌<◌, ◌≤◌, length};
ghost use Rattle.rules.specs.Rtp.{wrapped, moved as rule_moved, places, rows_from};

// The place of a row, from those of the row before: the sequence numbers' difference wraps and is read as signed.
fn moved(place: u64, next: u16, last: u16) -> u64
    requires { (65536 ≤ place) × (place < 1073741824) }
    ensures { result ≡ rule_moved place (wrapped next last) }
{
    let d = u64::from(next.wrapping_sub(last));
    if d < 32768 {
        place + d
    } else {
        place - (65536 - d)
    }
}

// The rows in arrival order, each as its place and its number.
pub fn put_rows(sequence: &[u16], rows: &mut [u64])
    requires row_count { (1 ≤ length sequence.now) × (length sequence.now ≤ 4096) }
    requires as_many { length rows.old ≡ length sequence.now }
    ensures { rows.new ≡ rows_from 0 (places sequence.now) }
{
    let mut last = sequence[0];
    let mut place = 134217728 + u64::from(last);
    rows[0] = 4096 * place;
    for i in 1..sequence.len() {
        place = moved(place, sequence[i], last);
        last = sequence[i];
        rows[i] = 4096 * place + i as u64;
    }
}
