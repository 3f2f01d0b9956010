// Units of RTP packets, which come without cells: lists that are as they should be, rows in order (`rtp_order`),
// units after markers (`rtp_units`).
#![tactic(auto)]

ghost use Rattle.std.specs.Prelude.{◌≡◌, true, ◌≤◌, length};
ghost use Rattle.rules.specs.Rtp.{rtp_lists, good_lists, Read};
ghost use Rattle.rtp_units.specs.Units.{told};

use rtp_units::Lists;
use rules::Refusal;

// Whether there are 1 to 4,096 rows and the lists are equally long.
#[tactic(auto, unfolding(rules::specs::Rtp::good_lists))]
fn good_lists(sequence: &[u16], marker: &[u8], time: &[u64], size: &[u16]) -> bool
    ensures { result ≡ good_lists sequence.now
        (rtp_lists marker.now time.now size.now) }
{
    let n = sequence.len();
    (1..=4096).contains(&n) && marker.len() == n && time.len() == n && size.len() == n
}

// The units of lists that are as they should be, with room to put rows in order.
fn read_good(
    sequence: &[u16],
    lists: &Lists,
    rows: &mut [u64],
    buffer: &mut [u8],
) -> Result<u64, Refusal>
    requires good_lists { good_lists sequence.now (told lists.now) ≡ true }
    requires room { 4096 ≤ length rows.old }
    ensures { Read sequence.now (told lists.now) buffer.old result buffer.new }
{
    let n = sequence.len();
    let kept = rtp_order::put_in_order(sequence, &mut rows[..n]);
    rtp_units::put_units(lists, &rows[..kept], buffer)
}

// Reads RTP packets: unit rows go to the buffer's front, and their number is the answer; or 25, then 15.
pub fn read(
    sequence: &[u16],
    marker: &[u8],
    time: &[u64],
    size: &[u16],
    buffer: &mut [u8],
) -> Result<u64, Refusal>
    ensures { Read sequence.now
        (rtp_lists marker.now time.now size.now)
        buffer.old result buffer.new }
{
    if !good_lists(sequence, marker, time, size) {
        return Err(Refusal::RTP_LISTS);
    }
    let mut rows = [0u64; 4096];
    let lists = Lists { marker, time, size };
    read_good(sequence, &lists, &mut rows, buffer)
}
