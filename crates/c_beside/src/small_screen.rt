// Small-screen streams, as a C function.
ghost use Rattle.std.specs.Prelude.{◌≡◌, length};
ghost use Rattle.rules.specs.Rtp.{rtp_lists, rtp_answer, rtp_buffer};
ghost use Rattle.c_numbers.specs.Numbers.{number_of, value_of};

use c_numbers::{number_of, value_of};

// The units of RTP packets: rows of 32 bytes go to the front of the buffer. The value is their number, or the
// refusal's place; of 15 that is the length needed. A refusal leaves the buffer as it was.
#[unsafe(no_mangle)]
pub extern "C" fn carolsedge_rtp_units(
    sequence: &[u16],
    marker: &[u8],
    time: &[u64],
    size: &[u16],
    buffer: &mut [u8],
    value: &mut u64,
) -> u32
    ensures numbered { result ≡ number_of (rtp_answer sequence.now
        (rtp_lists marker.now time.now size.now) (length buffer.old)) }
    ensures valued { value.new ≡ value_of (rtp_answer sequence.now
        (rtp_lists marker.now time.now size.now) (length buffer.old)) }
    ensures rows { buffer.new ≡ rtp_buffer sequence.now
        (rtp_lists marker.now time.now size.now) buffer.old }
{
    let a = rtp::read(sequence, marker, time, size, buffer);
    *value = value_of(a);
    number_of(a)
}
