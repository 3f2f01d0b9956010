// Writing a shelf (R-13): records that lie end to end in one slice are read, and put after a head of offsets.
#![tactic(auto)]

ghost use Rattle.std.specs.Prelude.{◌≡◌, ◌≤◌, ◌<◌, ◌^◌, length};
ghost use Rattle.rules.specs.Bytes.{total};
ghost use Rattle.rules.specs.Refusals.{answer};
ghost use Rattle.rules.specs.Seal.{over};
ghost use Rattle.rules.specs.Shelf.{head_length, first_refused, shelf_of};
ghost use Rattle.words.specs.Written.{written};
ghost use Rattle.shelf_writer.specs.Writing.{cut_up, good_lengths, shelf_length, offset_bytes};
ghost use Rattle.shelf_writer.specs.Writing.{writing_answer, written_buffer};

use rules::Refusal;

// No shelf has more records.
const RECORDS_MOST: usize = 4096;

// The length of all records together.
fn sum(lengths: &[u32]) -> usize
    requires { length lengths.now ≤ 4096 }
    ensures { result ≡ total lengths.now }
{
    lengths.iter().map(|length| *length as usize).sum()
}

// Whether they are the lengths of at most 4,096 records that have so many bytes together.
fn good_lengths(lengths: &[u32], size: usize) -> bool
    ensures { result ≡ good_lengths lengths.now size }
{
    if RECORDS_MOST < lengths.len() {
        return false;
    }
    sum(lengths) == size
}

// Reads every record: 28, with the number of the first, where one is refused.
fn read_records(records: &[u8], lengths: &[u32]) -> Result<(), Refusal>
    requires { total lengths.now ≡ length records.now }
    ensures { result ≡ answer (first_refused 0 (cut_up records.now lengths.now)) tt }
{
    let mut start = 0;
    for (j, length) in lengths.iter().enumerate() {
        let end = start + *length as usize;
        if record_reader::open(&records[start..end]).is_err() {
            return Err(Refusal::refused_record(j as u64));
        }
        start = end;
    }
    Ok(())
}

// Where each record starts, as the head has it after the count and the total length.
fn put_offsets(lengths: &[u32], buffer: &mut [u8])
    requires fits_32_bits { shelf_length lengths.now < 2 ^ 32 }
    requires room { head_length (length lengths.now) ≤ length buffer.old }
    ensures { buffer.new ≡ written 8 (offset_bytes lengths.now) buffer.old }
{
    let mut start = 8 + 4 * lengths.len();
    for (j, length) in lengths.iter().enumerate() {
        words::put32(buffer, 8 + 4 * j, start as u32);
        start += *length as usize;
    }
}

// The shelf, of so many bytes, in a buffer that has room for them.
fn put_shelf(records: &[u8], lengths: &[u32], size: usize, buffer: &mut [u8])
    requires size { (size ≡ shelf_length lengths.now) × (size < 2 ^ 32) × (size ≤ length buffer.old) }
    requires lengths_sum { total lengths.now ≡ length records.now }
    ensures { buffer.new ≡ over (shelf_of (cut_up records.now lengths.now))
        buffer.old }
{
    let n = lengths.len();
    words::put32(buffer, 0, n as u32);
    words::put32(buffer, 4, size as u32);
    put_offsets(lengths, buffer);
    record_text::put_text(buffer, 8 + 4 * n, records);
}

// Writes a shelf of the records, which lie end to end and have these lengths, to the buffer's front. The answer is
// the shelf's length; or 27, 28, then 15 with the length needed, and the buffer is unaltered.
pub fn write(records: &[u8], lengths: &[u32], buffer: &mut [u8]) -> Result<u64, Refusal>
    ensures answered { result ≡ writing_answer records.now lengths.now
        (length buffer.old) }
    ensures written { buffer.new ≡ written_buffer records.now lengths.now
        buffer.old }
{
    if !good_lengths(lengths, records.len()) {
        return Err(Refusal::SHELF_LAYOUT);
    }
    read_records(records, lengths)?;
    let size = 8 + 4 * lengths.len() + records.len();
    if buffer.len() < size {
        return Err(Refusal::no_room(size as u64));
    }
    put_shelf(records, lengths, size, buffer);
    Ok(size as u64)
}
