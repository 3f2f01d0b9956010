// The shelf (document 02, R-13): records after a head of offsets. The record reader reads each record; nothing here
// knows how one is made.
#![tactic(auto)]

ghost use Rattle.std.specs.Prelude.{◌≡◌, true, ◌+◌, ◌*◌, ◌≤◌, length};
ghost use Rattle.rules.specs.Refusals.{none, answer};
ghost use Rattle.rules.specs.Reading.{reading_fault, header_answer};
ghost use Rattle.rules.specs.Shelf.{head_length, record_count, edge as rule_edge, rising as rule_rising, laid_out};
ghost use Rattle.rules.specs.Shelf.{units_given, record_lost, shelf_lost, records as all_records, first_refused};
ghost use Rattle.rules.specs.Shelf.{shelf_answer, part_answer};

use rules::{Part, Refusal, ShelfTotals};

// No shelf has more records.
const RECORDS_MOST: usize = 4096;

// Where record j starts, and after the last record the shelf's end. The head's count is read once for all edges, so
// this and `rising` take it.
fn edge(bytes: &[u8], records: usize, j: usize) -> usize
    requires { (records ≡ record_count bytes.now) × (head_length records ≤ length bytes.now) }
    ensures { result ≡ rule_edge bytes.now j }
{
    if j < records {
        return words::word32(bytes, 8 + 4 * j) as usize;
    }
    bytes.len()
}

// Whether each record starts below the next, and the last below the end.
fn rising(bytes: &[u8], records: usize) -> bool
    requires { (records ≡ record_count bytes.now) × (head_length records ≤ length bytes.now) }
    ensures { result ≡ rule_rising bytes.now records 0 }
{
    (0..records).all(|j| edge(bytes, records, j) < edge(bytes, records, j + 1))
}

// Whether the bytes are laid out as a shelf, whatever its records are.
fn laid_out(bytes: &[u8]) -> bool
    ensures { result ≡ laid_out bytes.now }
{
    if bytes.len() < 8 {
        return false;
    }
    let records = words::word32(bytes, 0) as usize;
    if RECORDS_MOST < records {
        return false;
    }
    if bytes.len() < 8 + 4 * records {
        return false;
    }
    let size = words::word32(bytes, 4) as usize;
    if size != bytes.len() {
        return false;
    }
    let first = edge(bytes, records, 0);
    if first != 8 + 4 * records {
        return false;
    }
    rising(bytes, records)
}

// The lost cells of all units of a record that the reader accepted with so many.
fn lost_in(bytes: &[u8], units: usize) -> u64
    requires { (reading_fault bytes.now ≡ none) × (units ≡ units_given (header_answer bytes.now)) }
    ensures { result ≡ record_lost bytes.now }
{
    (0..units)
        .map(|i| record_reader::unit_row(bytes, i).lost as u64)
        .sum()
}

// The lost cells of a record, or the reader's refusal.
fn read_record(bytes: &[u8]) -> Result<u64, Refusal>
    ensures { result ≡ answer (reading_fault bytes.now) (record_lost bytes.now) }
{
    let counts = record_reader::open(bytes)?;
    Ok(lost_in(bytes, counts.units))
}

// All records of what is laid out as a shelf.
fn read_records(bytes: &[u8]) -> Result<ShelfTotals, Refusal>
    requires { laid_out bytes.now ≡ true }
    ensures { result ≡ answer (first_refused 0 (all_records bytes.now))
        (record { records = record_count bytes.now; lost = shelf_lost bytes.now }) }
{
    let records = words::word32(bytes, 0) as usize;
    let mut lost = 0;
    for j in 0..records {
        let start = edge(bytes, records, j);
        let end = edge(bytes, records, j + 1);
        let read = read_record(&bytes[start..end]);
        let Ok(more) = read else {
            return Err(Refusal::refused_record(j as u64));
        };
        lost += more;
    }
    Ok(ShelfTotals { records, lost })
}

// Reads a shelf, every record with it: how many records it holds and how many cells they lost in all. Refused as 27
// or 28, tried in this order.
pub fn open(bytes: &[u8]) -> Result<ShelfTotals, Refusal>
    ensures { result ≡ shelf_answer bytes.now }
{
    if !laid_out(bytes) {
        return Err(Refusal::SHELF_LAYOUT);
    }
    read_records(bytes)
}

// Reads a shelf likewise: where record j starts and ends, or the refusal: 27, 28, then 19 where it has no such
// record.
pub fn part(bytes: &[u8], j: usize) -> Result<Part, Refusal>
    ensures { result ≡ part_answer bytes.now j }
{
    let shelf = open(bytes)?;
    if shelf.records <= j {
        return Err(Refusal::NO_SUCH_ROW);
    }
    Ok(Part {
        start: edge(bytes, shelf.records, j),
        end: edge(bytes, shelf.records, j + 1),
    })
}
