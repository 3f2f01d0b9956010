// Reading a record: opening it where the rules allow it (`record_allowed`), its header's figures and its rows.
#![tactic(auto)]

ghost use Rattle.std.specs.Prelude.{◌≡◌, ◌+◌, ◌*◌, ◌≤◌, ◌<◌, length};
ghost use Rattle.rules.specs.Bytes.{word32 as rule32};
ghost use Rattle.rules.specs.Record.{scene_offset};
ghost use Rattle.rules.specs.Reading.{header_of, unit_place, unit_at, scene_at, header_answer, unit_answer};
ghost use Rattle.rules.specs.Reading.{scene_answer, unit_in, scene_in};
ghost use Rattle.record_reader.specs.Opened.{opened_as};

use figures::is_edition;
use rules::{Header, Refusal, SceneRow, UnitRow};

// How many rows of units and of scenes an accepted record has.
#[derive(Clone, Copy)]
pub struct RowCounts {
    pub units: usize,
    pub scenes: usize,
}

// Opens a record: accepted exactly if the rules allow it, otherwise 16, 17 or 18, tried in this order.
pub fn open(bytes: &[u8]) -> Result<RowCounts, Refusal>
    ensures { result ≡ opened_as bytes.now }
{
    if bytes.len() < 64 {
        return Err(Refusal::SHORT_RECORD);
    }
    if !is_edition(words::word32(bytes, 0)) {
        return Err(Refusal::RECORD_EDITION);
    }
    if !record_allowed::allowed(bytes) {
        return Err(Refusal::NOT_ALLOWED);
    }
    let units = words::word32(bytes, 8) as usize;
    let scenes = words::word32(bytes, 16) as usize;
    Ok(RowCounts { units, scenes })
}

// The header's figures, of a record that was accepted.
pub fn header_figures(bytes: &[u8]) -> Header
    requires { 64 ≤ length bytes.now }
    ensures { result ≡ header_of bytes.now }
{
    Header {
        edition: words::word32(bytes, 0),
        units: words::word32(bytes, 8),
        scenes: words::word32(bytes, 16),
        width: words::word32(bytes, 24),
        height: words::word32(bytes, 28),
        time: words::word32(bytes, 32),
        pid: words::word32(bytes, 36),
        pictures: words::word32(bytes, 40),
        frames: words::word32(bytes, 44),
        skipped: words::word32(bytes, 48),
        bad: words::word32(bytes, 52),
        index: words::word64(bytes, 56),
    }
}

// The unit row at a string's front.
fn unit_in(row: &[u8]) -> UnitRow
    requires { 32 ≤ length row.now }
    ensures { result ≡ unit_in row.now }
{
    UnitRow {
        least: words::word64(row, 0),
        greatest: words::word64(row, 8),
        size: words::word32(row, 16),
        packets: words::word32(row, 20),
        lost: words::word32(row, 24),
        damaged: words::word32(row, 28),
    }
}

// The scene row at a string's front.
fn scene_in(row: &[u8]) -> SceneRow
    requires { 32 ≤ length row.now }
    ensures { result ≡ scene_in row.now }
{
    SceneRow {
        first: words::word32(row, 0),
        pictures: words::word32(row, 4),
        repeated: words::word32(row, 8),
        longest: words::word32(row, 12),
        score: words::word32(row, 16),
        peak: words::word32(row, 20),
        change: words::word32(row, 24),
    }
}

// Unit row j, of a record that was accepted and has it.
pub fn unit_row(bytes: &[u8], j: usize) -> UnitRow
    requires { unit_place j + 32 ≤ length bytes.now }
    ensures { result ≡ unit_at bytes.now j }
{
    let at = 64 + 32 * j;
    unit_in(&bytes[at..])
}

// Scene row j, of a record that was accepted, has so many units and has the row. Units and scenes stay two functions,
// here and below: a trait for the two rows, with where each is and how many there are, has more lines than they have.
pub fn scene_row(bytes: &[u8], units: usize, j: usize) -> SceneRow
    requires { (units ≡ rule32 bytes.now 8) × (scene_offset units + 32 * j + 32 ≤ length bytes.now) }
    ensures { result ≡ scene_at bytes.now j }
{
    let at = 64 + 32 * units + 32 * j;
    scene_in(&bytes[at..])
}

// The header's figures, or the refusal.
pub fn header(bytes: &[u8]) -> Result<Header, Refusal>
    ensures { result ≡ header_answer bytes.now }
{
    open(bytes)?;
    Ok(header_figures(bytes))
}

// Unit row j, or the refusal: 19 where the record has no such row.
pub fn unit(bytes: &[u8], j: usize) -> Result<UnitRow, Refusal>
    ensures { result ≡ unit_answer bytes.now j }
{
    let counts = open(bytes)?;
    if counts.units <= j {
        return Err(Refusal::NO_SUCH_ROW);
    }
    Ok(unit_row(bytes, j))
}

// Scene row j, or the refusal.
pub fn scene(bytes: &[u8], j: usize) -> Result<SceneRow, Refusal>
    ensures { result ≡ scene_answer bytes.now j }
{
    let counts = open(bytes)?;
    if counts.scenes <= j {
        return Err(Refusal::NO_SUCH_ROW);
    }
    Ok(scene_row(bytes, counts.units, j))
}
