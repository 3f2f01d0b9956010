// A view of one record: its bytes with its counts, made by opening it. Its functions are thin: each hands the slice
// and the numbers to a function over those, which is the form that document 01 names for a view.
#![tactic(auto)]

ghost use Rattle.std.specs.Prelude.{◌≡◌};
ghost use Rattle.record_view.specs.Seen.{units_of, scenes_of, fits, HeaderSeen, UnitSeen, SceneSeen, ViewOf};

use record_reader::RowCounts;
use rules::{Header, Refusal, SceneRow, UnitRow};

// Its fields are its own: nobody else makes one.
#[derive(Clone, Copy)]
pub struct View<'a> {
    bytes: &'a [u8],
    units: usize,
    scenes: usize,
}

// A record's counts of units and scenes. 0 and 0 where it is refused, and no Option of them: a view is made of every
// record, and `ViewOf` with `units_of` and `scenes_of` (specs/Seen) promises 0 in its fields.
fn counts_in(bytes: &[u8]) -> RowCounts
    ensures { (result.units ≡ units_of bytes.now) × (result.scenes ≡ scenes_of bytes.now) }
{
    match record_reader::open(bytes) {
        Ok(counts) => counts,
        Err(_) => RowCounts {
            units: 0,
            scenes: 0,
        },
    }
}

// Whether the bytes say so many units and have room for the rows of so many units and scenes. An accepted record
// passes with its own counts; 0 and 0 never pass (proofs/Counted). One expression was tried: with `&&` its proof
// opens the tests by an `elim` in an `elim`, where here each test has a line.
fn fit(bytes: &[u8], units: usize, scenes: usize) -> bool
    ensures { result ≡ fits bytes.now units scenes }
{
    if units < 1 {
        return false;
    }
    if 750 < units {
        return false;
    }
    if 250 < scenes {
        return false;
    }
    if bytes.len() < 64 + 32 * (units + scenes) {
        return false;
    }
    words::word32(bytes, 8) as usize == units
}

// The header's figures, or the refusal. Where the counts do not fit, as a refused record's do
// not, the whole record is read.
fn header_at(bytes: &[u8], units: usize, scenes: usize) -> Result<Header, Refusal>
    ensures { HeaderSeen bytes.now units scenes result }
{
    if !fit(bytes, units, scenes) {
        return record_reader::header(bytes);
    }
    Ok(record_reader::header_figures(bytes))
}

// Unit row j, or the refusal. No plainer as one with `scene_at`, which asks for another count, another row and its
// place.
fn unit_at(bytes: &[u8], units: usize, scenes: usize, j: usize) -> Result<UnitRow, Refusal>
    ensures { UnitSeen bytes.now units scenes j result }
{
    if !fit(bytes, units, scenes) {
        return record_reader::unit(bytes, j);
    }
    if units <= j {
        return Err(Refusal::NO_SUCH_ROW);
    }
    Ok(record_reader::unit_row(bytes, j))
}

// Scene row j, or the refusal.
fn scene_at(bytes: &[u8], units: usize, scenes: usize, j: usize) -> Result<SceneRow, Refusal>
    ensures { SceneSeen bytes.now units scenes j result }
{
    if !fit(bytes, units, scenes) {
        return record_reader::scene(bytes, j);
    }
    if scenes <= j {
        return Err(Refusal::NO_SUCH_ROW);
    }
    Ok(record_reader::scene_row(bytes, units, j))
}

// The view of a record, accepted or refused.
pub fn open<'a>(bytes: &'a [u8]) -> View<'a>
    ensures { ViewOf bytes.entry result }
{
    let counts = counts_in(bytes);
    View {
        bytes,
        units: counts.units,
        scenes: counts.scenes,
    }
}

pub fn header<'a>(v: View<'a>) -> Result<Header, Refusal>
    ensures { HeaderSeen v.entry.bytes.now v.entry.units v.entry.scenes result }
{
    header_at(v.bytes, v.units, v.scenes)
}

pub fn unit<'a>(v: View<'a>, j: usize) -> Result<UnitRow, Refusal>
    ensures { UnitSeen v.entry.bytes.now v.entry.units v.entry.scenes j result }
{
    unit_at(v.bytes, v.units, v.scenes, j)
}

pub fn scene<'a>(v: View<'a>, j: usize) -> Result<SceneRow, Refusal>
    ensures { SceneSeen v.entry.bytes.now v.entry.units v.entry.scenes j result }
{
    scene_at(v.bytes, v.units, v.scenes, j)
}
