// Whether a record could have been sealed: the index that its own rows reach, and the marks that every sealed record
// has though the reader does not ask for them. The record is read through `record_reader` alone.
#![tactic(auto)]

ghost use Rattle.std.specs.Prelude.{Ok, Err, ◌≡◌, true, [], ◌∷◌, ◌+◌, ◌-◌, ◌*◌, ◌^◌, ◌≤◌, ◌<◌, length};
ghost use Rattle.rules.specs.Bytes.{word32, pick};
ghost use Rattle.rules.specs.Refusals.{none};
ghost use Rattle.rules.specs.Opening.{good_time};
ghost use Rattle.rules.specs.Busiest.{most_scenes};
ghost use Rattle.rules.specs.Reading.{header_of, reading_fault};
ghost use Rattle.record_verify.specs.Totals.{repeated_total, index_of_rows, reached_of};
ghost use Rattle.record_verify.specs.Marks.{at_most, at_least, exactly, header_checks, unit_checks};
ghost use Rattle.record_verify.specs.Marks.{repeat_checks, sum_checks, start_checks, length_checks, scene_checks};
ghost use Rattle.record_verify.specs.Marks.{checks, units_checks, scenes_checks, first_failing, judged, verdict_of};
ghost use Rattle.record_verify.specs.Within.{CountsOf, UnitTotalsOf};

use record_reader::RowCounts;
use rules::{Header, Index, Refusal, SceneRow, UnitRow};

// No capture has more bytes (refusal 4).
const CAPTURE_MOST: u64 = 268435456;
// A frame carries no more packets: its U is a 16-bit number.
const FRAME_PACKETS_MOST: u64 = 348;
// A gap of the counter says no more lost.
const GAP_LOST_MOST: u64 = 14;
// The last microsecond of second 2^32 − 1.
const TIME_MOST: u64 = 4294967295999999;
// s is a part of a million; that of a cut is above 1,000.
const SCORE_MOST: u64 = 1000000;

const CUT_LEAST: u64 = 1001;
// q of 255 steps of brightness, in hundredths.
const CHANGE_MOST: u64 = 25500;
// Microseconds of a scene that another follows.
const SCENE_LEAST: u64 = 600000;

// The counts that an index is taken of, and the index.
#[derive(Clone, Copy)]
pub struct Reached {
    pub unrepeated: u64,
    pub pictures: u64,
    pub packets: u64,
    pub lost: u64,
    pub index: Index,
}

// A mark that fails: its number, the row (from 0; 0 where none is meant), what the record has, and the limit: the
// most, the least, or the only value allowed.
#[derive(Clone, Copy)]
pub struct Failing {
    pub mark: u64,
    pub row: u64,
    pub found: u64,
    pub limit: u64,
}

// What verifying a record that the reader allows says.
#[derive(Clone, Copy)]
pub enum Verdict {
    CouldBeSealed(Reached),
    CouldNotBeSealed(Failing),
}

// Words 20, 24 and 28 of all unit rows.
#[derive(Clone, Copy)]
struct UnitTotals {
    packets: u64,
    lost: u64,
    damaged: u64,
}

// ---- checks: the first that fails, if one does

// A check with what it found.
fn asked(holds: bool, mark: u64, row: u64, found: u64, limit: u64) -> Result<(), Failing>
    ensures { result ≡ pick holds (Ok tt)
        (Err (record { mark = mark; row = row; found = found; limit = limit })) }
{
    if holds {
        return Ok(());
    }
    Err(Failing {
        mark,
        row,
        found,
        limit,
    })
}

fn at_most(mark: u64, row: u64, found: u64, limit: u64) -> Result<(), Failing>
    ensures { result ≡ first_failing (at_most mark row found limit ∷ []) }
{
    asked(found <= limit, mark, row, found, limit)
}

fn at_least(mark: u64, row: u64, found: u64, limit: u64) -> Result<(), Failing>
    ensures { result ≡ first_failing (at_least mark row found limit ∷ []) }
{
    asked(limit <= found, mark, row, found, limit)
}

fn exactly(mark: u64, row: u64, found: u64, limit: u64) -> Result<(), Failing>
    ensures { result ≡ first_failing (exactly mark row found limit ∷ []) }
{
    asked(found == limit, mark, row, found, limit)
}

// ---- the marks, by their numbers (specs/Marks)

// The greatest number of scenes of pictures whose number and time the reader allows.
fn most_scenes(time: u32, pictures: u32) -> u64
    requires { (good_time time ≡ true) × (1 ≤ pictures) × (pictures ≤ 750) }
    ensures { result ≡ most_scenes time pictures }
{
    luma_busiest::most_scenes(time, pictures).unwrap_or(0)
}

fn header_marks(h: Header, counted: u64) -> Result<(), Failing>
    requires { (good_time h.time ≡ true) × (1 ≤ h.pictures) × (h.pictures ≤ 750) × (counted < 2 ^ 52) }
    ensures { result ≡ first_failing (header_checks h counted) }
{
    let frames = h.frames as u64;
    let carrying = frames.saturating_sub(h.skipped as u64);
    let bytes = 24 + 16 * frames + 42 * carrying + 188 * counted;
    let most = most_scenes(h.time, h.pictures);
    at_most(1, 0, bytes, CAPTURE_MOST)?;
    at_most(2, 0, counted, FRAME_PACKETS_MOST * carrying)?;
    at_most(3, 0, h.scenes as u64, most)
}

fn unit_marks(row: u64, u: UnitRow) -> Result<(), Failing>
    ensures { result ≡ first_failing (unit_checks row u) }
{
    let gaps = (u.packets as u64).saturating_sub((row == 0) as u64);
    at_most(4, row, u.lost as u64, GAP_LOST_MOST * gaps)?;
    at_most(5, row, u.greatest, TIME_MOST)
}

fn repeat_marks(row: u64, s: SceneRow) -> Result<(), Failing>
    ensures { result ≡ first_failing (repeat_checks row s) }
{
    let pictures = s.pictures as u64;
    let repeated = s.repeated as u64;
    let longest = s.longest as u64;
    let runs = longest * pictures.saturating_sub(repeated);
    at_most(6, row, repeated, pictures.saturating_sub(1))?;
    at_most(7, row, longest, repeated)?;
    at_most(8, row, repeated, runs)
}

fn sum_marks(row: u64, s: SceneRow) -> Result<(), Failing>
    ensures { result ≡ first_failing (sum_checks row s) }
{
    let score = s.score as u64;
    let peak = s.peak as u64;
    let unrepeated = (s.pictures as u64).saturating_sub(s.repeated as u64);
    let changing = unrepeated.saturating_sub((row == 0) as u64);
    at_most(9, row, peak, score)?;
    at_most(10, row, peak, SCORE_MOST)?;
    at_most(11, row, score, peak * changing)?;
    at_most(12, row, s.change as u64, CHANGE_MOST * changing)
}

fn start_marks(h: Header, row: u64, s: SceneRow) -> Result<(), Failing>
    ensures { result ≡ first_failing (start_checks h row s) }
{
    if row == 0 {
        return Ok(());
    }
    let last_start = (h.pictures as u64).saturating_sub(3);
    at_least(13, row, s.peak as u64, CUT_LEAST)?;
    at_most(14, row, s.first as u64, last_start)
}

fn length_marks(h: Header, row: u64, s: SceneRow) -> Result<(), Failing>
    requires { row < 250 }
    ensures { result ≡ first_failing (length_checks h row s) }
{
    if h.scenes as u64 <= row + 1 {
        return Ok(());
    }
    let time = s.pictures as u64 * h.time as u64;
    at_least(15, row, time, SCENE_LEAST)
}

fn scene_marks(h: Header, row: u64, s: SceneRow) -> Result<(), Failing>
    requires { row < 250 }
    ensures { result ≡ first_failing (scene_checks h row s) }
{
    repeat_marks(row, s)?;
    sum_marks(row, s)?;
    start_marks(h, row, s)?;
    length_marks(h, row, s)
}

// ---- the rows

// The marks of the unit rows of a record with these counts.
fn units_marks(bytes: &[u8], counts: RowCounts) -> Result<(), Failing>
    requires counts { CountsOf bytes.now counts }
    requires room { (counts.units ≤ 750) × (64 + 32 * counts.units ≤ length bytes.now) }
    ensures { result ≡ first_failing (units_checks bytes.now) }
{
    for j in 0..counts.units {
        unit_marks(j as u64, record_reader::unit_row(bytes, j))?;
    }
    Ok(())
}

// The marks of the scene rows of a record with these counts and this header.
fn scenes_marks(bytes: &[u8], counts: RowCounts, h: Header) -> Result<(), Failing>
    requires counts { CountsOf bytes.now counts }
    requires header { h ≡ header_of bytes.now }
    requires room { (counts.scenes ≤ 250) × (64 + 32 * (counts.units + counts.scenes) ≤ length bytes.now) }
    ensures { result ≡ first_failing (scenes_checks bytes.now) }
{
    for j in 0..counts.scenes {
        let row = record_reader::scene_row(bytes, counts.units, j);
        scene_marks(h, j as u64, row)?;
    }
    Ok(())
}

// The totals of the unit rows of a record with these counts.
fn unit_totals(bytes: &[u8], counts: RowCounts) -> UnitTotals
    requires counts { CountsOf bytes.now counts }
    requires room { (counts.units ≤ 750) × (64 + 32 * counts.units ≤ length bytes.now) }
    ensures { UnitTotalsOf bytes.now result }
{
    let mut totals = UnitTotals {
        packets: 0,
        lost: 0,
        damaged: 0,
    };
    for j in 0..counts.units {
        let row = record_reader::unit_row(bytes, j);
        totals.packets += row.packets as u64;
        totals.lost += row.lost as u64;
        totals.damaged += row.damaged as u64;
    }
    totals
}

// The repeated pictures of a record with these counts.
fn repeated_total(bytes: &[u8], counts: RowCounts) -> u64
    requires counts { CountsOf bytes.now counts }
    requires room { (counts.scenes ≤ 250) × (64 + 32 * (counts.units + counts.scenes) ≤ length bytes.now) }
    ensures { result ≡ repeated_total bytes.now }
{
    (0..counts.scenes)
        .map(|j| record_reader::scene_row(bytes, counts.units, j).repeated as u64)
        .sum()
}

// ---- the verdict

// All marks, of a record that the reader accepted, with these totals of its units and with this index of its rows.
fn all_marks(bytes: &[u8], counts: RowCounts, totals: UnitTotals, i: Index) -> Result<(), Failing>
    requires counts { CountsOf bytes.now counts }
    requires allowed { reading_fault bytes.now ≡ none }
    requires of_its_rows { UnitTotalsOf bytes.now totals × (i ≡ index_of_rows bytes.now) }
    ensures { result ≡ first_failing (checks bytes.now) }
{
    let h = record_reader::header_figures(bytes);
    header_marks(h, h.bad as u64 + totals.packets + totals.damaged)?;
    units_marks(bytes, counts)?;
    scenes_marks(bytes, counts, h)?;
    exactly(16, 0, h.index, index::index_bits(i))
}

// The verdict on a record that the reader accepted with these counts.
fn verify_rows(bytes: &[u8], counts: RowCounts) -> Verdict
    requires counts { CountsOf bytes.now counts }
    requires allowed { reading_fault bytes.now ≡ none }
    ensures { result ≡ judged (first_failing (checks bytes.now)) (reached_of bytes.now) }
{
    let totals = unit_totals(bytes, counts);
    let pictures = record_reader::header_figures(bytes).pictures as u64;
    let unrepeated = pictures.saturating_sub(repeated_total(bytes, counts));
    let index = index::index_of_totals(unrepeated, pictures, totals.packets, totals.lost);
    match all_marks(bytes, counts, totals, index) {
        Ok(()) => Verdict::CouldBeSealed(Reached {
            unrepeated,
            pictures,
            packets: totals.packets,
            lost: totals.lost,
            index,
        }),
        Err(failing) => Verdict::CouldNotBeSealed(failing),
    }
}

// Whether a record could have been sealed, with the index that its rows reach; or the mark that fails first; or 16,
// 17, 18.
pub fn verify(bytes: &[u8]) -> Result<Verdict, Refusal>
    ensures { result ≡ verdict_of bytes.now }
{
    let counts = record_reader::open(bytes)?;
    Ok(verify_rows(bytes, counts))
}
