// The seal of a sample: the refusals in their order, the header's figures, and the record through `sealing`.
#![tactic(auto)]

ghost use Rattle.std.specs.Prelude.{◌≡◌, not, T};
ghost use Rattle.std.specs.Float.Ieee.{is_nan};
ghost use Rattle.rules.specs.Index.{index_bits};
ghost use Rattle.capture.specs.State.{arrays_of};
ghost use Rattle.sample_questions.specs.State.{words_in};
ghost use Rattle.sample_seal.specs.Contract.{SealPost, header_by, WritePost};

use capture::{Numbers, Summary};
use capture_units::Table;
use capture_walk::{Collected, WalkWords};
use rules::{Header, Index, Opening, Refusal};
use sample_questions::{index_in, standing};

// The header's figures, with so many pictures and scenes, and with the index's bits.
fn header_of(o: Opening, c: Summary, pictures: u32, scenes: u32, i: Index) -> Header
    requires { T (not (is_nan i.value)) }
    ensures { result ≡ header_by o c pictures scenes (index_bits i) }
{
    Header {
        edition: o.edition,
        units: c.units,
        scenes,
        width: o.width,
        height: o.height,
        time: o.time,
        pid: o.pid,
        pictures,
        frames: c.frames,
        skipped: c.skipped,
        bad: c.bad,
        index: index::index_bits(i),
    }
}

// Writes the record, if the buffer has room for it. Its counts are in range, but where
// somebody else wrote on the state.
fn write(
    buffer: &mut [u8],
    table: &Table,
    luma: &luma::Words,
    o: Opening,
    c: Summary,
    l: luma::Summary,
) -> Result<u64, Refusal>
    ensures { WritePost table.now luma.now o c l buffer.old result
        buffer.new }
{
    if 750 < c.units {
        return Err(Refusal::NO_PACKET);
    }
    if 750 < l.pictures {
        return Err(Refusal::NO_PICTURE);
    }
    let n = l.pictures as usize;
    let scenes = luma_scenes::count(luma, n, o.time as u64);
    let size = 64 + 32 * (c.units as usize + scenes);
    if buffer.len() < size {
        return Err(Refusal::no_room(size as u64));
    }
    let i = index_in(l.fresh, l.pictures, c.packets, c.lost);
    let h = header_of(o, c, n as u32, scenes as u32, i);
    sealing::write_record(buffer, table, luma, h);
    Ok(size as u64)
}

// Seals what was fed: the record goes into the buffer, and the answer is its length; or the buffer stays as it was,
// and the answer is the refusal.
pub fn seal(
    walk: &WalkWords,
    kept: &Collected,
    numbers: &Numbers,
    table: &Table,
    luma: &luma::Words,
    buffer: &mut [u8],
) -> Result<u64, Refusal>
    ensures { SealPost
        (words_in (arrays_of walk.now kept.now numbers.now table.now)
        luma.now)
        buffer.old result buffer.new }
{
    let c = capture::sum_up(walk, numbers);
    let l = luma::summarise(luma);
    standing(c.number, c.place)?;
    standing(l.status, l.place)?;
    if c.inside {
        return Err(Refusal::capture_unfinished(c.fed));
    }
    if c.units == 0 {
        return Err(Refusal::NO_PACKET);
    }
    if l.inside {
        return Err(Refusal::luma_unfinished(l.fed));
    }
    if l.pictures == 0 {
        return Err(Refusal::NO_PICTURE);
    }
    write(buffer, table, luma, luma::opening_in(luma), c, l)
}
