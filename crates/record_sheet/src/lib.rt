// R-1, a page for the reading room: a record printed into a lent buffer, in lines of 100 columns on pages of 60
// lines. `record_lines` puts the lines.
#![tactic(auto)]

ghost use Rattle.std.specs.Prelude.{◌≡◌, ◌+◌, ◌-◌, ◌*◌, ◌≤◌, length, IfOk};
ghost use Rattle.rules.specs.Bytes.{word32};
ghost use Rattle.rules.specs.Seal.{over};
ghost use Rattle.rules.specs.Sheet.{sheet_of, sheet_length, sheet_answer, sheet_buffer};

use record_reader::RowCounts;
use rules::Refusal;

// The pages of an accepted record of so many units and scenes.
fn put_sheet(bytes: &[u8], counts: RowCounts, buffer: &mut [u8])
    requires as_many { (counts.units ≡ word32 bytes.now 8) × (counts.scenes ≡ word32 bytes.now 16) }
    requires rows_there { (counts.units ≤ 750) × (counts.scenes ≤ 250)
        × (64 + 32 * (counts.units + counts.scenes) ≤ length bytes.now) }
    requires room { sheet_length bytes.now ≤ length buffer.old }
    ensures { buffer.new ≡ over (sheet_of bytes.now) buffer.old }
{
    let RowCounts { units, scenes } = counts;
    let lines = 1 + units + scenes;
    let blanks = 60 * lines.div_ceil(60) - lines;
    let h = record_reader::header_figures(bytes);
    let known = figures::knows_damage(h.edition as u64);
    let first = record_lines::header_line(buffer, 0, h);
    let second = record_lines::put_units(buffer, first, bytes, units, known);
    let third = record_lines::put_scenes(buffer, second, bytes, units, scenes);
    record_lines::put_blanks(buffer, third, blanks);
}

// The sheet of a record at the buffer's front, and its length: or 16, 17, 18, then 15 with the length needed.
pub fn sheet(bytes: &[u8], buffer: &mut [u8]) -> Result<u64, Refusal>
    ensures answered { result ≡ sheet_answer bytes.now (length buffer.old) }
    ensures printed { buffer.new ≡ sheet_buffer bytes.now buffer.old }
    ensures fits { IfOk result (λ n. n ≤ length buffer.new) }
{
    let counts = record_reader::open(bytes)?;
    let needed = 6060 * (1 + counts.units + counts.scenes).div_ceil(60);
    if buffer.len() < needed {
        return Err(Refusal::no_room(needed as u64));
    }
    put_sheet(bytes, counts, buffer);
    Ok(needed as u64)
}
