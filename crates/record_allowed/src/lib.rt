// Whether the rules allow a record: its header and its rows, test by test.
#![tactic(auto)]

ghost use Rattle.std.specs.Prelude.{◌≡◌, ◌+◌, ◌*◌, ◌≤◌, ◌<◌, length, drop};
ghost use Rattle.rules.specs.Bytes.{word32 as rule32};
ghost use Rattle.rules.specs.Reading.{allowed_header, allowed_unit, allowed_units};
ghost use Rattle.rules.specs.Reading.{allowed_scene, allowed_scenes, allowed as rule_allowed};

use figures::{good_pid, good_size, good_time, is_edition, knows_damage};

// A 32-bit word, as a number that sums of words fit in.
fn word(bytes: &[u8], at: usize) -> u64
    requires { at + 4 ≤ length bytes.now }
    ensures { (result ≡ rule32 bytes.now at) × (result < 4294967296) }
{
    u64::from(words::word32(bytes, at))
}

// The header's conditions.
fn allowed_header(bytes: &[u8]) -> bool
    requires { 64 ≤ length bytes.now }
    ensures { result ≡ allowed_header (length bytes.now) bytes.now }
{
    let size = word(bytes, 4);
    let units = word(bytes, 8);
    let scenes = word(bytes, 16);
    let pictures = word(bytes, 40);
    let whole = is_edition(words::word32(bytes, 0))
        & (size == bytes.len() as u64)
        & (size == 64 + 32 * (units + scenes))
        & (word(bytes, 12) == 64)
        & (word(bytes, 20) == 64 + 32 * units);
    let counts = whole
        & ((1 <= units) & (units <= 750))
        & ((1 <= scenes) & (scenes <= 250))
        & ((1 <= pictures) & (pictures <= 750));
    counts
        & good_size(words::word32(bytes, 24), words::word32(bytes, 28))
        & good_time(words::word32(bytes, 32))
        & good_pid(words::word32(bytes, 36))
        & (word(bytes, 48) <= word(bytes, 44))
}

// A unit row's conditions, by whether the record's edition knows damage.
fn allowed_unit(row: &[u8], known: bool) -> bool
    requires { 32 ≤ length row.now }
    ensures { result ≡ allowed_unit known row.now }
{
    let packets = word(row, 20);
    (words::word64(row, 0) <= words::word64(row, 8))
        & (1 <= packets)
        & (word(row, 16) == 184 * packets)
        & (known | (word(row, 28) == 0))
}

// The conditions of n unit rows.
fn allowed_units(bytes: &[u8], n: usize, known: bool) -> bool
    requires { 64 + 32 * n ≤ length bytes.now }
    ensures { result ≡ allowed_units known n (drop 64 bytes.now) }
{
    // A loop and no `all`, which took 1.4 times as long over 750 rows.
    for j in 0..n {
        if !allowed_unit(&bytes[64 + 32 * j..], known) {
            return false;
        }
    }
    true
}

// A scene row's conditions, where the scene is to begin at picture `from`.
fn allowed_scene(row: &[u8], from: u64) -> bool
    requires { 32 ≤ length row.now }
    ensures { result ≡ allowed_scene from row.now }
{
    (word(row, 0) == from) & (1 <= word(row, 4)) & (word(row, 28) == 0)
}

// The conditions of n scene rows from a place on, which are to total the pictures.
fn allowed_scenes(bytes: &[u8], place: usize, n: usize, pictures: u64) -> bool
    requires { (place + 32 * n ≤ length bytes.now) × (n ≤ 250) }
    ensures { result ≡ allowed_scenes pictures n 0 (drop place bytes.now) }
{
    let mut from = 0;
    for j in 0..n {
        let row = &bytes[place + 32 * j..];
        if !allowed_scene(row, from) {
            return false;
        }
        from += word(row, 4);
    }
    from == pictures
}

// Whether the rules allow a record of 64 bytes or more.
pub fn allowed(bytes: &[u8]) -> bool
    requires { 64 ≤ length bytes.now }
    ensures { result ≡ rule_allowed bytes.now }
{
    if !allowed_header(bytes) {
        return false;
    }
    let units = words::word32(bytes, 8) as usize;
    let scenes = words::word32(bytes, 16) as usize;
    let known = knows_damage(word(bytes, 0));
    if !allowed_units(bytes, units, known) {
        return false;
    }
    allowed_scenes(bytes, 64 + 32 * units, scenes, word(bytes, 40))
}
