// What moves from one reduced picture to the next: the sums of the pixels' differences, up and
// down, and of their squares.
ghost use Rattle.std.specs.Prelude.{◌≡◌, length};
ghost use Rattle.luma_changes.specs.Figures.{Paired, Compared};

#[derive(Clone, Copy)]
pub struct Moves {
    pub up: u32,
    pub down: u32,
    pub squares: u32,
}

// A run of pixels more: the new picture's are `made`, the old one's of the same places `kept`.
// Sums of 240 pixels fit 16 bits, a square's low and high byte apart: the compiler then takes eight pixels at a time.
// The low bytes' sum is what the sum of all squares and that of the high bytes leave of 16 bits.
pub fn compare_run(m: Moves, kept: &[u8], made: &[u8]) -> Moves
    requires { Paired kept.now made.now }
    ensures { Compared kept.now 0 made.now 0 (length made.now) m result }
{
    let mut up: u16 = 0;
    let mut down: u16 = 0;
    let mut all: u16 = 0;
    let mut high: u16 = 0;
    for (a, b) in kept.iter().zip(made) {
        let rise = u16::from(b.saturating_sub(*a));
        let fall = u16::from(a.saturating_sub(*b));
        let e = rise + fall;
        let square = e * e;
        up += rise;
        down += fall;
        all = all.wrapping_add(square);
        high += square / 256;
    }
    let low = all.wrapping_sub(high % 256 * 256);
    let squares = u32::from(low) + 256 * u32::from(high);
    Moves {
        up: m.up.wrapping_add(u32::from(up)),
        down: m.down.wrapping_add(u32::from(down)),
        squares: m.squares.wrapping_add(squares),
    }
}
