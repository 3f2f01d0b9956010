// What is told of each row, in arrival order.
ghost use Rattle.std.specs.Prelude.{◌≡◌, length};

// Markers, of which any but 0 is set, times and lengths, of as many rows each.
#[derive(Clone, Copy)]
pub struct Lists<'a> {
    pub marker: &'a [u8],
    pub time: &'a [u64],
    pub size: &'a [u16],
    ghost as_many: { (length time.now ≡ length marker.now) × (length size.now ≡ length marker.now) },
}
