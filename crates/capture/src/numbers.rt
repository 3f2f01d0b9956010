// The side's own numbers in the lent words.
ghost use Rattle.std.specs.Prelude.{◌≡◌};
ghost use Rattle.capture.specs.State.{loaded};
ghost use Rattle.capture.specs.Contract.{Stored};

use capture_counts::Tally;
use capture_units::Units;

pub const NUMBERS: usize = 16;

pub type Numbers = [u64; NUMBERS];

pub fn load(numbers: &Numbers) -> Tally
    ensures { result ≡ loaded numbers.now }
{
    Tally {
        status: numbers[0],
        place: numbers[1],
        pid: numbers[2],
        bad: numbers[3],
        units: Units {
            count: numbers[4],
            previous: numbers[5],
            packets: numbers[6],
            lost: numbers[7],
        },
        edition: numbers[8],
    }
}

pub fn store(numbers: &mut Numbers, t: Tally)
    ensures { Stored numbers.old t numbers.new }
{
    numbers[0] = t.status;
    numbers[1] = t.place;
    numbers[2] = t.pid;
    numbers[3] = t.bad;
    numbers[4] = t.units.count;
    numbers[5] = t.units.previous;
    numbers[6] = t.units.packets;
    numbers[7] = t.units.lost;
    numbers[8] = t.edition;
}
