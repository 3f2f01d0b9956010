// The capture side of a sample: the walk finds frames and cells in pieces that are cut anywhere, and the cells of
// PID make units. Its state is four lent arrays: the walk's words and collected bytes, the side's own numbers, and
// the table of units. Every call is safe on any contents of them.
#![tactic(auto)]

ghost use Rattle.capture_steps.specs.Contract.{Fits};
ghost use Rattle.capture.specs.Contract.{Opened, FeedPost, SumsUp, Takes, Goes, Replies, summary_of, totals_in};
ghost use Rattle.std.specs.Prelude.{◌≡◌};
ghost use Rattle.capture.specs.State.{arrays_of};

mod numbers;

use crate::numbers::{load, store};
use capture_counts::Tally;
use capture_units::Table;
use capture_walk::{Collected, Event, Walk, WalkWords};
pub use numbers::{NUMBERS, Numbers};
use rules::Refusal;

// What is kept of the walk and of the counts while a piece is taken in.
#[derive(Clone, Copy)]
pub struct Meter {
    pub walk: Walk,
    pub tally: Tally,
}

// What a seal needs. The refusal that there is (number 0: none) and its place; if there is none: the bytes fed,
// whether they end inside the file header or a frame, the frames, skipped frames, bad cells, units, and over all
// units the cells and those lost. No Option: `summary_of` says number and place as the words hold them.
#[derive(Clone, Copy)]
pub struct Summary {
    pub number: u64,
    pub place: u64,
    pub fed: u64,
    pub inside: bool,
    pub frames: u32,
    pub skipped: u32,
    pub bad: u32,
    pub units: u32,
    pub packets: u64,
    pub lost: u64,
}

// What an index call reads (document 02, R-7): the refusal that there is (number 0: none) and its place; over all
// units the cells and those lost. No Option: `totals_in` says number and place as the words hold them.
#[derive(Clone, Copy)]
pub struct Totals {
    pub number: u64,
    pub place: u64,
    pub packets: u64,
    pub lost: u64,
}

// Opens the arrays: with the number that the opening is refused with, or 0, its PID and its edition. C lends them one
// by one, and `sum_up` reads but two of them, `totals_in` one: they go as four parameters, and in no struct.
pub fn open(
    walk: &mut WalkWords,
    kept: &mut Collected,
    numbers: &mut Numbers,
    table: &mut Table,
    number: u64,
    pid: u64,
    edition: u64,
)
    ensures { Opened number pid edition
        (arrays_of walk.new kept.new numbers.new table.new) }
{
    capture_walk::open(walk, kept);
    *table = [0; capture_units::TABLE_WORDS];
    *numbers = [0; NUMBERS];
    let fresh = Tally {
        status: number,
        pid,
        edition,
        ..Tally::default()
    };
    store(numbers, fresh);
}

// What the next bytes of a piece brought: the event, and the walk after them.
fn take(table: &mut Table, t: Tally, piece: &[u8], w: Walk, e: Event) -> Tally
    requires { Fits e piece.now }
    ensures { Takes table.old t piece.now w e table.new result }
{
    match e {
        Event::Nothing => t,
        Event::Shown(c) => capture_counts::check(t, c),
        Event::Whole(c) => capture_counts::account(table, t, c),
        Event::Cells(r) => capture_counts::add_run(table, t, piece, r),
        Event::Refused => Tally {
            status: w.status,
            place: w.place,
            ..t
        },
    }
}

// A whole piece, or as much of it as comes before a refusal.
fn run(kept: &mut Collected, table: &mut Table, start: Meter, piece: &[u8]) -> Meter
    ensures { Goes kept.old table.old start piece.now kept.new
        table.new result }
{
    let mut m = start;
    let mut i = 0;
    // no `for`: each step says how many bytes it took
    while i < piece.len() && m.tally.status == 0 {
        let r = capture_walk::next(kept, m.walk, piece, i);
        m = Meter {
            walk: r.walk,
            tally: take(table, m.tally, piece, r.walk, r.event),
        };
        i += r.taken;
    }
    m
}

// What a feed of n bytes answers, when it has been taken in: a refusal's number as the word holds it, which a seal or
// an index call (`standing` of `sample_questions`) first puts into the table.
fn reply(t: Tally, n: u64) -> Result<u64, Refusal>
    ensures { Replies t n result }
{
    if t.status != 0 {
        return Err(Refusal {
            number: t.status,
            place: t.place,
        });
    }
    Ok(n)
}

// Feeds a piece.
pub fn feed(
    walk: &mut WalkWords,
    kept: &mut Collected,
    numbers: &mut Numbers,
    table: &mut Table,
    piece: &[u8],
) -> Result<u64, Refusal>
    ensures { FeedPost
        (arrays_of walk.old kept.old numbers.old table.old)
        piece.now result
        (arrays_of walk.new kept.new numbers.new table.new) }
{
    let start = Meter {
        walk: capture_walk::load(walk),
        tally: load(numbers),
    };
    let m = run(kept, table, start, piece);
    capture_walk::store(walk, m.walk);
    store(numbers, m.tally);
    reply(m.tally, piece.len() as u64)
}

fn summary_of(w: Walk, t: Tally, inside: bool) -> Summary
    ensures { result ≡ summary_of w t inside }
{
    Summary {
        number: t.status,
        place: t.place,
        fed: w.fed,
        inside,
        frames: figures::low(w.frames),
        skipped: figures::low(w.skipped),
        bad: figures::low(t.bad),
        units: figures::low(t.units.count),
        packets: t.units.packets,
        lost: t.units.lost,
    }
}

// What was fed, summed up.
pub fn sum_up(walk: &WalkWords, numbers: &Numbers) -> Summary
    ensures { SumsUp walk.now numbers.now result }
{
    let w = capture_walk::load(walk);
    let t = load(numbers);
    let inside = capture_walk::inside(w);
    summary_of(w, t, inside)
}

// The totals, and no word beside them.
pub fn totals_in(numbers: &Numbers) -> Totals
    ensures { result ≡ totals_in numbers.now }
{
    Totals {
        number: numbers[0],
        place: numbers[1],
        packets: numbers[6],
        lost: numbers[7],
    }
}
