// A survey's calls (document 02, R-4) as C functions: each hands its memory to the call of `survey` and splits the
// answer into numbers.
#![tactic(auto)]

ghost use Rattle.std.specs.Prelude.{◌≡◌};
ghost use Rattle.survey.specs.State.{state_of};
ghost use Rattle.survey.specs.Contract.{Opened};
ghost use Rattle.c_survey.specs.Contract.{most_value, most_count, SurveyFed, SurveyTold};

use c_numbers::{number_of, value_of};
use capture_walk::{Collected, WalkWords};
use rules::{Most, Refusal};
use survey::Counts;

fn most_value(a: Result<Most, Refusal>) -> u64
    ensures { result ≡ most_value a }
{
    match a {
        Ok(most) => most.identifier,
        Err(e) => e.place,
    }
}

fn most_count(a: Result<Most, Refusal>) -> u64
    ensures { result ≡ most_count a }
{
    match a {
        Ok(most) => most.count,
        Err(_) => 0,
    }
}

// Opens a fresh survey.
#[unsafe(no_mangle)]
pub extern "C" fn carolsedge_open_survey(
    walk: &mut WalkWords,
    kept: &mut Collected,
    counts: &mut Counts,
)
    ensures { Opened (state_of walk.new kept.new counts.new) }
{
    survey::open(walk, kept, counts);
}

// Feeds a piece of the capture to a survey. The value is the piece's length, or the refusal's place.
#[unsafe(no_mangle)]
pub extern "C" fn carolsedge_feed_survey(
    walk: &mut WalkWords,
    kept: &mut Collected,
    counts: &mut Counts,
    piece: &[u8],
    value: &mut u64,
) -> u32
    ensures { SurveyFed (state_of walk.old kept.old counts.old)
        piece.now result value.new
        (state_of walk.new kept.new counts.new) }
{
    let a = survey::feed(walk, kept, counts, piece);
    *value = value_of(a);
    number_of(a)
}

// Asks a survey. The value is the identifier with most good packets, or the refusal's place; the count is how many it
// has, or 0.
#[unsafe(no_mangle)]
pub extern "C" fn carolsedge_ask_survey(
    walk: &WalkWords,
    counts: &Counts,
    value: &mut u64,
    count: &mut u64,
) -> u32
    ensures { SurveyTold walk.now counts.now result value.new count.new }
{
    let most = survey::ask(walk, counts);
    *value = most_value(most);
    *count = most_count(most);
    number_of(most)
}
