// The effective loss (R-8): 001's, for streams without B frames. `loss_spread` has the walks over units.
#![tactic(auto)]

ghost use Rattle.std.specs.Prelude.{◌≡◌, length};
ghost use Rattle.rules.specs.EffectiveLoss.{both, is_probability, are_probabilities, good_lengths, Filled};

use rules::Refusal;

// Within 0 to 1, which a NaN is not.
fn is_probability(p: f64) -> bool
    ensures { result ≡ is_probability p }
{
    0.0 <= p && p <= 1.0
}

fn are_probabilities(list: &[f64]) -> bool
    ensures { result ≡ are_probabilities list.now }
{
    list.iter().all(|p| is_probability(*p))
}

// 1 to 750 units, and four lists so long.
#[tactic(auto, unfolding(rules::specs::EffectiveLoss::good_lengths))]
fn good_lengths(n: usize, a: usize, b: usize, c: usize, d: usize) -> bool
    ensures { result ≡ good_lengths n a b c d }
{
    (1..=750).contains(&n) && a == n && b == n && c == n && d == n
}

// The effective loss of n units, key-frame and plain losses apart: at each unit the parts of all losses that reach
// it. Answers n, or refuses: 22 for n outside 1..750 or a list not n long, 23 for a probability not within 0 to 1.
// A refusal leaves both lists as they were.
pub fn effective_loss(
    n: u32,
    losses: &[u32],
    probabilities: &[f64],
    keys: &mut [f64],
    plain: &mut [f64],
) -> Result<u64, Refusal>
    ensures { Filled n losses.now probabilities.now
        (both keys.old plain.old) result (both keys.new plain.new) }
{
    if !good_lengths(
        n as usize,
        losses.len(),
        probabilities.len(),
        keys.len(),
        plain.len(),
    ) {
        return Err(Refusal::LOSS_LISTS);
    }
    if !are_probabilities(probabilities) {
        return Err(Refusal::NO_PROBABILITY);
    }
    keys.fill(0.0);
    plain.fill(0.0);
    loss_spread::spread(losses, probabilities, keys, plain);
    Ok(n as u64)
}
