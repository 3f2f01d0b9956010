// How far a loss spreads (R-8): the losses of all units, each added to the list of its kind.
#![tactic(auto)]

ghost use Rattle.std.specs.Prelude.{◌≡◌, ◌≤◌, length, get_or};
ghost use Rattle.rules.specs.EffectiveLoss.{both, added_at, loss_of, put as put_of, unit_losses, one64};
ghost use Rattle.loss_spread.specs.Alike.{Alike};

use rules::Loss;

// A key-frame loss where the unit's own probability exceeds 0.5.
fn loss_of(own: f64, amount: f64) -> Loss
    ensures { result ≡ loss_of own amount }
{
    if own > 0.5 {
        Loss::KeyFrame(amount)
    } else {
        Loss::Plain(amount)
    }
}

// x is added at i to k - 1.
fn add(list: &mut [f64], i: usize, k: usize, x: f64)
    requires { (i ≤ k) × (k ≤ length list.old) }
    ensures { list.new ≡ added_at i k x list.old }
{
    for y in &mut list[i..k] {
        *y += x;
    }
}

// A loss goes to the list of its kind, at i to k - 1.
fn put(keys: &mut [f64], plain: &mut [f64], i: usize, k: usize, loss: Loss)
    requires { (i ≤ k) × (k ≤ length keys.old) × (k ≤ length plain.old) }
    ensures { both keys.new plain.new ≡
        put_of i k loss (both keys.old plain.old) }
{
    match loss {
        Loss::KeyFrame(x) => add(keys, i, k, x),
        Loss::Plain(x) => add(plain, i, k, x),
    }
}

// The probability of unit k, and after the last unit 1.
fn probability_at(probabilities: &[f64], k: usize) -> f64
    ensures { result ≡ get_or probabilities.now k one64 }
{
    probabilities.get(k).copied().unwrap_or(1.0)
}

// The losses of all units, upward. A unit's walk over later key frames is left early, once too little is left of it.
pub fn spread(losses: &[u32], probabilities: &[f64], keys: &mut [f64], plain: &mut [f64])
    requires { Alike losses.now probabilities.now keys.old plain.old }
    ensures { both keys.new plain.new ≡
        unit_losses 0 losses.now probabilities.now
        (both keys.old plain.old) }
{
    let n = losses.len();
    for i in 0..n {
        let loss = losses[i];
        if loss > 0 {
            let own = probabilities[i];
            let mut rest = 1.0;
            for k in i + 1..n + 1 {
                let probability = probability_at(probabilities, k);
                if probability > 0.01 {
                    if rest < 0.01 {
                        break;
                    }
                    let p = rest * probability;
                    put(keys, plain, i, k, loss_of(own, p * loss as f64));
                    rest *= 1.0 - probability;
                }
            }
        }
    }
}
