// Scene starts and scene rows from the luma words: cut scores, changes, the map of repeats.
// Every call is safe and ends on any contents of the words; a cut score or change is taken below 2^32.
#![tactic(auto)]

ghost use Rattle.std.specs.Prelude.{◌≡◌, ◌*◌, ◌%◌, ◌^◌, ◌<◌, ◌≤◌, get_or, length, max, fold, sum_by};
ghost use Rattle.rules.specs.Scenes.{starts_scene};
ghost use Rattle.luma_scenes.specs.Words.{bit_at};
ghost use Rattle.luma_scenes.specs.Contract.{NextPost, RowPost, CountPost, RepeatedPost, LongestPost};

use luma_state::{Words, layout};
use rules::SceneRow;

// A cut score or a change.
fn figure(luma: &Words, at: usize) -> u64
    requires { at < 1600 }
    ensures { result ≡ get_or luma.now at 0 % 2 ^ 32 }
{
    luma[at] % 4294967296
}

// 1 if picture i is repeated, otherwise 0.
#[tactic(auto, unfolding(crate::specs::Words::bit_at))]
fn repeat_bit(luma: &Words, i: usize) -> u64
    requires { i < 750 }
    ensures { result ≡ bit_at luma.now i }
{
    let word = luma[layout::REPEATS + i / layout::MAP_BITS];
    (word >> (i % layout::MAP_BITS)) % 2
}

// Whether a picture with the cut score s, n pictures after the last start, is the next start; sum is
// that of the scores between.
#[tactic(auto, unfolding(rules::specs::Scenes::starts_scene))]
fn starts_scene(d: u64, n: u64, s: u64, sum: u64) -> bool
    requires { (d < 2 ^ 32) × (1 ≤ n) × (n ≤ 750) × (s < 2 ^ 32) × (sum ≤ 750 * 2 ^ 32) }
    ensures { result ≡ starts_scene d n s sum }
{
    600000 <= n * d && 1000 < s && 5 * sum < s * (n - 1)
}

// The start that follows the start b, or n.
pub fn next_start(luma: &Words, n: usize, d: u64, b: usize) -> usize
    ensures { NextPost luma.now n d b result }
{
    if layout::PICTURES < n || n <= b {
        return n;
    }
    let time = d % 4294967296;
    let mut sum: u64 = 0;
    for i in b + 1..n {
        let s = figure(luma, layout::SCORES + i);
        if starts_scene(time, (i - b) as u64, s, sum) {
            return i;
        }
        sum += s;
    }
    n
}

// How many scenes n pictures have.
pub fn count(luma: &Words, n: usize, d: u64) -> usize
    ensures { CountPost luma.now n d result }
{
    let mut scenes = 0;
    let mut b = 0;
    // No plainer: where the next scene starts is what a search over the scores finds, so no range has these starts.
    while b < n {
        b = next_start(luma, n, d, b);
        scenes += 1;
    }
    scenes
}

// The sum of cut scores or changes.
fn total(figures: &[u64]) -> u64
    requires { length figures.now ≤ 750 }
    ensures { result ≡ sum_by (λ x. x % 2 ^ 32) figures.now }
{
    figures.iter().map(|x| *x % 4294967296).sum()
}

// The greatest of cut scores.
fn peak(figures: &[u64]) -> u64
    ensures { result ≡ fold (λ most x. max most (x % 2 ^ 32)) 0 figures.now }
{
    figures.iter().fold(0, |most, x| most.max(*x % 4294967296))
}

// How many of pictures i to before j are repeated.
fn repeated(luma: &Words, i: usize, j: usize) -> u64
    requires { (i ≤ j) × (j ≤ 750) }
    ensures { RepeatedPost luma.now i j result }
{
    let mut found: u64 = 0;
    for k in i..j {
        found += repeat_bit(luma, k);
    }
    found
}

// The longest run of repeated ones among pictures i to before j.
fn longest(luma: &Words, i: usize, j: usize) -> u64
    requires { (i ≤ j) × (j ≤ 750) }
    ensures { LongestPost luma.now i j result }
{
    let mut most: u64 = 0;
    let mut run: u64 = 0;
    for k in i..j {
        run = if repeat_bit(luma, k) == 1 { run + 1 } else { 0 };
        most = most.max(run);
    }
    most
}

// Zeros for pictures that are no scene's, which nothing goes by. No Option, since `scene_row` cannot fail.
fn no_scene() -> SceneRow {
    SceneRow {
        first: 0,
        pictures: 0,
        repeated: 0,
        longest: 0,
        score: 0,
        peak: 0,
        change: 0,
    }
}

// The row of the scene from picture i to before picture j.
pub fn scene_row(luma: &Words, i: usize, j: usize) -> SceneRow
    ensures { RowPost luma.now i j result }
{
    if layout::PICTURES < j || j < i {
        return no_scene();
    }
    let scores = &luma[layout::SCORES + i..layout::SCORES + j];
    let changes = &luma[layout::CHANGES + i..layout::CHANGES + j];
    SceneRow {
        first: i as u32,
        pictures: (j - i) as u32,
        repeated: figures::low(repeated(luma, i, j)),
        longest: figures::low(longest(luma, i, j)),
        score: figures::low(total(scores)),
        peak: figures::low(peak(scores)),
        change: figures::low(total(changes)),
    }
}
