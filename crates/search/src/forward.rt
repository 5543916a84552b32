// The first pass: from the costs of the states before a step to those after it, a decision word for each step, and the exact cost.
ghost use Rattle.std.specs.Prelude.{◌≡◌, ℕ, ◌+◌, ◌*◌, ◌≤◌, length};
ghost use Rattle.laws.specs.Lists.{filled};
ghost use Rattle.laws.specs.Packing.{packed};
ghost use Rattle.trellis.specs.Heard.{branch};
ghost use Rattle.trellis.specs.Passes.{best, choice};
ghost use Rattle.search.specs.Stored.{start, wrapped, Near, Beside};
ghost use Rattle.search.specs.Bytes.{cost_of};
ghost use Rattle.search.specs.Words.{seat};

use crate::costs::pair_of;
use crate::kept::Choices;
use crate::masks::BothMasks;
use crate::step::{HALF, started, step};
use crate::words::word_of;

// The number nearest to the total that is stored so: a step moves the cost of state 0 by less than half the width. With that half on it
// the wrapped difference is not below 0.
#[tactic(auto, using(crate::proofs::TurnLaws::nearest_is))]
fn nearest(total: u32, stored: u16) -> u32
    requires { (total ≤ 4294901760) × Beside total stored }
    ensures { (x : ℕ) → Near total x (wrapped total) stored → result ≡ x }
{
    let up = stored
        .wrapping_sub((total % 65536) as u16)
        .wrapping_add(HALF);
    total + u32::from(up) - 32768
}

// The words, and the cost of the best way into state 0.
pub fn forward(n: usize, heard: &[u8], words: &mut [u64]) -> u32
    requires { (n ≤ 3472) × (2 * (n + 6) ≤ length heard.now) × (n + 6 ≤ length words.old) }
    ensures cost { result ≡ best (branch (cost_of heard.now)) start (n + 6) 0 }
    ensures decided { words.new ≡ filled (n + 6) (λ t. packed 64 (λ p. choice (branch (cost_of heard.now)) start t (seat p))) words.old }
{
    let masks = BothMasks::new();
    let mut costs = started();
    let mut total = 0u32;
    for t in 0..n + 6 {
        let pair = pair_of(heard[2 * t], heard[2 * t + 1]);
        let turn = step::<Choices>(costs, &masks, pair);
        words[t] = word_of(&turn.kept);
        costs = turn.costs;
        total = nearest(total, costs[0]);
    }
    total
}
