// The search over the coded bits heard (document 01, demands 2 and 3): of all trains the one of least cost, and whether it is
// confirmed. A coded bit comes as a soft byte counted from -128, or 0 where it was not heard (gauge lends C's so). It refuses nothing: its
// callers have tested what they lend.
#![tactic(auto)]

mod costs;
mod forward;
mod kept;
mod masks;
mod step;
mod words;

ghost use Rattle.std.specs.Prelude.{◌≡◌, ◌+◌, ◌*◌, ◌≤◌, length, take, nat_lt, slice_index};
ghost use Rattle.laws.specs.Lists.{choose};
ghost use Rattle.coder.specs.Train.{Train};
ghost use Rattle.search.specs.Promises.{Searched, Marked};

use coder::{Register, X_TAPS, Y_TAPS, parity_of};
use costs::own_pair;
use forward::forward;
use kept::Gaps;
use masks::BothMasks;
use step::{is_above, started, step};
use words::follow;

// Of all trains of n bits, the one of least cost; of equals, the one with 0 at the last place where the two differ. Its cost. (n and the
// bytes heard stay two parameters, here, in `mark` and in `forward`: the promises and gauge's C names speak of each.)
pub fn search(n: usize, heard: &[u8], train: &mut [u8], words: &mut [u64]) -> u32
    requires { (n ≤ 3472) × (2 * (n + 6) ≤ length heard.now) × (n ≤ length train.old) × (n + 6 ≤ length words.old) }
    ensures { Searched n heard.now train.old train.new words.old words.new result }
{
    let cost = forward(n, heard, words);
    follow(n, train, words);
    cost
}

// Input t of the encoder: a bit of the train, and behind it the tail's zeros.
fn input_of(n: usize, train: &[u8], t: usize) -> u32
    requires { n ≤ length train.now }
    ensures { result ≡ choose (nat_lt t n) (slice_index train.now t) 0 }
{
    if t < n { u32::from(train[t]) } else { 0 }
}

// Whether the train is confirmed: a second pass, with one more for each heard bit that agrees with the train's own, in which the way
// into the train's state that is not its own must lie strictly above at every step.
pub fn mark(n: usize, heard: &[u8], train: &[u8]) -> bool
    requires { (n ≤ 3472) × (2 * (n + 6) ≤ length heard.now) × Train n (take n train.now) }
    ensures { Marked n heard.now (take n train.now) result }
{
    let masks = BothMasks::new();
    let mut costs = started();
    let mut register = Register::empty();
    for t in 0..n + 6 {
        register.enter(input_of(n, train, t));
        let own_x = parity_of(register.bits, X_TAPS);
        let own_y = parity_of(register.bits, Y_TAPS);
        let pair = own_pair(heard[2 * t], heard[2 * t + 1], own_x, own_y);
        let turn = step::<Gaps>(costs, &masks, pair);
        let gaps = turn.kept;
        if !is_above(gaps[(register.bits / 2) as usize], register.bits % 2) {
            return false;
        }
        costs = turn.costs;
    }
    true
}
