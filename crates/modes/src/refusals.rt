// What a description is tested for before anything else: refusal 11, then 1 to 6, and then 12, in the customer's order.
ghost use Rattle.std.specs.Prelude.{◌≡◌, List, ℕ, Bool, ◌<◌, ◌≤◌, [], ◌∷◌};
ghost use Rattle.laws.specs.Ladder.{◌when◌, given, ladder};
ghost use Rattle.modes.specs.Modes.{info};
ghost use Rattle.modes.specs.Pdus.{pdus_of, length_of};
ghost use Rattle.modes.specs.Passed.{told};
ghost use Rattle.modes.specs.Refusal.{answer_of, refusal_number};
ghost use Rattle.modes.specs.Refusals.{length_outside, place_above, lengths, modes_tests, lengths_tests, list_tests, encode_described};

use crate::kinds::other_than;
use crate::{Description, Mode, PduList, Refusal, info_per_symbol, mode_of};

// Whether a length, a PDU's or the sum of all, lies outside a train's lengths.
fn length_outside(n: usize) -> bool
    ensures { result ≡ length_outside n }
{
    !(72..=3456).contains(&n)
}

// Table 1's last column.
fn info_of(mode: u32) -> u32
    requires { (1 ≤ mode) × (mode ≤ 7) }
    ensures { (result ≡ info mode) × (0 < result) }
{
    info_per_symbol(mode_of(mode))
}

// Refusals 3, 4 and 5: what a length is tested for.
#[tactic(auto, unfolding(laws::specs::Ladder::ladder, crate::specs::Refusals::lengths))]
fn length_tested(info: u32, n: u32) -> Result<(), Refusal>
    requires { 0 < info }
    ensures { answer_of result ≡ ladder (lengths info n) }
{
    if length_outside(n as usize) {
        return Err(Refusal::Length);
    }
    if n % 8 != 0 {
        return Err(Refusal::Octets);
    }
    if n % info != 0 {
        return Err(Refusal::Symbols);
    }
    Ok(())
}

impl PduList {
    // Refusal 11, and then 1 for each PDU.
    #[tactic(auto, using(crate::proofs::TestLaws::list_empty, crate::proofs::TestLaws::list_above))]
    fn modes_tested(&self) -> Result<(), Refusal>
        ensures { (whatever : List ℕ) → answer_of result ≡ ladder (list_tests (pdus_of self.now.count self.now.modes whatever)) }
    {
        if self.count < 1 || 16 < self.count {
            return Err(Refusal::List);
        }
        for mode in &self.modes[..self.count as usize] {
            Mode::try_from(*mode)?;
        }
        Ok(())
    }

    // Refusals 3, 4 and 5 PDU by PDU, of which the modes are known.
    fn lengths_tested(&self) -> Result<(), Refusal>
        requires { (self.now.count ≤ 16) × (ladder (modes_tests (told self.now)) ≡ 0) }
        ensures { answer_of result ≡ ladder (lengths_tests (told self.now)) }
    {
        for k in 0..self.count as usize {
            length_tested(info_of(self.modes[k]), self.lengths[k])?;
        }
        Ok(())
    }

    // The information bits of all PDUs. No test has to come first: the sum of sixteen 32-bit numbers is one of 64 bits.
    fn total_length(&self) -> usize
        requires { self.now.count ≤ 16 }
        ensures { (whatever : List ℕ) → result ≡ length_of (pdus_of self.now.count whatever self.now.lengths) }
    {
        let mut n = 0;
        for length in &self.lengths[..self.count as usize] {
            n += *length as usize;
        }
        n
    }
}

// Whether P1 would begin too late.
fn place_above(sum: usize, a: u32) -> bool
    ensures { result ≡ place_above sum a }
{
    sum.saturating_sub(72) < a as usize
}

// The order of the tests once the list and its modes have passed: whether the counter is too large, each PDU's length, whether the sum
// is outside, whether a is above, and whether the kind is described otherwise.
#[tactic(auto, unfolding(laws::specs::Ladder::ladder))]
fn in_order(
    counter: bool,
    each: Result<(), Refusal>,
    sum: bool,
    place: bool,
    other: bool,
) -> Result<(), Refusal>
    ensures { answer_of result ≡ ladder ((2 when counter) ∷ given (answer_of each) ∷ (3 when sum) ∷ (6 when place) ∷ (12 when other) ∷ []) }
{
    if counter {
        return Err(Refusal::Counter);
    }
    each?;
    if sum {
        return Err(Refusal::Length);
    }
    if place {
        return Err(Refusal::Place);
    }
    if other { Err(Refusal::Kind) } else { Ok(()) }
}

// What a kind, a list of PDUs, a counter and a are tested for.
pub(crate) fn tested(by: &Description) -> Result<(), Refusal>
    ensures { answer_of result ≡ ladder (encode_described by.now.kind (told by.now.list) by.now.counter by.now.a) }
{
    let list = &by.list;
    list.modes_tested()?;
    let each = list.lengths_tested();
    let sum = list.total_length();
    let above = place_above(sum, by.a);
    let other = other_than(by.kind, list.count, sum, list.modes[0], by.a);
    in_order(15 < by.counter, each, length_outside(sum), above, other)
}
