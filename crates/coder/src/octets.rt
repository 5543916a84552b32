// A scrambled train back to octets, and the frame counter that stands in a BCH's first four bits. Descrambling is the same as
// scrambling: each bit is xored with one output, from the scrambler's first bit on.
ghost use Rattle.std.specs.Prelude.{◌≡◌, ℕ, ◌+◌, ◌*◌, ◌/◌, ◌<◌, ◌≤◌, length, get_or};
ghost use Rattle.laws.specs.Lists.{filled};
ghost use Rattle.coder.specs.Scrambler.{bit_of, state_at, Rested, octet_at, frame_counter};

use crate::Scrambler;

// The frame counter that the first four bits of a train write, n4 first.
#[tactic(auto, unfolding(crate::specs::Scrambler::frame_counter, laws::specs::Packing::written))]
pub fn train_counter(train: &[u8]) -> u32
    requires { (4 ≤ length train.now) × ((t : ℕ) → t < 4 → get_or train.now t 0 < 2) }
    ensures { (result ≡ frame_counter (λ t. get_or train.now t 0)) × (result ≤ 15) }
{
    u32::from(8 * train[0] + 4 * train[1] + 2 * train[2] + train[3])
}

// The same of the train that octets hold; of none it is 0.
#[tactic(auto, using(crate::proofs::FrameLaws::counter_none, crate::proofs::FrameLaws::counter_octet))]
pub fn octets_counter(octets: &[u8]) -> u32
    ensures { result ≡ frame_counter (bit_of octets.now) }
{
    match octets.first() {
        None => 0,
        Some(octet) => u32::from(*octet) / 16,
    }
}

// At bit `first` the scrambler starts, and before it rests.
#[tactic(auto, using(crate::proofs::ScramblerLaws::state_first))]
fn start_at(first: usize, counter: u32, t: usize, scrambler: &mut Scrambler)
    requires { (counter ≤ 15) × Rested first counter t scrambler.old.state }
    ensures { scrambler.new.state ≡ state_at first counter t }
{
    if t == first {
        *scrambler = Scrambler::started(counter);
    }
}

// Octet k, most significant bit first.
fn octet_of(first: usize, counter: u32, train: &[u8], k: usize, scrambler: &mut Scrambler) -> u8
    requires { (counter ≤ 15) × (k < 432) × (8 * k + 8 ≤ length train.now) × Rested first counter (8 * k) scrambler.old.state }
    ensures { (result ≡ octet_at first counter train.now k) × Rested first counter (8 * k + 8) scrambler.new.state }
{
    let mut octet = 0u32;
    for j in 0..8usize {
        let t = 8 * k + j;
        start_at(first, counter, t, scrambler);
        octet = 2 * octet + (u32::from(train[t]) + scrambler.step()) % 2;
    }
    octet as u8
}

// The n / 8 octets of a train that was scrambled from bit `first` on, at the front of `octets`.
pub fn descramble(first: usize, counter: u32, n: usize, train: &[u8], octets: &mut [u8])
    requires { (counter ≤ 15) × (n ≤ 3456) × (n ≤ length train.now) × (n / 8 ≤ length octets.old) }
    ensures { octets.new ≡ filled (n / 8) (octet_at first counter train.now) octets.old }
{
    let mut scrambler = Scrambler::resting();
    for k in 0..n / 8 {
        octets[k] = octet_of(first, counter, train, k, &mut scrambler);
    }
}
