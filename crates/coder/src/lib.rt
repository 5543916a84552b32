// Scrambler, tail and encoder (000, 5.2 and 5.3.1): the coded bits of a train, X and Y of each input in turn; and (octets.rt) a
// scrambled train back to octets. It refuses nothing: its callers have tested what they lend.
#![tactic(auto)]

mod octets;
mod register;
mod scrambler;

ghost use Rattle.std.specs.Prelude.{◌≡◌, ◌+◌, ◌*◌, ◌/◌, ◌%◌, ◌<◌, ◌≤◌, ltb, length, set};
ghost use Rattle.laws.specs.Lists.{choose, filled};
ghost use Rattle.coder.specs.Scrambler.{bit_of, output};
ghost use Rattle.coder.specs.Train.{coded_bit, CodesOn};
ghost use Rattle.coder.specs.Register.{parity, mask_x, mask_y};

pub use octets::{descramble, octets_counter, train_counter};
pub use register::{Register, parity_of};
pub use scrambler::Scrambler;
use scrambler::output_of;

// The polynomials as masks of the register.
pub const X_TAPS: u32 = 0o133;

pub const Y_TAPS: u32 = 0o171;

// Bit t of the octets, most significant bit first.
fn bit_of(octets: &[u8], t: usize) -> u32
    requires { t / 8 < length octets.now }
    ensures { (result ≡ bit_of octets.now t) × (result < 2) }
{
    (u32::from(octets[t / 8]) >> (7 - t % 8)) % 2
}

// X and Y of input t stand at 2 t and 2 t + 1.
fn put_pair(coded: &mut [u8], t: usize, register: Register)
    requires { 2 * t + 1 < length coded.old }
    ensures { coded.new ≡ set (set coded.old (2 * t) (parity register.bits mask_x)) (2 * t + 1) (parity register.bits mask_y) }
{
    coded[2 * t] = parity_of(register.bits, X_TAPS);
    coded[2 * t + 1] = parity_of(register.bits, Y_TAPS);
}

// Input t of the encoder: a bit with the output of the scrambler's state s, and behind the train the tail's zeros.
pub fn input_bit(octets: &[u8], n: usize, t: usize, s: u32) -> u32
    requires { t < n → t / 8 < length octets.now }
    ensures { (result ≡ choose (ltb t n) ((bit_of octets.now t + output s) % 2) 0) × (result < 2) }
{
    let mask = output_of(s);
    if t < n {
        (bit_of(octets, t) + mask) % 2
    } else {
        0
    }
}

// Codes the inputs from `from` up to `end`, with scrambler and register as they are then.
fn code_on(
    from: usize,
    end: usize,
    mut scrambler: Scrambler,
    register: &mut Register,
    n: usize,
    octets: &[u8],
    coded: &mut [u8],
)
    requires from_le_end { (from ≤ end) × (end ≤ n + 6) }
    requires n_bound { (n ≤ 3456) × (n ≤ 8 * length octets.now) × (2 * (n + 6) ≤ length coded.old) }
    ensures { CodesOn n octets.now from end scrambler.state register.old.bits register.new.bits coded.old coded.new }
{
    for t in from..end {
        let bit = input_bit(octets, n, t, scrambler.state);
        scrambler.step();
        register.enter(bit);
        put_pair(coded, t, *register);
    }
}

// The coded bits of a train of n bits, scrambled from bit `first` on: n + 6 pairs at the front of `coded`. A counter is a number of 15 at
// most here and in octets.rt: a type that keeps it so would be made from one at each call and be taken apart in each promise.
pub fn code(first: usize, counter: u32, n: usize, octets: &[u8], coded: &mut [u8])
    requires { (first ≤ n) × (counter ≤ 15) × (n ≤ 3456) × (n ≤ 8 * length octets.now) × (2 * (n + 6) ≤ length coded.old) }
    ensures { coded.new ≡ filled (2 * (n + 6)) (coded_bit first counter n octets.now) coded.old }
{
    let mut register = Register::empty();
    let resting = Scrambler::resting();
    code_on(0, first, resting, &mut register, n, octets, coded);
    let started = Scrambler::started(counter);
    code_on(first, n + 6, started, &mut register, n, octets, coded);
}
