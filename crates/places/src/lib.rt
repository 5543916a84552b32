// Which coded bit is sent where: P1, P2 and the interleaver as one selection; the sent bits by it, and (spread.rt) soft bytes back.
// A train goes PDU by PDU: each has its own mode, P2 begun anew, and a share of P1's output that begins at `first`.
// Nothing is refused here: callers have tested what they lend.
#![tactic(auto)]

mod interleaver;
mod puncture;
mod sheet;
mod spread;

ghost use Rattle.std.specs.Prelude.{◌≡◌, ◌+◌, ◌≤◌, length, get_or};
ghost use Rattle.laws.specs.Lists.{filled};
ghost use Rattle.laws.specs.Scatter.{Seats, Scattered};
ghost use Rattle.modes.specs.Modes.{bits_of, number};
ghost use Rattle.modes.specs.Sizes.{symbols};
ghost use Rattle.modes.specs.Pdus.{sent_of};
ghost use Rattle.modes.specs.Description.{Fit};
ghost use Rattle.modes.specs.Passed.{pdus_in};
ghost use Rattle.places.specs.Sending.{Sources, pdu_bit, PduRoom, train_bit, TrainRoom};
ghost use Rattle.places.specs.Put.{source_by, bits_in};

pub use interleaver::symbol_places;
use modes::{Pdu, Train};
use puncture::Punctured;
pub use spread::spread_train;

// One symbol, whose bits P2 has put out from `base` on: bit k goes to its place in the symbol.
fn send_symbol(places: &[u16], punctured: Punctured, base: usize, coded: &[u8], sent: &mut [u8])
    requires bounds { (punctured.a ≤ 3456) × (base + length places.now ≤ 6912) × (base + length places.now ≤ length sent.old) }
    requires seats { Seats places.now (length places.now) }
    requires sources { Sources punctured.rate punctured.a punctured.first (base + length places.now) (length coded.now) }
    ensures { Scattered base (length places.now) places.now (λ k. get_or coded.now (source_by punctured (base + k)) 0) (length places.now) sent.old sent.new }
{
    for (k, place) in places.iter().enumerate() {
        sent[base + usize::from(*place)] = coded[punctured.source(base + k)];
    }
}

// One PDU: its sent bits at the front of `sent`, from the train's coded bits.
fn send_pdu(pdu: Pdu, a: usize, first: usize, coded: &[u8], sent: &mut [u8])
    requires fit { Fit (number pdu.mode) pdu.n }
    requires room { PduRoom (bits_of pdu.mode.constellation) pdu.mode.rate (symbols (number pdu.mode) pdu.n) a first (length coded.now) (length sent.old) }
    ensures { sent.new ≡ filled (bits_in pdu) (pdu_bit (bits_of pdu.mode.constellation) pdu.mode.rate a first coded.now) sent.old }
{
    let c = pdu.mode.constellation;
    let rate = pdu.mode.rate;
    let places = symbol_places(c);
    let size = 48 * modes::bits_per_carrier(c) as usize;
    let symbols = pdu.symbols();
    for symbol in 0..symbols {
        send_symbol(
            &places[..size],
            Punctured { rate, a, first },
            symbol * size,
            coded,
            sent,
        );
    }
}

// A train: its sent bits PDU by PDU at the front of `sent`, from its coded bits. spread.rt walks as this file does: one walk for both would
// have to be lent its buffers by a closure, and with a table of origins between them a small thread's stack does not hold an `encode`.
pub fn send_train(train: &Train, coded: &[u8], sent: &mut [u8])
    requires { TrainRoom (pdus_in train.now) train.now.a (length coded.now) (length sent.old) }
    ensures { sent.new ≡ filled (sent_of (pdus_in train.now)) (train_bit (pdus_in train.now) train.now.a coded.now) sent.old }
{
    let mut first = 0;
    let mut at = 0;
    for pdu in train.as_slice() {
        send_pdu(*pdu, train.a, first, coded, &mut sent[at..]);
        first += 2 * pdu.n;
        at += pdu.sent_bits();
    }
}
