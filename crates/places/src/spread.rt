// Soft bytes back to the coded bits that they are of, counted from -128. What was not sent keeps what stood there.
ghost use Rattle.std.specs.Prelude.{◌≡◌, ◌+◌, ◌≤◌, pos, length, get_or};
ghost use Rattle.laws.specs.Scatter.{Seats, Placed};
ghost use Rattle.laws.specs.Signed.{counted};
ghost use Rattle.modes.specs.Modes.{bits_of, number};
ghost use Rattle.modes.specs.Sizes.{symbols};
ghost use Rattle.modes.specs.Description.{Fit};
ghost use Rattle.modes.specs.Passed.{pdus_in};
ghost use Rattle.places.specs.Sending.{Sources, PduRoom, Spread, TrainRoom, SpreadAll};
ghost use Rattle.places.specs.Put.{source_by, bits_in};

use crate::interleaver::symbol_places;
use crate::puncture::Punctured;
use modes::{Pdu, Train};

// A soft byte counted from -128.
fn counted_from(soft: i8) -> u8
    ensures { result ≡ counted 128 soft }
{
    soft.abs_diff(i8::MIN)
}

// One symbol, whose bits P2 has put out from `base` on: the soft byte of bit k stands at its place in the symbol.
fn spread_symbol(places: &[u16], punctured: Punctured, base: usize, soft: &[i8], heard: &mut [u8])
    requires bounds { (punctured.a ≤ 3456) × (base + length places.now ≤ 6912) × (base + length places.now ≤ length soft.now) }
    requires seats { Seats places.now (length places.now) }
    requires sources { Sources punctured.rate punctured.a punctured.first (base + length places.now) (length heard.old) }
    ensures { Placed (λ k. source_by punctured (base + k)) (λ k. counted 128 (get_or soft.now (base + get_or places.now k 0) (pos 0)))
        (length places.now) heard.old heard.new }
{
    for (k, place) in places.iter().enumerate() {
        heard[punctured.source(base + k)] = counted_from(soft[base + usize::from(*place)]);
    }
}

// One PDU: its soft bytes, at the front of `soft`, at its coded bits.
fn spread_pdu(pdu: Pdu, a: usize, first: usize, soft: &[i8], heard: &mut [u8])
    requires fit { Fit (number pdu.mode) pdu.n }
    requires room { PduRoom (bits_of pdu.mode.constellation) pdu.mode.rate (symbols (number pdu.mode) pdu.n) a first (length heard.old) (length soft.now) }
    ensures { Spread (bits_of pdu.mode.constellation) pdu.mode.rate a first (bits_in pdu) soft.now heard.old heard.new }
{
    let c = pdu.mode.constellation;
    let rate = pdu.mode.rate;
    let places = symbol_places(c);
    let size = 48 * modes::bits_per_carrier(c) as usize;
    let symbols = pdu.symbols();
    for symbol in 0..symbols {
        spread_symbol(
            &places[..size],
            Punctured { rate, a, first },
            symbol * size,
            soft,
            heard,
        );
    }
}

// A train: its soft bytes PDU by PDU at their coded bits.
pub fn spread_train(train: &Train, soft: &[i8], heard: &mut [u8])
    requires { TrainRoom (pdus_in train.now) train.now.a (length heard.old) (length soft.now) }
    ensures { SpreadAll (pdus_in train.now) train.now.a soft.now heard.old heard.new }
{
    let mut first = 0;
    let mut at = 0;
    for pdu in train.as_slice() {
        spread_pdu(*pdu, train.a, first, &soft[at..], heard);
        first += 2 * pdu.n;
        at += pdu.sent_bits();
    }
}
