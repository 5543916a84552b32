// THE PUBLIC CALLS. Each tests what it is given, answers bad input with its refusal, in the customer's order, and then leaves every lent
// buffer as it was. None has a `requires`; the promise of each is one definition of specs/, which speaks of the refusal's number. A train is
// described by its kind; by the count of its PDUs and their modes and lengths, in arrays of which the entries past the count are not read;
// by its frame counter; and by a, where P1 begins. The far end is in decode.rt and readings.rt.
#![tactic(auto)]

mod decode;
mod lent;
mod readings;

ghost use Rattle.std.specs.Prelude.{◌≡◌, false, ◌≤◌, length};
ghost use Rattle.laws.specs.Lists.{filled};
ghost use Rattle.modes.specs.Sizes.{octets_of};
ghost use Rattle.modes.specs.Pdus.{length_of, carriers_of, sent_of};
ghost use Rattle.modes.specs.Refusal.{answer_of};
ghost use Rattle.modes.specs.Description.{LegalList};
ghost use Rattle.modes.specs.Passed.{told, pdus_in};
ghost use Rattle.modem.specs.Entering.{counter_other};
ghost use Rattle.modem.specs.Encode.{Encode};
ghost use Rattle.modem.specs.Ideal.{list_i, list_q, Ideal};
ghost use Rattle.modem.specs.Point.{MapsTo};
ghost use Rattle.modem.specs.Told.{sent_bit_by, point_i, point_q};

pub use decode::{Answer, decode_soft};
use lent::{axes_short, lent_tested};
pub use modes::{Description, Kind, PduList, Refusal};
use modes::{Mode, Train};
use points::Point;
pub use readings::{decode_readings, soften};

// The sent bits of a train, when all has been tested.
fn send(train: &Train, octets: &[u8], sent: &mut [u8])
    requires legal { LegalList (pdus_in train.now) train.now.counter train.now.a }
    requires octets_long { length octets.now ≡ octets_of (length_of (pdus_in train.now)) }
    requires sent_room { sent_of (pdus_in train.now) ≤ length sent.old }
    requires counter_same { counter_other train.now.kind train.now.counter octets.now ≡ false }
    ensures { sent.new ≡ filled (sent_of (pdus_in train.now)) (sent_bit_by train.now octets.now) sent.old }
{
    let first = modes::first_scrambled(train.kind);
    let n = train.counts().n;
    let mut coded = [0; 6924];
    coder::code(first, train.counter, n, octets, &mut coded);
    places::send_train(train, &coded, sent);
}

// Whether the first four bits of a BCH are not the given counter.
fn counter_other(kind: Kind, counter: u32, octets: &[u8]) -> bool
    ensures { result ≡ counter_other kind counter octets.now }
{
    match kind {
        Kind::Data => false,
        Kind::Bch => coder::octets_counter(octets) != counter,
    }
}

// The sent bits of a train, one to a byte, in the order after the interleaver.
pub fn encode(by: &Description, octets: &[u8], sent: &mut [u8]) -> Result<(), Refusal>
    ensures { Encode by.now.kind (told by.now.list) by.now.counter by.now.a octets.now sent.old (answer_of result) sent.new }
{
    let train = Train::described(by)?;
    let counts = train.counts();
    let other = counter_other(by.kind, by.counter, octets);
    lent_tested(
        octets.len() != counts.n / 8,
        sent.len() < counts.sent,
        other.then_some(Refusal::Kind),
    )?;
    send(&train, octets, sent);
    Ok(())
}

// The ideal readings of a train's sent bits PDU by PDU. `soften_train` of readings.rt writes what this one reads and takes as long: a walk
// for both would have to be lent its buffers by a closure.
#[tactic(auto, using(crate::proofs::ReadLaws::reached_small, crate::proofs::ReadLaws::carriers_kept))]
fn read_train(train: &Train, sent: &[u8], i: &mut [i16], q: &mut [i16])
    requires sent_long { sent_of (pdus_in train.now) ≤ length sent.now }
    requires room { (carriers_of (pdus_in train.now) ≤ length i.old) × (carriers_of (pdus_in train.now) ≤ length q.old) }
    ensures i { i.new ≡ filled (carriers_of (pdus_in train.now)) (list_i (pdus_in train.now) sent.now) i.old }
    ensures q { q.new ≡ filled (carriers_of (pdus_in train.now)) (list_q (pdus_in train.now) sent.now) q.old }
{
    let mut bits = 0;
    let mut carriers = 0;
    for pdu in train.as_slice() {
        let more = 48 * pdu.symbols();
        points::readings(
            pdu.mode.constellation,
            more,
            &sent[bits..],
            &mut i[carriers..],
            &mut q[carriers..],
        );
        bits += pdu.sent_bits();
        carriers += more;
    }
}

// The ideal readings of a train's sent bits, one to a byte: 48 for each symbol on I, and as many on Q.
pub fn ideal(list: &PduList, sent: &[u8], i: &mut [i16], q: &mut [i16]) -> Result<(), Refusal>
    ensures { Ideal (told list.now) sent.now i.old q.old (answer_of result) i.new q.new }
{
    let train = Train::sized(list)?;
    let counts = train.counts();
    let short = axes_short(48 * counts.symbols, i.len(), q.len());
    let bits = points::bits_ok(sent);
    let value = (!bits).then_some(Refusal::Value);
    lent_tested(sent.len() != counts.sent, short, value)?;
    read_train(&train, sent, i, q);
    Ok(())
}

// The point of one group value, its earliest bit the highest.
pub fn mapped(mode: u32, group: u32) -> Result<Point, Refusal>
    ensures { MapsTo mode group (answer_of result) (point_i result) (point_q result) }
{
    let c = Mode::try_from(mode)?.constellation;
    if 1 << modes::bits_per_carrier(c) <= group {
        return Err(Refusal::Value);
    }
    Ok(points::point_of(c, group as usize))
}
