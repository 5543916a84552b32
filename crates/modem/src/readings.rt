// Readings: their soft bytes, and the train that is decoded from these. I and Q are two lent slices everywhere, the form that document 01 names.
ghost use Rattle.std.specs.Prelude.{◌≡◌, ◌≤◌, length};
ghost use Rattle.laws.specs.Lists.{filled};
ghost use Rattle.modes.specs.Pdus.{carriers_of, sent_of};
ghost use Rattle.modes.specs.Refusal.{answer_of};
ghost use Rattle.modes.specs.Passed.{told, pdus_in};
ghost use Rattle.modem.specs.Soften.{list_soft, Soften};
ghost use Rattle.modem.specs.Told.{DecodesReadings};

use crate::decode::{Answer, find};
use crate::lent::{lent_tested, readings_wrong, room_short};
use modes::{Description, PduList, Refusal, Train};

// The soft bytes of a train's readings PDU by PDU. It walks as `read_train` does: an iterator of PDUs with their beginnings would be a type with
// laws of its own, for these four lines.
#[tactic(auto, using(crate::proofs::ReadLaws::reached_small, crate::proofs::ReadLaws::bits_kept))]
fn soften_train(train: &Train, i: &[i16], q: &[i16], soft: &mut [i8])
    requires readings_long { (carriers_of (pdus_in train.now) ≤ length i.now) × (carriers_of (pdus_in train.now) ≤ length q.now) }
    requires room { sent_of (pdus_in train.now) ≤ length soft.old }
    ensures { soft.new ≡ filled (sent_of (pdus_in train.now)) (list_soft (pdus_in train.now) i.now q.now) soft.old }
{
    let mut bits = 0;
    let mut carriers = 0;
    for pdu in train.as_slice() {
        let more = 48 * pdu.symbols();
        soft::soften(
            pdu.mode.constellation,
            more,
            &i[carriers..],
            &q[carriers..],
            &mut soft[bits..],
        );
        bits += pdu.sent_bits();
        carriers += more;
    }
}

// The soft bytes, one for each sent bit, of 48 x symbols readings of I and as many of Q.
pub fn soften(list: &PduList, i: &[i16], q: &[i16], soft: &mut [i8]) -> Result<(), Refusal>
    ensures { Soften (told list.now) i.now q.now soft.old (answer_of result) soft.new }
{
    let train = Train::sized(list)?;
    let counts = train.counts();
    let wrong = readings_wrong(48 * counts.symbols, i.len(), q.len());
    lent_tested(wrong, soft.len() < counts.sent, None)?;
    soften_train(&train, i, q, soft);
    Ok(())
}

// The same as `decode_soft` from 48 x symbols readings of I and as many of Q: their soft bytes are made and decoded.
pub fn decode_readings(
    by: &Description,
    i: &[i16],
    q: &[i16],
    octets: &mut [u8],
    words: &mut [u64],
) -> Result<Answer, Refusal>
    ensures { DecodesReadings by.now i.now q.now octets.old words.old result octets.new words.new }
{
    let train = Train::described(&by.heeded())?;
    let counts = train.counts();
    let wrong = readings_wrong(48 * counts.symbols, i.len(), q.len());
    let short = room_short(counts.n, octets.len(), words.len());
    lent_tested(wrong, short, None)?;
    let mut soft = [0; 6912];
    soften_train(&train, i, q, &mut soft);
    Ok(find(&train, &soft[..counts.sent], octets, words))
}
