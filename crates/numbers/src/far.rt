// The commands of the far end: soft bytes, and decoding.
use crate::shown::{Decoded, MARK, MARK_SOFT, MARK_WORD, MOST, Spaced};
use crate::words::Words;
use arrayvec::ArrayVec;
use modem::{Answer, Refusal};
use std::io;

pub(crate) fn soften(rt: &impl Print, words: &mut Words) -> Option<io::Result<()>> {
    let list = words.list_of_pdus()?;
    let mut i = ArrayVec::new();
    words.readings(&mut i)?;
    let mut q = ArrayVec::new();
    words.readings(&mut q)?;
    let mut soft = [MARK_SOFT; MOST];
    let soft = soft.get_mut(..words.room()?)?;
    let refusal = Refusal::answer(&modem::soften(&list, &i, &q, soft));
    Some(println!(rt; "{refusal}{}", Spaced(soft)))
}

// Lends a decode as many octets and words as the words say, and shows what it answers.
fn decode<F: FnOnce(&mut [u8], &mut [u64]) -> Result<Answer, Refusal>>(
    rt: &impl Print,
    words: &mut Words,
    decoded_into: F,
) -> Option<io::Result<()>>
    requires { F.IsAlwaysCallable decoded_into }
{
    let mut octets = [MARK; MOST];
    let octets = octets.get_mut(..words.room()?)?;
    let mut working = [MARK_WORD; MOST];
    let working = working.get_mut(..words.room()?)?;
    let answer = decoded_into(octets, working);
    Some(rt.println(Decoded {
        answer,
        octets,
        working,
    }))
}

pub(crate) fn decode_soft(rt: &impl Print, words: &mut Words) -> Option<io::Result<()>> {
    let train = words.description()?;
    let mut soft = ArrayVec::new();
    words.soft_bytes(&mut soft)?;
    decode(rt, words, |octets, working| {
        modem::decode_soft(&train, &soft, octets, working)
    })
}

pub(crate) fn decode_readings(rt: &impl Print, words: &mut Words) -> Option<io::Result<()>> {
    let train = words.description()?;
    let mut i = ArrayVec::new();
    words.readings(&mut i)?;
    let mut q = ArrayVec::new();
    words.readings(&mut q)?;
    decode(rt, words, |octets, working| {
        modem::decode_readings(&train, &i, &q, octets, working)
    })
}
