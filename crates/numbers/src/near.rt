// The commands of the near end: sending, and what is sent as points.
use crate::shown::{MARK, MARK_READING, MOST, Spaced, pattern, print_bits};
use crate::words::Words;
use arrayvec::ArrayVec;
use modes::Refusal;
use std::io;

pub(crate) fn encode(rt: &impl Print, words: &mut Words) -> Option<io::Result<()>> {
    let train = words.description()?;
    let mut octets = ArrayVec::new();
    words.octets(&mut octets)?;
    let mut sent = [MARK; MOST];
    let sent = sent.get_mut(..words.room()?)?;
    let refusal = Refusal::answer(&modem::encode(&train, &octets, sent));
    Some(print_sent(rt, refusal, sent))
}

// The refusal, and the sent bits, a blank before them where there are any.
fn print_sent(rt: &impl Print, refusal: u32, sent: &mut [u8]) -> io::Result<()> {
    let gap = if sent.is_empty() { "" } else { " " };
    print!(rt; "{refusal}{gap}")?;
    print_bits(rt, sent)
}

pub(crate) fn ideal(rt: &impl Print, words: &mut Words) -> Option<io::Result<()>> {
    let list = words.list_of_pdus()?;
    let mut sent = ArrayVec::new();
    words.octets(&mut sent)?;
    let mut i = [MARK_READING; MOST];
    let i = i.get_mut(..words.room()?)?;
    let mut q = [MARK_READING; MOST];
    let q = q.get_mut(..words.room()?)?;
    let refusal = Refusal::answer(&modem::ideal(&list, &sent, i, q));
    Some(println!(rt; "{refusal} i{} q{}", Spaced(i), Spaced(q)))
}

pub(crate) fn mapped(rt: &impl Print, words: &mut Words) -> Option<io::Result<()>> {
    let answer = modem::mapped(words.number()?, words.number()?);
    let refusal = Refusal::answer(&answer);
    let point = answer.unwrap_or_default();
    let i = pattern(point.i);
    let q = pattern(point.q);
    Some(println!(rt; "{refusal} {i:08x} {q:08x}"))
}
