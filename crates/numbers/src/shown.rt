// What is printed of an answer: all elements of a lent buffer, as the call left them. A buffer is filled with MARK before it
// is lent, so what a call did not write shows.
ghost use Rattle.std.specs.Prelude.{◌≤◌, length};

use modem::{Answer, Refusal};
use std::{fmt, io};

// The most elements that are lent.
pub(crate) const MOST: usize = 7000;

// No bit, no ideal reading and no working word that is left has this value.
pub(crate) const MARK: u8 = 7;

pub(crate) const MARK_READING: i16 = 7;

pub(crate) const MARK_WORD: u64 = 7;

// No soft byte has this one.
pub(crate) const MARK_SOFT: i8 = 100;

// Prints bits, a digit each, and ends the line. They are spelled out in place and written in one piece: bit by bit through `Display` a line
// of 7,000 took up to sixteen times as long, and as a text, whose UTF-8 is then tested, up to three times.
pub(crate) fn print_bits(rt: &impl Print, bits: &mut [u8]) -> io::Result<()> {
    for bit in bits.iter_mut() {
        *bit ^= b'0';
    }
    rt.write_all(bits)?;
    rt.write_all(b"\n")
}

// Numbers, a blank before each.
#[derive(Drop)]
pub(crate) struct Spaced<'a, T>(pub(crate) &'a [T]);

impl<T: fmt::Display> fmt::Display for Spaced<'_, T> {
    fn fmt<W: fmt::Write>(&self, f: &mut fmt::Formatter<W>) -> fmt::Result {
        for number in self.0 {
            write!(f, " {number}")?;
        }
        Ok(())
    }
}

#[derive(Drop)]
struct Octets<'a>(&'a [u8]);

impl fmt::Display for Octets<'_> {
    fn fmt<W: fmt::Write>(&self, f: &mut fmt::Formatter<W>) -> fmt::Result {
        for octet in self.0 {
            write!(f, "{octet:02x}")?;
        }
        Ok(())
    }
}

// How many words at the front have this value.
fn leading(words: &[u64], value: u64) -> usize
    ensures { result ≤ length words.now }
{
    words
        .iter()
        .position(|&word| word != value)
        .unwrap_or(words.len())
}

// How many words at the front are zero, and where the marks after these end: at the last word, where all is well.
#[derive(Drop)]
struct Working<'a>(&'a [u64]);

impl fmt::Display for Working<'_> {
    fn fmt<W: fmt::Write>(&self, f: &mut fmt::Formatter<W>) -> fmt::Result {
        let words = self.0;
        let zeros = leading(words, 0);
        let end = zeros + leading(&words[zeros..], MARK_WORD);
        write!(f, "{zeros} {end}")
    }
}

// A decode: its refusal, symbols, n and cost, its mark as the bench prints it, its comparisons, and what it left in the buffers.
#[derive(Drop)]
pub(crate) struct Decoded<'a> {
    pub(crate) answer: Result<Answer, Refusal>,
    pub(crate) octets: &'a [u8],
    pub(crate) working: &'a [u64],
}

impl fmt::Display for Decoded<'_> {
    fn fmt<W: fmt::Write>(&self, f: &mut fmt::Formatter<W>) -> fmt::Result {
        let refusal = Refusal::answer(&self.answer);
        let answer = self.answer.unwrap_or_default();
        let mark = char::from(record::mark_of(refusal, answer.confirmed));
        write!(
            f,
            "{refusal} {} {} {} {mark} {} {} {}",
            answer.symbols,
            answer.n,
            answer.cost,
            answer.comparisons,
            Octets(self.octets),
            Working(self.working)
        )
    }
}

// The bits of a float. Which ones a NaN has cannot be told: it shows as ffffffff.
pub(crate) fn pattern(x: f32) -> u32 {
    if x.is_nan() { u32::MAX } else { x.to_bits() }
}
