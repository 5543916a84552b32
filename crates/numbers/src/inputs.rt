// The command `inputs`: the octets, which are all of the train, through the scrambler, and the zeros behind them.
ghost use Rattle.std.specs.Prelude.{◌≤◌, length};

use crate::shown::{MARK, MOST, print_bits};
use crate::words::Words;
use arrayvec::ArrayVec;
use coder::Scrambler;
use std::io;

// Puts the inputs of the encoder from bit `from` up to `end` into their places, with the scrambler as it is then.
fn fill(from: usize, end: usize, mut scrambler: Scrambler, octets: &[u8], inputs: &mut [u8])
    requires { (from ≤ end) × (end ≤ length inputs.old) × (length octets.now ≤ 14000) }
{
    let bits = 8 * octets.len();
    for t in from..end {
        inputs[t] = coder::input_bit(octets, bits, t, scrambler.state) as u8;
        scrambler.step();
    }
}

pub(crate) fn inputs(rt: &impl Print, words: &mut Words) -> Option<io::Result<()>> {
    let kind = words.kind()?;
    let counter = words.number()?;
    if counter > 15 {
        return None;
    }
    let mut octets = ArrayVec::new();
    words.octets(&mut octets)?;
    let mut inputs = [MARK; MOST];
    let inputs = inputs.get_mut(..words.room()?)?;
    // The scrambler is begun at the first bit that it changes, and rests before.
    let many = inputs.len();
    let first = modes::first_scrambled(kind).min(many);
    fill(0, first, Scrambler::resting(), &octets, inputs);
    fill(first, many, Scrambler::started(counter), &octets, inputs);
    Some(print_bits(rt, inputs))
}
