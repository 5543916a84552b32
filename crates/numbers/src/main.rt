// Runs the public calls of `modem`, and the steps of `coder` before the encoder, on what standard input asks for and prints
// what they answer, a line for each.
//
//     encode KIND COUNT MODES LENGTHS COUNTER A OCTETS ROOM   refusal, sent bits
//     inputs KIND COUNTER OCTETS MANY                         the first MANY inputs of the encoder
//     ideal COUNT MODES LENGTHS SENT ROOM-I ROOM-Q            refusal, i, readings, q, readings
//     mapped MODE GROUP                                       refusal, the bits of the two f32 parts in hexadecimal
//     soften COUNT MODES LENGTHS I Q ROOM                     refusal, soft bytes
//     decode_soft KIND COUNT MODES LENGTHS COUNTER A SOFT ROOM-OCTETS ROOM-WORDS
//     decode_readings KIND COUNT MODES LENGTHS COUNTER A I Q ROOM-OCTETS ROOM-WORDS
//                                                             refusal, symbols, n, cost, mark (C D -), comparisons,
//                                                             octets in hexadecimal, how many words at the front are
//                                                             zero, and where those end that are then as they were
//
// KIND is `data` or `bch`. MODES and LENGTHS are decimal numbers with commas and no blanks between them, at most sixteen; an
// entry that is not written is lent as 0. OCTETS, SENT and SOFT are bytes in hexadecimal, I and Q readings of four digits, `-`
// for none; signed numbers in two's complement. The octets of `inputs` are all of a train, and its COUNTER is 0 to 15. ROOM is
// how many elements are lent for the answer; all of them are printed, 7 where the call wrote nothing, or 100 for a soft byte.
// The run ends at the first line that is none of these. host/reference.py makes the input and, from the documents, the output
// that is expected.
#![tactic(auto)]

mod description;
mod far;
mod hexadecimal;
mod inputs;
mod near;
mod shown;
mod words;

use std::io;
use words::Words;

// Does what the next words ask for, and says how printing went; None where they are no command.
fn command(rt: &impl Print, words: &mut Words) -> Option<io::Result<()>> {
    match words.word()? {
        "encode" => near::encode(rt, words),
        "inputs" => inputs::inputs(rt, words),
        "ideal" => near::ideal(rt, words),
        "mapped" => near::mapped(rt, words),
        "soften" => far::soften(rt, words),
        "decode_soft" => far::decode_soft(rt, words),
        "decode_readings" => far::decode_readings(rt, words),
        _ => None,
    }
}

fn run(rt: &impl Print, text: &[u8]) -> io::Result<()> {
    let mut words = Words::new(text);
    // a command has a word at least, so there are no more commands than bytes
    for _ in text {
        let Some(printed) = command(rt, &mut words) else {
            break;
        };
        printed?;
    }
    Ok(())
}

fn main(rt: HostRuntime) -> io::Result<()> {
    let mut text = [0; 262144];
    let n = bench_run::read_full(&mut rt.reader(), &mut text)?;
    run(&rt, &text[..n])
}
