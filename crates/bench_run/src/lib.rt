// A whole run of the bench (document 01): records of 60 bytes from standard input until it ends, a line for each to standard
// output. What a line says of a record is `record::line_of`; here is only reading and printing. `numbers` reads its input by
// `read_full` too.
#![tactic(auto)]

ghost use Rattle.std.specs.Prelude.{◌<◌, ◌≤◌, length, take, IfOk};
ghost use Rattle.std.specs.Io.KnownBytes.{Consumes, IsAtEnd};

use modes::Refusal;
use record::Line;
use std::io;
use std::io::Read;

fn print_line(rt: &impl Print, k: u64, line: Result<Line, Refusal>) -> io::Result<()> {
    let refusal = Refusal::answer(&line);
    let line = line.unwrap_or_default();
    let mark = char::from(record::mark_of(refusal, line.confirmed));
    println!(rt;
        "{k} {refusal} {} {} {} {mark}",
        line.symbols, line.n, line.cost
    )
}

// Reads until all of the bytes have come or the input has ended; how many came. A loop, since std's `read_exact` says little of an
// input that ends early, and each turn goes on by as many bytes as came.
pub fn read_full<R: Read>(input: &mut R, bytes: &mut [u8]) -> io::Result<usize>
    ensures fits { IfOk result (λ n. n ≤ length bytes.new) }
    ensures came { IfOk result (λ n. Consumes (R.remaining input.old) (R.remaining input.new) (take n bytes.new)) }
    ensures ended { IfOk result (λ n. n < length bytes.new → IsAtEnd (R.remaining input.new)) }
{
    let mut got = 0;
    while got < bytes.len() {
        let more = input.read(&mut bytes[got..])?;
        if more == 0 {
            return Ok(got);
        }
        got += more;
    }
    Ok(got)
}

// Prints a line for each record; of one that is cut off, where the input ends too, that it is refused.
pub fn run(rt: &(impl Input + Print)) -> io::Result<()> {
    let mut input = rt.reader();
    // A line's number has 64 bits.
    for k in 0..u64::MAX {
        let mut bytes = [0u8; 60];
        match read_full(&mut input, &mut bytes)? {
            60 => print_line(rt, k, record::line_of(&bytes))?,
            0 => return Ok(()),
            _ => return print_line(rt, k, Err(Refusal::Cut)),
        }
    }
    Ok(())
}
