// The interleaver's sheet, to hang on the wall: of every bit of a symbol its number, the place that it goes to, and which
// carrier's bit that place is. It is printed from the places that the calls use.
#![tactic(auto)]

ghost use Rattle.std.specs.Prelude.{◌<◌, ◌≤◌};

use modes::Constellation;
use std::io;

// At the right of a column of five characters.
fn print_number(rt: &impl Print, number: u16) -> io::Result<()> {
    print!(rt; "  {number:3}")
}

// Which bit of its carrier a place is, counted from 1 as table 5 counts them.
fn carrier_bit(place: u16, b: u16) -> u16
    requires { (1 ≤ b) × (b ≤ 6) }
{
    place % b + 1
}

fn print_carrier_bit(rt: &impl Print, number: u16) -> io::Result<()> {
    print!(rt; "   b{number}")
}

// A line of a row: its name, and what is printed of each of the sixteen bits, by the bit and the place that it goes to.
fn print_line<F: Fn(u16, u16) -> io::Result<()>>(
    rt: &impl Print,
    name: &str,
    places: &[u16; 288],
    row: u16,
    print_entry: F,
) -> io::Result<()>
    requires row { row < 18 }
    requires entry { F.IsAlwaysCallable print_entry }
{
    rt.print(name)?;
    for k in 16 * row..16 * row + 16 {
        print_entry(k, places[k as usize])?;
    }
    rt.print("\n")
}

// The four lines of a row of sixteen bits, where a carrier has b bits.
fn print_row(rt: &impl Print, places: &[u16; 288], row: u16, b: u16) -> io::Result<()>
    requires { (row < 18) × (1 ≤ b) × (b ≤ 6) }
{
    print_line(rt, "bit    ", places, row, |k, _| print_number(rt, k))?;
    print_line(
        rt,
        "place  ",
        places,
        row,
        |_, place| print_number(rt, place),
    )?;
    print_line(
        rt,
        "carrier",
        places,
        row,
        |_, place| print_number(rt, place / b),
    )?;
    print_line(
        rt,
        "its bit",
        places,
        row,
        |_, place| print_carrier_bit(rt, carrier_bit(place, b)),
    )?;
    rt.print("\n")
}

fn print_symbol(rt: &impl Print, c: Constellation) -> io::Result<()> {
    let places = places::symbol_places(c);
    let b = modes::bits_per_carrier(c) as u16;
    let size = 48 * b;
    print!(rt; "{c}: symbols of {size} bits, {b} to a carrier\n\n")?;
    for row in 0..size / 16 {
        print_row(rt, &places, row, b)?;
    }
    Ok(())
}

fn main(rt: HostRuntime) -> io::Result<()> {
    rt.print(
        "The interleaver of ETSI TS 101 475, clause 5.4. Bit k of a symbol goes to the place below it, which is\n",
    )?;
    rt.print(
        "the carrier's bit below that. All are counted from 0, but a carrier's bits are b1 to b6, b1 the earliest.\n\n",
    )?;
    for c in [
        Constellation::Bpsk,
        Constellation::Qpsk,
        Constellation::Qam16,
        Constellation::Qam64,
    ] {
        print_symbol(&rt, c)?;
    }
    Ok(())
}
