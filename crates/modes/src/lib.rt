// The modes of document 01 (000, table 1), the kinds of train (kinds.rt), what a call is told of its train (description.rt), why it is
// refused (refusal.rt) and the tests for that (refusals.rt): 11, 1 to 6 and 12, in the customer's order. What has passed is a Train (train.rt),
// which holds the PDUs with their modes. Lengths of slices, and what stands in them, are tested by the calls.
#![tactic(auto)]

mod description;
mod kinds;
mod refusal;
mod refusals;
mod train;

ghost use Rattle.std.specs.Prelude.{◌≡◌, ◌*◌, ◌≤◌, ◌/◌};
ghost use Rattle.modes.specs.Modes.{constellation_of, rate_of, bits_of, info_of, number};
ghost use Rattle.modes.specs.Sizes.{symbols, sent_bits};
ghost use Rattle.modes.specs.Description.{Fit};
ghost use Rattle.modes.specs.Passed.{ModeOf};

pub use description::{Description, PduList};
pub use kinds::first_scrambled;
pub use refusal::Refusal;
use std::fmt;
pub use train::{Counts, Train};

#[derive(Clone, Copy, Debug, Default, PartialEq, Eq)]
pub enum Constellation {
    #[default]
    Bpsk,
    Qpsk,
    Qam16,
    Qam64,
}

impl fmt::Display for Constellation {
    fn fmt<W: fmt::Write>(&self, f: &mut fmt::Formatter<W>) -> fmt::Result {
        f.write_str(match self {
            Constellation::Bpsk => "BPSK",
            Constellation::Qpsk => "QPSK",
            Constellation::Qam16 => "16QAM",
            Constellation::Qam64 => "64QAM",
        })
    }
}

#[derive(Clone, Copy, Debug, Default, PartialEq, Eq)]
pub enum Rate {
    #[default]
    Half,
    NineSixteenths,
    ThreeQuarters,
}

// A train of data, or the broadcast channel: one PDU of 120 bits in mode 1, of which the first four are the frame counter.
#[derive(Clone, Copy, Debug, PartialEq, Eq)]
pub enum Kind {
    Data,
    Bch,
}

#[derive(Clone, Copy, Debug, Default, PartialEq, Eq)]
pub struct Mode {
    pub constellation: Constellation,
    pub rate: Rate,
}

// That a PDU is one of document 01's stays a clause of the three functions that need it: a `Train` keeps it, and more, of its whole list.
#[derive(Clone, Copy, Debug, Default, PartialEq, Eq)]
pub struct Pdu {
    pub mode: Mode,
    pub n: usize,
}

// The mode of a number. A number that is no mode's gives a pair that is no mode: this cannot fail, as it never could, and `try_from` can.
pub fn mode_of(number: u32) -> Mode
    ensures { (result.constellation ≡ constellation_of number) × (result.rate ≡ rate_of number) }
{
    match number {
        1 => Mode {
            constellation: Constellation::Bpsk,
            rate: Rate::Half,
        },
        2 => Mode {
            constellation: Constellation::Bpsk,
            rate: Rate::ThreeQuarters,
        },
        3 => Mode {
            constellation: Constellation::Qpsk,
            rate: Rate::Half,
        },
        4 => Mode {
            constellation: Constellation::Qpsk,
            rate: Rate::ThreeQuarters,
        },
        5 => Mode {
            constellation: Constellation::Qam16,
            rate: Rate::NineSixteenths,
        },
        6 => Mode {
            constellation: Constellation::Qam16,
            rate: Rate::ThreeQuarters,
        },
        7 => Mode {
            constellation: Constellation::Qam64,
            rate: Rate::ThreeQuarters,
        },
        _ => Mode {
            constellation: Constellation::Qam64,
            rate: Rate::Half,
        },
    }
}

impl TryFrom<u32> for Mode {
    type Error = Refusal;

    ghost try_from_gives = { ModeOf };

    #[tactic(auto, unfolding(laws::specs::Ladder::ladder))]
    fn try_from(number: u32) -> Result<Mode, Refusal> {
        if !(1..=7).contains(&number) {
            return Err(Refusal::Mode);
        }
        Ok(mode_of(number))
    }
}

pub fn bits_per_carrier(c: Constellation) -> u32
    ensures { (result ≡ bits_of c) × (1 ≤ result) × (result ≤ 6) }
{
    match c {
        Constellation::Bpsk => 1,
        Constellation::Qpsk => 2,
        Constellation::Qam16 => 4,
        Constellation::Qam64 => 6,
    }
}

fn info_per_symbol(m: Mode) -> u32
    ensures { (result ≡ info_of m.constellation m.rate) × (24 ≤ result) × (result ≤ 216) }
{
    let c = m.constellation;
    let rate = m.rate;
    let bits = bits_per_carrier(c);
    match rate {
        Rate::Half => 24 * bits,
        Rate::NineSixteenths => 27 * bits,
        Rate::ThreeQuarters => 36 * bits,
    }
}

impl Pdu {
    pub fn symbols(self) -> usize
        requires { Fit (number self.mode) self.n }
        ensures { (result ≡ symbols (number self.mode) self.n) × (result ≤ 144) }
    {
        self.n / (info_per_symbol(self.mode) as usize)
    }

    pub fn sent_bits(self) -> usize
        requires { Fit (number self.mode) self.n }
        ensures { result ≡ sent_bits (number self.mode) self.n }
    {
        let per_symbol = 48 * bits_per_carrier(self.mode.constellation);
        self.symbols() * (per_symbol as usize)
    }
}
