// Why a call is refused: document 01's table, and the numbers that the requests added to it.
ghost use Rattle.std.specs.Prelude.{◌≡◌};
ghost use Rattle.modes.specs.Refusal.{refusal_number, answer_of};

#[derive(Clone, Copy, Debug, PartialEq, Eq)]
pub enum Refusal {
    Mode,
    Counter,
    Length,
    Octets,
    Symbols,
    Place,
    Input,
    Room,
    Value,
    Cut,
    List,
    Kind,
}

impl Refusal {
    // What a call answers by number: 0 where it is done. `From` cannot give it: u32 and Result are both std's.
    pub fn answer<T>(of: &Result<T, Refusal>) -> u32
        ensures { result ≡ answer_of of.now }
    {
        match of {
            Ok(_) => 0,
            Err(refusal) => u32::from(*refusal),
        }
    }
}

// The number of document 01, which the C names answer and the programs print.
impl From<Refusal> for u32 {
    ghost from_gives = { λ refusal number. number ≡ refusal_number refusal };

    fn from(refusal: Refusal) -> u32 {
        match refusal {
            Refusal::Mode => 1,
            Refusal::Counter => 2,
            Refusal::Length => 3,
            Refusal::Octets => 4,
            Refusal::Symbols => 5,
            Refusal::Place => 6,
            Refusal::Input => 7,
            Refusal::Room => 8,
            Refusal::Value => 9,
            Refusal::Cut => 10,
            Refusal::List => 11,
            Refusal::Kind => 12,
        }
    }
}
