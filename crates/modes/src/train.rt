// What has to be known of a train besides its octets: its PDUs one after the other, each with its mode and length, of a list that is not
// refused; and what is counted over all of them.
ghost use Rattle.std.specs.Prelude.{◌≡◌, ◌≤◌, map, take};
ghost use Rattle.laws.specs.Ladder.{ladder};
ghost use Rattle.modes.specs.Refusals.{list_sized};
ghost use Rattle.modes.specs.Description.{held};

use crate::refusals::tested;
use crate::{Description, Kind, Pdu, PduList, Refusal};

// Only the first `count` PDUs are meant. An ArrayVec would say so by its type, but it is not Copy, and a train is.
#[derive(Clone, Copy)]
pub struct Train {
    pub kind: Kind,
    pub pdus: [Pdu; 16],
    pub count: usize,
    pub counter: u32,
    pub a: usize,
    pub ghost few: { count ≤ 16 },
    pub ghost fit: { ladder (list_sized (map held (take count pdus))) ≡ 0 },
}

// A train's information bits, symbols and sent bits, over all its PDUs.
#[derive(Clone, Copy)]
pub struct Counts {
    pub n: usize,
    pub symbols: usize,
    pub sent: usize,
}

impl Train {
    ghost use Rattle.modes.specs.Pdus.{length_of, symbols_of, sent_of};
    ghost use Rattle.modes.specs.Refusal.{answer_of};
    ghost use Rattle.modes.specs.Refusals.{encode_described};
    ghost use Rattle.modes.specs.Description.{FitList};
    ghost use Rattle.modes.specs.Passed.{told, pdus_in, Describes};
    ghost use Rattle.std.specs.Prelude.{IfOk};

    // The train of a description whose list is not refused.
    pub fn of(by: &Description) -> Train
        requires { FitList (told by.now.list) }
        ensures { Describes by.now.kind (told by.now.list) by.now.counter by.now.a result }
    {
        Train {
            kind: by.kind,
            pdus: by.list.pdus(),
            count: by.list.count as usize,
            counter: by.counter,
            a: by.a as usize,
        }
    }

    // The same, or what the description is refused for.
    pub fn described(by: &Description) -> Result<Train, Refusal>
        ensures answer { answer_of result ≡ ladder (encode_described by.now.kind (told by.now.list) by.now.counter by.now.a) }
        ensures done { IfOk result (Describes by.now.kind (told by.now.list) by.now.counter by.now.a) }
    {
        tested(by)?;
        Ok(Train::of(by))
    }

    // The same in a call that has no kind, no counter and no a. With data and 0 for these, their tests refuse nothing.
    pub fn sized(list: &PduList) -> Result<Train, Refusal>
        ensures answer { answer_of result ≡ ladder (list_sized (told list.now)) }
        ensures done { IfOk result (Describes Kind.Data (told list.now) 0 0) }
    {
        Train::described(&Description {
            kind: Kind::Data,
            list: *list,
            counter: 0,
            a: 0,
        })
    }

    // Its PDUs, and nothing past their count.
    pub fn as_slice(&self) -> &[Pdu]
        ensures value { result.now ≡ take self.now.count self.now.pdus }
    {
        &self.pdus[..self.count]
    }

    pub fn counts(&self) -> Counts
        ensures n { result.n ≡ length_of (pdus_in self.now) }
        ensures symbols { result.symbols ≡ symbols_of (pdus_in self.now) }
        ensures sent { result.sent ≡ sent_of (pdus_in self.now) }
    {
        let mut counts = Counts {
            n: 0,
            symbols: 0,
            sent: 0,
        };
        for pdu in self.as_slice() {
            counts.n += pdu.n;
            counts.symbols += pdu.symbols();
            counts.sent += pdu.sent_bits();
        }
        counts
    }
}
