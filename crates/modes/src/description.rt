// What a call is told of its train besides its octets. Nothing of it has been tested.
ghost use Rattle.std.specs.Prelude.{◌≡◌, map, take};
ghost use Rattle.modes.specs.Kinds.{heeded};
ghost use Rattle.modes.specs.Pdus.{pdus_of};
ghost use Rattle.modes.specs.Description.{FitList, held, Holds};

use crate::{Kind, Pdu, mode_of};

// The PDUs: how many, and the mode and the length of each. What stands past the count is not read. How many stands beside the
// arrays, which C lends so, for a count above 16 has a refusal of its own.
#[derive(Clone, Copy)]
pub struct PduList {
    pub count: u32,
    pub modes: [u32; 16],
    pub lengths: [u32; 16],
}

#[derive(Clone, Copy)]
pub struct Description {
    pub kind: Kind,
    pub list: PduList,
    pub counter: u32,
    pub a: u32,
}

fn pdu_of(mode: u32, n: u32) -> Pdu
    ensures { Holds mode n result }
{
    Pdu {
        mode: mode_of(mode),
        n: n as usize,
    }
}

impl PduList {
    // The PDUs of a list that passes, as many as its count says.
    pub(crate) fn pdus(&self) -> [Pdu; 16]
        requires { FitList (pdus_of self.now.count self.now.modes self.now.lengths) }
        ensures { map held (take self.now.count result) ≡ pdus_of self.now.count self.now.modes self.now.lengths }
    {
        let mut pdus = [Pdu::default(); 16];
        for k in 0..self.count as usize {
            pdus[k] = pdu_of(self.modes[k], self.lengths[k]);
        }
        pdus
    }
}

impl Description {
    // What a decode goes by. A BCH brings its own counter and the caller's is not read: 0, which no test refuses, stands for it.
    pub fn heeded(&self) -> Description
        ensures { result ≡ record self.now { counter = heeded self.now.kind self.now.counter } }
    {
        let counter = match self.kind {
            Kind::Data => self.counter,
            Kind::Bch => 0,
        };
        Description { counter, ..*self }
    }
}
