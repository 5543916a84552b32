// The kind of a train and what it decides: where its scrambling begins (000, 5.2), and what its description has to be.
ghost use Rattle.std.specs.Prelude.{◌≡◌};
ghost use Rattle.modes.specs.Kinds.{kind_of, first_scrambled, other_than_bch, other_than};

use crate::Kind;

// 0 is data, any other number BCH.
impl From<u32> for Kind {
    ghost from_gives = { λ number kind. kind ≡ kind_of number };

    #[tactic(auto, unfolding(crate::specs::Kinds::kind_of))]
    fn from(number: u32) -> Kind {
        if number == 0 { Kind::Data } else { Kind::Bch }
    }
}

// The bit at which the scrambler is initialised, counted from 0: the fifth of a BCH, whose frame counter goes unscrambled.
pub fn first_scrambled(kind: Kind) -> usize
    ensures { result ≡ first_scrambled kind }
{
    match kind {
        Kind::Data => 0,
        Kind::Bch => 4,
    }
}

// Whether a list of so many PDUs and bits, the first in this mode, or a is another than a BCH's.
fn other_than_bch(count: u32, sum: usize, mode: u32, a: u32) -> bool
    ensures { result ≡ other_than_bch count sum mode a }
{
    count != 1 || sum != 120 || mode != 1 || a != 0
}

// Whether a train of this kind cannot have such a description.
pub(crate) fn other_than(kind: Kind, count: u32, sum: usize, mode: u32, a: u32) -> bool
    ensures { result ≡ other_than kind count sum mode a }
{
    match kind {
        Kind::Data => false,
        Kind::Bch => other_than_bch(count, sum, mode, a),
    }
}
