// What the slices that a call is lent are tested for, once its description has passed: refusals 7, 8, and 9 or the one in its place.
ghost use Rattle.std.specs.Prelude.{◌≡◌, ◌||◌, ◌+◌, ◌≤◌, not, eqb, ltb};
ghost use Rattle.laws.specs.Ladder.{ladder};
ghost use Rattle.modes.specs.Refusal.{answer_of};
ghost use Rattle.modes.specs.Sizes.{octets_of};
ghost use Rattle.modem.specs.Lent.{lent_by};

use modes::Refusal;

// An input slice of the wrong length, an output or working slice too short, and the refusal of a value that is not allowed.
#[tactic(auto, unfolding(laws::specs::Ladder::ladder))]
pub(crate) fn lent_tested(wrong: bool, short: bool, value: Option<Refusal>) -> Result<(), Refusal>
    ensures { answer_of result ≡ ladder (lent_by wrong short value) }
{
    if wrong {
        return Err(Refusal::Input);
    }
    if short {
        return Err(Refusal::Room);
    }
    match value {
        Some(refusal) => Err(refusal),
        None => Ok(()),
    }
}

// Whether the readings of I or of Q are not as many as the carriers.
pub(crate) fn readings_wrong(carriers: usize, i: usize, q: usize) -> bool
    ensures { result ≡ (not (eqb i carriers) || not (eqb q carriers)) }
{
    i != carriers || q != carriers
}

// Whether there is too little room for the readings of I or of Q.
pub(crate) fn axes_short(carriers: usize, i: usize, q: usize) -> bool
    ensures { result ≡ (ltb i carriers || ltb q carriers) }
{
    i < carriers || q < carriers
}

// Whether there is too little room for the octets of n bits, or for the working words.
#[tactic(auto, unfolding(modes::specs::Sizes::octets_of))]
pub(crate) fn room_short(n: usize, octets: usize, words: usize) -> bool
    requires { n ≤ 3456 }
    ensures { result ≡ (ltb octets (octets_of n) || ltb words (n + 6)) }
{
    octets < n / 8 || words < n + 6
}
