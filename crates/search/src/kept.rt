// What a pass keeps of a step: the passes step alike, and the first keeps the choices, the mark's the gaps.
ghost use Rattle.std.specs.Prelude.{◌≡◌, ℕ, ◌+◌, ◌<◌, slice_index};
ghost use Rattle.search.specs.Stored.{top, Stored};
ghost use Rattle.search.specs.Words.{four_bits, Chosen};
ghost use Rattle.search.specs.Kept.{Four, Quarters, Choosing, quarters_all, choosing_all};

use crate::step::HALF;

pub type Choices = [u8; 16];

pub type Gaps = [u16; 64];

// Made of a number f s for each state s, four states at a time: j, j + 16, j + 32 and j + 48.
pub trait Kept: Copy {
    // Of all states.
    ghost keeps: { (ℕ → ℕ) → Self → Type 0 };

    // Of the fours below j.
    ghost keeps_below: { (ℕ → ℕ) → ℕ → Self → Type 0 };

    fn none() -> Self
        ensures { (f : ℕ → ℕ) → keeps_below f 0 result };

    fn put(&mut self, j: usize, four: [u16; 4])
        requires { j < 16 }
        ensures { (f : ℕ → ℕ) → keeps_below f j self.old → Four f j four → keeps_below f (j + 1) self.new };

    ghost whole: { (f : ℕ → ℕ) (kept : Self) → keeps_below f 16 kept → keeps f kept };
}

impl Kept for [u16; 64] {
    ghost keeps = { Stored };

    ghost keeps_below = { Quarters };

    ghost whole = { quarters_all };

    fn none() -> Self {
        [0; 64]
    }

    fn put(&mut self, j: usize, four: [u16; 4]) {
        self[j] = four[0];
        self[j + 16] = four[1];
        self[j + 32] = four[2];
        self[j + 48] = four[3];
    }
}

// 1 where the way with oldest bit 1 is the better one.
#[tactic(auto, using(crate::proofs::WordLaws::top_is))]
fn top_of(gap: u16) -> u16
    ensures { (result ≡ top gap) × (result < 2) }
{
    gap / HALF
}

// Four of these in a byte.
fn four_of(gaps: [u16; 4]) -> u8
    ensures { result ≡ four_bits (top (slice_index gaps 0)) (top (slice_index gaps 1)) (top (slice_index gaps 2)) (top (slice_index gaps 3)) }
{
    (top_of(gaps[0]) + 4 * top_of(gaps[1]) + 16 * top_of(gaps[2]) + 64 * top_of(gaps[3])) as u8
}

// Bit 2 q of byte j is that of state j + 16 q.
impl Kept for [u8; 16] {
    ghost keeps = { Chosen };

    ghost keeps_below = { Choosing };

    ghost whole = { choosing_all };

    fn none() -> Self {
        [0; 16]
    }

    fn put(&mut self, j: usize, four: [u16; 4]) {
        self[j] = four_of(four);
    }
}
