// P1 and P2 (000, 5.3.1.2) backwards: the coded bit that they put out at a given place. Tables 2 and 3 are worked out, so that
// no table has to be lent to the loops; they are proved to be the tables of specs/.
ghost use Rattle.std.specs.Prelude.{◌≡◌, ◌+◌, ◌<◌, ◌≤◌, get_or};
ghost use Rattle.places.specs.Selection.{origin};
ghost use Rattle.places.specs.Puncture.{p1_kept, p2_kept_3_4, p2_kept_9_16, p1, p2};
ghost use Rattle.places.specs.Sending.{source_of};

use modes::Rate;

// Table 2: of a period's 26 coded bits the one that goes out at r. X7 and Y13 are dropped, and X8 goes out before Y7.
fn p1_kept(r: usize) -> usize
    requires { r < 24 }
    ensures { (result ≡ get_or p1_kept r 0) × (result < 26) }
{
    if r < 12 {
        return r;
    }
    if r % 2 == 0 { r + 2 } else { r }
}

// The coded bit that P1 puts out at p.
#[tactic(auto, using(crate::proofs::OriginLaws::p1_before, crate::proofs::OriginLaws::p1_inside, crate::proofs::OriginLaws::p1_behind))]
fn p1_origin(a: usize, p: usize) -> usize
    requires { (a ≤ 6912) × (p ≤ 6912) }
    ensures { result ≡ origin (p1 a) p }
{
    if p < 2 * a {
        return p;
    }
    let inside = p - 2 * a;
    if inside < 144 {
        return 2 * a + (26 * (inside / 24) + p1_kept(inside % 24));
    }
    p + 12
}

// Table 3, rate 3/4: of each 6 the one that stays at r.
fn p2_kept_3_4(r: usize) -> usize
    requires { r < 4 }
    ensures { (result ≡ get_or p2_kept_3_4 r 0) × (result < 6) }
{
    if r < 3 { r } else { 5 }
}

// Table 3, rate 9/16: of each 18 the one that stays at r.
fn p2_kept_9_16(r: usize) -> usize
    requires { r < 16 }
    ensures { (result ≡ get_or p2_kept_9_16 r 0) × (result < 18) }
{
    if r < 9 {
        return r;
    }
    if r < 15 { r + 1 } else { 17 }
}

// The bit of P1's output that P2 puts out at q.
fn p2_origin(rate: Rate, q: usize) -> usize
    requires { q < 6912 }
    ensures { result ≡ origin (p2 rate) q }
{
    match rate {
        Rate::Half => q,
        Rate::ThreeQuarters => 6 * (q / 4) + p2_kept_3_4(q % 4),
        Rate::NineSixteenths => 18 * (q / 16) + p2_kept_9_16(q % 16),
    }
}

// P1, and then the P2 of a PDU whose share of P1's output begins at `first`.
#[derive(Clone, Copy)]
pub(crate) struct Punctured {
    pub(crate) rate: Rate,
    pub(crate) a: usize,
    pub(crate) first: usize,
}

impl Punctured {
    // The coded bit that is put out at q.
    pub(crate) fn source(self, q: usize) -> usize
        requires { (self.a ≤ 3456) × (q < 6912) × (self.first + origin (p2 self.rate) q < 6912) }
        ensures { result ≡ source_of self.rate self.a self.first q }
    {
        p1_origin(self.a, self.first + p2_origin(self.rate, q))
    }
}
