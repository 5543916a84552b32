// The inner mapper (000, 5.5 and table 5): a group of sent bits becomes a level on I and a level on Q, and these the point
// in f32 that a carrier transmits, or the ideal reading of it. The interleaver is not here. Nothing is refused here:
// callers test their lengths and groups, and the bits by `bits_ok`.
#![tactic(auto)]

ghost use Rattle.std.specs.Prelude.{◌≡◌, ◌+◌, ◌*◌, ◌<◌, ◌≤◌, length};
ghost use Rattle.modes.specs.Modes.{bits_of};
ghost use Rattle.points.specs.Levels.{table, level, level_i, level_q, value_of, all_bits};
ghost use Rattle.points.specs.Points.{ideal_i, ideal_q, Room, Ideal, k_of, part};

use modes::Constellation;

// Table 5: a row for no bits on an axis, for one, two and three, and in it the levels by the bits' value.
// Its rows are filled up with zeros: rows of their own lengths, as slices, take three to five instructions more for a carrier.
const LEVELS: [[i16; 8]; 4] = [
    [0, 0, 0, 0, 0, 0, 0, 0],
    [-1, 1, 0, 0, 0, 0, 0, 0],
    [-3, -1, 3, 1, 0, 0, 0, 0],
    [-7, -5, -1, -3, 7, 5, 1, 3],
];

// The f32 nearest to 1/sqrt(2), 1/sqrt(10) and 1/sqrt(42).
const K2: f32 = 0.70710678;

const K10: f32 = 0.31622776;

const K42: f32 = 0.15430336;

// The transmitter's d for a carrier.
#[derive(Clone, Copy, Debug, Default, PartialEq)]
pub struct Point {
    pub i: f32,
    pub q: f32,
}

// The level of some bits on an axis, 0 where table 5 gives none.
fn level_of(width: usize, bits: usize) -> i16
    requires { width < 4 }
    ensures { result ≡ level (table width) bits }
{
    if bits < 8 { LEVELS[width][bits] } else { 0 }
}

// The levels on I and Q of a group's value. The last half of a group's bits is for Q, and of BPSK's one bit none.
fn levels_of(c: Constellation, group: usize) -> (i16, i16)
    ensures { (result.0 ≡ level_i c group) × (result.1 ≡ level_q c group) }
{
    let b = modes::bits_per_carrier(c) as usize;
    let for_q = b / 2;
    let on_i = level_of(b - for_q, group >> for_q);
    let on_q = level_of(for_q, group % (1 << for_q));
    (on_i, on_q)
}

// K of document 01.
fn scale(c: Constellation) -> f32
    ensures { result ≡ k_of c }
{
    match c {
        Constellation::Bpsk => 1.0,
        Constellation::Qpsk => K2,
        Constellation::Qam16 => K10,
        Constellation::Qam64 => K42,
    }
}

// The point of a group's value.
pub fn point_of(c: Constellation, group: usize) -> Point
    ensures { (result.i ≡ part c (level_i c group)) × (result.q ≡ part c (level_q c group)) }
{
    let k = scale(c);
    let (i, q) = levels_of(c, group);
    Point {
        i: f32::from(i) * k,
        q: f32::from(q) * k,
    }
}

// The value of at most six bits, the earliest the highest.
fn value_of(bits: &[u8]) -> usize
    requires { length bits.now ≤ 6 }
    ensures { result ≡ value_of bits.now 0 (length bits.now) }
{
    let mut value = 0;
    for bit in bits {
        value = 2 * value + usize::from(*bit);
    }
    value
}

// The ideal reading of carrier k on I and on Q.
fn ideal_of(c: Constellation, sent: &[u8], k: usize) -> (i16, i16)
    requires { bits_of c * k + bits_of c ≤ length sent.now }
    ensures { (result.0 ≡ ideal_i c sent.now k) × (result.1 ≡ ideal_q c sent.now k) }
{
    let b = modes::bits_per_carrier(c) as usize;
    let at = b * k;
    let (i, q) = levels_of(c, value_of(&sent[at..at + b]));
    (256 * i, 256 * q)
}

// The ideal readings of as many carriers, from the bits as they were sent.
pub fn readings(c: Constellation, carriers: usize, sent: &[u8], i: &mut [i16], q: &mut [i16])
    requires { Room c carriers sent.now i.old q.old }
    ensures { Ideal c carriers sent.now i.old q.old i.new q.new }
{
    for k in 0..carriers {
        (i[k], q[k]) = ideal_of(c, sent, k);
    }
}

// Whether every byte is a bit.
pub fn bits_ok(sent: &[u8]) -> bool
    ensures { result ≡ all_bits sent.now }
{
    sent.iter().all(|bit| *bit < 2)
}
