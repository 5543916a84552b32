// Soft bytes (document 01): a reading is held to -2,048 to 2,048, and for each bit of its axis S, by squared distances to the
// levels, is rounded to a soft byte. The code has S in closed form, proved to be that of specs/ for every reading. Nothing is
// refused here: callers test their lengths, and soft bytes that they are given by `soft_ok`.
#![tactic(auto)]

ghost use Rattle.std.specs.Prelude.{◌≡◌, ◌+◌, ◌-◌, ◌*◌, ◌<◌, ◌≤◌, pos, ◌-ℤ◌, length};
ghost use Rattle.laws.specs.Lists.{filled};
ghost use Rattle.laws.specs.Signed.{counted};
ghost use Rattle.modes.specs.Modes.{bits_of};
ghost use Rattle.soft.specs.Soft.{held};
ghost use Rattle.soft.specs.Carriers.{soft_at, all_soft, Readings};
ghost use Rattle.soft.specs.Closed.{strength, folded, byte_from, soft_from};
ghost use Rattle.soft.specs.Stored.{stored};

use modes::Constellation;

// A reading held, counted from -2,048.
#[derive(Clone, Copy)]
struct Held {
    p: u32,
    ghost within: { p ≤ 4096 },
}

impl Held {
    // Here the sign goes, and `lowered` brings it back.
    fn of(r: i16) -> Held
        ensures { result.p ≡ counted 2048 (held r) }
    {
        Held {
            p: u32::from(r.clamp(-2048, 2048).abs_diff(-2048)),
        }
    }

    // The size of S of the first of v bits.
    fn strength(self, v: usize) -> u32
        requires { (1 ≤ v) × (v ≤ 3) }
        ensures { (result ≡ strength v ((self.p - 2048) + (2048 - self.p))) × (result ≤ 5120) }
    {
        let m = self.p.abs_diff(2048);
        if v == 1 {
            return m;
        }
        let s = m + m.saturating_sub(512);
        if v == 2 {
            return s;
        }
        s + m.saturating_sub(1024) + m.saturating_sub(1536)
    }

    // The soft byte of the first of v bits, counted from -128: halves are rounded away from zero, which is 128 here.
    #[tactic(auto, using(crate::proofs::ClosedLaws::side_below, crate::proofs::ClosedLaws::side_above), unfolding(crate::specs::Closed::byte_from))]
    fn first_byte(self, v: usize) -> u32
        requires { (1 ≤ v) × (v ≤ 3) }
        ensures { (result ≡ byte_from v self.p) × (result < 256) }
    {
        let n = self.strength(v);
        if 2048 <= self.p {
            128 + (n + 32) / 64
        } else {
            128 - (n + 32) / 64
        }
    }

    // The reading whose first bit is the second of the v bits here.
    fn folded(self, v: usize) -> Held
        requires { v ≤ 3 }
        ensures { result.p ≡ folded v self.p }
    {
        let p = 2048 + (128 << v) - self.p.abs_diff(2048);
        Held { p }
    }
}

// A soft byte that was counted from -128. It is cast: `i8::try_from` would have an error that no x here has.
fn lowered(x: u32) -> i8
    requires { x < 256 }
    ensures { result ≡ pos x -ℤ pos 128 }
{
    i8::MIN.saturating_add_unsigned(x as u8)
}

// The soft bytes of a reading of w bits, from `at` on: each bit is the first of those that are left. How many are left stays a parameter of
// the methods above: it is this loop's own count, and a field beside the reading would say it twice.
fn put_axis(w: usize, reading: Held, at: usize, soft: &mut [i8])
    requires { (w ≤ 3) × (at + w ≤ length soft.old) }
    ensures { soft.new ≡ stored at w (soft_from w reading.p) soft.old }
{
    let mut left = reading;
    for j in 0..w {
        soft[at + j] = lowered(left.first_byte(w - j));
        left = left.folded(w - j);
    }
}

// The soft bytes of carrier k: the bits for I first, and then those for Q.
fn put_carrier(c: Constellation, i: &[i16], q: &[i16], k: usize, soft: &mut [i8])
    requires { (k < length i.now) × (k < length q.now) × (bits_of c * k + bits_of c ≤ length soft.old) }
    ensures { soft.new ≡ stored (bits_of c * k) (bits_of c) (λ j. soft_at c i.now q.now (bits_of c * k + j)) soft.old }
{
    let b = modes::bits_per_carrier(c) as usize;
    let on_q = b / 2;
    let on_i = b - on_q;
    let at = b * k;
    put_axis(on_i, Held::of(i[k]), at, soft);
    put_axis(on_q, Held::of(q[k]), at + on_i, soft);
}

// The soft bytes of as many carriers, one for each sent bit.
pub fn soften(c: Constellation, carriers: usize, i: &[i16], q: &[i16], soft: &mut [i8])
    requires { Readings c carriers i.now q.now soft.old }
    ensures { soft.new ≡ filled (bits_of c * carriers) (soft_at c i.now q.now) soft.old }
{
    for k in 0..carriers {
        put_carrier(c, i, q, k, soft);
    }
}

// Whether every soft byte lies in -80 to 80.
pub fn soft_ok(soft: &[i8]) -> bool
    ensures { result ≡ all_soft soft.now }
{
    soft.iter().all(|s| (-80..=80).contains(s))
}
