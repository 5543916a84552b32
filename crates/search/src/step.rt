// One step of the trellis, on path costs of sixteen bits that wrap round. State s is entered from the states 2 s and 2 s + 1 (mod 64);
// the ways into j and j + 32 cross: both come from 2 j and 2 j + 1, and since both polynomials have lags 0 and 6, one branch cost and
// its complement serve all four. Lag 1 is Y's alone, so one mask of X serves j and j + 16.
ghost use Rattle.std.specs.Prelude.{◌≡◌, ℕ, ◌-◌, ◌<◌, ◌==◌};
ghost use Rattle.laws.specs.Lists.{choose};
ghost use Rattle.coder.specs.Register.{mask_x, mask_y};
ghost use Rattle.search.specs.Stored.{width, start, lesser, gap_at, cost_at, above, paired, Crossed, Small, mask_at, Stored};
ghost use Rattle.search.specs.Kept.{Four};

use crate::kept::Kept;
use crate::masks::BothMasks;

// The cost at which a state other than 0 is started in: more than six steps can cost in either pass.
const START: u16 = 4096;

pub const HALF: u16 = 32768;

// What the two coded bits of a step cost, each being 0 and 1.
#[derive(Clone, Copy)]
pub struct Pair {
    pub x0: u16,
    pub x1: u16,
    pub y0: u16,
    pub y1: u16,
    pub ghost small: { Small x0 x1 y0 y1 },
}

// The two states that two states lead to: their costs, and how far the way with oldest bit 1 lies above the other.
#[derive(Drop)]
struct Crossing {
    low: u16,
    low_gap: u16,
    high: u16,
    high_gap: u16,
}

// Two crossings, sixteen states apart: the costs and the gaps of the states j, j + 16, j + 32 and j + 48.
#[derive(Drop)]
struct Entry {
    costs: [u16; 4],
    gaps: [u16; 4],
}

// The costs of 64 states after a step, and what is kept of their gaps.
#[derive(Drop)]
pub struct Turn<K> {
    pub costs: [u16; 64],
    pub kept: K,
}

// The cost, or what lies a gap above it where that is less.
#[tactic(auto, unfolding(crate::specs::Stored::lesser))]
fn better(cost: u16, gap: u16) -> u16
    ensures { result ≡ lesser cost gap }
{
    if gap < HALF {
        cost
    } else {
        cost.wrapping_add(gap)
    }
}

// Whether the way with the other oldest bit lies strictly above the way with this one.
#[tactic(auto, unfolding(crate::specs::Stored::above))]
pub fn is_above(gap: u16, oldest: u32) -> bool
    ensures { result ≡ above gap oldest }
{
    if oldest == 0 {
        0 < gap && gap < HALF
    } else {
        HALF <= gap
    }
}

// The ways from two states, over the branch costs a (from the even state into the low one, from the odd into the high) and b.
#[tactic(auto, unfolding(crate::specs::Stored::gap))]
fn cross(even: u16, odd: u16, a: u16, b: u16) -> Crossing
    ensures { Crossed even odd a b result.low result.low_gap result.high result.high_gap }
{
    let low = even.wrapping_add(a);
    let low_gap = odd.wrapping_add(b).wrapping_sub(low);
    let high = even.wrapping_add(b);
    let high_gap = odd.wrapping_add(a).wrapping_sub(high);
    Crossing {
        low: better(low, low_gap),
        low_gap,
        high: better(high, high_gap),
        high_gap,
    }
}

// One of two costs by a mask.
fn masked(c0: u16, c1: u16, mask: u16) -> u16
    ensures { (mask ≡ 0 → result ≡ c0) × (mask ≡ width - 1 → result ≡ c1) }
{
    c0.wrapping_add(c1.wrapping_sub(c0) & mask)
}

// What a step costs if its register has these masks.
fn branch_of(pair: Pair, x_mask: u16, y_mask: u16) -> u16
    ensures { (r : ℕ) → x_mask ≡ mask_at mask_x r → y_mask ≡ mask_at mask_y r → result ≡ paired pair.x0 pair.x1 pair.y0 pair.y1 r }
{
    masked(pair.x0, pair.x1, x_mask).wrapping_add(masked(pair.y0, pair.y1, y_mask))
}

// Before the first step: state 0 costs nothing.
pub fn started() -> [u16; 64]
    ensures { Stored (λ s. choose (s == 0) 0 start) result }
{
    let mut costs = [START; 64];
    costs[0] = 0;
    costs
}

// The ways into the states j and j + 32, and those into the two that are sixteen further on.
fn enter(old: &[u16; 64], masks: &BothMasks, pair: Pair, j: usize) -> Entry
    requires { j < 16 }
    ensures costs { Four (cost_at old.now (paired pair.x0 pair.x1 pair.y0 pair.y1)) j result.costs }
    ensures gaps { Four (gap_at old.now (paired pair.x0 pair.x1 pair.y0 pair.y1)) j result.gaps }
{
    let all = pair.x0 + pair.x1 + pair.y0 + pair.y1;
    let a = branch_of(pair, masks.x[j], masks.y[j]);
    let b = branch_of(pair, masks.x[j], masks.y[j + 16]);
    let near = cross(old[2 * j], old[2 * j + 1], a, all.wrapping_sub(a));
    let far = cross(old[2 * j + 32], old[2 * j + 33], b, all.wrapping_sub(b));
    Entry {
        costs: [near.low, far.low, near.high, far.high],
        gaps: [near.low_gap, far.low_gap, near.high_gap, far.high_gap],
    }
}

// One step into all 64 states. Each instance is called from one loop alone: so the compiler puts it in there, and the costs stay in
// registers.
pub fn step<K: Kept>(old: [u16; 64], masks: &BothMasks, pair: Pair) -> Turn<K>
    ensures costs { Stored (cost_at old (paired pair.x0 pair.x1 pair.y0 pair.y1)) result.costs }
    ensures kept { K.keeps (gap_at old (paired pair.x0 pair.x1 pair.y0 pair.y1)) result.kept }
{
    let mut costs = <[u16; 64]>::none();
    let mut kept = K::none();
    for j in 0..16usize {
        let entry = enter(&old, masks, pair, j);
        costs.put(j, entry.costs);
        kept.put(j, entry.gaps);
    }
    Turn { costs, kept }
}
