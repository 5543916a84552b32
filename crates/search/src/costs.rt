// What the coded bits of a step cost, as bytes say, in the first pass and in the mark's.
ghost use Rattle.std.specs.Prelude.{◌≡◌, ◌≤◌};
ghost use Rattle.search.specs.Bytes.{byte_cost, byte_heard, agreeing, Costs};

use crate::step::Pair;

// What a bit costs; a byte of 0 was not heard. Where the bit is 1 the byte is tested: with saturating_sub there, a step of one pass or
// the other took 8 to 18 instructions more.
#[tactic(auto, unfolding(crate::specs::Bytes::byte_cost))]
fn cost_of(byte: u8, bit: u8) -> u16
    ensures { (result ≡ byte_cost byte bit) × (result ≤ 127) }
{
    if bit == 0 {
        u16::from(byte.saturating_sub(128))
    } else if byte == 0 || 128 <= byte {
        0
    } else {
        u16::from(128 - byte)
    }
}

pub fn pair_of(x: u8, y: u8) -> Pair
    ensures { Costs (byte_cost x) (byte_cost y) result.x0 result.x1 result.y0 result.y1 }
{
    Pair {
        x0: cost_of(x, 0),
        x1: cost_of(x, 1),
        y0: cost_of(y, 0),
        y1: cost_of(y, 1),
    }
}

// 1 for a bit that was heard.
#[tactic(auto, unfolding(crate::specs::Bytes::byte_heard))]
fn heard_of(byte: u8) -> u16
    ensures { (result ≡ byte_heard byte) × (result ≤ 1) }
{
    u16::from(byte != 0)
}

// In the mark's pass a bit costs twice as much, and one more where it was heard and agrees with the train's own.
#[tactic(auto, unfolding(crate::specs::Bytes::agreeing))]
fn agreeing_of(byte: u8, bit: u8, own: u8) -> u16
    ensures { (result ≡ agreeing byte own bit) × (result ≤ 255) }
{
    let cost = 2 * cost_of(byte, bit);
    if bit == own {
        cost + heard_of(byte)
    } else {
        cost
    }
}

pub fn own_pair(x: u8, y: u8, own_x: u8, own_y: u8) -> Pair
    ensures { Costs (agreeing x own_x) (agreeing y own_y) result.x0 result.x1 result.y0 result.y1 }
{
    Pair {
        x0: agreeing_of(x, 0, own_x),
        x1: agreeing_of(x, 1, own_x),
        y0: agreeing_of(y, 0, own_y),
        y1: agreeing_of(y, 1, own_y),
    }
}
