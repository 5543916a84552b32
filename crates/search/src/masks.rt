// Masks of sixteen bits, by which a register chooses a cost: X and Y of the registers 2 j.
ghost use Rattle.std.specs.Prelude.{◌≡◌};
ghost use Rattle.coder.specs.Register.{mask_x, mask_y};
ghost use Rattle.search.specs.Stored.{mask_at, Masks};

use coder::{X_TAPS, Y_TAPS, parity_of};

#[derive(Drop)]
pub struct BothMasks {
    pub x: [u16; 32],
    pub y: [u16; 32],
    pub ghost of_x: { Masks mask_x x },
    pub ghost of_y: { Masks mask_y y },
}

impl BothMasks {
    pub fn new() -> Self {
        BothMasks {
            x: masks_of(X_TAPS),
            y: masks_of(Y_TAPS),
        }
    }
}

// All ones where the count of ones of the register under the taps is odd, else zero.
#[tactic(auto, using(crate::proofs::StepLaws::mask_is), unfolding(crate::specs::Stored::mask_at))]
fn mask_of(register: u32, taps: u32) -> u16
    ensures { result ≡ mask_at taps register }
{
    0u16.wrapping_sub(u16::from(parity_of(register, taps)))
}

fn masks_of(taps: u32) -> [u16; 32]
    ensures { Masks taps result }
{
    let mut masks = [0; 32];
    for j in 0..32u32 {
        masks[j as usize] = mask_of(2 * j, taps);
    }
    masks
}
