// The encoder's register of seven bits, the newest the highest.
ghost use Rattle.std.specs.Prelude.{◌≡◌, ◌<◌};
ghost use Rattle.coder.specs.Register.{entered, parity};

#[derive(Clone, Copy)]
pub struct Register {
    pub bits: u32,
    pub ghost seven_bits: { bits < 128 },
}

impl Register {
    pub fn empty() -> Self
        ensures { result.bits ≡ 0 }
    {
        Register { bits: 0 }
    }

    // One more input has come.
    pub fn enter(&mut self, bit: u32)
        requires { bit < 2 }
        ensures { self.new.bits ≡ entered self.old.bits bit }
    {
        self.bits = self.bits / 2 + 64 * bit;
    }
}

// Whether the count of ones of the register under the taps is odd.
pub fn parity_of(register: u32, taps: u32) -> u8
    ensures { result ≡ parity register taps }
{
    ((register & taps).count_ones() % 2) as u8
}
