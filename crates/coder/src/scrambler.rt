// The scrambler (5.2). Its state is the number that the standard writes: stages 7 to 1 from the left.
ghost use Rattle.std.specs.Prelude.{◌≡◌, ◌<◌, ◌≤◌};
ghost use Rattle.coder.specs.Scrambler.{start, output, shifted};

// Stage 7 xor stage 4.
pub(crate) fn output_of(state: u32) -> u32
    ensures { (result ≡ output state) × (result < 2) }
{
    (state / 64 + state / 8) % 2
}

#[derive(Clone, Copy)]
pub struct Scrambler {
    pub state: u32,
    pub ghost seven_stages: { state < 128 },
}

impl Scrambler {
    // All zeros, which give zeros and stay.
    pub fn resting() -> Self
        ensures { result.state ≡ 0 }
    {
        Scrambler { state: 0 }
    }

    // Stages 7 to 1 are 1 1 1 n4 n3 n2 n1.
    pub fn started(counter: u32) -> Self
        requires { counter ≤ 15 }
        ensures { result.state ≡ start counter }
    {
        Scrambler {
            state: 112 + counter,
        }
    }

    pub fn output(&self) -> u32
        ensures { (result ≡ output self.now.state) × (result < 2) }
    {
        output_of(self.state)
    }

    // The output; the state shifts from stage 1 towards 7, and the output is fed back.
    pub fn step(&mut self) -> u32
        ensures output { (result ≡ output self.old.state) × (result < 2) }
        ensures state { self.new.state ≡ shifted self.old.state }
    {
        let output = self.output();
        self.state = (2 * self.state + output) % 128;
        output
    }
}
