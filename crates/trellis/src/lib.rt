// The theory of the search: of all trains, the one of least cost, its tie rule and its mark; the two passes that find them. The one
// function here needs no search.
#![tactic(auto)]

ghost use Rattle.std.specs.Prelude.{◌≤◌};
ghost use Rattle.trellis.specs.Compared.{Comparisons};

// How many comparisons of two partial trains the search for a train of n bits takes: none in the first six steps, 64 in each further
// step of its bits, and in the tail 32, 16, 8, 4, 2, 1. The test for the mark is not counted.
pub fn comparisons(n: usize) -> u32
    requires { (6 ≤ n) × (n ≤ 3472) }
    ensures { Comparisons n result }
{
    (64 * (n - 6) + 63) as u32
}
