// The interleaver (000, 5.4): the places of a symbol's bits, from the sheet.
ghost use Rattle.std.specs.Prelude.{◌≡◌, ◌*◌, length};
ghost use Rattle.laws.specs.Lists.{tabulate};
ghost use Rattle.modes.specs.Modes.{bits_of};
ghost use Rattle.places.specs.Interleaver.{sheet, block_of, no_places, places_of};

use crate::sheet::PLACES;
use modes::Constellation;

// The sheet: each entry is the place that the rule of clause 5.4 gives.
fn whole_sheet() -> [u16; 624]
    ensures { result ≡ tabulate 624 sheet }
{
    PLACES
}

// Where a constellation's symbols begin on the sheet.
fn block_of(c: Constellation) -> usize
    ensures { result ≡ block_of c }
{
    match c {
        Constellation::Bpsk => 0,
        Constellation::Qpsk => 48,
        Constellation::Qam16 => 144,
        Constellation::Qam64 => 336,
    }
}

// The places of a symbol's bits at the front of an array, which is as long as the longest symbol: sheet reads it, and the promise names it whole.
#[tactic(auto, using(crate::proofs::SheetLaws::block_within))]
pub fn symbol_places(c: Constellation) -> [u16; 288]
    ensures { result ≡ places_of (48 * bits_of c) (bits_of c) }
{
    let sheet = whole_sheet();
    let block = block_of(c);
    let size = 48 * modes::bits_per_carrier(c) as usize;
    let mut places = [0; 288];
    places[..size].copy_from_slice(&sheet[block..block + size]);
    places
}
