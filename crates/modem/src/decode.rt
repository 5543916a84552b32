// The far end: of all trains the one of least rounded cost, with its mark, by soft bytes. readings.rt makes these of readings.
ghost use Rattle.std.specs.Prelude.{◌≡◌, true, ℕ, ◌+◌, ◌*◌, ◌<◌, ◌≤◌, length, get_or};
ghost use Rattle.modes.specs.Sizes.{octets_of};
ghost use Rattle.modes.specs.Pdus.{length_of, sent_of};
ghost use Rattle.modes.specs.Refusal.{answer_of};
ghost use Rattle.modes.specs.Description.{LegalList};
ghost use Rattle.modes.specs.Passed.{told, pdus_in};
ghost use Rattle.soft.specs.Carriers.{all_soft};
ghost use Rattle.modem.specs.Entering.{counter_in};
ghost use Rattle.modem.specs.Told.{reported, Picked, DecodedTrain, DecodesSoft};

use crate::lent::{lent_tested, room_short};
use modes::{Description, Kind, Refusal, Train};

// What a decode tells: the symbols, the sent bits, the rounded cost, the mark, and the comparisons of two partial trains that the search
// takes. Of a refused one all of it is zero, the default.
#[derive(Clone, Copy, Debug, Default, PartialEq, Eq)]
pub struct Answer {
    pub symbols: u32,
    pub n: u32,
    pub cost: u32,
    pub confirmed: bool,
    pub comparisons: u32,
}

// The frame counter of a train that was found: the given one, but a BCH has its own.
fn counter_of(kind: Kind, counter: u32, train: &[u8]) -> u32
    requires { (counter ≤ 15) × (4 ≤ length train.now) × ((t : ℕ) → t < 4 → get_or train.now t 0 < 2) }
    ensures { (result ≡ counter_in kind counter (λ t. get_or train.now t 0)) × (result ≤ 15) }
{
    match kind {
        Kind::Data => counter,
        Kind::Bch => coder::train_counter(train),
    }
}

// Of all trains the one of least cost by the coded bits heard, as octets.
fn pick(train: &Train, heard: &[u8], octets: &mut [u8], words: &mut [u64]) -> Answer
    requires counter { train.now.counter ≤ 15 }
    requires heard_long { 2 * (length_of (pdus_in train.now) + 6) ≤ length heard.now }
    requires octets_room { octets_of (length_of (pdus_in train.now)) ≤ length octets.old }
    requires words_room { length_of (pdus_in train.now) + 6 ≤ length words.old }
    ensures { Picked train.now heard.now octets.old words.old (reported result octets.new words.new) }
{
    let counts = train.counts();
    let n = counts.n;
    let mut scrambled = [0; 3456];
    let cost = search::search(n, heard, &mut scrambled, words);
    let confirmed = search::mark(n, heard, &scrambled);
    let first = modes::first_scrambled(train.kind);
    let own = counter_of(train.kind, train.counter, &scrambled);
    coder::descramble(first, own, n, &scrambled, octets);
    Answer {
        symbols: counts.symbols as u32,
        n: counts.sent as u32,
        cost,
        confirmed,
        comparisons: trellis::comparisons(n),
    }
}

// The same by soft bytes, when all has been tested: they go back to their coded bits, and what was not sent is not heard.
pub(crate) fn find(train: &Train, soft: &[i8], octets: &mut [u8], words: &mut [u64]) -> Answer
    requires legal { LegalList (pdus_in train.now) train.now.counter train.now.a }
    requires soft_fit { (length soft.now ≡ sent_of (pdus_in train.now)) × (all_soft soft.now ≡ true) }
    requires octets_room { octets_of (length_of (pdus_in train.now)) ≤ length octets.old }
    requires words_room { length_of (pdus_in train.now) + 6 ≤ length words.old }
    ensures { DecodedTrain train.now soft.now octets.old words.old (reported result octets.new words.new) }
{
    let mut heard = [0; 6924];
    places::spread_train(train, soft, &mut heard);
    pick(train, &heard, octets, words)
}

// The train of least rounded cost, from as many soft bytes as it has sent bits: N / 8 octets, with N + 6 working words that are zero
// afterwards. Of a BCH the counter is not read: it comes with the train.
pub fn decode_soft(
    by: &Description,
    soft: &[i8],
    octets: &mut [u8],
    words: &mut [u64],
) -> Result<Answer, Refusal>
    ensures { DecodesSoft by.now soft.now octets.old words.old result octets.new words.new }
{
    let train = Train::described(&by.heeded())?;
    let counts = train.counts();
    let short = room_short(counts.n, octets.len(), words.len());
    let in_range = soft::soft_ok(soft);
    let value = (!in_range).then_some(Refusal::Value);
    lent_tested(soft.len() != counts.sent, short, value)?;
    Ok(find(&train, soft, octets, words))
}
