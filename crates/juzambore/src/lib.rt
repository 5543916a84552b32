// The public calls under C names, for the static library libjuzambore.a: `host/libraries.sh juzambore`. juzambore.h declares them.
// Each carries the promise of its call in `modem`. A kind and a refusal are numbers, a slice is a pointer and a length, a list's two arrays are
// pointers to sixteen numbers; lent buffers do not overlap.
#![tactic(auto)]

ghost use Rattle.std.specs.Prelude.{◌≡◌, ◌≤◌, ℕ, eqb, get_or};
ghost use Rattle.modes.specs.Kinds.{kind_of};
ghost use Rattle.modes.specs.Pdus.{pdus_of};
ghost use Rattle.modes.specs.Passed.{told};
ghost use Rattle.modem.specs.Encode.{Encode};
ghost use Rattle.modem.specs.Ideal.{Ideal};
ghost use Rattle.modem.specs.Point.{MapsTo};
ghost use Rattle.modem.specs.Soften.{Soften};
ghost use Rattle.modem.specs.Decode.{DecodeSoft, DecodeReadings};
ghost use Rattle.juzambore.specs.Said.{Said, MappedAs, outcome_by, SaidAs};

use modem::{Answer, Description, Kind, PduList, Refusal};
use points::Point;

#[repr(C)]
#[derive(Drop)]
pub struct JuzamborePoint {
    pub refusal: u32,
    pub i: f32,
    pub q: f32,
}

// `confirmed` is 1 or 0.
#[repr(C)]
#[derive(Drop)]
pub struct JuzamboreAnswer {
    pub refusal: u32,
    pub symbols: u32,
    pub n: u32,
    pub cost: u32,
    pub confirmed: u32,
    pub comparisons: u32,
}

// The PDUs by a count and two arrays of sixteen, as C lends them. The arrays are not copied whole: no number past the count is read.
fn listed(count: u32, modes: &[u32; 16], lengths: &[u32; 16]) -> PduList
    ensures told { told result ≡ pdus_of count modes.now lengths.now }
    ensures rest { (j : ℕ) → count ≤ j → (get_or result.modes j 0 ≡ 0) × (get_or result.lengths j 0 ≡ 0) }
{
    let mut list = PduList {
        count,
        modes: [0; 16],
        lengths: [0; 16],
    };
    for k in 0..count.min(16) as usize {
        list.modes[k] = modes[k];
        list.lengths[k] = lengths[k];
    }
    list
}

fn described(
    kind: u32,
    count: u32,
    modes: &[u32; 16],
    lengths: &[u32; 16],
    counter: u32,
    a: u32,
) -> Description
    ensures { Said (kind_of kind) (pdus_of count modes.now lengths.now) counter a result }
{
    Description {
        kind: Kind::from(kind),
        list: listed(count, modes, lengths),
        counter,
        a,
    }
}

#[unsafe(no_mangle)]
pub extern "C" fn juzambore_encode(
    kind: u32,
    count: u32,
    modes: &[u32; 16],
    lengths: &[u32; 16],
    counter: u32,
    a: u32,
    octets: &[u8],
    sent: &mut [u8],
) -> u32
    ensures { Encode (kind_of kind) (pdus_of count modes.now lengths.now) counter a octets.now sent.old result sent.new }
{
    let by = described(kind, count, modes, lengths, counter, a);
    Refusal::answer(&modem::encode(&by, octets, sent))
}

#[unsafe(no_mangle)]
pub extern "C" fn juzambore_ideal(
    count: u32,
    modes: &[u32; 16],
    lengths: &[u32; 16],
    sent: &[u8],
    i: &mut [i16],
    q: &mut [i16],
) -> u32
    ensures { Ideal (pdus_of count modes.now lengths.now) sent.now i.old q.old result i.new q.new }
{
    Refusal::answer(&modem::ideal(&listed(count, modes, lengths), sent, i, q))
}

// What `mapped` answers; +0 for both parts where it is refused.
impl From<Result<Point, Refusal>> for JuzamborePoint {
    ghost from_gives = { MappedAs };

    fn from(mapped: Result<Point, Refusal>) -> JuzamborePoint {
        match mapped {
            Ok(point) => JuzamborePoint {
                refusal: 0,
                i: point.i,
                q: point.q,
            },
            Err(refusal) => JuzamborePoint {
                refusal: u32::from(refusal),
                i: 0.0,
                q: 0.0,
            },
        }
    }
}

#[unsafe(no_mangle)]
pub extern "C" fn juzambore_mapped(mode: u32, group: u32) -> JuzamborePoint
    ensures { MapsTo mode group result.refusal result.i result.q }
{
    JuzamborePoint::from(modem::mapped(mode, group))
}

#[unsafe(no_mangle)]
pub extern "C" fn juzambore_soften(
    count: u32,
    modes: &[u32; 16],
    lengths: &[u32; 16],
    i: &[i16],
    q: &[i16],
    soft: &mut [i8],
) -> u32
    ensures { Soften (pdus_of count modes.now lengths.now) i.now q.now soft.old result soft.new }
{
    Refusal::answer(&modem::soften(&listed(count, modes, lengths), i, q, soft))
}

// What a decode answers, its mark as 1 or 0; zero for all of it but the refusal where it is refused.
impl From<Result<Answer, Refusal>> for JuzamboreAnswer {
    ghost from_gives = { SaidAs };

    fn from(decoded: Result<Answer, Refusal>) -> JuzamboreAnswer {
        match decoded {
            Ok(answer) => JuzamboreAnswer {
                refusal: 0,
                symbols: answer.symbols,
                n: answer.n,
                cost: answer.cost,
                confirmed: u32::from(answer.confirmed),
                comparisons: answer.comparisons,
            },
            Err(refusal) => JuzamboreAnswer {
                refusal: u32::from(refusal),
                symbols: 0,
                n: 0,
                cost: 0,
                confirmed: 0,
                comparisons: 0,
            },
        }
    }
}

#[unsafe(no_mangle)]
pub extern "C" fn juzambore_decode_soft(
    kind: u32,
    count: u32,
    modes: &[u32; 16],
    lengths: &[u32; 16],
    counter: u32,
    a: u32,
    soft: &[i8],
    octets: &mut [u8],
    words: &mut [u64],
) -> JuzamboreAnswer
    ensures decode_soft { DecodeSoft (kind_of kind) (pdus_of count modes.now lengths.now) counter a soft.now octets.old words.old
        result.refusal (outcome_by result octets.new words.new) }
    ensures flag { result.confirmed ≤ 1 }
{
    let by = described(kind, count, modes, lengths, counter, a);
    JuzamboreAnswer::from(modem::decode_soft(&by, soft, octets, words))
}

#[unsafe(no_mangle)]
pub extern "C" fn juzambore_decode_readings(
    kind: u32,
    count: u32,
    modes: &[u32; 16],
    lengths: &[u32; 16],
    counter: u32,
    a: u32,
    i: &[i16],
    q: &[i16],
    octets: &mut [u8],
    words: &mut [u64],
) -> JuzamboreAnswer
    ensures decode_readings { DecodeReadings (kind_of kind) (pdus_of count modes.now lengths.now) counter a i.now q.now octets.old words.old
        result.refusal (outcome_by result octets.new words.new) }
    ensures flag { result.confirmed ≤ 1 }
{
    let by = described(kind, count, modes, lengths, counter, a);
    JuzamboreAnswer::from(modem::decode_readings(&by, i, q, octets, words))
}
