// One record of the bench (document 01): 60 bytes in, the values of its line out. It encodes, takes ideal readings, decodes.
// Refusals 1 to 6, of which 3 is for N above 432 too; refusal 10, for a record that was cut, is its reader's to give. Reading
// and printing are not done here.
#![tactic(auto)]

ghost use Rattle.std.specs.Prelude.{◌≡◌, ◌≤◌, length, IfOk};
ghost use Rattle.laws.specs.Ladder.{ladder};
ghost use Rattle.modes.specs.Sizes.{symbols, sent_bits, octets_of};
ghost use Rattle.modes.specs.Pdus.{one};
ghost use Rattle.modes.specs.Refusals.{described};
ghost use Rattle.modes.specs.Refusal.{answer_of};
ghost use Rattle.modes.specs.Passed.{Describes};
ghost use Rattle.record.specs.Record.{two, line_refusal, line, LineOf, mark_of};
ghost use Rattle.record.specs.Said.{Fields, said, line_by, line_in, Runs};

use modem::{Answer, Description, Kind, PduList, Refusal};
use modes::{Counts, Mode, Train};

// What the line of a record says that is not refused: its symbols, the sent bits, the rounded cost and the mark. Of
// a refused one all of it is zero, the default. It is no `modem::Answer`: no later field of that is to reach a line.
#[derive(Clone, Copy, Debug, Default, PartialEq, Eq)]
pub struct Line {
    pub symbols: u32,
    pub n: u32,
    pub cost: u32,
    pub confirmed: bool,
}

// What a decode answers, but for its comparisons.
impl From<Answer> for Line {
    ghost from_gives = { λ answer said. line_by said ≡ line answer.symbols answer.n answer.cost answer.confirmed };

    fn from(answer: Answer) -> Line {
        Line {
            symbols: answer.symbols,
            n: answer.n,
            cost: answer.cost,
            confirmed: answer.confirmed,
        }
    }
}

// Two bytes, high byte first.
fn number(high: u8, low: u8) -> u32
    ensures { result ≡ two high low }
{
    u32::from(u16::from_be_bytes([high, low]))
}

// The numbers at the front of a record, none of them tested.
#[derive(Drop)]
struct Record {
    mode: u32,
    counter: u32,
    n: u32,
    a: u32,
}

impl Record {
    fn of(bytes: &[u8; 60]) -> Record
        ensures { Fields bytes.now result.mode result.counter result.n result.a }
    {
        Record {
            mode: u32::from(bytes[0]),
            counter: u32::from(bytes[1]),
            n: number(bytes[2], bytes[3]),
            a: number(bytes[4], bytes[5]),
        }
    }

    // A list of one PDU of data.
    fn description(&self) -> Description
        ensures { result ≡ said self.now.mode self.now.counter self.now.n self.now.a }
    {
        Description {
            kind: Kind::Data,
            list: PduList {
                count: 1,
                modes: [self.mode; 16],
                lengths: [self.n; 16],
            },
            counter: self.counter,
            a: self.a,
        }
    }

    // The train of a record that passes the tests, or what it is refused for.
    #[tactic(auto, unfolding(laws::specs::Ladder::ladder))]
    fn tested(&self) -> Result<Train, Refusal>
        ensures answer { answer_of result ≡ line_refusal self.now.mode self.now.counter self.now.n self.now.a }
        ensures done { IfOk result (Describes Kind.Data (one self.now.mode self.now.n) self.now.counter self.now.a) }
    {
        Mode::try_from(self.mode)?;
        if 15 < self.counter {
            return Err(Refusal::Counter);
        }
        if 432 < self.n {
            return Err(Refusal::Length);
        }
        Train::described(&self.description())
    }

    // Encodes, takes ideal readings, decodes: a record of which all has been tested. So none of the three calls is refused.
    fn run(&self, sizes: Counts, octets: &[u8]) -> Line
        requires tested { (ladder (described self.now.mode self.now.counter self.now.n self.now.a) ≡ 0) × (self.now.n ≤ 432) }
        requires sizes { (sizes.symbols ≡ symbols self.now.mode self.now.n) × (sizes.sent ≡ sent_bits self.now.mode self.now.n) }
        requires octets_long { length octets.now ≡ octets_of self.now.n }
        ensures { Runs self.now.mode self.now.counter self.now.n self.now.a octets.now result }
    {
        let by = self.description();
        let carriers = 48 * sizes.symbols;
        let mut sent = [0; 864];
        modem::encode(&by, octets, &mut sent).unwrap();
        let mut i = [0; 864];
        let mut q = [0; 864];
        modem::ideal(&by.list, &sent[..sizes.sent], &mut i, &mut q).unwrap();
        let mut back = [0; 54];
        let mut words = [0; 438];
        let answer = modem::decode_readings(
            &by,
            &i[..carriers],
            &q[..carriers],
            &mut back,
            &mut words,
        ).unwrap();
        Line::from(answer)
    }
}

// What the line of a record says, or what it is refused for.
pub fn line_of(bytes: &[u8; 60]) -> Result<Line, Refusal>
    ensures { LineOf bytes.now (answer_of result) (line_in result) }
{
    let record = Record::of(bytes);
    let train = record.tested()?;
    let end = 6 + (record.n as usize) / 8;
    Ok(record.run(train.counts(), &bytes[6..end]))
}

// The last letter of a line. It takes a number and a flag since any number may be given: a Refusal would be narrower.
pub fn mark_of(refusal: u32, confirmed: bool) -> u8
    ensures { result ≡ mark_of refusal confirmed }
{
    match (refusal, confirmed) {
        (0, true) => b'C',
        (0, false) => b'D',
        _ => b'-',
    }
}
