// Words that list numbers in hexadecimal digits, two for each octet, sent bit or soft byte and four for each reading; signed
// ones in two's complement.
ghost use Rattle.std.specs.Prelude.{◌<◌};

use crate::words::Words;
use arrayvec::ArrayVec;

// `to_digit` would take upper case too.
fn digit(byte: u8) -> Option<u8> {
    match byte {
        b'0'..=b'9' => Some(byte - b'0'),
        b'a'..=b'f' => Some(byte - b'a' + 10),
        _ => None,
    }
}

fn octet(digits: &[u8]) -> Option<u8> {
    let &[high, low] = digits else {
        return None;
    };
    Some(digit(high)? << 4 | digit(low)?)
}

fn soft_byte(digits: &[u8]) -> Option<i8> {
    Some(octet(digits)?.cast_signed())
}

fn reading(digits: &[u8]) -> Option<i16> {
    let (high, low) = digits.split_at_checked(2)?;
    Some(i16::from_be_bytes([octet(high)?, octet(low)?]))
}

impl Words<'_> {
    // Puts what a word lists at the end of a list, which is lent since it is long: `width` digits for each; a dash stands for none. More than N
    // are not taken.
    fn list<T: Default + Drop, F: Fn(&[u8]) -> Option<T>, const N: usize>(
        &mut self,
        width: usize,
        written_by: F,
        list: &mut ArrayVec<T, N>,
    ) -> Option<()>
        requires some { 0 < width }
        requires callable { F.IsAlwaysCallable written_by }
    {
        let word = self.word()?;
        if word == "-" {
            return Some(());
        }
        for digits in word.as_bytes().chunks(width) {
            list.try_push(written_by(digits)?).ok()?;
        }
        Some(())
    }

    // Octets, or sent bits of which a byte holds one.
    pub(crate) fn octets(&mut self, octets: &mut ArrayVec<u8, 14000>) -> Option<()> {
        self.list(2, octet, octets)
    }

    pub(crate) fn soft_bytes(&mut self, soft: &mut ArrayVec<i8, 7000>) -> Option<()> {
        self.list(2, soft_byte, soft)
    }

    pub(crate) fn readings(&mut self, readings: &mut ArrayVec<i16, 7000>) -> Option<()> {
        self.list(4, reading, readings)
    }
}
