// What the words say of a train.
use crate::words::Words;
use modes::{Description, PduList};

impl Words<'_> {
    pub(crate) fn list_of_pdus(&mut self) -> Option<PduList> {
        Some(PduList {
            count: self.number()?,
            modes: self.numbers()?,
            lengths: self.numbers()?,
        })
    }

    pub(crate) fn description(&mut self) -> Option<Description> {
        Some(Description {
            kind: self.kind()?,
            list: self.list_of_pdus()?,
            counter: self.number()?,
            a: self.number()?,
        })
    }
}
