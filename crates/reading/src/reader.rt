// Reads a file's numbers one by one, each by what it is to mean.
ghost use Rattle.std.specs.Prelude.{◌≤◌, IfOk};

use crate::faults::{Fault, FaultKind, Most};
use crate::items::Item;
use crate::words::Words;

#[derive(Drop)]
pub(crate) struct Reader<'a> {
    words: Words<'a>,
}

// A whole number has digits alone, and no sign.
fn number(word: &[u8], item: Item) -> Result<u64, FaultKind> {
    let Ok(text) = std::str::from_utf8(word) else {
        return Err(FaultKind::NoNumber(item));
    };
    if !text.bytes().all(|b| b.is_ascii_digit()) {
        return Err(FaultKind::NoNumber(item));
    }
    text.parse().map_err(|_| FaultKind::AboveAll(item))
}

impl<'a> Reader<'a> {
    pub(crate) fn new(text: &'a [u8]) -> Reader<'a> {
        Reader {
            words: Words::new(text),
        }
    }

    fn fault(&self, kind: FaultKind) -> Fault {
        Fault {
            line: self.words.line(),
            kind,
        }
    }

    pub(crate) fn next(&mut self, item: Item) -> Result<u64, Fault> {
        let Some(word) = self.words.next() else {
            return Err(self.fault(FaultKind::Ended(item)));
        };
        number(word, item).map_err(|kind| self.fault(kind))
    }

    // The next number, which is a count: no more than there is room for. A message tells `most`.
    pub(crate) fn count(&mut self, item: Item, most: Most, room: usize) -> Result<usize, Fault>
        ensures { IfOk result (λ n. n ≤ room) }
    {
        let n = self.next(item)?;
        if n > room as u64 {
            return Err(self.fault(FaultKind::TooMany { item, most }));
        }
        Ok(n as usize)
    }

    // Nothing but comments may follow the last number.
    pub(crate) fn finish(&mut self) -> Result<(), Fault> {
        match self.words.next() {
            Some(_) => Err(self.fault(FaultKind::LeftOver)),
            None => Ok(()),
        }
    }
}
