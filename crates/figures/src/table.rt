// A table's file, a row on each line.
use crate::row::Row;
use crate::tally::Tally;
use crate::{row, text};
use arrayvec::ArrayVec;
use std::io::Read;
use std::rt::Files;
use std::{fs, io};

// A file of so many bytes may be longer, and is not worked.
const ROOM: usize = 65536;

// The bytes of a file, read into `room`; none where they cannot be read. A read that fails ends them. What reading takes of the
// stack is gone before a row is worked.
#[inline(never)]
fn contents<'a>(rt: &impl Files, file: &str, room: &'a mut ArrayVec<u8, ROOM>) -> Option<&'a [u8]> {
    let mut start = fs::open(rt, file).ok()?.take(ROOM as u64);
    let _ = io::copy(&mut start, room);
    if room.is_empty() || room.is_full() {
        None
    } else {
        Some(room.as_slice())
    }
}

// Every row but the first, which names the columns. A file that cannot be worked counts as a row that is not as expected.
pub(crate) fn work(
    rt: &impl Files,
    out: &impl Print,
    word: &str,
    file: &str,
    tally: &mut Tally,
) -> io::Result<()> {
    let mut room = ArrayVec::new();
    let Some(bytes) = contents(rt, file, &mut room) else {
        print!(out; "{file} cannot be read, or not as a whole: ")?;
        let verdict = row::unreadable(out)?;
        tally.count(verdict, word, file.as_bytes());
        return Ok(());
    };
    for line in text::without_end(bytes, b'\n')
        .split(|byte| *byte == b'\n')
        .skip(1)
    {
        let row = Row::of(line);
        let verdict = row.print(out, word)?;
        tally.count(verdict, word, row.label);
    }
    Ok(())
}
