// One row: the engine's figures beside what they should be, and beside a printed figure.
use crate::decimal;
use crate::decimal::Decimal;
use crate::tally::Verdict;
use crate::text::{piece, without_end};
use arrayvec::ArrayVec;
use guarded::{ABOVE_LIMITS, Four};
use std::io;

// A row with more numbers has none.
const ROOM: usize = 512;

// The texts of a row. They need not be UTF-8, and one that is not there is empty.
#[derive(Clone, Copy)]
pub(crate) struct Row<'a> {
    pub(crate) label: &'a [u8],
    expected: &'a [u8],
    printed: &'a [u8],
    unit: &'a [u8],
    note: &'a [u8],
    times: Option<u64>,
    per: Option<u64>,
    function: &'a [u8],
    numbers: &'a [u8],
}

// Field i of a line.
fn field(line: &[u8], i: usize) -> &[u8] {
    piece(line, b',', i)
}

fn word(text: &[u8], i: usize) -> &[u8] {
    piece(text, b' ', i)
}

// A printed cell that the manual's text lost has nothing to disagree with.
fn is(cell: &[u8], figure: Option<u64>) -> bool {
    cell.starts_with(b"l") || Decimal::of(cell).rounded() == figure
}

fn same(cells: &[u8], figures: &Four) -> bool {
    for (i, figure) in figures.iter().enumerate() {
        if !is(word(cells, i), *figure) {
            return false;
        }
    }
    true
}

// The end of the line of a row or a file that has no figures.
pub(crate) fn unreadable(out: &impl Print) -> io::Result<Verdict> {
    println!(out; "UNREADABLE")?;
    Ok(Verdict::Run {
        right: false,
        agrees: None,
    })
}

impl<'a> Row<'a> {
    pub(crate) fn of(line: &'a [u8]) -> Row<'a> {
        Row {
            label: field(line, 0),
            expected: field(line, 1),
            printed: field(line, 2),
            unit: field(line, 3),
            note: field(line, 4),
            times: decimal::whole(field(line, 5)),
            per: decimal::whole(field(line, 6)),
            function: field(line, 7),
            numbers: field(line, 8),
        }
    }

    // The row's numbers. A word that is none is above the limits, so that the engine refuses it where it stands.
    fn list<'b>(&self, room: &'b mut ArrayVec<u64, ROOM>) -> &'b [u64] {
        for word in self.numbers.split_inclusive(|byte| *byte == b' ') {
            let number = decimal::whole(without_end(word, b' '));
            if room.try_push(number.unwrap_or(ABOVE_LIMITS)).is_err() {
                return &[];
            }
        }
        room.as_slice()
    }

    // What the engine takes of the stack is gone before the row is printed.
    #[inline(never)]
    fn figures(&self) -> Four {
        let mut room = ArrayVec::new();
        match self.function.first() {
            Some(&letter) => guarded::given_by(letter, self.list(&mut room)),
            None => [None; 4],
        }
    }

    // The first figure, times one number and divided by the other, is in the printed unit. With no divisor it is the seconds
    // along a length, and with neither the figures themselves are printed. 0 times is for a printed abstraction: the row's
    // second rain, in its unit, and nothing runs off.
    fn agrees(&self, first: u64, figures: &Four) -> bool {
        let figure = Decimal::of(self.printed);
        match (self.times, self.per) {
            (None, _) => same(self.printed, figures),
            (Some(0), _) => {
                figures[1] == Some(0) && figure.digits == decimal::whole(word(self.numbers, 2))
            }
            (Some(times), None) => figure.is_nearest(times, first),
            (Some(times), Some(per)) => figure.is_nearest(decimal::product(first, times), per),
        }
    }

    // Prints the row's line, and gives what it came to.
    pub(crate) fn print(&self, out: &impl Print, table: &str) -> io::Result<Verdict> {
        print!(out; "{table} ")?;
        out.write_all(self.label)?;
        print!(out; ": ")?;
        if self.function.starts_with(b"n") {
            print!(out; "not run: ")?;
            out.write_all(self.numbers)?;
            print!(out; " is not in the base engine")?;
            self.end(out)?;
            return Ok(Verdict::NotRun);
        }
        let figures = self.figures();
        match figures[0] {
            Some(first) => self.judge(out, first, &figures),
            None => unreadable(out),
        }
    }

    fn judge(&self, out: &impl Print, first: u64, figures: &Four) -> io::Result<Verdict> {
        print!(out; "{first}")?;
        for figure in figures.iter().skip(1).flatten() {
            print!(out; " {figure}")?;
        }
        let right = same(self.expected, figures);
        if right {
            print!(out; ", as expected")?;
        } else {
            print!(out; ", WRONG: should be ")?;
            out.write_all(self.expected)?;
        }
        let agrees = self.compare(out, first, figures)?;
        self.end(out)?;
        Ok(Verdict::Run { right, agrees })
    }

    // Prints the manual's figure, where there is one, and gives whether the engine's rounds to it.
    fn compare(&self, out: &impl Print, first: u64, figures: &Four) -> io::Result<Option<bool>> {
        if self.printed.is_empty() {
            return Ok(None);
        }
        print!(out; "; printed ")?;
        out.write_all(self.printed)?;
        if !self.unit.is_empty() {
            print!(out; " ")?;
            out.write_all(self.unit)?;
        }
        let agrees = self.agrees(first, figures);
        print!(out; ": {}", if agrees { "yes" } else { "NO" })?;
        Ok(Some(agrees))
    }

    // The note, where there is any, and the line's end.
    fn end(&self, out: &impl Print) -> io::Result<()> {
        if !self.note.is_empty() {
            print!(out; " (")?;
            out.write_all(self.note)?;
            print!(out; ")")?;
        }
        println!(out; "")
    }
}
