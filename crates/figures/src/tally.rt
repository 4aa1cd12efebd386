// Counting what rows came to, and the last line, which names every row that is not as it should be.
use arrayvec::ArrayVec;
use std::io;
use std::io::Write;

// What a row came to: whether its figures are the expected ones, and whether they round to the printed one, where there is
// one. An unreadable row counts as run and not right.
#[derive(Clone, Copy, Debug, PartialEq, Eq)]
pub(crate) enum Verdict {
    NotRun,
    Run { right: bool, agrees: Option<bool> },
}

// A list of names is cut behind so many bytes, those before its first name included.
const ROOM: usize = 4096;

// The names of rows, each behind a semicolon and a blank.
#[derive(Drop)]
struct Names {
    bytes: ArrayVec<u8, ROOM>,
}

impl Names {
    fn new() -> Names {
        Names {
            bytes: ArrayVec::new(),
        }
    }

    // What does not fit is left out.
    fn append(&mut self, text: &[u8]) {
        let _ = self.bytes.write(text);
    }

    fn add(&mut self, table: &str, label: &[u8]) {
        self.append(b"; ");
        self.append(table.as_bytes());
        self.append(b" ");
        self.append(label);
    }

    // The names, where there are any. A list that is full says that it was cut.
    fn print(&self, out: &impl Print, what: &str) -> io::Result<()> {
        let [_, _, names @ ..] = self.bytes.as_slice() else {
            return Ok(());
        };
        print!(out; "{what}")?;
        out.write_all(names)?;
        if self.bytes.is_full() {
            print!(out; ".. and more")?;
        }
        Ok(())
    }
}

#[derive(Drop)]
pub(crate) struct Tally {
    rows: u64,
    right: u64,
    wrong: u64,
    not_run: u64,
    agree: u64,
    differ: u64,
    wrong_names: Names,
    differ_names: Names,
}

impl Tally {
    pub(crate) fn new() -> Tally {
        Tally {
            rows: 0,
            right: 0,
            wrong: 0,
            not_run: 0,
            agree: 0,
            differ: 0,
            wrong_names: Names::new(),
            differ_names: Names::new(),
        }
    }

    // A row's verdict counted, and its name kept where it is not as it should be.
    pub(crate) fn count(&mut self, verdict: Verdict, table: &str, label: &[u8]) {
        self.rows = self.rows.saturating_add(1);
        let Verdict::Run { right, agrees } = verdict else {
            self.not_run = self.not_run.saturating_add(1);
            return;
        };
        if right {
            self.right = self.right.saturating_add(1);
        } else {
            self.wrong = self.wrong.saturating_add(1);
            self.wrong_names.add(table, label);
        }
        match agrees {
            Some(true) => self.agree = self.agree.saturating_add(1),
            Some(false) => {
                self.differ = self.differ.saturating_add(1);
                self.differ_names.add(table, label);
            }
            None => {}
        }
    }

    pub(crate) fn print(&self, out: &impl Print) -> io::Result<()> {
        print!(out;
            "{} rows: {} as expected, {} not",
            self.rows, self.right, self.wrong
        )?;
        self.wrong_names.print(out, ", WRONG: ")?;
        print!(out;
            "; printed: {} agree, {} do not, {} not run",
            self.agree, self.differ, self.not_run
        )?;
        self.differ_names.print(out, "; do not agree: ")?;
        println!(out; "")
    }
}
