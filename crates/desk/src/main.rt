// The support desk's program: runs both engines of the inflow rows over studies, and prints for each `same` or the first row
// that differs. docs/DESK.md has its lines.
#![tactic(auto)]

mod pairs;
mod verdicts;

ghost use Rattle.std.specs.Prelude.{IsTrue};
ghost use Rattle.desk.specs.Says.{says_same};

use reading::{FileError, ROWS_ROOM, Stream, Study};
use std::env::{Env, FillError};
use std::io;
use std::rt::Files;
use verdicts::Said;

// The studies that the program comes with.
const KEPT: [&str; 35] = [
    "reference.txt",
    "largest.txt",
    "every-cover.txt",
    "weights-512.txt",
    "weights-5.txt",
    "sheet-and-channel.txt",
    "sheet-300-rule-1.txt",
    "rain-one-step.txt",
    "rain-outlasts-weights.txt",
    "weights-outlast-rain.txt",
    "rows-end-early.txt",
    "drizzle.txt",
    "curves.txt",
    "on-the-limits.txt",
    "inflow-12000.txt",
    "pond-refused-13.txt",
    "pond-refused-14.txt",
    "refused-1-rows-2001.txt",
    "refused-2-odd-step.txt",
    "refused-20-rule-3.txt",
    "refused-20-before-3.txt",
    "refused-3-one-entry.txt",
    "refused-3-falling.txt",
    "refused-3-before-19.txt",
    "refused-19-slipped-decimal.txt",
    "refused-4-row-number.txt",
    "refused-5-subareas-17.txt",
    "refused-6-cover-23.txt",
    "refused-6-before-7.txt",
    "refused-7-sheet-300-rule-2.txt",
    "refused-7-sheet-second.txt",
    "refused-8-area.txt",
    "refused-9-too-slow.txt",
    "refused-10-step-434.txt",
    "refused-11-peak-6145.txt",
];

// Runs both engines over a study, and gives what is said of them. The pond's table is read, since it is a part of the file, and
// neither engine takes one. Of the outflow and storage lists an engine reads the lengths alone, so that one list serves as both.
// The lists have a frame of their own, which does not stand yet where the study's file is read.
#[inline(never)]
fn compared(study: &Study) -> Said
    ensures { IsTrue (says_same result) }
{
    let rows = study.rows;
    let mut fast = [0; ROWS_ROOM];
    let mut slow = [0; ROWS_ROOM];
    let spare = [0; ROWS_ROOM];
    let verdict = engines::compare(
        study.setup,
        &study.rain,
        study.subareas(),
        &mut fast[..rows],
        &mut slow[..rows],
        &spare[..rows],
        &spare[..rows],
    );
    Said::of(verdict, &fast[..rows])
}

fn print_fault(err: &impl Print, name: &[u8], error: FileError) -> io::Result<()> {
    err.write_all(name)?;
    match error {
        FileError::Fault(fault) => println!(err;
            ": line {}: not in the format of a study's file; ./run FILE says what is wrong there",
            fault.line
        ),
        _ => println!(err; ": {error}"),
    }
}

// Works the study in a file, and tells whether the engines differ. A file that is no study's has its line on standard error, and
// is none that differs. Nothing can be told where a stream takes no more, and the other studies are worked all the same.
fn differs(rt: &impl Files, out: &impl Print, err: &impl Print, name: &[u8]) -> bool {
    let mut study = Study::new();
    // The file stays open until its study is told, or what is wrong with it.
    let mut file = reading::open(rt, name);
    let read = match &mut file {
        Ok(file) => reading::load_into(file, &mut study),
        Err(error) => Err(*error),
    };
    match read {
        Ok(()) => {
            let said = compared(&study);
            let _ = verdicts::print(out, name, &said);
            said.differs()
        }
        Err(error) => {
            let _ = print_fault(err, name, error);
            false
        }
    }
}

// The studies that the program comes with, and the pairs that differ. Gives how many studies differ.
fn kept(rt: &impl Files, out: &impl Print, err: &impl Print) -> u64 {
    let mut differ = 0u64;
    for name in KEPT {
        if differs(rt, out, err, name.as_bytes()) {
            differ = differ.saturating_add(1);
        }
    }
    let _ = pairs::print_all(out);
    differ
}

// The studies in the files that the arguments name; argument 0 is the program's own name. Gives how many differ.
fn given<R: Env + Files>(rt: &R, out: &impl Print, err: &impl Print) -> u64 {
    let mut path = [0u8; 4096];
    let mut differ = 0u64;
    for i in 1..usize::MAX {
        match rt.arg(i, &mut path) {
            Err(FillError::NotPresent) => break,
            Err(FillError::TooLong) | Ok(0) => {
                let _ = println!(err; "argument {i}: empty, or too long for a file's name");
            }
            Ok(n) => {
                if differs(rt, out, err, &path[..n]) {
                    differ = differ.saturating_add(1);
                }
            }
        }
    }
    differ
}

fn has_arguments(rt: &impl Env) -> bool {
    !matches!(rt.arg(1, &mut []), Err(FillError::NotPresent))
}

fn run<R: Env + Files>(rt: &R, out: &impl Print, err: &impl Print) {
    let differ = if has_arguments(rt) {
        given(rt, out, err)
    } else {
        kept(rt, out, err)
    };
    if differ > 0 {
        let _ = println!(err; "studies that differ: {differ}");
    }
}

// What is wrong is told by a line on standard error, and the status is 0 also then: where the program is run by tools/program,
// such a line makes it 1.
fn main(rt: HostRuntime) {
    run(&rt, &Stream::new(rt.stdout()), &Stream::new(rt.stderr()));
}
