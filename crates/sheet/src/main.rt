// Reads a study's numbers from a file, runs it and prints its sheet. docs/SHEET.md has the format.
#![tactic(auto)]

mod refused;
mod results;
mod site;

ghost use Rattle.std.specs.Prelude.{length};
ghost use Rattle.sheet.specs.Bounds.{AsMany, Told};

use reading::{ROWS_ROOM, Stream, Study};
use refusals::Refusal;
use std::env::{Env, FillError};
use std::io;
use std::rt::Files;
use study::Figures;

fn answered(
    out: &impl Print,
    err: &impl Print,
    answer: Result<Figures, Refusal>,
    study: &Study,
    inflow: &[u64],
    outflow: &[u64],
    storage: &[u64],
) -> io::Result<()>
    requires as_many { AsMany inflow.now outflow.now storage.now }
    requires told { Told study.now.setup.first (length inflow.now) answer }
{
    match answer {
        Ok(figures) => {
            site::print_site(out, study)?;
            results::print_rows(out, study, inflow, outflow, storage)?;
            results::print_figures(out, study.setup.first, figures)
        }
        Err(refusal) => refused::print_refusal(err, refusal),
    }
}

// Runs the study in lists of its rows, and prints its sheet or why it is refused.
fn worked(
    out: &impl Print,
    err: &impl Print,
    study: &Study,
    inflow: &mut [u64],
    outflow: &mut [u64],
    storage: &mut [u64],
) -> io::Result<()>
    requires { AsMany inflow.old outflow.old storage.old }
{
    let answer = study::run(
        study.setup,
        &study.rain,
        study.subareas(),
        study.pond(),
        inflow,
        outflow,
        storage,
    );
    answered(out, err, answer, study, inflow, outflow, storage)
}

// The lists have a frame of their own, which does not stand yet where the study's file is read.
#[inline(never)]
fn lent(out: &impl Print, err: &impl Print, study: &Study) -> io::Result<()> {
    let rows = study.rows;
    let mut inflow = [0; ROWS_ROOM];
    let mut outflow = [0; ROWS_ROOM];
    let mut storage = [0; ROWS_ROOM];
    worked(
        out,
        err,
        study,
        &mut inflow[..rows],
        &mut outflow[..rows],
        &mut storage[..rows],
    )
}

// The study has a frame of its own, which does not stand where only the usage is told.
#[inline(never)]
fn run(rt: &impl Files, out: &impl Print, err: &impl Print, name: &[u8]) -> io::Result<()> {
    let mut study = Study::new();
    // The file stays open until its study is told, or what is wrong with it.
    let mut file = reading::open(rt, name);
    let read = match &mut file {
        Ok(file) => reading::load_into(file, &mut study),
        Err(error) => Err(*error),
    };
    match read {
        Ok(()) => lent(out, err, &study),
        Err(error) => {
            err.write_all(name)?;
            println!(err; ": {error}")
        }
    }
}

// Is there an argument i? Argument 0 is the program's own name.
fn is_given(rt: &impl Env, i: usize) -> bool {
    !matches!(rt.arg(i, &mut []), Err(FillError::NotPresent))
}

// The one file that the arguments name; without an argument the site that the program comes with. An argument that is empty or
// too long for a path names none.
fn named<'a>(rt: &impl Env, path: &'a mut [u8]) -> Option<&'a [u8]> {
    if is_given(rt, 2) {
        return None;
    }
    match rt.arg(1, path) {
        Ok(0) => None,
        Ok(n) => Some(&path[..n]),
        Err(FillError::NotPresent) => Some(b"site.txt"),
        Err(FillError::TooLong) => None,
    }
}

// What is wrong is told by a line on standard error, and the status is 0 also then: where the program is run by tools/program,
// such a line makes it 1. Nothing can be told where a stream takes no more.
fn main(rt: HostRuntime) {
    let err = Stream::new(rt.stderr());
    let mut path = [0u8; 4096];
    let _ = match named(&rt, &mut path) {
        Some(name) => run(&rt, &Stream::new(rt.stdout()), &err, name),
        None => println!(err; "usage: sheet [FILE]"),
    };
}
