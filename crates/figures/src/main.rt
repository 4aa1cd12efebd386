// Runs outside figures through the engine and prints each beside what it should be. The printed figures are the manuals' own
// and docs/SCOPE.md's; the expected ones are made by tools/expect, which has the same rules in exact numbers; none is the
// engine's.
#![tactic(auto)]

mod decimal;
mod row;
mod table;
mod tally;
mod text;

use reading::Stream;
use std::io;
use std::rt::Files;
use tally::Tally;

const HEAD: &str = "\
    A line has the engine's figures, whether they are the expected ones, and, where a source prints a figure, that one and\n\
    whether the engine's rounds to it. Expected figures are made by tools/expect, in exact numbers from document 01: none\n\
    is the engine's. 000 to 004 are the source manuals. Recalled: written down from memory, and no source here prints it,\n\
    so that to agree with it shows little; what is expected holds all the same. The rain of a peak is recalled too.\n\
    Study: a whole one was run, from the lent lists to its rows.";

// The tables in their order: each by its word and its file.
const TABLES: [(&str, &str); 17] = [
    ("scope", "scope.csv"),
    ("curve", "curve_numbers.csv"),
    ("composite in tenths", "composite_cn.csv"),
    ("runoff", "runoff_depth.csv"),
    ("abstraction", "initial_abstraction.csv"),
    ("travel", "travel_time.csv"),
    ("tc", "tc_totals.csv"),
    ("shape", "duh_shape_neh.csv"),
    ("ordinate", "uh_ordinates_iowa.csv"),
    ("timing", "uh_timing.csv"),
    ("convolution", "convolution_iowa.csv"),
    ("volume", "volumes.csv"),
    ("pond", "pond_iowa.csv"),
    ("peak", "peaks_recalled.csv"),
    ("recalled", "recalled.csv"),
    ("pond", "pond_chow_recalled.csv"),
    ("routing", "routing_chow_recalled.csv"),
];

fn run(rt: &impl Files, out: &impl Print) -> io::Result<()> {
    println!(out; "{HEAD}")?;
    let mut tally = Tally::new();
    for (word, file) in TABLES {
        table::work(rt, out, word, file, &mut tally)?;
    }
    tally.print(out)
}

// The status is 0 whatever the figures are, and also where standard output takes no more.
fn main(rt: HostRuntime) {
    let _ = run(&rt, &Stream::new(rt.stdout()));
}
