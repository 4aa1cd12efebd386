// Why the engine refused a study.
use refusals::{Refusal, Rule};
use std::io;

// What the place counts, and what would be right; 15 to 18 are no study's.
fn sentence(rule: Rule) -> &'static str {
    match rule {
        Rule::Lengths => ": the number of rows must be from 1 to 2,000",
        Rule::Step => ": the step must be an even number of seconds from 60 to 3,600",
        Rule::Rain =>
            " (rain entry; 0 also for their count): there must be 2 entries to one more than the rows, starting at 0, never falling, none above 30 inches",
        Rule::LastRow => ": the last row number must be at most 9,007,199,254,740,991",
        Rule::Subareas => ": the number of subareas must be from 1 to 16",
        Rule::Patches =>
            " (subarea): it must have 1 to 8 patches, each of cover 1 to 22, soil group 1 to 4 and 0.01 to 2,000 acres",
        Rule::Segments =>
            " (subarea): it must have 1 to 6 segments, each of kind 1 to 5, length 1 to 4,000 ft, \
            slope, velocity and radius 1 to 10,000, n 1 to 999 and 2-year rain 1 to 30,000; \
            only the first may be a sheet segment (kind 4), of at most 300 ft by sheet rule 1, 100 ft by 2",
        Rule::Area => ": all subareas together must have at most 2,000 acres",
        Rule::Concentration =>
            " (subarea): its time of concentration must be at most 36,000 seconds",
        Rule::Coarse => " (subarea): the step must not be longer than its time to peak",
        Rule::Weights =>
            " (subarea): five times its time to peak must not be longer than 512 steps",
        Rule::PondTable =>
            " (pond row; 0 for their count): there must be 2 to 64 rows within their limits, stage and storage rising, \
            discharge never falling, the first storage and discharge 0",
        Rule::PondHeld => " (pond row): it must store at least half a step of its discharge",
        Rule::Over =>
            " (row): its water must not be more than the last pond row can hold and release",
        Rule::Rise => " (rain entry): it must be at most 4 inches above the one before",
        Rule::SheetRule =>
            ": the sheet rule must be 1 (300 ft, TR-55 of 1986) or 2 (100 ft, WinTR-55 and NEH 630 chapter 15)",
        Rule::Place | Rule::InflowRow | Rule::Forged | Rule::Row => "",
    }
}

pub(crate) fn print_refusal(err: &impl Print, refusal: Refusal) -> io::Result<()> {
    println!(err; "Refused: {refusal}{}", sentence(refusal.rule))
}
