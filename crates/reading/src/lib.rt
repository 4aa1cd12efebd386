// A study's file: the study that its words spell, the columns in which its numbers are printed, and the streams that programs
// print to. docs/SHEET.md has the format.
#![tactic(auto)]

mod columns;
mod faults;
mod file;
mod items;
mod reader;
mod stream;
mod study;
mod words;

pub use columns::{Clock, Hundredths, TenThousandths, Tenths, Thousandths};
pub use faults::{Fault, FaultKind, FileError, Most};
pub use file::{load, load_into, open};
pub use items::Item;
pub use stream::Stream;
pub use study::{Laid, POND_ROOM, RAIN_ROOM, ROWS_ROOM, SUBAREAS_ROOM, Study};
