// What a study's file has, in its order.
use std::fmt;

const PATCH_COLUMNS: [&str; curve::PATCH_WIDTH] = ["cover", "soil group", "area"];

const SEGMENT_COLUMNS: [&str; travel::SEGMENT_WIDTH] = [
    "kind",
    "length",
    "slope, velocity or n",
    "2-year rain or radius",
    "slope",
];

const POND_COLUMNS: [&str; pond::ROW_WIDTH] = ["stage", "storage", "discharge"];

/// One number of a study's file, by what it means. Rain entries and places in a list count from 0, subareas from 1.
#[derive(Clone, Copy, Debug, PartialEq, Eq)]
pub enum Item {
    Rows,
    Step,
    First,
    Rule,
    Entries,
    Entry(usize),
    Subareas,
    Patches { of: usize },
    Patch { place: usize, of: usize },
    Segments { of: usize },
    Segment { place: usize, of: usize },
    PondRows,
    PondRow { place: usize },
}

impl fmt::Display for Item {
    fn fmt<W: fmt::Write>(&self, f: &mut fmt::Formatter<W>) -> fmt::Result {
        match *self {
            Item::Rows => write!(f, "the number of rows"),
            Item::Step => write!(f, "the step"),
            Item::First => write!(f, "the first row number"),
            Item::Rule => write!(f, "the sheet rule"),
            Item::Entries => write!(f, "the number of rain entries"),
            Item::Entry(k) => write!(f, "rain entry {k}"),
            Item::Subareas => write!(f, "the number of subareas"),
            Item::Patches { of } => write!(f, "the number of patches of subarea {of}"),
            Item::Patch { place, of } => {
                let column = PATCH_COLUMNS[place % curve::PATCH_WIDTH];
                let patch = place / curve::PATCH_WIDTH + 1;
                write!(f, "the {column} of patch {patch} of subarea {of}")
            }
            Item::Segments { of } => write!(f, "the number of segments of subarea {of}"),
            Item::Segment { place, of } => {
                let column = SEGMENT_COLUMNS[place % travel::SEGMENT_WIDTH];
                let segment = place / travel::SEGMENT_WIDTH + 1;
                write!(f, "the {column} of segment {segment} of subarea {of}")
            }
            Item::PondRows => write!(f, "the number of pond rows"),
            Item::PondRow { place } => {
                let column = POND_COLUMNS[place % pond::ROW_WIDTH];
                let row = place / pond::ROW_WIDTH + 1;
                write!(f, "the {column} of pond row {row}")
            }
        }
    }
}
