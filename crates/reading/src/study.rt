// A study as its file gives it.
ghost use Rattle.std.specs.Prelude.{⊤, ◌≡◌, ◌≤◌, ◌*◌, [], IfOk, length};
ghost use Rattle.std.specs.List.{flat_map};
ghost use Rattle.arrayvec.specs.ArrayVec.{array_vec_len};
ghost use Rattle.travel.specs.TravelTime.{segment_width, most_segments};
ghost use Rattle.pond.specs.PondRows.{row_width};
ghost use Rattle.reading.specs.Bounds.{rain_room, subareas_room, pond_room, LaidOk};

use crate::faults::{Fault, Most};
use crate::items::Item;
use crate::reader::Reader;
use arrayvec::ArrayVec;
use laws::limits;
use std::alloc::AllocError;
use subarea::Setup;
use travel::Segment;

/// The rows that a file may ask for. It has room for one more of each list than a study may have, so that the engine refuses it
/// by its number.
pub const ROWS_ROOM: usize = limits::MOST_ROWS + 1;

/// Rain entries: rain has one more than it has steps.
pub const RAIN_ROOM: usize = ROWS_ROOM + 1;

/// Subareas, of `subarea::WIDTH` numbers each.
pub const SUBAREAS_ROOM: usize = limits::MOST_SUBAREAS + 1;

/// Pond rows, of `pond::ROW_WIDTH` numbers each.
pub const POND_ROOM: usize = pond::MOST_POND_ROWS + 1;

// The numbers of a segment in a file: kind, length and one rate, also of a kind that the engine refuses; sheet and channel
// flow have a number for each place.
const RATED: usize = 3;

/// The numbers of a run, and the lists that the engine is lent: rain entries, subareas' records and pond rows.
#[derive(Debug, Drop, PartialEq, Eq)]
pub struct Study {
    pub setup: Setup,
    pub rows: usize,
    pub rain: ArrayVec<u64, RAIN_ROOM>,
    pub records: ArrayVec<[u64; subarea::WIDTH], SUBAREAS_ROOM>,
    pub pond_rows: ArrayVec<[u64; pond::ROW_WIDTH], POND_ROOM>,
    ghost laid: { LaidOk rows (array_vec_len rain) (array_vec_len records) (array_vec_len pond_rows) },
}

/// A study's numbers that stand alone, and how many numbers are laid of each list.
#[derive(Clone, Copy, Debug, PartialEq, Eq)]
pub struct Laid {
    pub setup: Setup,
    pub rows: usize,
    pub rain: usize,
    pub subareas: usize,
    pub pond: usize,
}

impl Study {
    /// A study of no rows, with nothing in its lists.
    pub fn new() -> Study
        ensures rows { result.rows ≡ 0 }
        ensures lists { (result.rain.items ≡ []) × (result.records.items ≡ []) × (result.pond_rows.items ≡ []) }
    {
        Study {
            setup: Setup {
                step: 0,
                first: 0,
                rule: 0,
            },
            rows: 0,
            rain: ArrayVec::new(),
            records: ArrayVec::new(),
            pond_rows: ArrayVec::new(),
        }
    }

    /// Reads the study that a text spells. The first fault ends the reading; what the engine refuses is none.
    pub fn read(text: &[u8]) -> Result<Study, Fault>
        ensures { IfOk result (λ s. LaidOk s.rows (array_vec_len s.rain) (array_vec_len s.records) (array_vec_len s.pond_rows)) }
    {
        let mut study = Study::new();
        study.fill(text)?;
        Ok(study)
    }

    // Reads a study into this one, in the place of what it held.
    pub(crate) fn fill(&mut self, text: &[u8]) -> Result<(), Fault>
        ensures { LaidOk self.new.rows (array_vec_len self.new.rain) (array_vec_len self.new.records)
            (array_vec_len self.new.pond_rows) }
    {
        let mut reader = Reader::new(text);
        self.rows = reader.count(Item::Rows, Most::Count(limits::MOST_ROWS), ROWS_ROOM)?;
        self.setup = setup(&mut reader)?;
        rain(&mut reader, &mut self.rain)?;
        records(&mut reader, &mut self.records)?;
        pond_rows(&mut reader, &mut self.pond_rows)?;
        reader.finish()
    }

    /// Its numbers that stand alone, and how many numbers each list has.
    pub fn counts(&self) -> Laid
        ensures alone { (result.setup ≡ self.now.setup) × (result.rows ≡ self.now.rows) }
        ensures rain { result.rain ≡ array_vec_len self.now.rain }
        ensures subareas { result.subareas ≡ length (flat_map (λ own. own) self.now.records.items) }
        ensures pond { result.pond ≡ length (flat_map (λ row. row) self.now.pond_rows.items) }
    {
        let (setup, rows) = (self.setup, self.rows);
        Laid {
            setup,
            rows,
            rain: self.rain.len(),
            subareas: self.subareas().len(),
            pond: self.pond().len(),
        }
    }

    /// The subareas' records, one behind the other.
    pub fn subareas(&self) -> &[u64]
        ensures { result.now ≡ flat_map (λ own. own) self.now.records.items }
    {
        self.records.as_slice().as_flattened()
    }

    /// The pond's rows, one behind the other.
    pub fn pond(&self) -> &[u64]
        ensures { result.now ≡ flat_map (λ row. row) self.now.pond_rows.items }
    {
        self.pond_rows.as_slice().as_flattened()
    }
}

// By hand: the derive does not show that a clone keeps `laid`.
impl Clone for Study {
    ghost is_clone = { λ s t. (t.setup ≡ s.setup) × (t.rows ≡ s.rows) × (t.rain.items ≡ s.rain.items)
        × (t.records.items ≡ s.records.items) × (t.pond_rows.items ≡ s.pond_rows.items) };

    ghost is_infallible = { λ _. ⊤ };

    fn clone(&self) -> Result<Study, AllocError> {
        Ok(Study {
            setup: self.setup,
            rows: self.rows,
            rain: self.rain.clone()?,
            records: self.records.clone()?,
            pond_rows: self.pond_rows.clone()?,
        })
    }
}

fn setup(reader: &mut Reader<'_>) -> Result<Setup, Fault> {
    let step = reader.next(Item::Step)?;
    let first = reader.next(Item::First)?;
    let rule = reader.next(Item::Rule)?;
    Ok(Setup { step, first, rule })
}

fn rain(reader: &mut Reader<'_>, rain: &mut ArrayVec<u64, RAIN_ROOM>) -> Result<(), Fault>
    ensures { array_vec_len rain.new ≤ rain_room }
{
    rain.clear();
    let entries = reader.count(Item::Entries, Most::OneMoreThanRows, RAIN_ROOM)?;
    for k in 0..entries {
        rain.push(reader.next(Item::Entry(k))?);
    }
    Ok(())
}

fn records(
    reader: &mut Reader<'_>,
    records: &mut ArrayVec<[u64; subarea::WIDTH], SUBAREAS_ROOM>,
) -> Result<(), Fault>
    ensures { array_vec_len records.new ≤ subareas_room }
{
    records.clear();
    let most = Most::Count(limits::MOST_SUBAREAS);
    let count = reader.count(Item::Subareas, most, SUBAREAS_ROOM)?;
    for k in 0..count {
        records.push(record(reader, k + 1)?);
    }
    Ok(())
}

// One subarea's record. The places past its patches and its segments stay 0.
fn record(reader: &mut Reader<'_>, of: usize) -> Result<[u64; subarea::WIDTH], Fault> {
    let mut own = [0; subarea::WIDTH];
    let most = curve::MOST_PATCHES;
    let patches = reader.count(Item::Patches { of }, Most::Count(most), most)?;
    own[0] = patches as u64;
    for place in 0..curve::PATCH_WIDTH * patches {
        own[subarea::PATCHES + place] = reader.next(Item::Patch { place, of })?;
    }
    let most = travel::MOST_SEGMENTS;
    let segments = reader.count(Item::Segments { of }, Most::Count(most), most)?;
    own[subarea::SEGMENT_COUNT] = segments as u64;
    for k in 0..segments {
        let segment = segment(reader, travel::SEGMENT_WIDTH * k, of)?;
        let at = subarea::SEGMENTS + travel::SEGMENT_WIDTH * k;
        own[at..at + travel::SEGMENT_WIDTH].copy_from_slice(&segment);
    }
    Ok(own)
}

// One segment, from a place of their list on: its kind tells how many numbers follow.
fn segment(
    reader: &mut Reader<'_>,
    place: usize,
    of: usize,
) -> Result<[u64; travel::SEGMENT_WIDTH], Fault>
    requires { place ≤ segment_width * most_segments }
{
    let mut own = [0; travel::SEGMENT_WIDTH];
    own[0] = reader.next(Item::Segment { place, of })?;
    for k in 1..numbers_of(own[0]) {
        own[k] = reader.next(Item::Segment {
            place: place + k,
            of,
        })?;
    }
    Ok(own)
}

fn numbers_of(kind: u64) -> usize
    ensures { result ≤ segment_width }
{
    match Segment::try_from([kind, 0, 0, 0, 0]) {
        Ok(Segment::Sheet { .. } | Segment::Channel { .. }) => travel::SEGMENT_WIDTH,
        _ => RATED,
    }
}

fn pond_rows(
    reader: &mut Reader<'_>,
    rows: &mut ArrayVec<[u64; pond::ROW_WIDTH], POND_ROOM>,
) -> Result<(), Fault>
    ensures { array_vec_len rows.new ≤ pond_room }
{
    rows.clear();
    let most = Most::Count(pond::MOST_POND_ROWS);
    let count = reader.count(Item::PondRows, most, POND_ROOM)?;
    for k in 0..count {
        rows.push(pond_row(reader, pond::ROW_WIDTH * k)?);
    }
    Ok(())
}

// One row, from a place of their list on.
fn pond_row(reader: &mut Reader<'_>, place: usize) -> Result<[u64; pond::ROW_WIDTH], Fault>
    requires { place ≤ row_width * pond_room }
{
    let stage = reader.next(Item::PondRow { place })?;
    let storage = reader.next(Item::PondRow { place: place + 1 })?;
    let discharge = reader.next(Item::PondRow { place: place + 2 })?;
    Ok([stage, storage, discharge])
}
