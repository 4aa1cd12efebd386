// One record of the subareas, and the numbers of a run that it is read with. The engine has the record's layout here and in
// specs/Records.antt only.
#![tactic(auto)]

ghost use Rattle.std.specs.Prelude.{◌≡◌, ◌≤◌, true, length};
ghost use Rattle.std.specs.Simd.{first_chunks};
ghost use Rattle.curve.specs.CurveNumbers.{most_patches, ground_of, classes_of};
ghost use Rattle.travel.specs.TravelTime.{most_segments};
ghost use Rattle.subarea.specs.Records.{width, records_in, patch_count, patches, segment_count, segments, time_of, peak_of, patches_pass, segments_pass};
ghost use Rattle.subarea.specs.Needs.{RoutedOk};

// The numbers of a run: the step in seconds, the first row's number and the sheet rule, the number of a travel::SheetRule.
#[derive(Clone, Copy, Debug, PartialEq, Eq)]
pub struct Setup {
    pub step: u64,
    pub first: u64,
    pub rule: u64,
}

// A record: the patch count, MOST_PATCHES patches, the segment count, MOST_SEGMENTS segments.
pub const PATCHES: usize = 1;

pub const SEGMENT_COUNT: usize = PATCHES + curve::PATCH_WIDTH * curve::MOST_PATCHES;

pub const SEGMENTS: usize = SEGMENT_COUNT + 1;

pub const WIDTH: usize = SEGMENTS + travel::SEGMENT_WIDTH * travel::MOST_SEGMENTS;

// The records of a flat list, each lent: numbers that fill no whole record are left out.
pub fn records(subareas: &[u64]) -> &[[u64; WIDTH]]
    ensures { result.now ≡ first_chunks width (records_in subareas.now) subareas.now }
{
    let (records, _) = subareas.as_chunks::<WIDTH>();
    records
}

// The patches and the segments within its counts.
fn patches(own: &[u64]) -> &[u64]
    requires { (length own.now ≡ width) × (patch_count own.now ≤ most_patches) }
    ensures { result.now ≡ patches own.now }
{
    let count = own[0] as usize;
    &own[PATCHES..][..curve::PATCH_WIDTH * count]
}

fn segments(own: &[u64]) -> &[u64]
    requires { (length own.now ≡ width) × (segment_count own.now ≤ most_segments) }
    ensures { result.now ≡ segments own.now }
{
    let count = own[SEGMENT_COUNT] as usize;
    &own[SEGMENTS..][..travel::SEGMENT_WIDTH * count]
}

// Are its patch count and its patches within their limits? A count out of limits means that no patch is read.
#[tactic(auto, unfolding(crate::specs::Records::patches_pass))]
pub fn patches_pass(own: &[u64]) -> bool
    requires { length own.now ≡ width }
    ensures { result ≡ patches_pass own.now }
{
    (1..=curve::MOST_PATCHES as u64).contains(&own[0]) && curve::patches_good(patches(own))
}

// Are its segment count and its segments within their limits, by a sheet rule?
#[tactic(auto, unfolding(crate::specs::Records::segments_pass))]
pub fn segments_pass(rule: u64, own: &[u64]) -> bool
    requires { length own.now ≡ width }
    ensures { result ≡ segments_pass rule own.now }
{
    (1..=travel::MOST_SEGMENTS as u64).contains(&own[SEGMENT_COUNT])
        && travel::segments_good(travel::sheet_limit(rule), segments(own))
}

// Its area and its curve number in tenths.
#[tactic(auto, using(crate::proofs::Subareas::patches_few, crate::proofs::Subareas::patches_fit))]
pub fn ground(own: &[u64]) -> curve::Ground
    requires { (length own.now ≡ width) × (patches_pass own.now ≡ true) }
    ensures { result ≡ ground_of (patches own.now) }
{
    curve::composite(patches(own))
}

// Its area in each class.
#[tactic(auto, using(crate::proofs::Subareas::patches_few, crate::proofs::Subareas::patches_fit))]
pub fn classes(own: &[u64]) -> curve::Classes
    requires { (length own.now ≡ width) × (patches_pass own.now ≡ true) }
    ensures { result ≡ classes_of (patches own.now) }
{
    curve::class_areas(patches(own))
}

// Its time of concentration.
pub fn time(own: &[u64]) -> u64
    requires { (length own.now ≡ width) × RoutedOk own.now }
    ensures { result ≡ time_of own.now }
{
    travel::concentration(segments(own))
}

// Its time to peak.
#[tactic(auto, using(travel::proofs::Times::concentration_ok))]
pub fn peak(setup: Setup, own: &[u64]) -> u64
    requires { (length own.now ≡ width) × RoutedOk own.now }
    ensures { result ≡ peak_of setup own.now }
{
    travel::time_to_peak(setup.step, time(own))
}
