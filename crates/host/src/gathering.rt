// Gathers a list of records into flat numbers, in the order in which a record has them.
ghost use Rattle.std.specs.Prelude.{◌≡◌, [], ◌∷◌, ◌+◌, ◌*◌, ◌≤◌, ◌<◌};
ghost use Rattle.std.proofs.lemmas.List.Edits.{sets};
ghost use Rattle.curve.specs.CurveNumbers.{most_patches, patch_width};
ghost use Rattle.travel.specs.TravelTime.{most_segments, segment_width};
ghost use Rattle.laws.specs.Limits.{most_subareas};
ghost use Rattle.host.specs.Flattened.{segment_numbers, patches_to, segments_to};
ghost use Rattle.host.specs.Gathered.{most_numbers, capped, blank, put_at, gathered};

use crate::records::{Patch, Segment, Subarea};
use laws::limits;

const MOST_NUMBERS: usize = limits::MOST_SUBAREAS * subarea::WIDTH;

// The numbers of as many records as a study takes.
#[derive(Drop)]
pub(crate) struct Flat {
    pub(crate) numbers: [u64; MOST_NUMBERS],
}

// No more records are read than a study takes.
fn at_most(n: usize) -> usize
    ensures { result ≡ capped n }
{
    n.min(limits::MOST_SUBAREAS)
}

#[tactic(auto, unfolding(crate::specs::Gathered::blank))]
fn zeros() -> Flat
    ensures { result ≡ blank }
{
    Flat {
        numbers: [0; MOST_NUMBERS],
    }
}

// Three numbers, from a place on.
fn put_three(to: &mut [u64; MOST_NUMBERS], at: usize, x: u64, y: u64, z: u64)
    requires { at + 3 ≤ most_numbers }
    ensures { to.new ≡ sets to.old at (x ∷ y ∷ z ∷ []) }
{
    let b = at + 1;
    let c = at + 2;
    to[at] = x;
    to[b] = y;
    to[c] = z;
}

// A segment's numbers, from a place on.
fn put_segment(to: &mut [u64; MOST_NUMBERS], at: usize, own: Segment)
    requires { at + segment_width ≤ most_numbers }
    ensures { to.new ≡ sets to.old at (segment_numbers own) }
{
    let b = at + 1;
    let c = b + 1;
    let d = c + 1;
    let e = d + 1;
    to[at] = own.kind;
    to[b] = own.length;
    to[c] = own.third;
    to[d] = own.fourth;
    to[e] = own.fifth;
}

fn put_patches(to: &mut [u64; MOST_NUMBERS], at: usize, own: [Patch; curve::MOST_PATCHES])
    requires { at + patch_width * most_patches ≤ most_numbers }
    ensures { to.new ≡ sets to.old at (patches_to most_patches own) }
{
    for k in 0..curve::MOST_PATCHES {
        let p = own[k];
        put_three(to, at + curve::PATCH_WIDTH * k, p.cover, p.soil, p.area);
    }
}

fn put_segments(to: &mut [u64; MOST_NUMBERS], at: usize, own: [Segment; travel::MOST_SEGMENTS])
    requires { at + segment_width * most_segments ≤ most_numbers }
    ensures { to.new ≡ sets to.old at (segments_to most_segments own) }
{
    for k in 0..travel::MOST_SEGMENTS {
        put_segment(to, at + travel::SEGMENT_WIDTH * k, own[k]);
    }
}

// Record i in its place.
fn put(flat: Flat, i: usize, own: Subarea) -> Flat
    requires { i < most_subareas }
    ensures { result ≡ put_at flat i own }
{
    let at = i * subarea::WIDTH;
    let next = at + subarea::SEGMENT_COUNT;
    let mut numbers = flat.numbers;
    let patches = own.patches;
    let segments = own.segments;
    numbers[at] = own.patch_count;
    put_patches(&mut numbers, at + subarea::PATCHES, patches);
    numbers[next] = own.segment_count;
    put_segments(&mut numbers, at + subarea::SEGMENTS, segments);
    Flat { numbers }
}

// As many records as a study takes, or all.
pub(crate) fn gather(list: &[Subarea]) -> Flat
    ensures { result ≡ gathered list.now }
{
    let mut flat = zeros();
    // By place: record i goes to the place of record i, and no more are read than a study takes.
    for i in 0..at_most(list.len()) {
        flat = put(flat, i, list[i]);
    }
    flat
}
