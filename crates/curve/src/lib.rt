// Curve numbers: the cover table, the classes, and the composite curve number of a subarea's patches, in tenths.
// A list of patches is flat, three numbers a patch: cover code, soil group, area in hundredths of an acre.
#![tactic(auto)]

ghost use Rattle.std.specs.Prelude.{◌≡◌};
ghost use Rattle.std.specs.List.{list_all};
ghost use Rattle.curve.specs.CurveNumbers.{cover_number, class_of, mean_tenths, ground_of, classes_of, patch_within, patches_good};
ghost use Rattle.curve.specs.Needs.{CoverOk, PatchesOk, MeanOk, AddOk, SubOk, cover_of, soil_of, area_of, class_number, alone_of, classes_plus, classes_less};

use laws::limits;
use std::ops::{Add, Sub};

// The numbers of a patch in a list, and the patches that a subarea can have.
pub const PATCH_WIDTH: usize = 3;

pub const MOST_PATCHES: usize = 8;

// The cover table; narrow, since it is laid on the stack where it is read.
const COVER: [[u8; 4]; 22] = [
    [68, 79, 86, 89],
    [49, 69, 79, 84],
    [39, 61, 74, 80],
    [98, 98, 98, 98],
    [98, 98, 98, 98],
    [83, 89, 92, 93],
    [76, 85, 89, 91],
    [72, 82, 87, 89],
    [89, 92, 94, 95],
    [81, 88, 91, 93],
    [77, 85, 90, 92],
    [61, 75, 83, 87],
    [57, 72, 81, 86],
    [54, 70, 80, 85],
    [51, 68, 79, 84],
    [46, 65, 77, 82],
    [48, 67, 77, 83],
    [35, 56, 70, 77],
    [30, 48, 65, 73],
    [57, 73, 82, 86],
    [43, 65, 76, 82],
    [32, 58, 72, 79],
];

#[derive(Clone, Copy, Debug, PartialEq, Eq)]
enum Class {
    Surfaces,
    Districts,
    Lots,
    Rural,
}

// What a subarea's patches come to: their area, in hundredths of an acre, and their composite curve number, in tenths.
#[derive(Clone, Copy, Debug, PartialEq, Eq)]
pub struct Ground {
    pub area: u64,
    pub tenths: u64,
}

// The area in each class, in hundredths of an acre.
#[derive(Clone, Copy, Debug, Default, PartialEq, Eq)]
pub struct Classes {
    pub surfaces: u64,
    pub districts: u64,
    pub lots: u64,
    pub rural: u64,
}

impl Add for Classes {
    type Output = Classes;

    ghost can_add = { AddOk };

    ghost add_gives = { λ c d r. r ≡ classes_plus c d };

    fn add(self, other: Classes) -> Classes {
        Classes {
            surfaces: self.surfaces + other.surfaces,
            districts: self.districts + other.districts,
            lots: self.lots + other.lots,
            rural: self.rural + other.rural,
        }
    }
}

impl Sub for Classes {
    type Output = Classes;

    ghost can_sub = { SubOk };

    ghost sub_gives = { λ c d r. r ≡ classes_less c d };

    fn sub(self, other: Classes) -> Classes {
        Classes {
            surfaces: self.surfaces - other.surfaces,
            districts: self.districts - other.districts,
            lots: self.lots - other.lots,
            rural: self.rural - other.rural,
        }
    }
}

// The curve number of a cover code on a soil group, whole.
pub fn cover_number(cover: u64, soil: u64) -> u64
    requires { CoverOk cover soil }
    ensures { result ≡ cover_number cover soil }
{
    let i = (cover - 1) as usize;
    let j = (soil - 1) as usize;
    u64::from(COVER[i][j])
}

// The class of a cover code.
#[tactic(auto, using(crate::proofs::Covers::is_none, crate::proofs::Covers::is_surface, crate::proofs::Covers::is_district, crate::proofs::Covers::is_lot, crate::proofs::Covers::is_rural, crate::proofs::Covers::is_past))]
fn class_of(cover: u64) -> Option<Class>
    ensures { class_number result ≡ class_of cover }
{
    match cover {
        1..=8 => Some(Class::Surfaces),
        9..=10 => Some(Class::Districts),
        11..=16 => Some(Class::Lots),
        17..=22 => Some(Class::Rural),
        _ => None,
    }
}

// The mean weighted / area in tenths, to the nearest, halves up.
pub fn mean_tenths(weighted: u64, area: u64) -> u64
    requires { MeanOk weighted area }
    ensures { result ≡ mean_tenths weighted area }
{
    (2 * (10 * weighted) + area) / (2 * area)
}

// The area and the composite curve number of a subarea's patches.
pub fn composite(patches: &[u64]) -> Ground
    requires { PatchesOk patches.now }
    ensures { result ≡ ground_of patches.now }
{
    let (list, _) = patches.as_chunks::<PATCH_WIDTH>();
    let mut area = 0;
    let mut weighted = 0;
    for &[cover, soil, own] in list {
        weighted += cover_number(cover, soil) * own;
        area += own;
    }
    Ground {
        area,
        tenths: mean_tenths(weighted, area),
    }
}

// The class areas of one patch.
fn alone(patch: &[u64; PATCH_WIDTH]) -> Classes
    ensures { result ≡ alone_of patch.now }
{
    let [cover, _, area] = *patch;
    let class = class_of(cover);
    let own = |of: Class| if class == Some(of) { area } else { 0 };
    Classes {
        surfaces: own(Class::Surfaces),
        districts: own(Class::Districts),
        lots: own(Class::Lots),
        rural: own(Class::Rural),
    }
}

// The area in each class of a subarea's patches.
pub fn class_areas(patches: &[u64]) -> Classes
    requires { PatchesOk patches.now }
    ensures { result ≡ classes_of patches.now }
{
    let (list, _) = patches.as_chunks::<PATCH_WIDTH>();
    let mut so = Classes::default();
    for patch in list {
        so = so + alone(patch);
    }
    so
}

#[tactic(auto, unfolding(crate::specs::CurveNumbers::patch_within))]
fn patch_good(patch: &[u64; PATCH_WIDTH]) -> bool
    ensures { result ≡ patch_within (cover_of patch.now) (soil_of patch.now) (area_of patch.now) }
{
    let [cover, soil, area] = *patch;
    (1..=22).contains(&cover) && (1..=4).contains(&soil) && (1..=limits::MOST_AREA).contains(&area)
}

fn all_good(list: &[[u64; PATCH_WIDTH]]) -> bool
    ensures { result ≡ list_all (λ patch. patch_within (cover_of patch) (soil_of patch) (area_of patch)) list.now }
{
    list.iter().all(patch_good)
}

// Is this a list of patches within the limits? Any numbers may stand in it.
// travel::segments_good is its twin: one function over both widths would take a closure over arrays of any width, which the checker
// does not cover.
#[tactic(auto, using(crate::proofs::Patches::patches_each))]
pub fn patches_good(patches: &[u64]) -> bool
    ensures { result ≡ patches_good patches.now }
{
    let (list, rest) = patches.as_chunks::<PATCH_WIDTH>();
    rest.is_empty() && (1..=MOST_PATCHES).contains(&list.len()) && all_good(list)
}
