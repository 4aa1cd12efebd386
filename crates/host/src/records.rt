// Thin entries over a lent list of records: the list is gathered into flat numbers, and the engine works on those.
ghost use Rattle.std.specs.Prelude.{◌≡◌};
ghost use Rattle.refusals.specs.Refusals.{told};
ghost use Rattle.checks.specs.Site.{found, left};
ghost use Rattle.study.specs.Study.{study_answer, study_rows, study_refusal_in};
ghost use Rattle.edit.specs.Edit.{edit_answer, edit_rows, edit_refusal_in, edit_values_in};
ghost use Rattle.answers.specs.Setups.{setup_of};
ghost use Rattle.answers.specs.StudyNumbers.{study_numbers_of};
ghost use Rattle.answers.specs.EditNumbers.{edit_numbers_of, changes_of};
ghost use Rattle.host.specs.Flattened.{list_site, flat_of};
ghost use Rattle.host.specs.Gathered.{used, handed};

use crate::gathering;
use crate::gathering::Flat;
use laws::limits;
use subarea::Setup;

// A patch: area in hundredths of an acre.
#[repr(C)]
#[derive(Clone, Copy, Debug, PartialEq, Eq)]
pub struct Patch {
    pub cover: u64,
    pub soil: u64,
    pub area: u64,
}

// A segment: length in feet; what stands third, fourth and fifth is by its kind, as travel's definitions say.
#[repr(C)]
#[derive(Clone, Copy, Debug, PartialEq, Eq)]
pub struct Segment {
    pub kind: u64,
    pub length: u64,
    pub third: u64,
    pub fourth: u64,
    pub fifth: u64,
}

// A subarea's record, laid out as its numbers are in a flat list.
#[repr(C)]
#[derive(Clone, Copy, Debug, PartialEq, Eq)]
pub struct Subarea {
    pub patch_count: u64,
    pub patches: [Patch; curve::MOST_PATCHES],
    pub segment_count: u64,
    pub segments: [Segment; travel::MOST_SEGMENTS],
}

// How many numbers to hand on for n records: none for too many, so that the engine refuses them in its own order.
#[tactic(auto, using(crate::proofs::Used::used_none, crate::proofs::Used::used_all))]
fn used_by(n: usize) -> usize
    ensures { result ≡ used n }
{
    if limits::MOST_SUBAREAS < n {
        0
    } else {
        subarea::WIDTH * n
    }
}

// A study of n gathered records.
fn study_of(
    flat: Flat,
    n: usize,
    step: u64,
    first: u64,
    rule: u64,
    rain: &[u64],
    pond: &[u64],
    inflow: &mut [u64],
    outflow: &mut [u64],
    storage: &mut [u64],
    answer: &mut [u64; 12],
) -> u64
    ensures value { result ≡ (told (study_refusal_in (study_answer (list_site (setup_of step first rule) rain.now (handed flat n) pond.now) (found inflow.old outflow.old storage.old)))).0 }
    ensures answer_after { answer.new ≡ study_numbers_of (study_answer (list_site (setup_of step first rule) rain.now (handed flat n) pond.now) (found inflow.old outflow.old storage.old)) }
    ensures storage_value { left inflow.new outflow.new storage.new ≡ study_rows (list_site (setup_of step first rule) rain.now (handed flat n) pond.now) (found inflow.old outflow.old storage.old) }
{
    let numbers = flat.numbers;
    let e = used_by(n);
    let setup = Setup { step, first, rule };
    let own = study::run(setup, rain, &numbers[..e], pond, inflow, outflow, storage);
    answers::put_study(own, answer)
}

// A study of a list of records: as `bt_study` of the list flattened.
pub fn bt_study_records(
    step: u64,
    first: u64,
    rule: u64,
    rain: &[u64],
    list: &[Subarea],
    pond: &[u64],
    inflow: &mut [u64],
    outflow: &mut [u64],
    storage: &mut [u64],
    answer: &mut [u64; 12],
) -> u64
    ensures value { result ≡ (told (study_refusal_in (study_answer (list_site (setup_of step first rule) rain.now (flat_of list.now) pond.now) (found inflow.old outflow.old storage.old)))).0 }
    ensures answer_after { answer.new ≡ study_numbers_of (study_answer (list_site (setup_of step first rule) rain.now (flat_of list.now) pond.now) (found inflow.old outflow.old storage.old)) }
    ensures storage_value { left inflow.new outflow.new storage.new ≡ study_rows (list_site (setup_of step first rule) rain.now (flat_of list.now) pond.now) (found inflow.old outflow.old storage.old) }
{
    let flat = gathering::gather(list);
    study_of(
        flat,
        list.len(),
        step,
        first,
        rule,
        rain,
        pond,
        inflow,
        outflow,
        storage,
        answer,
    )
}

// An edit of n gathered records.
fn edit_of(
    flat: Flat,
    n: usize,
    step: u64,
    first: u64,
    rule: u64,
    rain: &[u64],
    pond: &[u64],
    inflow: &mut [u64],
    outflow: &mut [u64],
    storage: &mut [u64],
    place: u64,
    fresh: &[u64; subarea::WIDTH],
    answer: &mut [u64; 13],
    changes: &mut [i64; 2],
) -> u64
    ensures value { result ≡ (told (edit_refusal_in (edit_answer (list_site (setup_of step first rule) rain.now (handed flat n) pond.now) (found inflow.old outflow.old storage.old) place fresh.now))).0 }
    ensures answer_after { answer.new ≡ edit_numbers_of (edit_answer (list_site (setup_of step first rule) rain.now (handed flat n) pond.now) (found inflow.old outflow.old storage.old) place fresh.now) }
    ensures changes_after { changes.new ≡ changes_of (edit_values_in (edit_answer (list_site (setup_of step first rule) rain.now (handed flat n) pond.now) (found inflow.old outflow.old storage.old) place fresh.now)) }
    ensures storage_value { left inflow.new outflow.new storage.new ≡ edit_rows (list_site (setup_of step first rule) rain.now (handed flat n) pond.now) (found inflow.old outflow.old storage.old) place fresh.now }
{
    let numbers = flat.numbers;
    let e = used_by(n);
    let setup = Setup { step, first, rule };
    let own = edit::run(
        setup,
        rain,
        &numbers[..e],
        pond,
        inflow,
        outflow,
        storage,
        place,
        fresh,
    );
    answers::put_edit(own, answer, changes)
}

// An edit of a list of records, which is only read: as `bt_edit` of the list flattened.
pub fn bt_edit_records(
    step: u64,
    first: u64,
    rule: u64,
    rain: &[u64],
    list: &[Subarea],
    pond: &[u64],
    inflow: &mut [u64],
    outflow: &mut [u64],
    storage: &mut [u64],
    place: u64,
    fresh: &[u64; subarea::WIDTH],
    answer: &mut [u64; 13],
    changes: &mut [i64; 2],
) -> u64
    ensures value { result ≡ (told (edit_refusal_in (edit_answer (list_site (setup_of step first rule) rain.now (flat_of list.now) pond.now) (found inflow.old outflow.old storage.old) place fresh.now))).0 }
    ensures answer_after { answer.new ≡ edit_numbers_of (edit_answer (list_site (setup_of step first rule) rain.now (flat_of list.now) pond.now) (found inflow.old outflow.old storage.old) place fresh.now) }
    ensures changes_after { changes.new ≡ changes_of (edit_values_in (edit_answer (list_site (setup_of step first rule) rain.now (flat_of list.now) pond.now) (found inflow.old outflow.old storage.old) place fresh.now)) }
    ensures storage_value { left inflow.new outflow.new storage.new ≡ edit_rows (list_site (setup_of step first rule) rain.now (flat_of list.now) pond.now) (found inflow.old outflow.old storage.old) place fresh.now }
{
    let flat = gathering::gather(list);
    edit_of(
        flat,
        list.len(),
        step,
        first,
        rule,
        rain,
        pond,
        inflow,
        outflow,
        storage,
        place,
        fresh,
        answer,
        changes,
    )
}
