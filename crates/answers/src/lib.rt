// Answers as arrays of numbers, for hosts in other languages. Each is written whole, refused or done.
#![tactic(auto)]

ghost use Rattle.std.specs.Prelude.{◌≡◌};
ghost use Rattle.refusals.specs.Refusals.{told_by};
ghost use Rattle.study.specs.Study.{study_refusal_in};
ghost use Rattle.edit.specs.Edit.{edit_refusal_in, edit_values_in};
ghost use Rattle.marks.specs.ChartMarks.{kind_of, flow_of, stage_of, mark_refusal_in, mark_values_in};
ghost use Rattle.answers.specs.StudyNumbers.{study_numbers, study_numbers_by};
ghost use Rattle.answers.specs.EditNumbers.{edit_numbers, edit_numbers_by, changes_of};
ghost use Rattle.answers.specs.MarkNumbers.{mark_numbers_by};
ghost use Rattle.answers.specs.InflowNumbers.{refusal_numbers_by};

use marks::{Mark, Marked};
use refusals::{Numbered, Refusal};
use rewrite::Edited;
use study::Figures;

// Writes the twelve numbers of a study's answer and gives the first.
fn write_study(number: u64, place: u64, values: Figures, answer: &mut [u64; 12]) -> u64
    ensures value { result ≡ number }
    ensures answer_after { answer.new ≡ study_numbers number place values }
{
    *answer = [
        number,
        place,
        values.inflow,
        values.released,
        values.storage,
        values.peak,
        values.row,
        values.stage,
        values.surfaces,
        values.districts,
        values.lots,
        values.rural,
    ];
    number
}

// A study's answer. Gives the refusal number, 0 when done.
pub fn put_study<R: Numbered>(own: Result<Figures, Refusal<R>>, answer: &mut [u64; 12]) -> u64
    ensures value { result ≡ (told_by R.number (study_refusal_in own)).0 }
    ensures answer_after { answer.new ≡ study_numbers_by R.number own }
{
    match own {
        Ok(figures) => write_study(0, 0, figures, answer),
        Err(refusal) => write_study(
            refusal.rule.number(),
            refusal.place,
            Figures::default(),
            answer,
        ),
    }
}

// Writes the thirteen numbers and the two changes of an edit's answer and gives the first number.
fn write_edit(
    number: u64,
    place: u64,
    values: Edited,
    answer: &mut [u64; 13],
    changes: &mut [i64; 2],
) -> u64
    ensures value { result ≡ number }
    ensures answer_after { answer.new ≡ edit_numbers number place values }
    ensures changes_after { changes.new ≡ changes_of values }
{
    let own = values.figures;
    *answer = [
        number,
        place,
        own.inflow,
        own.released,
        own.storage,
        own.peak,
        own.row,
        own.stage,
        own.surfaces,
        own.districts,
        own.lots,
        own.rural,
        values.changed.unwrap_or(0),
    ];
    *changes = [values.peak, values.released];
    number
}

// An edit's answer. Gives the refusal number, 0 when done.
pub fn put_edit<R: Numbered>(
    own: Result<Edited, Refusal<R>>,
    answer: &mut [u64; 13],
    changes: &mut [i64; 2],
) -> u64
    ensures value { result ≡ (told_by R.number (edit_refusal_in own)).0 }
    ensures answer_after { answer.new ≡ edit_numbers_by R.number own }
    ensures changes_after { changes.new ≡ changes_of (edit_values_in own) }
{
    match own {
        Ok(edited) => write_edit(0, 0, edited, answer, changes),
        Err(refusal) => write_edit(
            refusal.rule.number(),
            refusal.place,
            Edited::default(),
            answer,
            changes,
        ),
    }
}

fn kind_of(own: Mark) -> u64
    ensures { result ≡ kind_of own }
{
    match own {
        Mark::Nothing => 0,
        Mark::Outflow(_) => 1,
        Mark::Peak { .. } => 2,
    }
}

#[tactic(auto, using(crate::proofs::Doubles::zero_double))]
fn flow_of(own: Mark) -> f64
    ensures { result ≡ flow_of own }
{
    match own {
        Mark::Nothing => 0.0,
        Mark::Outflow(outflow) | Mark::Peak { outflow, .. } => outflow,
    }
}

#[tactic(auto, using(crate::proofs::Doubles::zero_double))]
fn stage_of(own: Mark) -> f64
    ensures { result ≡ stage_of own }
{
    match own {
        Mark::Nothing | Mark::Outflow(_) => 0.0,
        Mark::Peak { stage, .. } => stage,
    }
}

// A mark's answer. Gives the refusal number, 0 when done.
#[tactic(auto, using(crate::proofs::Doubles::zero_double))]
pub fn put_mark<R: Numbered>(
    own: Result<Marked, Refusal<R>>,
    answer: &mut [u64; 3],
    values: &mut [f64; 5],
) -> u64
    ensures value { result ≡ (told_by R.number (mark_refusal_in own)).0 }
    ensures answer_after { answer.new ≡ mark_numbers_by R.number own }
    ensures values_after { values.new ≡ mark_values_in own }
{
    match own {
        Ok(Marked { mark, point }) => {
            let flow = flow_of(mark);
            let stage = stage_of(mark);
            *answer = [0, 0, kind_of(mark)];
            *values = [flow, stage, point.row, point.seconds, point.outflow];
            0
        }
        Err(refusal) => {
            let number = refusal.rule.number();
            *answer = [number, refusal.place, 0];
            *values = [0.0; 5];
            number
        }
    }
}

// The answer of inflow rows alone, which has no figures. Gives the refusal number, 0 when done.
pub fn put_refusal<R: Numbered>(own: Result<(), Refusal<R>>, answer: &mut [u64; 2]) -> u64
    ensures value { result ≡ (told_by R.number own).0 }
    ensures answer_after { answer.new ≡ refusal_numbers_by R.number own }
{
    let (number, place) = refusals::told(own);
    *answer = [number, place];
    number
}
