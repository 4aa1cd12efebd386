// The interface for hosts in other languages: only whole numbers and pointers cross. host_c exports it under the same names, and
// include/bridletenon.h has it for C.
#![tactic(auto)]

mod gathering;
pub mod records;

ghost use Rattle.std.specs.Prelude.{◌≡◌};
ghost use Rattle.refusals.specs.Refusals.{told};
ghost use Rattle.checks.specs.Site.{site, basin, found, left};
ghost use Rattle.inflow.specs.Inflow.{inflow_refusal, inflow_after};
ghost use Rattle.textbook.specs.Textbook.{textbook_refusal, textbook_after};
ghost use Rattle.study.specs.Study.{study_answer, study_rows, study_refusal_in};
ghost use Rattle.edit.specs.Edit.{edit_answer, edit_rows, edit_refusal_in, edit_values_in};
ghost use Rattle.marks.specs.ChartMarks.{mark_answer, mark_refusal_in, mark_values_in};
ghost use Rattle.answers.specs.Setups.{setup_of};
ghost use Rattle.answers.specs.StudyNumbers.{study_numbers_of};
ghost use Rattle.answers.specs.EditNumbers.{edit_numbers_of, changes_of};
ghost use Rattle.answers.specs.MarkNumbers.{mark_numbers_of};
ghost use Rattle.answers.specs.InflowNumbers.{refusal_numbers};
ghost use Rattle.host.specs.Interface.{interface};

use subarea::Setup;

// Raised with each change of a layout or of a signature below, or of the rows that a study leaves; the header's BT_INTERFACE is
// the same. A function more does not raise it: an engine that lacks one does not link with a host that calls it.
const INTERFACE: u64 = 5;

// The number of the interface that this engine was built with.
pub fn bt_interface() -> u64
    ensures { result ≡ interface }
{
    INTERFACE
}

// A study. The answer is written whole in either case; a refused study leaves the three row lists as they were.
pub fn bt_study(
    step: u64,
    first: u64,
    rule: u64,
    rain: &[u64],
    subareas: &[u64],
    pond: &[u64],
    inflow: &mut [u64],
    outflow: &mut [u64],
    storage: &mut [u64],
    answer: &mut [u64; 12],
) -> u64
    ensures value { result ≡ (told (study_refusal_in (study_answer (site (setup_of step first rule) rain.now subareas.now pond.now) (found inflow.old outflow.old storage.old)))).0 }
    ensures answer_after { answer.new ≡ study_numbers_of (study_answer (site (setup_of step first rule) rain.now subareas.now pond.now) (found inflow.old outflow.old storage.old)) }
    ensures storage_value { left inflow.new outflow.new storage.new ≡ study_rows (site (setup_of step first rule) rain.now subareas.now pond.now) (found inflow.old outflow.old storage.old) }
{
    let setup = Setup { step, first, rule };
    let own = study::run(setup, rain, subareas, pond, inflow, outflow, storage);
    answers::put_study(own, answer)
}

// An edit: one subarea replaced. The answer and the changes are written whole in either case; a refused edit leaves the three
// row lists as they were, and a done one the rows before the first changed row.
pub fn bt_edit(
    step: u64,
    first: u64,
    rule: u64,
    rain: &[u64],
    subareas: &[u64],
    pond: &[u64],
    inflow: &mut [u64],
    outflow: &mut [u64],
    storage: &mut [u64],
    place: u64,
    fresh: &[u64; subarea::WIDTH],
    answer: &mut [u64; 13],
    changes: &mut [i64; 2],
) -> u64
    ensures value { result ≡ (told (edit_refusal_in (edit_answer (site (setup_of step first rule) rain.now subareas.now pond.now) (found inflow.old outflow.old storage.old) place fresh.now))).0 }
    ensures answer_after { answer.new ≡ edit_numbers_of (edit_answer (site (setup_of step first rule) rain.now subareas.now pond.now) (found inflow.old outflow.old storage.old) place fresh.now) }
    ensures changes_after { changes.new ≡ changes_of (edit_values_in (edit_answer (site (setup_of step first rule) rain.now subareas.now pond.now) (found inflow.old outflow.old storage.old) place fresh.now)) }
    ensures storage_value { left inflow.new outflow.new storage.new ≡ edit_rows (site (setup_of step first rule) rain.now subareas.now pond.now) (found inflow.old outflow.old storage.old) place fresh.now }
{
    let setup = Setup { step, first, rule };
    let own = edit::run(
        setup, rain, subareas, pond, inflow, outflow, storage, place, fresh,
    );
    answers::put_edit(own, answer, changes)
}

// A row's mark. Both arrays are written whole in either case.
pub fn bt_mark(
    step: u64,
    first: u64,
    pond: &[u64],
    inflow: &[u64],
    outflow: &[u64],
    storage: &[u64],
    row: u64,
    answer: &mut [u64; 3],
    values: &mut [f64; 5],
) -> u64
    ensures value { result ≡ (told (mark_refusal_in (mark_answer step first pond.now (found inflow.now outflow.now storage.now) row))).0 }
    ensures answer_after { answer.new ≡ mark_numbers_of (mark_answer step first pond.now (found inflow.now outflow.now storage.now) row) }
    ensures values_after { values.new ≡ mark_values_in (mark_answer step first pond.now (found inflow.now outflow.now storage.now) row) }
{
    let own = marks::mark_row(step, first, pond, inflow, outflow, storage, row);
    answers::put_mark(own, answer, values)
}

// The inflow rows alone, as a study works them: no pond. The answer is written whole in either case; a refused call leaves the
// inflow list as it was. Of the outflow and storage lists only the lengths are read.
pub fn bt_inflow(
    step: u64,
    first: u64,
    rule: u64,
    rain: &[u64],
    subareas: &[u64],
    inflow: &mut [u64],
    outflow: &[u64],
    storage: &[u64],
    answer: &mut [u64; 2],
) -> u64
    ensures value { result ≡ (told (inflow_refusal (basin (setup_of step first rule) rain.now subareas.now) (found inflow.old outflow.now storage.now))).0 }
    ensures answer_after { answer.new ≡ refusal_numbers (inflow_refusal (basin (setup_of step first rule) rain.now subareas.now) (found inflow.old outflow.now storage.now)) }
    ensures inflow_after { inflow.new ≡ inflow_after (basin (setup_of step first rule) rain.now subareas.now) (found inflow.old outflow.now storage.now) }
{
    let setup = Setup { step, first, rule };
    let own = inflow::run(setup, rain, subareas, inflow, outflow, storage);
    answers::put_refusal(own, answer)
}

// The same by the second engine, in the textbook's way.
pub fn bt_textbook(
    step: u64,
    first: u64,
    rule: u64,
    rain: &[u64],
    subareas: &[u64],
    inflow: &mut [u64],
    outflow: &[u64],
    storage: &[u64],
    answer: &mut [u64; 2],
) -> u64
    ensures value { result ≡ (told (textbook_refusal (basin (setup_of step first rule) rain.now subareas.now) (found inflow.old outflow.now storage.now))).0 }
    ensures answer_after { answer.new ≡ refusal_numbers (textbook_refusal (basin (setup_of step first rule) rain.now subareas.now) (found inflow.old outflow.now storage.now)) }
    ensures inflow_after { inflow.new ≡ textbook_after (basin (setup_of step first rule) rain.now subareas.now) (found inflow.old outflow.now storage.now) }
{
    let setup = Setup { step, first, rule };
    let own = textbook::run(setup, rain, subareas, inflow, outflow, storage);
    answers::put_refusal(own, answer)
}
