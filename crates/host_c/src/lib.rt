// The symbols that hosts in other languages link: each export calls host's function of its name and promises the same.
// include/bridletenon.h has them for C.
#![tactic(auto)]

ghost use Rattle.std.specs.Prelude.{◌≡◌};
ghost use Rattle.refusals.specs.Refusals.{told};
ghost use Rattle.checks.specs.Site.{site, basin, found, left};
ghost use Rattle.inflow.specs.Inflow.{inflow_refusal, inflow_after};
ghost use Rattle.textbook.specs.Textbook.{textbook_refusal, textbook_after};
ghost use Rattle.study.specs.Study.{study_answer, study_rows, study_refusal_in};
ghost use Rattle.edit.specs.Edit.{edit_answer, edit_rows, edit_refusal_in, edit_values_in};
ghost use Rattle.marks.specs.ChartMarks.{mark_answer, mark_refusal_in, mark_values_in};
ghost use Rattle.answers.specs.Setups.{setup_of};
ghost use Rattle.answers.specs.StudyNumbers.{study_numbers_of};
ghost use Rattle.answers.specs.EditNumbers.{edit_numbers_of, changes_of};
ghost use Rattle.answers.specs.MarkNumbers.{mark_numbers_of};
ghost use Rattle.answers.specs.InflowNumbers.{refusal_numbers};
ghost use Rattle.host.specs.Interface.{interface};
ghost use Rattle.host.specs.Flattened.{list_site, flat_of};

use host::records::Subarea;

// The number of the interface that this engine was built with.
#[unsafe(no_mangle)]
pub extern "C" fn bt_interface() -> u64
    ensures { result ≡ interface }
{
    host::bt_interface()
}

// A study. The answer is written whole in either case; a refused study leaves the three row lists as they were.
#[unsafe(no_mangle)]
pub extern "C" fn bt_study(
    step: u64,
    first: u64,
    rule: u64,
    rain: &[u64],
    subareas: &[u64],
    pond: &[u64],
    inflow: &mut [u64],
    outflow: &mut [u64],
    storage: &mut [u64],
    answer: &mut [u64; 12],
) -> u64
    ensures value { result ≡ (told (study_refusal_in (study_answer (site (setup_of step first rule) rain.now subareas.now pond.now) (found inflow.old outflow.old storage.old)))).0 }
    ensures answer_after { answer.new ≡ study_numbers_of (study_answer (site (setup_of step first rule) rain.now subareas.now pond.now) (found inflow.old outflow.old storage.old)) }
    ensures storage_value { left inflow.new outflow.new storage.new ≡ study_rows (site (setup_of step first rule) rain.now subareas.now pond.now) (found inflow.old outflow.old storage.old) }
{
    host::bt_study(
        step, first, rule, rain, subareas, pond, inflow, outflow, storage, answer,
    )
}

// An edit: one subarea replaced. The answer and the changes are written whole in either case; a refused edit leaves the three
// row lists as they were, and a done one the rows before the first changed row.
#[unsafe(no_mangle)]
pub extern "C" fn bt_edit(
    step: u64,
    first: u64,
    rule: u64,
    rain: &[u64],
    subareas: &[u64],
    pond: &[u64],
    inflow: &mut [u64],
    outflow: &mut [u64],
    storage: &mut [u64],
    place: u64,
    fresh: &[u64; subarea::WIDTH],
    answer: &mut [u64; 13],
    changes: &mut [i64; 2],
) -> u64
    ensures value { result ≡ (told (edit_refusal_in (edit_answer (site (setup_of step first rule) rain.now subareas.now pond.now) (found inflow.old outflow.old storage.old) place fresh.now))).0 }
    ensures answer_after { answer.new ≡ edit_numbers_of (edit_answer (site (setup_of step first rule) rain.now subareas.now pond.now) (found inflow.old outflow.old storage.old) place fresh.now) }
    ensures changes_after { changes.new ≡ changes_of (edit_values_in (edit_answer (site (setup_of step first rule) rain.now subareas.now pond.now) (found inflow.old outflow.old storage.old) place fresh.now)) }
    ensures storage_value { left inflow.new outflow.new storage.new ≡ edit_rows (site (setup_of step first rule) rain.now subareas.now pond.now) (found inflow.old outflow.old storage.old) place fresh.now }
{
    host::bt_edit(
        step, first, rule, rain, subareas, pond, inflow, outflow, storage, place, fresh, answer,
        changes,
    )
}

// A row's mark. Both arrays are written whole in either case.
#[unsafe(no_mangle)]
pub extern "C" fn bt_mark(
    step: u64,
    first: u64,
    pond: &[u64],
    inflow: &[u64],
    outflow: &[u64],
    storage: &[u64],
    row: u64,
    answer: &mut [u64; 3],
    values: &mut [f64; 5],
) -> u64
    ensures value { result ≡ (told (mark_refusal_in (mark_answer step first pond.now (found inflow.now outflow.now storage.now) row))).0 }
    ensures answer_after { answer.new ≡ mark_numbers_of (mark_answer step first pond.now (found inflow.now outflow.now storage.now) row) }
    ensures values_after { values.new ≡ mark_values_in (mark_answer step first pond.now (found inflow.now outflow.now storage.now) row) }
{
    host::bt_mark(
        step, first, pond, inflow, outflow, storage, row, answer, values,
    )
}

// The inflow rows alone, as a study works them: no pond. The answer is written whole in either case; a refused call leaves the
// inflow list as it was. Of the outflow and storage lists only the lengths are read.
#[unsafe(no_mangle)]
pub extern "C" fn bt_inflow(
    step: u64,
    first: u64,
    rule: u64,
    rain: &[u64],
    subareas: &[u64],
    inflow: &mut [u64],
    outflow: &[u64],
    storage: &[u64],
    answer: &mut [u64; 2],
) -> u64
    ensures value { result ≡ (told (inflow_refusal (basin (setup_of step first rule) rain.now subareas.now) (found inflow.old outflow.now storage.now))).0 }
    ensures answer_after { answer.new ≡ refusal_numbers (inflow_refusal (basin (setup_of step first rule) rain.now subareas.now) (found inflow.old outflow.now storage.now)) }
    ensures inflow_after { inflow.new ≡ inflow_after (basin (setup_of step first rule) rain.now subareas.now) (found inflow.old outflow.now storage.now) }
{
    host::bt_inflow(
        step, first, rule, rain, subareas, inflow, outflow, storage, answer,
    )
}

// The same by the second engine, in the textbook's way.
#[unsafe(no_mangle)]
pub extern "C" fn bt_textbook(
    step: u64,
    first: u64,
    rule: u64,
    rain: &[u64],
    subareas: &[u64],
    inflow: &mut [u64],
    outflow: &[u64],
    storage: &[u64],
    answer: &mut [u64; 2],
) -> u64
    ensures value { result ≡ (told (textbook_refusal (basin (setup_of step first rule) rain.now subareas.now) (found inflow.old outflow.now storage.now))).0 }
    ensures answer_after { answer.new ≡ refusal_numbers (textbook_refusal (basin (setup_of step first rule) rain.now subareas.now) (found inflow.old outflow.now storage.now)) }
    ensures inflow_after { inflow.new ≡ textbook_after (basin (setup_of step first rule) rain.now subareas.now) (found inflow.old outflow.now storage.now) }
{
    host::bt_textbook(
        step, first, rule, rain, subareas, inflow, outflow, storage, answer,
    )
}

// A study of a list of records: as `bt_study` of the list flattened.
#[unsafe(no_mangle)]
pub extern "C" fn bt_study_records(
    step: u64,
    first: u64,
    rule: u64,
    rain: &[u64],
    list: &[Subarea],
    pond: &[u64],
    inflow: &mut [u64],
    outflow: &mut [u64],
    storage: &mut [u64],
    answer: &mut [u64; 12],
) -> u64
    ensures value { result ≡ (told (study_refusal_in (study_answer (list_site (setup_of step first rule) rain.now (flat_of list.now) pond.now) (found inflow.old outflow.old storage.old)))).0 }
    ensures answer_after { answer.new ≡ study_numbers_of (study_answer (list_site (setup_of step first rule) rain.now (flat_of list.now) pond.now) (found inflow.old outflow.old storage.old)) }
    ensures storage_value { left inflow.new outflow.new storage.new ≡ study_rows (list_site (setup_of step first rule) rain.now (flat_of list.now) pond.now) (found inflow.old outflow.old storage.old) }
{
    host::records::bt_study_records(
        step, first, rule, rain, list, pond, inflow, outflow, storage, answer,
    )
}

// An edit of a list of records, which is only read: as `bt_edit` of the list flattened.
#[unsafe(no_mangle)]
pub extern "C" fn bt_edit_records(
    step: u64,
    first: u64,
    rule: u64,
    rain: &[u64],
    list: &[Subarea],
    pond: &[u64],
    inflow: &mut [u64],
    outflow: &mut [u64],
    storage: &mut [u64],
    place: u64,
    fresh: &[u64; subarea::WIDTH],
    answer: &mut [u64; 13],
    changes: &mut [i64; 2],
) -> u64
    ensures value { result ≡ (told (edit_refusal_in (edit_answer (list_site (setup_of step first rule) rain.now (flat_of list.now) pond.now) (found inflow.old outflow.old storage.old) place fresh.now))).0 }
    ensures answer_after { answer.new ≡ edit_numbers_of (edit_answer (list_site (setup_of step first rule) rain.now (flat_of list.now) pond.now) (found inflow.old outflow.old storage.old) place fresh.now) }
    ensures changes_after { changes.new ≡ changes_of (edit_values_in (edit_answer (list_site (setup_of step first rule) rain.now (flat_of list.now) pond.now) (found inflow.old outflow.old storage.old) place fresh.now)) }
    ensures storage_value { left inflow.new outflow.new storage.new ≡ edit_rows (list_site (setup_of step first rule) rain.now (flat_of list.now) pond.now) (found inflow.old outflow.old storage.old) place fresh.now }
{
    host::records::bt_edit_records(
        step, first, rule, rain, list, pond, inflow, outflow, storage, place, fresh, answer,
        changes,
    )
}
