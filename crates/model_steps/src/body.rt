// A line of a model that is no keyword line, by the list or table that is open.
ghost use Rattle.std.specs.Prelude.{◌≡◌};
ghost use Rattle.records.specs.Flaws.{flaw_in, told_in};
ghost use Rattle.words.specs.Words.{word, words};
ghost use Rattle.line_rules.specs.Fields.{line_at, number_line, row_of};
ghost use Rattle.line_rules.specs.Tables.{model_lines, fixtures};
ghost use Rattle.rules.specs.Going.{named_line};
ghost use Rattle.rules.specs.Model.{with_first, with_model_list, row_line, begins_letter, waveform_line, model_line};
ghost use Rattle.rules.specs.declared.ModelList.TheVariants.{ModelFirst, CurrentRows, RampLines, WaveformRows};
ghost use Rattle.rules.specs.declared.Stage.TheVariants.{InModel};

use crate::rows::row_step;
use crate::state::{quiet, with_list};
use given::Given;
use named_lines::fields::{number_after, type_after};
use records::at_line;
use rules::{Event, ModelList, ModelState, RowsSeen, Stage, Went};

// ---- the first lines

// The state once the line at place n is given, with what is given now; the type, Vinl and Vinh are remembered for the close.
fn with_first(m: ModelState, n: usize, w: &[u8], first: Given) -> ModelState
    requires { line_at model_lines w.now ≡ Some n }
    ensures { result ≡ with_first m w.now first }
{
    ModelState {
        first,
        kind: type_after(n, w, m.kind),
        vinl: number_after(8, n, w, m.vinl),
        vinh: number_after(9, n, w, m.vinh),
        ..m
    }
}

fn first_line(m: ModelState, k: u64, w: &[u8]) -> Went
    ensures { result ≡ model_line m k w.now ModelFirst }
{
    let Some(n) = named_lines::model_line(w) else {
        return rules::stopped_at(named_lines::name_fault(w), k);
    };
    let first = rules::once(m.first, n, k, line_faults::first_fault(n, w))?;
    quiet(with_first(m, n, w, first))
}

// ---- a table's rows

fn current_line(m: ModelState, line: u64, r: RowsSeen, k: u64, w: &[u8]) -> Went
    ensures { result ≡ row_line (CurrentRows line) m r k (told_in w.now (row_of w.now)) }
{
    let rows = at_line(row_step(r, w), k)?;
    let list = ModelList::CurrentRows { line, rows };
    Ok((Stage::InModel(with_list(m, list)), Event::TableRow))
}

fn point_line(m: ModelState, line: u64, given: Given, r: RowsSeen, k: u64, w: &[u8]) -> Went
    ensures { result ≡ row_line (WaveformRows line given) m r k (told_in w.now (row_of w.now)) }
{
    let rows = at_line(row_step(r, w), k)?;
    let list = ModelList::WaveformRows { line, given, rows };
    Ok((Stage::InModel(with_list(m, list)), Event::TableRow))
}

// ---- a ramp's lines, and a waveform's before its rows

fn ramp_line(m: ModelState, line: u64, given: Given, k: u64, w: &[u8]) -> Went
    ensures { result ≡ model_line m k w.now (RampLines line given) }
{
    let Some(n) = named_lines::ramp_line(w) else {
        return rules::stopped_at(named_lines::name_fault(w), k);
    };
    let given = rules::once(given, n, k, line_faults::ramp_line_fault(n, w))?;
    quiet(with_list(m, ModelList::RampLines { line, given }))
}

fn fixture_line(m: ModelState, line: u64, given: Given, r: RowsSeen, k: u64, w: &[u8]) -> Went
    ensures { result ≡ named_line given (line_at fixtures w.now) (flaw_in (number_line w.now)) k w.now (λ h. InModel (with_model_list m (WaveformRows line h r))) }
{
    let Some(n) = named_lines::fixture_line(w) else {
        return rules::stopped_at(named_lines::name_fault(w), k);
    };
    let given = rules::once(given, n, k, line_faults::number_fault(w))?;
    let list = ModelList::WaveformRows {
        line,
        given,
        rows: r,
    };
    quiet(with_list(m, list))
}

// The first word begins with a letter.
fn begins_letter(w: &[u8]) -> bool
    ensures { result ≡ begins_letter (word 0 (words w.now)) }
{
    let first = named_lines::first_word(w);
    first.start < first.end && decimal::letter(w[first.start])
}

// Such a line is no row, and may not follow one.
fn waveform_line(m: ModelState, line: u64, given: Given, r: RowsSeen, k: u64, w: &[u8]) -> Went
    ensures { result ≡ waveform_line m line given r k w.now }
{
    if !begins_letter(w) {
        return point_line(m, line, given, r, k, w);
    }
    if r.count != 0 {
        return rules::stopped(7, k);
    }
    fixture_line(m, line, given, r, k, w)
}

// ---- by the list or table that is open

pub fn model_line(m: ModelState, k: u64, w: &[u8]) -> Went
    ensures { result ≡ model_line m k w.now m.list }
{
    match m.list {
        ModelList::ModelFirst => first_line(m, k, w),
        ModelList::ModelShut => rules::stopped(7, k),
        ModelList::CurrentRows { line, rows } => current_line(m, line, rows, k, w),
        ModelList::RampLines { line, given } => ramp_line(m, line, given, k, w),
        ModelList::WaveformRows { line, given, rows } => {
            waveform_line(m, line, given, rows, k, w)
        }
    }
}
