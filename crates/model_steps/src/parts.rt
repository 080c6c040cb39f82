// The keywords of a model, and what is checked where a list, a table or the model closes.
ghost use Rattle.std.specs.Prelude.{◌≡◌};
ghost use Rattle.keywords.specs.Answers.{ArgumentFrom};
ghost use Rattle.records.specs.Flaws.{bare, checked};
ghost use Rattle.rules.specs.Going.{unless};
ghost use Rattle.rules.specs.Model.{model_place, model_opens, single_part, waveform_part, model_part, table_fault, closed, model_shut, model_done};
ghost use Rattle.model_steps.specs.Closes.{both_given, is_whole, is_crossed};

use crate::rows::{no_rows, table_fault};
use crate::state::{quiet, with_list};
use given::Given;
use keywords::{CurrentTable, ModelPart};
use records::{LineFault, at_line};
use rules::{Event, ModelList, ModelState, RowsSeen, Stage, Went, types};

// ---- keywords

// The place of the waveforms, which alone may stand more than once.
const WAVEFORMS: usize = 7;

fn model_place(p: ModelPart) -> usize
    ensures { result ≡ model_place p }
{
    match p {
        ModelPart::VoltageRange => 0,
        ModelPart::TemperatureRange => 1,
        ModelPart::Current(t) => {
            match t {
                CurrentTable::Pulldown => 2,
                CurrentTable::Pullup => 3,
                CurrentTable::GndClamp => 4,
                CurrentTable::PowerClamp => 5,
            }
        }
        ModelPart::Ramp => 6,
        ModelPart::Waveform(_) => WAVEFORMS,
    }
}

// The list or table that a keyword at line k opens.
fn model_opens(k: u64, p: ModelPart) -> ModelList
    ensures { result ≡ model_opens k p }
{
    match p {
        ModelPart::VoltageRange | ModelPart::TemperatureRange => ModelList::ModelShut,
        ModelPart::Current(_) => ModelList::CurrentRows {
            line: k,
            rows: no_rows(),
        },
        ModelPart::Ramp => ModelList::RampLines {
            line: k,
            given: Given::none(),
        },
        ModelPart::Waveform(_) => ModelList::WaveformRows {
            line: k,
            given: Given::none(),
            rows: no_rows(),
        },
    }
}

// The parts that may stand once.
fn single_part(m: ModelState, k: u64, w: &[u8], at: usize, p: ModelPart) -> Went
    requires { ArgumentFrom w.now at }
    ensures { result ≡ single_part m k w.now p }
{
    let own = line_faults::model_fault(w, at, p);
    let parts = rules::once(m.parts, model_place(p), k, own)?;
    let list = model_opens(k, p);
    quiet(ModelState { parts, list, ..m })
}

// The most waveforms of a model.
const MOST_WAVEFORMS: u8 = 16;

fn waveform_part(m: ModelState, k: u64, w: &[u8], at: usize, p: ModelPart) -> Went
    requires { ArgumentFrom w.now at }
    ensures { result ≡ waveform_part m k w.now p }
{
    at_line(line_faults::model_fault(w, at, p), k)?;
    if MOST_WAVEFORMS <= m.waveforms {
        return rules::stopped(17, k);
    }
    let next = ModelState {
        waveforms: m.waveforms + 1,
        list: model_opens(k, p),
        ..m
    };
    Ok((Stage::InModel(next), Event::WaveformOpened))
}

// A keyword of the model at line k, whose argument begins at a place.
pub fn model_part(m: ModelState, k: u64, w: &[u8], at: usize, p: ModelPart) -> Went
    requires { ArgumentFrom w.now at }
    ensures { result ≡ model_part m k w.now p }
{
    if model_place(p) == WAVEFORMS {
        return waveform_part(m, k, w, at, p);
    }
    single_part(m, k, w, at, p)
}

// ---- the close of a list or a table

// The first two of a list are required.
fn both_given(given: Given) -> bool
    ensures { result ≡ both_given given }
{
    given.is_given(0) && given.is_given(1)
}

// The most rows of a current table, and of a waveform.
const MOST_ROWS: u64 = 100;

const MOST_POINTS: u64 = 1000;

fn closed(m: ModelState) -> Went
    ensures { result ≡ closed m }
{
    quiet(with_list(m, ModelList::ModelShut))
}

// The table that line k opened.
fn close_table(m: ModelState, most: u64, k: u64, rows: RowsSeen) -> Went
    ensures { result ≡ unless (table_fault most rows) k (closed m) }
{
    at_line(table_fault(most, rows), k)?;
    closed(m)
}

// What the next keyword closes.
pub fn model_shut(m: ModelState) -> Went
    ensures { result ≡ model_shut m m.list }
{
    match m.list {
        ModelList::ModelFirst | ModelList::ModelShut => closed(m),
        ModelList::CurrentRows { line, rows } => close_table(m, MOST_ROWS, line, rows),
        ModelList::RampLines { line, given } => {
            if !both_given(given) {
                return rules::stopped(9, line);
            }
            closed(m)
        }
        ModelList::WaveformRows { line, given, rows } => {
            if !both_given(given) {
                return rules::stopped(9, line);
            }
            close_table(m, MOST_POINTS, line, rows)
        }
    }
}

// ---- the close of a model

// All that is required of a model was given.
fn is_whole(m: ModelState) -> bool
    ensures { result ≡ is_whole m }
{
    m.first.is_given(0)
        && m.first.is_given(3)
        && m.parts.is_given(0)
        && (!types::is_driven(m.kind) || m.parts.is_given(6))
}

// An input's thresholds are not in order.
fn is_crossed(m: ModelState) -> bool
    ensures { result ≡ is_crossed m }
{
    let t = types::thresholds(m.kind, m.vinl, m.vinh);
    types::is_input(m.kind) && !types::is_below(t.vinl, t.vinh)
}

// What a model lacks, or what is wrong with a whole one.
pub fn model_done(m: ModelState) -> Result<(), LineFault>
    ensures { result ≡ checked (bare (model_done m)) }
{
    if !is_whole(m) {
        return Err(records::bare_fault(9));
    }
    if is_crossed(m) {
        return Err(records::bare_fault(20));
    }
    Ok(())
}
