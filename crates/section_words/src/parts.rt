// What a keyword says of a model, written into its record: a range, where a table's rows lie, the ramp. The record lies in its table as words.
ghost use Rattle.std.specs.Prelude.{cond, ◌≡◌, ◌+◌, ◌≤◌, [], ◌∷◌, eqb, length, get_or};
ghost use Rattle.std.proofs.lemmas.List.Edits.{sets};
ghost use Rattle.cut_lines.specs.Cursors.{rest, Placed};
ghost use Rattle.lines_under.specs.Under.{StopsAt};
ghost use Rattle.rules.specs.Reading.{under, ramp_in};
ghost use Rattle.record_words.specs.Records.{ramp_words, model_size};
ghost use Rattle.section_words.specs.Parts.{voltage_said, temperature_said, voltage_from, temperature_from, table_from, ramp_from};

use crate::puts::{LEVELS_FROM, RAMP_FROM, put};
use cut_lines::Cursor;
use keywords::CurrentTable;
use model_record::bodies::cells_of;
use model_record::ramps::ramp_lines;
use record_words::tables::{ramp_words, triple_words};
use record_words::{MODEL_LINES_WORDS, RANGE_WORDS, TABLE_WORDS};

// The voltage range stands behind six numbers.
const VOLTAGE_FROM: usize = LEVELS_FROM + 6;

const TEMPERATURE_FROM: usize = MODEL_LINES_WORDS - RANGE_WORDS;

pub(crate) fn fill_voltage(model: &mut [u64], argument: &[u8])
    requires { model_size ≤ length model.old }
    ensures { model.new ≡ sets model.old voltage_from (voltage_said argument.now) }
{
    let cells = triple_words(cells_of(argument));
    put(model, VOLTAGE_FROM, &cells);
}

pub(crate) fn fill_temperature(model: &mut [u64], argument: &[u8])
    requires { model_size ≤ length model.old }
    ensures { model.new ≡ sets model.old temperature_from (temperature_said argument.now) }
{
    let cells = triple_words(cells_of(argument));
    let range = [1, cells[0], cells[1], cells[2]];
    put(model, TEMPERATURE_FROM, &range);
}

// Where a table's three words begin.
pub(crate) fn table_from(table: CurrentTable) -> usize
    ensures value { result ≡ table_from table }
    ensures result_bound { result + 3 ≤ model_size }
{
    match table {
        CurrentTable::Pulldown => MODEL_LINES_WORDS,
        CurrentTable::Pullup => MODEL_LINES_WORDS + TABLE_WORDS,
        CurrentTable::GndClamp => MODEL_LINES_WORDS + 2 * TABLE_WORDS,
        CurrentTable::PowerClamp => MODEL_LINES_WORDS + 3 * TABLE_WORDS,
    }
}

// A table of so many rows from a row's place on, unless one of its kind was given.
pub(crate) fn fill_span(model: &mut [u64], at: usize, row: usize, count: usize)
    requires { at + 3 ≤ length model.old }
    ensures { model.new ≡ cond (eqb (get_or model.old at 0) 0) (sets model.old at (1 ∷ row ∷ count ∷ [])) model.old }
{
    if model[at] == 0 {
        let span = [1, row as u64, count as u64];
        put(model, at, &span);
    }
}

// The lines of [Ramp]; it answers where the next keyword line stands.
pub(crate) fn fill_ramp(model: &mut [u64], src: &[u8], c: Cursor) -> Cursor
    requires { Placed src.now c × (model_size ≤ length model.old) }
    ensures model_after { model.new ≡ sets model.old ramp_from (ramp_words (ramp_in [] (under (rest src.now c)))) }
    ensures stops_at { StopsAt src.now c result }
{
    let read = ramp_lines(src, c);
    let next = read.next;
    let words = ramp_words(read.ramp);
    put(model, RAMP_FROM, &words);
    next
}
