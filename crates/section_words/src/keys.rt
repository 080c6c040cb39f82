// What stands under one keyword of a model: what it says of the model, a waveform's record, and rows.
ghost use Rattle.std.specs.Prelude.{◌≡◌, ℕ, ◌+◌, ◌^◌, ◌≤◌, ◌<◌, List, length};
ghost use Rattle.keywords.specs.declared.Keyword.TheVariants.{InModel};
ghost use Rattle.keywords.specs.declared.ModelPart.TheVariants.{Current, Waveform};
ghost use Rattle.cut_lines.specs.Cursors.{Placed};
ghost use Rattle.records.specs.Stored.{stored};
ghost use Rattle.record_words.specs.Records.{waveform_size, model_size};
ghost use Rattle.table_rows.specs.Rows.{rows_at};
ghost use Rattle.model_record.specs.declared.Body.{Body};
ghost use Rattle.section_words.specs.Models.{waveform_under, rows_under, KeyFills};

use crate::parts::{fill_ramp, fill_span, fill_temperature, fill_voltage, table_from};
use crate::puts::put;
use crate::{KeyFilled, Used};
use cut_lines::Cursor;
use keywords::{CurrentTable, Keyword, ModelPart};
use record_words::tables::waveform_words;
use record_words::{ROW_WORDS, WAVEFORM_WORDS};
use records::Edge;

// A current table's rows; the keyword's argument says nothing.
fn fill_current(
    model: &mut [u64],
    rows: &mut [u64],
    src: &[u8],
    c: Cursor,
    row: usize,
    table: CurrentTable,
) -> KeyFilled
    requires placed { Placed src.now c × (row < 2 ^ 63 + c.at) × (model_size ≤ length model.old) }
    requires c_in_bounds { length (stored (rows_at src.now c)) ≤ length rows.old }
    ensures { (b : Body) (w waves : List ℕ) → b.row ≡ row → b.waveforms < c.at → KeyFills src.now b (InModel (Current table)) w c model.old model.new waves waves rows.old rows.new result }
{
    let filled = table_rows::fill_table(rows, src, c);
    let next = filled.next;
    let words = filled.words;
    fill_span(model, table_from(table), row, words / ROW_WORDS);
    KeyFilled {
        next: next,
        used: Used {
            waveforms: 0,
            rows: words,
        },
    }
}

// A waveform's record and its rows; row is the place of the first.
fn fill_wave(
    waveforms: &mut [u64],
    rows: &mut [u64],
    src: &[u8],
    c: Cursor,
    row: usize,
    edge: Edge,
) -> KeyFilled
    requires placed { Placed src.now c × (row < 2 ^ 63 + c.at) }
    requires waveform_size_in_bounds { waveform_size ≤ length waveforms.old }
    requires c_in_bounds { length (stored (rows_at src.now c)) ≤ length rows.old }
    ensures { (b : Body) (w model : List ℕ) → b.row ≡ row → b.waveforms < c.at → KeyFills src.now b (InModel (Waveform edge)) w c model model waveforms.old waveforms.new rows.old rows.new result }
{
    let read = table_rows::fill_waveform(rows, src, c, edge, row);
    let waveform = waveform_words(read.waveform);
    put(waveforms, 0, &waveform);
    let next = read.filled.next;
    let words = read.filled.words;
    KeyFilled {
        next: next,
        used: Used {
            waveforms: WAVEFORM_WORDS,
            rows: words,
        },
    }
}

// Nothing is written into the two tables.
fn no_tables(next: Cursor) -> KeyFilled
    ensures { result ≡ record { next = next; used = record { waveforms = 0; rows = 0 } } }
{
    KeyFilled {
        next: next,
        used: Used {
            waveforms: 0,
            rows: 0,
        },
    }
}

// A keyword of the model with its argument; c stands behind its line.
fn fill_part(
    model: &mut [u64],
    waveforms: &mut [u64],
    rows: &mut [u64],
    src: &[u8],
    c: Cursor,
    row: usize,
    part: ModelPart,
    argument: &[u8],
) -> KeyFilled
    requires placed { Placed src.now c × (row < 2 ^ 63 + c.at) × (model_size ≤ length model.old) }
    requires row_in_bounds { length (waveform_under src.now c (InModel part) row) ≤ length waveforms.old }
    requires part_in_bounds { length (rows_under src.now c (InModel part)) ≤ length rows.old }
    ensures { (b : Body) → b.row ≡ row → b.waveforms < c.at → KeyFills src.now b (InModel part) argument.now c model.old model.new waveforms.old waveforms.new rows.old rows.new result }
{
    match part {
        ModelPart::VoltageRange => {
            fill_voltage(model, argument);
            no_tables(c)
        }
        ModelPart::TemperatureRange => {
            fill_temperature(model, argument);
            no_tables(c)
        }
        ModelPart::Current(table) => fill_current(model, rows, src, c, row, table),
        ModelPart::Ramp => {
            let next = fill_ramp(model, src, c);
            no_tables(next)
        }
        ModelPart::Waveform(edge) => fill_wave(waveforms, rows, src, c, row, edge),
    }
}

// Under a keyword of another section nothing is written, and it changes nothing.
pub(crate) fn fill_key(
    model: &mut [u64],
    waveforms: &mut [u64],
    rows: &mut [u64],
    src: &[u8],
    c: Cursor,
    row: usize,
    k: Keyword,
    argument: &[u8],
) -> KeyFilled
    requires placed { Placed src.now c × (row < 2 ^ 63 + c.at) × (model_size ≤ length model.old) }
    requires row_in_bounds { length (waveform_under src.now c k row) ≤ length waveforms.old }
    requires k_in_bounds { length (rows_under src.now c k) ≤ length rows.old }
    ensures { (b : Body) → b.row ≡ row → b.waveforms < c.at → KeyFills src.now b k argument.now c model.old model.new waveforms.old waveforms.new rows.old rows.new result }
{
    match k {
        Keyword::InModel(part) => fill_part(model, waveforms, rows, src, c, row, part, argument),
        Keyword::IbisVer => no_tables(c),
        Keyword::InHeader(_) => no_tables(c),
        Keyword::Opens(_) => no_tables(c),
        Keyword::InComponent(_) => no_tables(c),
        Keyword::End => no_tables(c),
    }
}
