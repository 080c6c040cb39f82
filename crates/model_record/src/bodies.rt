// The keywords of a model one after another, with the rows under them: its ranges, the places of its tables' rows, its ramp, and its waveforms.
ghost use Rattle.std.specs.Prelude.{◌≡◌, ℕ, ◌+◌, ◌^◌, ◌≤◌, ◌<◌, List, length};
ghost use Rattle.laws.specs.Lists.{front};
ghost use Rattle.laws.specs.Said.{or_else};
ghost use Rattle.keywords.specs.declared.Keyword.TheVariants.{InModel};
ghost use Rattle.keywords.specs.declared.ModelPart.TheVariants.{VoltageRange, TemperatureRange, Current, Ramp, Waveform};
ghost use Rattle.cut_lines.specs.Cursors.{rest, Placed};
ghost use Rattle.line_rules.specs.Fields.{three_cells};
ghost use Rattle.rules.specs.Reading.{under, no_ramp, is_within};
ghost use Rattle.records.specs.Stored.{no_cells, stored};
ghost use Rattle.records.specs.declared.Edge.TheVariants.{Rising};
ghost use Rattle.records.specs.declared.RampTable.{RampTable};
ghost use Rattle.records.specs.declared.Triple.{Triple};
ghost use Rattle.table_rows.specs.Rows.{rows_at};
ghost use Rattle.table_rows.specs.Parts.{model_words, key_rows};
ghost use Rattle.model_record.specs.Bodies.{absent_table, bare_body, with_table, part_on, BodyFits};
ghost use Rattle.model_record.specs.Takes.{without_waveform, TakesKey, TakesKeys};

use crate::ramps::{no_slopes, ramp_lines};
use crate::{Body, Taken};
use cut_lines::Cursor;
use decimal::Cell;
use keywords::{CurrentTable, Keyword, ModelPart};
use lines_under::Key;
use records::{Edge, RampTable, Range, Span, Table, Triple};

fn no_table() -> Table
    ensures { result ≡ absent_table }
{
    Table {
        given: false,
        rows: Span { start: 0, count: 0 },
    }
}

// Before the first keyword; row is the place of the next row.
pub fn bare_body(row: usize) -> Body
    ensures { result ≡ bare_body row }
{
    Body {
        voltage: records::no_cells(),
        temperature: Range {
            given: false,
            cells: records::no_cells(),
        },
        pulldown: no_table(),
        pullup: no_table(),
        ground: no_table(),
        power: no_table(),
        ramp: RampTable {
            given: false,
            rise: no_slopes(),
            fall: no_slopes(),
            load: Cell::Missing,
        },
        waveforms: 0,
        row: row,
    }
}

// A table of so many rows from a place on, unless one of its kind was given.
fn with_table(t: Table, at: usize, count: usize) -> Table
    ensures { result ≡ with_table t at count }
{
    if t.given {
        return t;
    }
    Table {
        given: true,
        rows: Span {
            start: at,
            count: count,
        },
    }
}

fn with_voltage(b: Body, cells: Triple) -> Body
    ensures { (ramp : RampTable) (n : ℕ) → result ≡ part_on b VoltageRange cells ramp n }
{
    let mut next = b;
    next.voltage = cells;
    next
}

fn with_temperature(b: Body, cells: Triple) -> Body
    ensures { (ramp : RampTable) (n : ℕ) → result ≡ part_on b TemperatureRange cells ramp n }
{
    let mut next = b;
    let range = Range {
        given: true,
        cells: cells,
    };
    next.temperature = range;
    next
}

// A current table of so many rows.
fn with_current(b: Body, count: usize, table: CurrentTable) -> Body
    requires { b.row + count < 2 ^ 64 }
    ensures { result ≡ part_on b (Current table) no_cells no_ramp count }
{
    let mut next = b;
    let row = b.row;
    next.row = row + count;
    match table {
        CurrentTable::Pulldown => {
            let before = b.pulldown;
            next.pulldown = with_table(before, row, count);
            next
        }
        CurrentTable::Pullup => {
            let before = b.pullup;
            next.pullup = with_table(before, row, count);
            next
        }
        CurrentTable::GndClamp => {
            let before = b.ground;
            next.ground = with_table(before, row, count);
            next
        }
        CurrentTable::PowerClamp => {
            let before = b.power;
            next.power = with_table(before, row, count);
            next
        }
    }
}

fn with_ramp(b: Body, ramp: RampTable) -> Body
    ensures { (cells : Triple) (n : ℕ) → result ≡ part_on b Ramp cells ramp n }
{
    let mut next = b;
    next.ramp = ramp;
    next
}

// A waveform of so many rows, whatever its edge.
fn with_waveform(b: Body, count: usize) -> Body
    requires { (b.row + count < 2 ^ 64) × (b.waveforms < 2 ^ 63) }
    ensures { result ≡ part_on b (Waveform Rising) no_cells no_ramp count }
{
    let mut next = b;
    let row = b.row + count;
    let waveforms = b.waveforms + 1;
    next.row = row;
    next.waveforms = waveforms;
    next
}

pub fn cells_of(argument: &[u8]) -> Triple
    ensures { result ≡ or_else no_cells (three_cells argument.now) }
{
    line_cells::triple_is(line_cells::three_cells(argument, 0))
}

// No waveform is the last.
pub fn no_waveform(body: Body, next: Cursor, words: usize) -> Taken
    ensures { result ≡ without_waveform body next words }
{
    Taken {
        body: body,
        next: next,
        words: words,
        waveform: None,
    }
}

// A current table and its rows; the keyword's argument says nothing.
fn take_current(rows: &mut [u64], src: &[u8], c: Cursor, b: Body, table: CurrentTable) -> Taken
    requires placed { Placed src.now c × (b.row < 2 ^ 63 + c.at) × (b.waveforms < c.at) }
    requires c_in_bounds { length (stored (rows_at src.now c)) ≤ length rows.old }
    ensures { (w : List ℕ) → TakesKey src.now b (InModel (Current table)) w c rows.old rows.new result }
{
    let filled = table_rows::fill_table(rows, src, c);
    let words = filled.words;
    let next = filled.next;
    no_waveform(with_current(b, words / 4, table), next, words)
}

// A waveform with its rows.
fn take_waveform(rows: &mut [u64], src: &[u8], c: Cursor, b: Body, edge: Edge) -> Taken
    requires placed { Placed src.now c × (b.row < 2 ^ 63 + c.at) × (b.waveforms < c.at) }
    requires c_in_bounds { length (stored (rows_at src.now c)) ≤ length rows.old }
    ensures { (w : List ℕ) → TakesKey src.now b (InModel (Waveform edge)) w c rows.old rows.new result }
{
    let read = table_rows::fill_waveform(rows, src, c, edge, b.row);
    let words = read.filled.words;
    let next = read.filled.next;
    let waveform = read.waveform;
    Taken {
        body: with_waveform(b, words / 4),
        next: next,
        words: words,
        waveform: Some(waveform),
    }
}

// A keyword of the model with its argument; c stands behind its line.
fn take_part(
    rows: &mut [u64],
    src: &[u8],
    c: Cursor,
    b: Body,
    part: ModelPart,
    argument: &[u8],
) -> Taken
    requires placed { Placed src.now c × (b.row < 2 ^ 63 + c.at) × (b.waveforms < c.at) }
    requires c_in_bounds { length (stored (key_rows (InModel part) (under (rest src.now c)))) ≤ length rows.old }
    ensures { TakesKey src.now b (InModel part) argument.now c rows.old rows.new result }
{
    match part {
        ModelPart::VoltageRange => no_waveform(with_voltage(b, cells_of(argument)), c, 0),
        ModelPart::TemperatureRange => no_waveform(with_temperature(b, cells_of(argument)), c, 0),
        ModelPart::Current(table) => take_current(rows, src, c, b, table),
        ModelPart::Ramp => {
            let read = ramp_lines(src, c);
            let next = read.next;
            no_waveform(with_ramp(b, read.ramp), next, 0)
        }
        ModelPart::Waveform(edge) => take_waveform(rows, src, c, b, edge),
    }
}

// A keyword of another section changes nothing.
fn take_key(rows: &mut [u64], src: &[u8], c: Cursor, b: Body, k: Keyword, argument: &[u8]) -> Taken
    requires placed { Placed src.now c × (b.row < 2 ^ 63 + c.at) × (b.waveforms < c.at) }
    requires c_in_bounds { length (stored (key_rows k (under (rest src.now c)))) ≤ length rows.old }
    ensures { TakesKey src.now b k argument.now c rows.old rows.new result }
{
    match k {
        Keyword::InModel(part) => take_part(rows, src, c, b, part, argument),
        Keyword::IbisVer => no_waveform(b, c, 0),
        Keyword::InHeader(_) => no_waveform(b, c, 0),
        Keyword::Opens(_) => no_waveform(b, c, 0),
        Keyword::InComponent(_) => no_waveform(b, c, 0),
        Keyword::End => no_waveform(b, c, 0),
    }
}

// The keywords from a cursor on, up to a waveform or to the end of the section; their rows are written at the front of the row store.
pub fn take_keys(rows: &mut [u64], src: &[u8], c: Cursor, b: Body) -> Taken
    requires placed { Placed src.now c × BodyFits b c }
    requires c_in_bounds { length (model_words (front is_within (rest src.now c))) ≤ length rows.old }
    ensures { TakesKeys src.now b c rows.old rows.new result }
{
    let mut body = b;
    let mut d = c;
    let mut words: usize = 0;
    loop {
        match lines_under::next_key(src, d) {
            Some(
                Key {
                    keyword,
                    start,
                    end,
                    next,
                },
            ) => {
                if lines_under::ends(keyword) {
                    return no_waveform(body, d, words);
                }
                let taken = take_key(
                    &mut rows[words..],
                    src,
                    next,
                    body,
                    keyword,
                    &src[start..end],
                );
                body = taken.body;
                d = taken.next;
                words += taken.words;
                if taken.waveform.is_some() {
                    return Taken {
                        words: words,
                        ..taken
                    };
                }
            }
            None => {
                return no_waveform(body, d, words);
            }
        }
    }
}
