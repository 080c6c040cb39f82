// The rows of a table: one more, and what is wrong with all of them.
ghost use Rattle.std.specs.Prelude.{◌≡◌, cond, ◌+◌, min, eqb};
ghost use Rattle.records.specs.Flaws.{bare, checked, told_in};
ghost use Rattle.line_rules.specs.Fields.{row_of};
ghost use Rattle.rules.specs.Model.{no_rows, with_row, table_fault};
ghost use Rattle.model_steps.specs.Rows.{rises_over, row_step, rows_fit};

use decimal::Decimal;
use records::LineFault;
use rules::RowsSeen;

pub(crate) fn no_rows() -> RowsSeen
    ensures { result ≡ no_rows }
{
    RowsSeen {
        count: 0,
        last: Decimal {
            negative: false,
            digits: 0,
            power: 40,
        },
        head: false,
        tail: false,
    }
}

// The first column rises strictly: a number behind so many rows, the last of which has this one.
pub fn rising(count: u64, last: Decimal, d: Decimal) -> bool
    ensures { result ≡ rises_over count last d }
{
    count == 0 || decimal::less(last, d)
}

// Rows are counted up to one more than any table may have.
const COUNTED: u64 = 1001;

pub fn one_more(count: u64) -> u64
    ensures { result ≡ min (count + 1) 1001 }
{
    if COUNTED <= count {
        return COUNTED;
    }
    count + 1
}

// The first row's typ, behind so many rows and one more.
pub fn head_after(count: u64, head: bool, typ: bool) -> bool
    ensures { result ≡ cond (eqb count 0) typ head }
{
    if count == 0 { typ } else { head }
}

fn with_row(r: RowsSeen, d: Decimal, typ: bool) -> RowsSeen
    ensures { result ≡ with_row r d typ }
{
    RowsSeen {
        count: one_more(r.count),
        last: d,
        head: head_after(r.count, r.head, typ),
        tail: typ,
    }
}

// A line of the table that is open.
pub fn row_step(r: RowsSeen, w: &[u8]) -> Result<RowsSeen, LineFault>
    ensures { result ≡ row_step r (told_in w.now (row_of w.now)) }
{
    let row = line_cells::row_words(w);
    if row.fault != 0 {
        return Err(LineFault {
            number: row.fault as u8,
            column: row.column,
        });
    }
    let number = decimal::decimal_in(row.number);
    let last = r.last;
    if !rising(r.count, last, number) {
        return Err(records::bare_fault(13));
    }
    Ok(with_row(r, number, decimal::holds_number(row.typ)))
}

// So many rows at most, and the first and the last typ are numbers.
fn rows_fit(most: u64, r: RowsSeen) -> bool
    ensures { result ≡ rows_fit most r }
{
    2 <= r.count && r.count <= most && r.head && r.tail
}

// The fault of a whole table of at most so many rows, or that it has none.
pub fn table_fault(most: u64, r: RowsSeen) -> Result<(), LineFault>
    ensures { result ≡ checked (bare (table_fault most r)) }
{
    if !rows_fit(most, r) {
        return Err(records::bare_fault(13));
    }
    Ok(())
}
