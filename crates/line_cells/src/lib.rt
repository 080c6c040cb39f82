// Numbers and cells of a line: three cells, a table's row, a ramp's slopes, and the heading of the pins.
#![tactic(auto)]

ghost use Rattle.std.specs.Prelude.{◌≡◌, ◌≤◌, ◌<◌, ◌+◌, ◌^◌, ℕ, List, length, drop};
ghost use Rattle.laws.specs.Said.{Said, or_else};
ghost use Rattle.decimal.specs.Decimal.{cell_of};
ghost use Rattle.decimal.specs.declared.Cell.{Cell};
ghost use Rattle.decimal.specs.declared.Cell.TheVariants.{Missing};
ghost use Rattle.records.specs.Stored.{no_cells};
ghost use Rattle.records.specs.Flaws.{told_in, said_there};
ghost use Rattle.line_rules.specs.Fields.{three_cells, cells_by, row_of, slope_of, slope_or_missing, ratio_of, is_upward, three_slopes, heading};
ghost use Rattle.rules.specs.Component.{pin_cells};
ghost use Rattle.line_cells.specs.Headings.{NameRead};
ghost use Rattle.line_cells.specs.Divisors.{divided};
ghost use Rattle.line_cells.specs.Threes.{ThreeFrom, ThreeTold, ReadsWords, three_by};
ghost use Rattle.line_cells.specs.Rows.{amiss_words, words_from, row_worded};

use decimal::{Cell, Decimal};
use records::{LineFault, RampCell, RampTriple, Triple};
use words::Word;

// A row as the words of its cells, with fault 0; or its fault and the column told. It is no Result of words: this one is answered in registers, which rows
// are counted by (README, "Where the instructions go").
#[derive(Clone, Copy)]
pub struct RowWords {
    pub number: u64,
    pub typ: u64,
    pub min: u64,
    pub max: u64,
    pub fault: u64,
    pub column: u64,
}

// ---- three words

// Three words that are all from a place on; else where the fourth begins, or the line ends that has fewer.
fn three_in(w: &[u8], at: usize) -> Result<(Word, Word, Word), usize>
    requires { at ≤ length w.now }
    ensures { ThreeFrom w.now at result }
{
    let a = words::word_at(w, at);
    let b = words::word_at(w, a.end);
    let c = words::word_at(w, b.end);
    if w.len() <= c.start {
        return Err(c.start);
    }
    let fourth = words::word_at(w, c.end);
    if fourth.start < w.len() {
        return Err(fourth.start);
    }
    Ok((a, b, c))
}

// The same, of a part that is the whole line: who asks keeps the line itself in registers.
pub fn three_words(w: &[u8], at: usize) -> Result<(Word, Word, Word), usize>
    requires { at ≤ length w.now }
    ensures { ThreeFrom w.now at result }
{
    three_in(&w[0..], at)
}

// The same three; where there are others, that is told.
fn just_three(w: &[u8], at: usize) -> Result<(Word, Word, Word), LineFault>
    requires { at ≤ length w.now }
    ensures { ThreeTold w.now at result }
{
    three_words(w, at).map_err(|place| records::at_fault(10, place))
}

// What a word says; a fault of it is told at the place where it begins.
fn told_at<T: Copy>(said: Result<T, u8>, place: usize) -> Result<T, LineFault>
    requires { place < 2 ^ 63 }
    ensures { result ≡ said_there place said }
{
    said.map_err(|fault| records::at_fault(fault, place))
}

// Three words and no more, from a place on: the first is read by one function and the others by another. The leftmost fault counts.
fn three_by<T: Copy, F: Fn(&[u8]) -> Result<T, u8>, G: Fn(&[u8]) -> Result<T, u8>>(
    w: &[u8],
    at: usize,
    first: F,
    others: G,
) -> Result<(T, T, T), LineFault>
    requires at_in_bounds { at ≤ length w.now }
    requires first_callable { F.IsAlwaysCallable first }
    requires others_callable { G.IsAlwaysCallable others }
    ensures { (p q : List ℕ → Said T) → ReadsWords F.Fn first w.now p → ReadsWords G.Fn others w.now q → result ≡ told_in w.now (three_by p q (drop at w.now)) }
{
    let (a, b, c) = just_three(w, at)?;
    let typ = told_at(first(a.of(w)), a.start)?;
    let min = told_at(others(b.of(w)), b.start)?;
    let max = told_at(others(c.of(w)), c.start)?;
    Ok((typ, min, max))
}

// ---- three cells and a table's row

// Three words and no more, from a place on: three cells, of which the first is read by this function.
fn cells_by<F: Fn(&[u8]) -> Result<Cell, u8>>(
    w: &[u8],
    at: usize,
    read: F,
) -> Result<Triple, LineFault>
    requires at_in_bounds { at ≤ length w.now }
    requires callable { F.IsAlwaysCallable read }
    ensures { (p : List ℕ → Said Cell) → ReadsWords F.Fn read w.now p → result ≡ told_in w.now (cells_by p (drop at w.now)) }
{
    let (typ, min, max) = three_by(w, at, read, decimal::cell_of)?;
    Ok(Triple { typ, min, max })
}

// Three words and no more, from a place on: a number and two cells.
pub fn three_cells(w: &[u8], at: usize) -> Result<Triple, LineFault>
    requires { at ≤ length w.now }
    ensures { result ≡ told_in w.now (three_cells (drop at w.now)) }
{
    cells_by(w, at, decimal::given_cell)
}

// Three words and no more, from a place on: three cells, of which typ may be missing too.
pub fn any_cells(w: &[u8], at: usize) -> Result<Triple, LineFault>
    requires { at ≤ length w.now }
    ensures { result ≡ told_in w.now (cells_by cell_of (drop at w.now)) }
{
    cells_by(w, at, decimal::cell_of)
}

// A pin row's cells, from a place on: three words and no more, or nothing, and then they are missing.
pub fn pin_cells(w: &[u8], at: usize) -> Result<Triple, LineFault>
    requires { at ≤ length w.now }
    ensures { result ≡ told_in w.now (pin_cells (drop at w.now)) }
{
    if w.len() <= words::skip_blanks(w, at) {
        return Ok(records::no_cells());
    }
    any_cells(w, at)
}

// No row, for a fault and its column.
pub fn amiss(fault: u64, column: u64) -> RowWords
    ensures { result ≡ amiss_words fault column }
{
    RowWords {
        number: 0,
        typ: 0,
        min: 0,
        max: 0,
        fault,
        column,
    }
}

// No row, for a fault of the word that begins at a place.
fn amiss_at(fault: u64, place: usize) -> RowWords
    requires { place < 2 ^ 63 }
    ensures { result ≡ amiss_words fault (place + 1) }
{
    amiss(fault, place as u64 + 1)
}

// A row of four answers, each with the place of its word: the leftmost fault counts.
#[tactic(auto, unfolding(crate::specs::Rows::words_from))]
fn row_from(
    number: u64,
    first: usize,
    typ: u64,
    second: usize,
    min: u64,
    third: usize,
    max: u64,
    fourth: usize,
) -> RowWords
    requires { (first < 2 ^ 63) × ((second < 2 ^ 63) × ((third < 2 ^ 63) × (fourth < 2 ^ 63))) }
    ensures { result ≡ words_from number first typ second min third max fourth }
{
    let of_number = decimal::fault_at(number);
    if of_number != 0 {
        return amiss_at(of_number, first);
    }
    let of_typ = decimal::fault_at(typ);
    if of_typ != 0 {
        return amiss_at(of_typ, second);
    }
    let of_min = decimal::fault_at(min);
    if of_min != 0 {
        return amiss_at(of_min, third);
    }
    let of_max = decimal::fault_at(max);
    if of_max != 0 {
        return amiss_at(of_max, fourth);
    }
    RowWords {
        number,
        typ,
        min,
        max,
        fault: 0,
        column: 0,
    }
}

// Four words and no more: a number and three cells.
pub fn row_words(w: &[u8]) -> RowWords
    ensures { result ≡ row_worded (told_in w.now (row_of w.now)) }
{
    let a = words::word_at(w, 0);
    let b = words::word_at(w, a.end);
    let c = words::word_at(w, b.end);
    let d = words::word_at(w, c.end);
    if w.len() <= d.start {
        return amiss_at(10, d.start);
    }
    let fifth = words::word_at(w, d.end);
    if fifth.start < w.len() {
        return amiss_at(10, fifth.start);
    }
    row_from(
        decimal::number_word(a.of(w)),
        a.start,
        decimal::cell_word(b.of(w)),
        b.start,
        decimal::cell_word(c.of(w)),
        c.start,
        decimal::cell_word(d.of(w)),
        d.start,
    )
}

// ---- a ramp's slopes

// Of two faults 11 counts before 12, else the first one.
fn ratio_of(a: Result<Decimal, u8>, b: Result<Decimal, u8>) -> Result<RampCell, u8>
    ensures { result ≡ ratio_of a b }
{
    let dividend = a.map_err(|fault| if matches!(b, Err(11)) { 11 } else { fault })?;
    let divisor = b?;
    Ok(RampCell::Ratio { dividend, divisor })
}

// A word of two numbers with one slash between.
pub fn slope_of(w: &[u8]) -> Result<RampCell, u8>
    ensures { result ≡ slope_of w.now }
{
    let slash = words::find(w, 0, b'/');
    if w.len() <= slash {
        return Err(11);
    }
    let behind = slash + 1;
    if words::find(w, behind, b'/') < w.len() {
        return Err(11);
    }
    ratio_of(
        decimal::number_of(&w[..slash]),
        decimal::number_of(&w[behind..]),
    )
}

// The same, or NA.
#[tactic(auto, unfolding(line_rules::specs::Fields::slope_or_missing, decimal::specs::Decimal::is_missing))]
pub fn slope_or_missing(w: &[u8]) -> Result<RampCell, u8>
    ensures { result ≡ slope_or_missing w.now }
{
    if words::same_capitals(w, b"NA") {
        return Ok(RampCell::Absent);
    }
    slope_of(w)
}

fn is_upward(c: RampCell) -> bool
    ensures { result ≡ is_upward c }
{
    match c {
        RampCell::Ratio { dividend, divisor } => decimal::above_zero(divisor),
        RampCell::Absent => true,
    }
}

// A divisor that is not above zero is told after what is wrong with the words.
#[tactic(auto, unfolding(crate::specs::Divisors::divided))]
fn upward(t: RampTriple) -> Result<RampTriple, LineFault>
    ensures { result ≡ divided t }
{
    if is_upward(t.typ) && is_upward(t.min) && is_upward(t.max) {
        return Ok(t);
    }
    Err(records::bare_fault(13))
}

// Three words and no more, from a place on: a slope and two that may be missing.
pub fn three_slopes(w: &[u8], at: usize) -> Result<RampTriple, LineFault>
    requires { at ≤ length w.now }
    ensures { result ≡ told_in w.now (three_slopes (drop at w.now)) }
{
    let (typ, min, max) = three_by(w, at, slope_of, slope_or_missing)?;
    upward(RampTriple { typ, min, max })
}

// ---- the heading of the pins

// Where the word ends that stands from a place on, if it is this name.
fn behind_name(w: &[u8], at: usize, name: &[u8]) -> Result<usize, LineFault>
    requires at_in_bounds { at ≤ length w.now }
    requires is_name { 0 < length name.now }
    ensures { NameRead w.now at name.now result }
{
    let word = words::word_at(w, at);
    if words::same(word.of(w), name) {
        return Ok(word.end);
    }
    Err(records::at_fault(10, word.start))
}

// What the words from a place on say, behind [Pin]: the short heading's two names, and nothing or the names of three cells.
pub fn heading_of(w: &[u8], at: usize) -> Result<bool, LineFault>
    requires { at ≤ length w.now }
    ensures { result ≡ told_in w.now (heading (drop at w.now)) }
{
    let signal = behind_name(w, at, b"signal_name")?;
    let model = behind_name(w, signal, b"model_name")?;
    let more = words::word_at(w, model);
    if w.len() <= more.start {
        return Ok(false);
    }
    let resistance = behind_name(w, model, b"R_pin")?;
    let inductance = behind_name(w, resistance, b"L_pin")?;
    let capacitance = behind_name(w, inductance, b"C_pin")?;
    let surplus = words::word_at(w, capacitance);
    if surplus.start < w.len() {
        return Err(records::at_fault(10, surplus.start));
    }
    Ok(true)
}

// ---- what a line that has passed its checks gives; missing stays missing

pub fn cell_is(r: Result<Cell, LineFault>) -> Cell
    ensures { result ≡ or_else Missing r }
{
    r.unwrap_or(Cell::Missing)
}

pub fn triple_is(r: Result<Triple, LineFault>) -> Triple
    ensures { result ≡ or_else no_cells r }
{
    r.unwrap_or(records::no_cells())
}
