// Numbers: a word as an exact decimal or a cell, the order of decimals, and a cell as one word of the row store.
#![tactic(auto)]

ghost use Rattle.std.specs.Prelude.{cond, ◌≡◌, ◌+◌, ◌/◌, ◌^◌, ◌<◌, ltb};
ghost use Rattle.decimal.specs.Decimal.{number_of, given_cell, cell_of, is_missing, less_than, size_of, above_zero, word_of, ranged, offset};
ghost use Rattle.decimal.specs.Parts.{cap, BegunRead};
ghost use Rattle.decimal.specs.Answers.{number_word, cell_word, past_numbers, fault_at, decimal_in, cell_in, Settles};
ghost use Rattle.decimal.specs.declared.Cell.TheVariants.{Number};

mod word; // word.rt: the parts of a word

pub use word::letter;
use word::{
    Exponent, exponent_at, letters_from, mantissa_at, scale_down, scale_up, short_mantissa_at,
    sign_at,
};

// power has 40 added: 0 to 64 stand for -40 to 24.
#[derive(Clone, Copy)]
pub struct Decimal {
    pub digits: u64,
    pub power: u8,
    pub negative: bool,
}

// A cell of a table: a number, or missing (NA). No Option: a cell that says NA and a cell that nobody gave (`Option<Cell>`) are two things.
#[derive(Clone, Copy)]
pub enum Cell {
    Number(Decimal),
    Missing,
}

// What was read of a short word: its sign and its digits, of which there are some. They end at `at`.
#[derive(Clone, Copy)]
struct Begun {
    minus: bool,
    number: u64,
    places: u64,
    at: usize,
}

// The first number of 16 digits.
const LIMIT: u64 = 1_000_000_000_000_000;

// Powers go from minus LOWEST to HIGHEST, and are kept with LOWEST added.
const LOWEST: u64 = 40;

const HIGHEST: u64 = 24;

const SPAN: u64 = LOWEST + HIGHEST;

// The bytes of a short word at the most: as many digits fit in a u64.
const SHORT: usize = 19;

// The word of a missing cell.
const MISSING: u64 = 18_446_744_073_709_551_615;

// No number has a word from here on; the words of faults go down from FAULTS.
const PAST_NUMBERS: u64 = 9_223_372_036_854_775_808;

const FAULTS: u64 = MISSING - 1;

// number with the power high less low, which has LOWEST added. What a word says is `Said` (laws): its error is document 01's number, 11 not a number,
// 12 out of range, and an enum here would be a second name for it.
fn fit(minus: bool, number: u64, high: u64, low: u64) -> Result<Decimal, u8>
    requires { (0 < number) × (low < 2 ^ 63 + 100) }
    ensures { result ≡ ranged minus number high (low + offset) }
{
    if LIMIT <= number {
        return Err(12);
    }
    if high < low {
        return Err(12);
    }
    if low + SPAN < high {
        return Err(12);
    }
    Ok(Decimal {
        negative: minus,
        digits: number,
        power: (high - low) as u8,
    })
}

// The same of a number that may be zero or have trailing zeros, which go into the power.
fn settle(minus: bool, number: u64, high: u64, low: u64) -> Result<Decimal, u8>
    requires { (number < cap) × (high < 100) × (low < 100) }
    ensures { Settles minus number high low result }
{
    if number == 0 {
        return Ok(Decimal {
            negative: false,
            digits: 0,
            power: 40,
        });
    }
    let mut digits = number;
    let mut power = high;
    // The digits say how often, so no range does.
    while digits % 10 == 0 {
        digits = digits / 10;
        power += 1;
    }
    fit(minus, digits, power, low)
}

// number with the power up less down, and the exponent. Its size is only taken off: added, it could wrap.
fn finish(minus: bool, number: u64, up: u64, down: u64, exponent: Exponent) -> Result<Decimal, u8>
    requires { (up < 2 ^ 63 + 20) × (down < 2 ^ 63 + 20) }
    ensures { result ≡ ranged minus number (up + cond exponent.minus 0 exponent.size) (down + cond exponent.minus exponent.size 0) }
{
    if number == 0 {
        return settle(minus, number, 0, 0);
    }
    if exponent.minus {
        if up + LOWEST < exponent.size {
            return Err(12);
        }
        return fit(minus, number, up + LOWEST - exponent.size, down);
    }
    if down + HIGHEST < exponent.size {
        return Err(12);
    }
    fit(minus, number, up + SPAN, down + HIGHEST - exponent.size)
}

// What any word says as a number.
fn any_number(w: &[u8]) -> Result<Decimal, u8>
    ensures { result ≡ number_of w.now }
{
    let sign = sign_at(w, 0);
    let mantissa = mantissa_at(w, sign.at);
    if mantissa.count == 0 {
        return Err(11);
    }
    let exponent = exponent_at(w, mantissa.at);
    let at = exponent.at;
    if !letters_from(w, at) {
        return Err(11);
    }
    let up = mantissa.zeros + scale_up(w, at);
    let down = mantissa.places + scale_down(w, at);
    finish(sign.minus, mantissa.number, up, down, exponent)
}

// The same of a short word, from what was read of it. A size up to LOWEST leaves both sides of the power small enough to settle.
fn with_exponent(w: &[u8], begun: Begun) -> Result<Decimal, u8>
    requires { BegunRead w.now begun }
    ensures { result ≡ number_of w.now }
{
    let exponent = exponent_at(w, begun.at);
    let at = exponent.at;
    if !letters_from(w, at) {
        return Err(11);
    }
    let size = exponent.size;
    if LOWEST < size {
        return any_number(w);
    }
    let up = scale_up(w, at) + LOWEST;
    let down = begun.places + scale_down(w, at);
    if exponent.minus {
        return settle(begun.minus, begun.number, up, down + size);
    }
    settle(begun.minus, begun.number, up + size, down)
}

// What was read as one word, so that it passes in a register: the number's word of the row store, or the word of a fault, which no cell has.
fn answer_word(read: Result<Decimal, u8>) -> u64
    ensures { result ≡ number_word read }
{
    match read {
        Ok(d) => word_of_number(d),
        Err(fault) => FAULTS - fault as u64,
    }
}

// What any word says as a number, as one word. This and exponent_word are calls of their own that take and hand back numbers: in number_word they would cost every
// number a frame, and a remainder by LIMIT where their answers came together with its own.
#[inline(never)]
fn any_word(w: &[u8]) -> u64
    ensures { result ≡ number_word (number_of w.now) }
{
    answer_word(any_number(w))
}

// The same of a short word that has more than letters behind its digits, from what was read of it.
#[inline(never)]
fn exponent_word(w: &[u8], minus: bool, number: u64, places: u64, at: usize) -> u64
    requires { BegunRead w.now (record { minus = minus; number = number; places = places; at = at }) }
    ensures { result ≡ number_word (number_of w.now) }
{
    let begun = Begun {
        minus,
        number,
        places,
        at,
    };
    answer_word(with_exponent(w, begun))
}

// What any word says as a number, as one word, soonest for a short word that has letters alone behind its digits.
pub fn number_word(w: &[u8]) -> u64
    ensures { result ≡ number_word (number_of w.now) }
{
    if SHORT < w.len() {
        return any_word(w);
    }
    let sign = sign_at(w, 0);
    let mantissa = short_mantissa_at(w, sign.at);
    let at = mantissa.at;
    if mantissa.count == 0 {
        return FAULTS - 11;
    }
    if !letters_from(w, at) {
        return exponent_word(w, sign.minus, mantissa.number, mantissa.places, at);
    }
    let up = scale_up(w, at) + LOWEST;
    let down = mantissa.places + scale_down(w, at);
    answer_word(settle(sign.minus, mantissa.number, up, down))
}

// The fault that such a word tells; 0 of a cell's word.
pub fn fault_at(w: u64) -> u64
    ensures { result ≡ fault_at w }
{
    if w < PAST_NUMBERS {
        return 0;
    }
    if w == MISSING {
        return 0;
    }
    FAULTS - w
}

// What any word says as a number.
pub fn number_of(w: &[u8]) -> Result<Decimal, u8>
    ensures { result ≡ number_of w.now }
{
    let answer = number_word(w);
    if answer < PAST_NUMBERS {
        return Ok(decimal_in(answer));
    }
    Err((FAULTS - answer) as u8)
}

// Is the word NA, in any letter case?
fn missing(w: &[u8]) -> bool
    ensures { result ≡ is_missing w.now }
{
    matches!(w, [b'N' | b'n', b'A' | b'a'])
}

// What a word says as a cell that may not be missing.
pub fn given_cell(w: &[u8]) -> Result<Cell, u8>
    ensures { result ≡ given_cell w.now }
{
    match number_of(w) {
        Ok(d) => Ok(Cell::Number(d)),
        Err(fault) => Err(fault),
    }
}

// What a word says as a cell.
pub fn cell_of(w: &[u8]) -> Result<Cell, u8>
    ensures { result ≡ cell_of w.now }
{
    if missing(w) {
        return Ok(Cell::Missing);
    }
    given_cell(w)
}

// The same in one word, as number_word has it.
pub fn cell_word(w: &[u8]) -> u64
    ensures { result ≡ cell_word (cell_of w.now) }
{
    if missing(w) {
        return MISSING;
    }
    number_word(w)
}

// number without its last digits, as many as count says.
fn shrink(number: u64, count: u8) -> u64
    ensures { result ≡ number / 10 ^ count }
{
    let mut rest = number;
    for _ in 0..count {
        rest = rest / 10;
    }
    rest
}

// Is a below b, signs aside? The one with the lower power is cut to whole units of the other, so that nothing grows.
fn smaller(a: Decimal, b: Decimal) -> bool
    ensures { result ≡ ltb (size_of a) (size_of b) }
{
    if a.power <= b.power {
        return shrink(a.digits, b.power - a.power) < b.digits;
    }
    if b.digits == 0 {
        return false;
    }
    a.digits <= shrink(b.digits - 1, a.power - b.power)
}

// Is a below b? Decimal has no PartialOrd: it asks for an equality by which ten and 1e1 are one, as are zero and minus zero, and nobody asks for that.
pub fn less(a: Decimal, b: Decimal) -> bool
    ensures { result ≡ less_than a b }
{
    if a.negative {
        if b.negative {
            return smaller(b, a);
        }
        // Minus zero is zero.
        if a.digits == 0 {
            return 0 < b.digits;
        }
        return true;
    }
    if b.negative {
        return false;
    }
    smaller(a, b)
}

pub fn above_zero(d: Decimal) -> bool
    ensures { result ≡ above_zero d }
{
    if d.negative {
        return false;
    }
    0 < d.digits
}

// A number as one word of the row store: 50 bits of digits, eight of power and one of sign.
fn word_of_number(d: Decimal) -> u64
    ensures { result ≡ word_of (Number d) }
{
    d.digits % LIMIT * 512 + d.power as u64 * 2 + u64::from(d.negative)
}

// A cell as one word of the row store.
pub fn word_of(c: Cell) -> u64
    ensures { result ≡ word_of c }
{
    match c {
        Cell::Number(d) => word_of_number(d),
        Cell::Missing => MISSING,
    }
}

// Does a word of the row store hold a number?
pub fn holds_number(w: u64) -> bool
    ensures { result ≡ ltb w past_numbers }
{
    w < PAST_NUMBERS
}

// The number that a word of the row store holds.
pub fn decimal_in(w: u64) -> Decimal
    ensures { result ≡ decimal_in w }
{
    Decimal {
        digits: w / 512,
        power: (w / 2 % 256) as u8,
        negative: w % 2 == 1,
    }
}

// The cell that a word of the row store holds.
pub fn cell_in(w: u64) -> Cell
    ensures { result ≡ cell_in w }
{
    if w == MISSING {
        return Cell::Missing;
    }
    Cell::Number(decimal_in(w))
}
