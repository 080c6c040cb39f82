// Records as words, in the order of their fields.
ghost use Rattle.std.specs.Prelude.{◌≡◌, ◌+◌, ◌/◌};
ghost use Rattle.record_words.specs.Records.{laid_words, name_words, text_words, triple_words, range_words, slope_words, ramp_words, table_words, component_words, pin_words, selector_words, choice_words, model_first, model_split, model_levels, model_tables, waveform_words};

use crate::values::{dividend_word, divisor_word, eight_at, enable_number, polarity_number};
use crate::{
    CHOICE_WORDS, COMPONENT_WORDS, MODEL_FIRST_WORDS, MODEL_LEVELS_WORDS, MODEL_SPLIT_WORDS,
    MODEL_TABLES_WORDS, NAME_WORDS, PIN_WORDS, RAMP_WORDS, RANGE_WORDS, SELECTOR_WORDS,
    SLOPE_WORDS, TABLE_WORDS, TEXT_WORDS, TRIPLE_WORDS, WAVEFORM_WORDS,
};
use decimal::word_of;
use records::{
    Choice, Component, Model, Name, Pin, RampTable, RampTriple, Range, Selector, Table, Text,
    Triple, Waveform, Words, type_number,
};

// ---- parts of records

// A text's bytes, eight to a word, and behind them how many of them are the text's.
fn laid_words<const N: usize, const WORDS: usize>(t: Text<N>) -> [u64; WORDS]
    requires { WORDS ≡ N / 8 + 1 }
    ensures { result ≡ laid_words N t.entry }
{
    let mut words = [0u64; WORDS];
    for k in 0..N / 8 {
        words[k] = eight_at(&t.bytes, 8 * k);
    }
    words[N / 8] = t.len as u64;
    words
}

fn name_words(n: Name) -> [u64; NAME_WORDS]
    ensures { result ≡ name_words n }
{
    laid_words(n)
}

pub fn text_words(t: Words) -> [u64; TEXT_WORDS]
    ensures { result ≡ text_words t }
{
    laid_words(t)
}

pub fn triple_words(t: Triple) -> [u64; TRIPLE_WORDS]
    ensures { result ≡ triple_words t }
{
    [word_of(t.typ), word_of(t.min), word_of(t.max)]
}

fn range_words(r: Range) -> [u64; RANGE_WORDS]
    ensures { result ≡ range_words r }
{
    let c = triple_words(r.cells);
    [u64::from(r.given), c[0], c[1], c[2]]
}

fn slope_words(t: RampTriple) -> [u64; SLOPE_WORDS]
    ensures { result ≡ slope_words t }
{
    [
        dividend_word(t.typ),
        divisor_word(t.typ),
        dividend_word(t.min),
        divisor_word(t.min),
        dividend_word(t.max),
        divisor_word(t.max),
    ]
}

pub fn ramp_words(ramp: RampTable) -> [u64; RAMP_WORDS]
    ensures { result ≡ ramp_words ramp }
{
    let r = slope_words(ramp.rise);
    let f = slope_words(ramp.fall);
    [
        u64::from(ramp.given),
        r[0],
        r[1],
        r[2],
        r[3],
        r[4],
        r[5],
        f[0],
        f[1],
        f[2],
        f[3],
        f[4],
        f[5],
        word_of(ramp.load),
    ]
}

fn table_words(t: Table) -> [u64; TABLE_WORDS]
    ensures { result ≡ table_words t }
{
    [u64::from(t.given), t.rows.start as u64, t.rows.count as u64]
}

// ---- records

pub fn component_words(c: Component) -> [u64; COMPONENT_WORDS]
    ensures { result ≡ component_words c }
{
    let n = name_words(c.name);
    let m = name_words(c.manufacturer);
    let r = triple_words(c.resistance);
    let l = triple_words(c.inductance);
    let k = triple_words(c.capacitance);
    [
        c.section as u64,
        n[0],
        n[1],
        n[2],
        n[3],
        n[4],
        n[5],
        c.si as u64,
        c.timing as u64,
        m[0],
        m[1],
        m[2],
        m[3],
        m[4],
        m[5],
        r[0],
        r[1],
        r[2],
        l[0],
        l[1],
        l[2],
        k[0],
        k[1],
        k[2],
        c.pins.start as u64,
        c.pins.count as u64,
    ]
}

pub fn pin_words(p: Pin) -> [u64; PIN_WORDS]
    ensures { result ≡ pin_words p }
{
    let n = name_words(p.name);
    let s = name_words(p.signal);
    let m = name_words(p.model);
    [
        n[0],
        n[1],
        n[2],
        n[3],
        n[4],
        n[5],
        s[0],
        s[1],
        s[2],
        s[3],
        s[4],
        s[5],
        m[0],
        m[1],
        m[2],
        m[3],
        m[4],
        m[5],
        word_of(p.resistance),
        word_of(p.inductance),
        word_of(p.capacitance),
    ]
}

pub fn selector_words(s: Selector) -> [u64; SELECTOR_WORDS]
    ensures { result ≡ selector_words s }
{
    let n = name_words(s.name);
    [
        s.section as u64,
        n[0],
        n[1],
        n[2],
        n[3],
        n[4],
        n[5],
        s.choices.start as u64,
        s.choices.count as u64,
    ]
}

pub fn choice_words(c: Choice) -> [u64; CHOICE_WORDS]
    ensures { result ≡ choice_words c }
{
    let m = name_words(c.model);
    let d = text_words(c.description);
    [
        m[0], m[1], m[2], m[3], m[4], m[5], d[0], d[1], d[2], d[3], d[4], d[5], d[6], d[7], d[8],
        d[9], d[10], d[11], d[12], d[13], d[14], d[15],
    ]
}

// A model's parts before its ramp: its name, type and C_comp,
pub fn model_first(m: Model) -> [u64; MODEL_FIRST_WORDS]
    ensures { result ≡ model_first m }
{
    let n = name_words(m.name);
    let c = triple_words(m.comp);
    [
        m.section as u64,
        n[0],
        n[1],
        n[2],
        n[3],
        n[4],
        n[5],
        type_number(m.kind),
        polarity_number(m.polarity),
        enable_number(m.enable),
        c[0],
        c[1],
        c[2],
    ]
}

// C_comp by structure,
pub fn model_split(m: Model) -> [u64; MODEL_SPLIT_WORDS]
    ensures { result ≡ model_split m }
{
    let u = range_words(m.split.pullup);
    let d = range_words(m.split.pulldown);
    let p = range_words(m.split.power);
    let g = range_words(m.split.ground);
    [
        u[0], u[1], u[2], u[3], d[0], d[1], d[2], d[3], p[0], p[1], p[2], p[3], g[0], g[1], g[2],
        g[3],
    ]
}

// its numbers and ranges,
pub fn model_levels(m: Model) -> [u64; MODEL_LEVELS_WORDS]
    ensures { result ≡ model_levels m }
{
    let v = triple_words(m.voltage);
    let t = range_words(m.temperature);
    [
        word_of(m.vinl),
        word_of(m.vinh),
        word_of(m.vmeas),
        word_of(m.cref),
        word_of(m.rref),
        word_of(m.vref),
        v[0],
        v[1],
        v[2],
        t[0],
        t[1],
        t[2],
        t[3],
    ]
}

// its current tables.
pub fn model_tables(m: Model) -> [u64; MODEL_TABLES_WORDS]
    ensures { result ≡ model_tables m }
{
    let d = table_words(m.pulldown);
    let u = table_words(m.pullup);
    let g = table_words(m.ground);
    let p = table_words(m.power);
    [
        d[0], d[1], d[2], u[0], u[1], u[2], g[0], g[1], g[2], p[0], p[1], p[2],
    ]
}

pub fn waveform_words(w: Waveform) -> [u64; WAVEFORM_WORDS]
    ensures { result ≡ waveform_words w }
{
    [
        w.edge as u64,
        word_of(w.rfixture),
        word_of(w.vfixture),
        word_of(w.vmin),
        word_of(w.vmax),
        word_of(w.cfixture),
        word_of(w.lfixture),
        word_of(w.rdut),
        word_of(w.ldut),
        word_of(w.cdut),
        w.rows.start as u64,
        w.rows.count as u64,
    ]
}
