// The reader by example: standard input is read into lent tables of odd lengths, then into the same with a row too few, and is checked
// for one pin. Printed are the verdict, every pin record, and how many words past the rows that are used keep what they held. The pins of the first
// reading are then lent to a search.
#![tactic(auto)]

ghost use Rattle.std.specs.Prelude.{◌≡◌, ◌≤◌, take};
ghost use Rattle.lent_pins.specs.Search.{pin_place};
ghost use Rattle.lending.specs.Lent.{spare_pin, one_component, three_pins, no_selectors, no_choices, two_models, one_waveform, many_words, few_words, enough_of, scant_of, ReadEnough, ReadScant};

use lent_pins::Sought;
use records::{Answer, Choice, Component, Lengths, Model, Name, Pin, Selector, Waveform};
use text_buffer::Page;

// An answer and the tables as they are left: 8,192 rows, as loading asks for, and three words that hold no row.
#[derive(Clone, Copy)]
struct Enough {
    answer: Answer,
    components: [Component; 1],
    pins: [Pin; 3],
    selectors: [Selector; 0],
    choices: [Choice; 0],
    models: [Model; 2],
    waveforms: [Waveform; 1],
    rows: [u64; 32771],
}

// The same with a row less.
#[derive(Clone, Copy)]
struct Scant {
    answer: Answer,
    components: [Component; 1],
    pins: [Pin; 3],
    selectors: [Selector; 0],
    choices: [Choice; 0],
    models: [Model; 2],
    waveforms: [Waveform; 1],
    rows: [u64; 32767],
}

// ---- what the tables hold before they are lent

fn one_component() -> [Component; 1]
    ensures { result ≡ one_component }
{
    let component = blank_records::blank_component();
    [component; 1]
}

// A pin called xxxxx.
fn spare_pin() -> Pin
    ensures { result ≡ spare_pin }
{
    let name = Name {
        bytes: [b'x'; 40],
        len: 5,
    };
    let mut pin = blank_records::blank_pin();
    pin.name = name;
    pin
}

fn three_pins() -> [Pin; 3]
    ensures { result ≡ three_pins }
{
    let pin = spare_pin();
    [pin; 3]
}

fn no_selectors() -> [Selector; 0]
    ensures { result ≡ no_selectors }
{
    let selector = blank_records::blank_selector();
    [selector; 0]
}

fn no_choices() -> [Choice; 0]
    ensures { result ≡ no_choices }
{
    let choice = blank_records::blank_choice();
    [choice; 0]
}

fn two_models() -> [Model; 2]
    ensures { result ≡ two_models }
{
    let model = blank_records::blank_model();
    [model; 2]
}

fn one_waveform() -> [Waveform; 1]
    ensures { result ≡ one_waveform }
{
    let waveform = blank_records::blank_waveform();
    [waveform; 1]
}

fn many_words() -> [u64; 32771]
    ensures { result ≡ many_words }
{
    [7; 32771]
}

fn few_words() -> [u64; 32767]
    ensures { result ≡ few_words }
{
    [7; 32767]
}

// ---- the readings

fn enough_of(
    answer: Answer,
    components: [Component; 1],
    pins: [Pin; 3],
    selectors: [Selector; 0],
    choices: [Choice; 0],
    models: [Model; 2],
    waveforms: [Waveform; 1],
    rows: [u64; 32771],
) -> Enough
    ensures { result ≡ enough_of answer components pins selectors choices models waveforms rows }
{
    Enough {
        answer: answer,
        components: components,
        pins: pins,
        selectors: selectors,
        choices: choices,
        models: models,
        waveforms: waveforms,
        rows: rows,
    }
}

fn read_enough(src: &[u8]) -> Enough
    ensures { ReadEnough src.now result }
{
    let mut components = one_component();
    let mut pins = three_pins();
    let mut selectors = no_selectors();
    let mut choices = no_choices();
    let mut models = two_models();
    let mut waveforms = one_waveform();
    let mut rows = many_words();
    let answer = reader::read(
        src,
        &mut components,
        &mut pins,
        &mut selectors,
        &mut choices,
        &mut models,
        &mut waveforms,
        &mut rows,
    );
    enough_of(
        answer, components, pins, selectors, choices, models, waveforms, rows,
    )
}

fn scant_of(
    answer: Answer,
    components: [Component; 1],
    pins: [Pin; 3],
    selectors: [Selector; 0],
    choices: [Choice; 0],
    models: [Model; 2],
    waveforms: [Waveform; 1],
    rows: [u64; 32767],
) -> Scant
    ensures { result ≡ scant_of answer components pins selectors choices models waveforms rows }
{
    Scant {
        answer: answer,
        components: components,
        pins: pins,
        selectors: selectors,
        choices: choices,
        models: models,
        waveforms: waveforms,
        rows: rows,
    }
}

fn read_scant(src: &[u8]) -> Scant
    ensures { ReadScant src.now result }
{
    let mut components = one_component();
    let mut pins = three_pins();
    let mut selectors = no_selectors();
    let mut choices = no_choices();
    let mut models = two_models();
    let mut waveforms = one_waveform();
    let mut rows = few_words();
    let answer = reader::read(
        src,
        &mut components,
        &mut pins,
        &mut selectors,
        &mut choices,
        &mut models,
        &mut waveforms,
        &mut rows,
    );
    scant_of(
        answer, components, pins, selectors, choices, models, waveforms, rows,
    )
}

// ---- the search

// A component's pin by its name, in the table that is lent for the search.
fn find_pin(pins: [Pin; 3], used: usize, sought: Sought) -> Option<usize>
    ensures { result ≡ pin_place (take used pins) sought }
{
    lent_pins::find_pin(&pins, used, sought)
}

// ---- what is printed

fn print_answer(a: Answer) {
    let mut out = io::buffer();
    let mut page = Page::new(&mut out);
    match a.verdict {
        Ok(()) => dump_text::accepted_line(&mut page, a.counts),
        Err(f) => text_buffer::refused_line(&mut page, f),
    }
    program_output::put_page(&page);
}

fn print_pins(pins: [Pin; 3]) {
    let mut out = io::buffer();
    for pin in pins {
        let mut page = Page::new(&mut out);
        dump_text::pin_line(&mut page, pin);
        program_output::put_page(&page);
    }
}

// 1 for a word past those of the rows that are used that holds what it held.
fn kept_at(word: u64, i: usize, used: usize) -> u64
    ensures { result ≤ 1 }
{
    if used <= i / 4 && word == 7 { 1 } else { 0 }
}

fn words_kept(rows: &[u64], used: usize) -> u64 {
    let mut kept: u64 = 0;
    for i in 0..rows.len() {
        kept += kept_at(rows[i], i, used);
    }
    kept
}

fn print_kept(rows: &[u64], used: usize) {
    let mut out = io::buffer();
    let mut page = Page::new(&mut out);
    page.put_bytes(b"KEPT ");
    page.put_number(words_kept(rows, used));
    page.put_byte(b'\n');
    program_output::put_page(&page);
}

// A pin's place and its signal.
fn print_place(k: usize, pin: Pin) {
    let mut out = io::buffer();
    let mut page = Page::new(&mut out);
    page.put_bytes(b"FOUND ");
    page.put_number(k as u64);
    page.put_byte(b' ');
    page.put_name(pin.signal);
    page.put_byte(b'\n');
    program_output::put_page(&page);
}

fn print_found(pins: [Pin; 3], f: Option<usize>) {
    match f {
        Some(k) => {
            if k < 3 {
                print_place(k, pins[k]);
            }
        }
        None => {
            program_output::put_out(b"FOUND NOTHING\n", 14);
        }
    }
}

// The pin of that name, of the first component.
fn print_pin_named(components: [Component; 1], pins: [Pin; 3], used: usize, name: &[u8]) {
    let sought = Sought {
        pins: components[0].pins,
        name: records::name_of(name),
    };
    print_found(pins, find_pin(pins, used, sought));
}

// The answer alone, were one pin lent.
fn print_check(src: &[u8]) {
    let l = Lengths {
        components: 1,
        pins: 1,
        selectors: 0,
        choices: 0,
        models: 2,
        waveforms: 1,
    };
    print_answer(reader::check(src, l));
}

fn print_readings(src: &[u8]) {
    let t = read_enough(src);
    print_answer(t.answer);
    print_pins(t.pins);
    print_kept(&t.rows, t.answer.counts.rows);
    print_pin_named(t.components, t.pins, t.answer.counts.pins, b"1");
    print_pin_named(t.components, t.pins, t.answer.counts.pins, b"xxxxx");
    let u = read_scant(src);
    print_answer(u.answer);
    print_pins(u.pins);
    print_kept(&u.rows, u.answer.counts.rows);
    print_check(src);
}

fn main() {
    let mut src = program_output::file_buffer();
    let n = io::read_full(0, &mut src);
    print_readings(&src[..n]);
}
