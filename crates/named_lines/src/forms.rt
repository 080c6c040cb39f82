// The forms of names: how long they are, how they begin, and the words that no model bears; and what a line tells of a word that has not the form asked for.
ghost use Rattle.std.specs.Prelude.{◌≡◌, ◌+◌, ◌≤◌, length, drop, cond};
ghost use Rattle.laws.specs.Lists.{front};
ghost use Rattle.words.specs.Words.{rest_from};
ghost use Rattle.records.specs.Flaws.{flaw, sound, flaw_in, told, checked};
ghost use Rattle.line_rules.specs.Fields.{is_sized, is_bracketed, needs_no_model, is_no_model, is_model_name, is_pin_model, is_pin_name, is_file_byte, is_file_name, word_by, alone, passing, no_argument};
ghost use Rattle.named_lines.specs.Views.{has_form};

use crate::Form;
use records::LineFault;

// One character to `most`.
pub fn sized(w: &[u8], most: usize) -> bool
    ensures { result ≡ is_sized most w.now }
{
    if w.len() == 0 {
        return false;
    }
    w.len() <= most
}

pub fn bracketed(w: &[u8]) -> bool
    ensures { result ≡ is_bracketed w.now }
{
    if w.len() == 0 {
        return false;
    }
    w[0] == b'['
}

// The words for a pin that needs no model.
pub fn needs_no_model(w: &[u8]) -> bool
    ensures { result ≡ needs_no_model w.now }
{
    if words::same_capitals(w, b"POWER") {
        return true;
    }
    if words::same_capitals(w, b"GND") {
        return true;
    }
    words::same_capitals(w, b"NC")
}

// The words that are no model.
pub fn is_no_model(w: &[u8]) -> bool
    ensures { result ≡ is_no_model w.now }
{
    if words::same_capitals(w, b"NA") {
        return true;
    }
    words::same_capitals(w, b"CIRCUITCALL")
}

// The name of a model or a selector.
pub fn model_name(w: &[u8]) -> bool
    ensures { result ≡ is_model_name w.now }
{
    if !sized(w, 40) {
        return false;
    }
    if bracketed(w) {
        return false;
    }
    if needs_no_model(w) {
        return false;
    }
    !is_no_model(w)
}

// The model of a pin, or a word for none.
pub fn pin_model(w: &[u8]) -> bool
    ensures { result ≡ is_pin_model w.now }
{
    if !sized(w, 40) {
        return false;
    }
    if bracketed(w) {
        return false;
    }
    !is_no_model(w)
}

pub fn pin_name(w: &[u8]) -> bool
    ensures { result ≡ is_pin_name w.now }
{
    if !sized(w, 8) {
        return false;
    }
    !bracketed(w)
}

// A byte of a file's name, before its ending.
fn file_byte(b: u8) -> bool
    ensures { result ≡ is_file_byte b }
{
    match b {
        b'a'..=b'z' | b'0'..=b'9' => true,
        _ => {
            let marks = b"_^$~!#%&-{})(@'`";
            words::find(marks, 0, b) < 16
        }
    }
}

// Where those bytes end.
fn skip_file_bytes(w: &[u8], at: usize) -> usize
    requires { at ≤ length w.now }
    ensures value { result ≡ at + length (front is_file_byte (drop at w.now)) }
    ensures lower_bound { (at ≤ result) × (result ≤ length w.now) }
{
    words::skip(w, at, file_byte)
}

pub fn file_name(w: &[u8]) -> bool
    ensures { result ≡ is_file_name w.now }
{
    let end = skip_file_bytes(w, 0);
    if !sized(&w[0..end], 40) {
        return false;
    }
    words::same(&w[end..], b".ibs")
}

// A word of this form.
fn has_form(w: &[u8], form: Form) -> bool
    ensures { result ≡ has_form form w.now }
{
    match form {
        Form::Version => words::same(w, b"5.0"),
        Form::FileName => file_name(w),
        Form::ModelName => model_name(w),
    }
}

// ---- what a line tells of what stands from a place of it on

// Nothing may stand there.
pub fn surplus_fault(w: &[u8], at: usize) -> Result<(), LineFault>
    requires { at ≤ length w.now }
    ensures { result ≡ checked (told w.now (no_argument (drop at w.now))) }
{
    if at < w.len() {
        return Err(records::at_fault(10, at));
    }
    Ok(())
}

// A line whose name is none of its list's is told at its first word.
pub fn name_fault(w: &[u8]) -> LineFault
    ensures { result ≡ told w.now (flaw 10 (rest_from 0 w.now)) }
{
    records::at_fault(10, words::skip_blanks(w, 0))
}

// A text of 1 to `most` characters, blanks and all.
pub fn sized_fault(w: &[u8], at: usize, most: usize) -> Result<(), LineFault>
    requires { at ≤ length w.now }
    ensures { result ≡ checked (told w.now (cond (is_sized most (drop at w.now)) sound (flaw 10 (drop at w.now)))) }
{
    if !sized(&w[at..], most) {
        return Err(records::at_fault(10, at));
    }
    Ok(())
}

// A word of this form, and then anything.
pub fn word_fault(w: &[u8], at: usize, form: Form) -> Result<(), LineFault>
    requires { at ≤ length w.now }
    ensures { result ≡ checked (told w.now (flaw_in (word_by (passing (has_form form)) 0 (drop at w.now)))) }
{
    let word = words::word_at(w, at);
    if !has_form(&w[word.start..word.end], form) {
        return Err(records::at_fault(10, word.start));
    }
    Ok(())
}

// A word of this form, and nothing behind it.
pub fn argument_fault(w: &[u8], at: usize, form: Form) -> Result<(), LineFault>
    requires { at ≤ length w.now }
    ensures { result ≡ checked (told w.now (flaw_in (alone (passing (has_form form)) (drop at w.now)))) }
{
    let word = words::word_at(w, at);
    if !has_form(&w[word.start..word.end], form) {
        return Err(records::at_fault(10, word.start));
    }
    surplus_fault(w, words::skip_blanks(w, word.end))
}
