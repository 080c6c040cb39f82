// Tables as words: the records of an accepted file, made from its notes, one after the other from the front.
ghost use Rattle.std.specs.Prelude.{◌≡◌, ℕ, ◌*◌, ◌≤◌, ◌<◌, List, length};
ghost use Rattle.records.specs.Stored.{over};
ghost use Rattle.from_notes.specs.Made.{joined_to, component_at, pin_at, selector_at, choice_at};
ghost use Rattle.record_words.specs.Records.{component_words, pin_words, selector_words, choice_words, component_size, pin_size, selector_size, choice_size, model_size};
ghost use Rattle.table_words.specs.Packed.{model_words_at, waveform_words_at, row_words_at};

use from_notes::places::{name_noted, place_noted, section_noted, section_word};
use note_words::{MODELS_FROM, SECTION_ROW, SECTION_START};
use record_words::tables::{choice_words, component_words, pin_words, selector_words};
use record_words::{CHOICE_WORDS, COMPONENT_WORDS, MODEL_WORDS, PIN_WORDS, SELECTOR_WORDS};
use records::{Choice, Component, Pin, Selector};
use section_words::{Used, put};

// A record that is SIZE words.
trait Packed<const SIZE: usize> {
    ghost packed: { Self → List ℕ };

    fn words(self) -> [u64; SIZE]
        ensures { result ≡ packed self };
}

impl Packed<COMPONENT_WORDS> for Component {
    ghost packed = { component_words };

    fn words(self) -> [u64; COMPONENT_WORDS] {
        component_words(self)
    }
}

impl Packed<PIN_WORDS> for Pin {
    ghost packed = { pin_words };

    fn words(self) -> [u64; PIN_WORDS] {
        pin_words(self)
    }
}

impl Packed<SELECTOR_WORDS> for Selector {
    ghost packed = { selector_words };

    fn words(self) -> [u64; SELECTOR_WORDS] {
        selector_words(self)
    }
}

impl Packed<CHOICE_WORDS> for Choice {
    ghost packed = { choice_words };

    fn words(self) -> [u64; CHOICE_WORDS] {
        choice_words(self)
    }
}

// Writes the words of the records that `made` makes of their places, those of the first n places.
fn fill<const SIZE: usize, T: Packed<SIZE>, F: Fn(usize) -> T>(out: &mut [u64], n: usize, made: F)
    requires room { SIZE * n ≤ length out.old }
    requires callable { (k : ℕ) → k < n → F.pre made k }
    ensures { (f : ℕ → List ℕ) → ((k : ℕ) → length (f k) ≡ SIZE) → ((k : ℕ) (r : T) → k < n → F.post made k r → T.packed r ≡ f k) → out.new ≡ over out.old (joined_to f n) }
{
    for k in 0..n {
        put(out, SIZE * k, &made(k).words());
    }
}

pub(crate) fn fill_components(out: &mut [u64], src: &[u8], notes: &[u16], n: usize)
    requires { component_size * n ≤ length out.old }
    ensures { out.new ≡ over out.old (joined_to (λ k. component_words (component_at src.now notes.now k)) n) }
{
    fill(out, n, |k| from_notes::component_at(src, notes, k));
}

pub(crate) fn fill_pins(out: &mut [u64], src: &[u8], notes: &[u16], n: usize)
    requires { pin_size * n ≤ length out.old }
    ensures { out.new ≡ over out.old (joined_to (λ k. pin_words (pin_at src.now notes.now k)) n) }
{
    fill(out, n, |k| from_notes::pin_at(src, notes, k));
}

pub(crate) fn fill_selectors(out: &mut [u64], src: &[u8], notes: &[u16], n: usize)
    requires { selector_size * n ≤ length out.old }
    ensures { out.new ≡ over out.old (joined_to (λ k. selector_words (selector_at src.now notes.now k)) n) }
{
    fill(out, n, |k| from_notes::selector_at(src, notes, k));
}

pub(crate) fn fill_choices(out: &mut [u64], src: &[u8], notes: &[u16], n: usize)
    requires { choice_size * n ≤ length out.old }
    ensures { out.new ≡ over out.old (joined_to (λ k. choice_words (choice_at src.now notes.now k)) n) }
{
    fill(out, n, |k| from_notes::choice_at(src, notes, k));
}

// The model that is noted at place i of its list, with its waveforms and its rows.
fn fill_model(
    model: &mut [u64],
    waveforms: &mut [u64],
    rows: &mut [u64],
    src: &[u8],
    notes: &[u16],
    i: usize,
) -> Used
    requires model_size_in_bounds { model_size ≤ length model.old }
    requires i_in_bounds { length (waveform_words_at src.now notes.now i) ≤ length waveforms.old }
    requires i_in_bounds_2 { length (row_words_at src.now notes.now i) ≤ length rows.old }
    ensures model_after { model.new ≡ over model.old (model_words_at src.now notes.now i) }
    ensures waveforms_after { waveforms.new ≡ over waveforms.old (waveform_words_at src.now notes.now i) }
    ensures rows_after { rows.new ≡ over rows.old (row_words_at src.now notes.now i) }
    ensures value { result ≡ record { waveforms = length (waveform_words_at src.now notes.now i); rows = length (row_words_at src.now notes.now i) } }
{
    let section = place_noted(notes, MODELS_FROM, i);
    let row = section_word(notes, MODELS_FROM, i, SECTION_ROW);
    let start = section_word(notes, MODELS_FROM, i, SECTION_START);
    let c = section_noted(src, notes, MODELS_FROM, i);
    section_words::fill_model(
        model,
        waveforms,
        rows,
        src,
        c,
        name_noted(src, notes, MODELS_FROM, i),
        section,
        row,
        start,
    )
}

// The first n models, each with its waveforms and its rows, into the rest of the three tables.
pub(crate) fn fill_models(
    models: &mut [u64],
    waveforms: &mut [u64],
    rows: &mut [u64],
    src: &[u8],
    notes: &[u16],
    n: usize,
)
    requires n_in_bounds { model_size * n ≤ length models.old }
    requires n_in_bounds_2 { length (joined_to (waveform_words_at src.now notes.now) n) ≤ length waveforms.old }
    requires n_in_bounds_3 { length (joined_to (row_words_at src.now notes.now) n) ≤ length rows.old }
    ensures models_after { models.new ≡ over models.old (joined_to (model_words_at src.now notes.now) n) }
    ensures waveforms_after { waveforms.new ≡ over waveforms.old (joined_to (waveform_words_at src.now notes.now) n) }
    ensures rows_after { rows.new ≡ over rows.old (joined_to (row_words_at src.now notes.now) n) }
{
    let mut waves: usize = 0;
    let mut words: usize = 0;
    for i in 0..n {
        let used = fill_model(
            &mut models[MODEL_WORDS * i..],
            &mut waveforms[waves..],
            &mut rows[words..],
            src,
            notes,
            i,
        );
        waves += used.waveforms;
        words += used.rows;
    }
}
