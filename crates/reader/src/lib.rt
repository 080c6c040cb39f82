// Reading a file into the lent tables: checked first, and filled only when it is accepted.
#![tactic(auto)]

ghost use Rattle.std.specs.Prelude.{◌≡◌, ℕ, ◌<◌, ◌≤◌, length};
ghost use Rattle.table_walks.specs.Filled.{filled_to};
ghost use Rattle.reader.specs.Filling.{ModelsFit, ModelsFilled};
ghost use Rattle.reader.specs.Promise.{Read};

pub use file_answer::check;
use note_words::STORE_LENGTH;
use records::{
    Answer, Choice, Component, Counts, Lending, Lengths, Model, Pin, Selector, Waveform,
};

// Puts a record that `made` makes of its place into each of the first n places of a table.
fn fill<T: Copy, F: Fn(usize) -> T>(table: &mut [T], n: usize, made: F)
    requires room { n ≤ length table.old }
    requires callable { (k : ℕ) → k < n → F.pre made k }
    ensures { (f : ℕ → T) → ((k : ℕ) (r : T) → k < n → F.post made k r → r ≡ f k) → table.new ≡ filled_to f n table.old }
{
    for k in 0..n {
        table[k] = made(k);
    }
}

// The models one after the other, each behind its waveforms; and their rows. A turn writes a waveform or the model behind them, so each of the two
// tables has a count of its own.
fn fill_models(
    models: &mut [Model],
    waveforms: &mut [Waveform],
    rows: &mut [u64],
    src: &[u8],
    notes: &[u16],
    o: Counts,
)
    requires { ModelsFit src.now notes.now o models.old waveforms.old rows.old }
    ensures { ModelsFilled src.now notes.now o models.old waveforms.old rows.old models.new waveforms.new rows.new }
{
    let n = o.models;
    let mut i = 0;
    let mut k = 0;
    let mut p = from_notes::no_record();
    while i < n {
        p = from_notes::next_record(rows, src, notes, p, i);
        match from_notes::waveform_made(p) {
            Some(waveform) => {
                waveforms[k] = waveform;
                k += 1;
            }
            None => {
                models[i] = from_notes::model_made(src, notes, p, i);
                i += 1;
            }
        }
    }
}

// Reads a file into the lent tables.
pub fn read(
    src: &[u8],
    components: &mut [Component],
    pins: &mut [Pin],
    selectors: &mut [Selector],
    choices: &mut [Choice],
    models: &mut [Model],
    waveforms: &mut [Waveform],
    rows: &mut [u64],
) -> Answer
    ensures { Read src.now components.old pins.old selectors.old choices.old models.old waveforms.old rows.old result components.new pins.new selectors.new choices.new models.new waveforms.new rows.new }
{
    let mut notes = [0u16; STORE_LENGTH];
    let l = Lending {
        tables: Lengths {
            components: components.len(),
            pins: pins.len(),
            selectors: selectors.len(),
            choices: choices.len(),
            models: models.len(),
            waveforms: waveforms.len(),
        },
        rows: rows.len() / 4,
    };
    let a = file_answer::loaded(src, l, &mut notes);
    let o = a.counts;
    fill(components, o.components, |k| {
        from_notes::component_at(src, &notes, k)
    });
    fill(pins, o.pins, |k| from_notes::pin_at(src, &notes, k));
    fill(selectors, o.selectors, |k| {
        from_notes::selector_at(src, &notes, k)
    });
    fill(
        choices,
        o.choices,
        |k| from_notes::choice_at(src, &notes, k),
    );
    fill_models(models, waveforms, rows, src, &notes, o);
    a
}
