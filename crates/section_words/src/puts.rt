// Words at a place of a table: any, and those of a model's record, part by part.
ghost use Rattle.std.specs.Prelude.{◌≡◌, ◌+◌, ◌≤◌, ◌++◌, length};
ghost use Rattle.std.proofs.lemmas.List.Edits.{sets};
ghost use Rattle.record_words.specs.Records.{model_first, model_split, model_levels, model_words, model_size};

use record_words::tables::{model_first, model_levels, model_split, model_tables, ramp_words};
use record_words::{
    MODEL_FIRST_WORDS, MODEL_LINES_WORDS, MODEL_SPLIT_WORDS, MODEL_TABLES_WORDS, RAMP_WORDS,
};
use records::Model;

// Where a model's numbers, its ramp and its waveforms' span begin.
pub(crate) const LEVELS_FROM: usize = MODEL_FIRST_WORDS + MODEL_SPLIT_WORDS;

pub(crate) const RAMP_FROM: usize = MODEL_LINES_WORDS + MODEL_TABLES_WORDS;

const WAVEFORMS_FROM: usize = RAMP_FROM + RAMP_WORDS;

pub fn put(out: &mut [u64], at: usize, words: &[u64])
    requires { at + length words.now ≤ length out.old }
    ensures { out.new ≡ sets out.old at words.now }
{
    out[at..at + words.len()].copy_from_slice(words);
}

// A model's lines before its tables.
fn put_model_lines(out: &mut [u64], at: usize, m: Model)
    requires { at + model_size ≤ length out.old }
    ensures { out.new ≡ sets out.old at (model_first m ++ model_split m ++ model_levels m) }
{
    let first = model_first(m);
    let split = model_split(m);
    let levels = model_levels(m);
    put(out, at, &first);
    put(out, at + MODEL_FIRST_WORDS, &split);
    put(out, at + LEVELS_FROM, &levels);
}

pub(crate) fn put_model(out: &mut [u64], at: usize, m: Model)
    requires { at + model_size ≤ length out.old }
    ensures { out.new ≡ sets out.old at (model_words m) }
{
    let tables = model_tables(m);
    let ramp = ramp_words(m.ramp);
    let waveforms = [m.waveforms.start as u64, m.waveforms.count as u64];
    put_model_lines(out, at, m);
    put(out, at + MODEL_LINES_WORDS, &tables);
    put(out, at + RAMP_FROM, &ramp);
    put(out, at + WAVEFORMS_FROM, &waveforms);
}
