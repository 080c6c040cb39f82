// A pin row and a selector row, word by word. A word that is not there is an empty one.
ghost use Rattle.std.specs.Prelude.{◌≡◌};
ghost use Rattle.rules.specs.Component.{pin_in};
ghost use Rattle.rules.specs.Reading.{choice_in};

use crate::held::model_kept;
use records::{Choice, Pin, name_of, words_of};

pub fn pin_of(w: &[u8]) -> Pin
    ensures { result ≡ pin_in w.now }
{
    let name = words::word_at(w, 0);
    let signal = words::word_at(w, name.end);
    let model = words::word_at(w, signal.end);
    let cells = line_cells::triple_is(line_cells::pin_cells(w, model.end));
    Pin {
        name: name_of(name.of(w)),
        signal: name_of(signal.of(w)),
        model: model_kept(model.of(w)),
        resistance: cells.typ,
        inductance: cells.min,
        capacitance: cells.max,
    }
}

// The description begins behind the model's name and the blanks after it.
pub fn choice_of(w: &[u8]) -> Choice
    ensures { result ≡ choice_in w.now }
{
    let model = words::word_at(w, 0);
    let start = words::skip_blanks(w, 0);
    let at = words::skip_blanks(w, start + (model.end - model.start));
    Choice {
        model: name_of(model.of(w)),
        description: words_of(&w[at..]),
    }
}
