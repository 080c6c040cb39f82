// The model chosen for a pin: through a selector, whose first row is the choice; none for POWER, GND, NC.
ghost use Rattle.std.specs.Prelude.{◌≡◌};
ghost use Rattle.questions.specs.Named.{name_bytes};
ghost use Rattle.questions.specs.Searched.{model_named, selector_named};
ghost use Rattle.questions.specs.Chosen.{first_choice, name_for, model_for, model_of_pin};

use crate::names::{first_bytes, needs_no_model};
use crate::searches::{model_named, selector_named};
use record_words::PIN_WORDS;
use records::{Name, Pin, Span};

fn first_choice(choices: &[u64], rows: Span) -> Name
    ensures { result ≡ first_choice choices.now rows }
{
    if rows.count == 0 {
        return records::no_name();
    }
    table_records::tables::choice_in(choices, rows.start).model
}

fn selector_of(selectors: &[u64], name: Name) -> Option<usize>
    ensures { result ≡ selector_named selectors.now (name_bytes name) }
{
    selector_named(selectors, first_bytes(&name.bytes, name.len))
}

fn model_of(models: &[u64], name: Name) -> Option<usize>
    ensures { result ≡ model_named models.now (name_bytes name) }
{
    model_named(models, first_bytes(&name.bytes, name.len))
}

// A pin's model name after selection; its own, reserved words too, where no selector has that name.
pub fn name_for(selectors: &[u64], choices: &[u64], p: Pin) -> Name
    ensures { result ≡ name_for selectors.now choices.now p }
{
    match selector_of(selectors, p.model) {
        Some(k) => first_choice(
            choices,
            table_records::tables::selector_in(selectors, k).choices,
        ),
        None => p.model,
    }
}

// The place of the model chosen for a pin.
pub fn model_for(selectors: &[u64], choices: &[u64], models: &[u64], p: Pin) -> Option<usize>
    ensures { result ≡ model_for selectors.now choices.now models.now p }
{
    if needs_no_model(p.model) {
        return None;
    }
    model_of(models, name_for(selectors, choices, p))
}

// The same for the pin at a place.
pub fn model_of_pin(
    pins: &[u64],
    selectors: &[u64],
    choices: &[u64],
    models: &[u64],
    k: usize,
) -> Option<usize>
    ensures { result ≡ model_of_pin pins.now selectors.now choices.now models.now k }
{
    if k < pins.len() / PIN_WORDS {
        return model_for(
            selectors,
            choices,
            models,
            table_records::tables::pin_in(pins, k),
        );
    }
    None
}
