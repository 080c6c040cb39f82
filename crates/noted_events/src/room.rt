// How much of each table is used, and how much may be.
ghost use Rattle.std.specs.Prelude.{◌≡◌, ◌<◌, ◌^◌, min};
ghost use Rattle.rules.specs.Whole.{bound};
ghost use Rattle.records.specs.Bounds.{most_waveforms};
ghost use Rattle.notes.specs.Noted.{nothing_used, used, one_more};

use crate::Tally;
use records::{
    Counts, Kind, Lengths, MOST_CHOICES, MOST_COMPONENTS, MOST_MODELS, MOST_PINS, MOST_SELECTORS,
    MOST_WAVEFORMS,
};

pub fn bound_of(l: Lengths, k: Kind) -> usize
    ensures { result ≡ bound l k }
{
    match k {
        Kind::OfComponent => MOST_COMPONENTS.min(l.components),
        Kind::OfPin => MOST_PINS.min(l.pins),
        Kind::OfSelector => MOST_SELECTORS.min(l.selectors),
        Kind::OfChoice => MOST_CHOICES.min(l.choices),
        Kind::OfModel => MOST_MODELS.min(l.models),
    }
}

pub fn waveform_bound(l: Lengths) -> usize
    ensures { result ≡ min most_waveforms l.waveforms }
{
    MOST_WAVEFORMS.min(l.waveforms)
}

pub fn used_of(c: Counts, k: Kind) -> usize
    ensures { result ≡ used c k }
{
    match k {
        Kind::OfComponent => c.components,
        Kind::OfPin => c.pins,
        Kind::OfSelector => c.selectors,
        Kind::OfChoice => c.choices,
        Kind::OfModel => c.models,
    }
}

// One more of that kind.
pub fn one_more(c: Counts, k: Kind) -> Counts
    requires { used c k < 2 ^ 32 }
    ensures { result ≡ one_more c k }
{
    let mut d = c;
    match k {
        Kind::OfComponent => d.components += 1,
        Kind::OfPin => d.pins += 1,
        Kind::OfSelector => d.selectors += 1,
        Kind::OfChoice => d.choices += 1,
        Kind::OfModel => d.models += 1,
    }
    d
}

// Nothing is noted yet.
pub fn nothing() -> Tally
    ensures { result ≡ record { names = 0; counts = nothing_used } }
{
    Tally {
        names: 0,
        counts: Counts {
            components: 0,
            pins: 0,
            selectors: 0,
            choices: 0,
            models: 0,
            waveforms: 0,
            rows: 0,
        },
    }
}
