// A component's pin by its name in a lent table of pin records. Tables of words are asked by crate questions.
#![tactic(auto)]

ghost use Rattle.std.specs.Prelude.{◌≡◌, take};
ghost use Rattle.lent_pins.specs.Search.{pin_place};

use questions::names::same_name;
use questions::searches::in_span;
use records::{Name, Pin, Span};

// A pin that is sought: where the pins of its component lie in the table of pins, and its name.
#[derive(Clone, Copy)]
pub struct Sought {
    pub pins: Span,
    pub name: Name,
}

// The place in the table of the first pin that lies among its component's and has that name. A span past the table's end is cut there.
pub fn find_pin(pins: &[Pin], used: usize, sought: Sought) -> Option<usize>
    ensures { result ≡ pin_place (take used pins.now) sought }
{
    let most = used.min(pins.len());
    for (i, pin) in pins[..most].iter().enumerate() {
        if in_span(sought.pins, i) && same_name(pin.name, sought.name) {
            return Some(i);
        }
    }
    None
}
