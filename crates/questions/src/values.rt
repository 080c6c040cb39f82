// A pin's resistance, inductance and capacitance, with the package's where its own cell is missing.
ghost use Rattle.std.specs.Prelude.{◌≡◌};
ghost use Rattle.questions.specs.Valued.{or_package, values_of, package_of, values_of_pin};

use crate::PinValues;
use crate::searches::component_with;
use decimal::Cell;
use records::{Component, Pin, Triple};

// A pin's own value stands for typ, min and max alike; a missing one means the package's three.
fn or_package(own: Cell, common: Triple) -> Triple
    ensures { result ≡ or_package own common }
{
    match own {
        Cell::Number(d) => Triple {
            typ: Cell::Number(d),
            min: Cell::Number(d),
            max: Cell::Number(d),
        },
        Cell::Missing => common,
    }
}

fn values_of(p: Pin, c: Component) -> PinValues
    ensures { result ≡ values_of p c }
{
    let r = p.resistance;
    let l = p.inductance;
    let k = p.capacitance;
    PinValues {
        resistance: or_package(r, c.resistance),
        inductance: or_package(l, c.inductance),
        capacitance: or_package(k, c.capacitance),
    }
}

fn package_of(components: &[u64], found: Option<usize>) -> Component
    ensures { result ≡ package_of components.now found }
{
    match found {
        Some(k) => table_records::tables::component_in(components, k),
        None => table_records::tables::component_in(components, components.len()),
    }
}

// The values of the pin at a place; all missing where no component has it.
pub fn values_of_pin(components: &[u64], pins: &[u64], k: usize) -> PinValues
    ensures { result ≡ values_of_pin components.now pins.now k }
{
    let p = table_records::tables::pin_in(pins, k);
    values_of(p, package_of(components, component_with(components, k)))
}
