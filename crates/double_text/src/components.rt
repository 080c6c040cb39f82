// The lines of a component's cells, and of a pin's.
ghost use Rattle.text_buffer.specs.Pages.{Writes};
ghost use Rattle.records.specs.Cells.{component_cells, pin_cells};
ghost use Rattle.double_text.specs.Lines.{cell_lines};

use crate::cells::{double_line, triple_lines};
use records::{Component, Pin};
use text_buffer::Page;

// The pins' lines follow.
pub fn component_lines(page: &mut Page, c: Component)
    ensures { Writes page.old page.new (cell_lines (component_cells c)) }
{
    triple_lines(page, c.resistance);
    triple_lines(page, c.inductance);
    triple_lines(page, c.capacitance);
}

pub fn pin_lines(page: &mut Page, pin: Pin)
    ensures { Writes page.old page.new (cell_lines (pin_cells pin)) }
{
    double_line(page, pin.resistance);
    double_line(page, pin.inductance);
    double_line(page, pin.capacitance);
}
