// The listing's lines: the verdict with its counts, and a pin with the levels of the model chosen for it.
ghost use Rattle.text_buffer.specs.Pages.{Writes};
ghost use Rattle.text_buffer.specs.Lines.{count_text, names_text, next_cell, accepted_text, refused_text, pin_text};

use crate::page::Page;
use decimal::Cell;
use records::{Counts, Fault, Name};

impl Page<'_> {
    // A space and a number.
    #[tactic(auto, using(crate::proofs::Laws::put_append), unfolding(crate::specs::Lines::count_text))]
    pub fn put_count(&mut self, count: usize)
        ensures { Writes self.old self.new (count_text count) }
    {
        self.put_byte(b' ');
        self.put_number(count as u64);
    }

    // A pin's name, its signal and its model, each with a space before it.
    #[tactic(auto, using(crate::proofs::Laws::put_append), unfolding(crate::specs::Lines::names_text))]
    pub fn put_names(&mut self, pin: Name, signal: Name, model: Name)
        ensures { Writes self.old self.new (names_text pin signal model) }
    {
        self.put_byte(b' ');
        self.put_name(pin);
        self.put_byte(b' ');
        self.put_name(signal);
        self.put_byte(b' ');
        self.put_name(model);
    }

    // A space and a cell.
    #[tactic(auto, using(crate::proofs::Laws::put_append), unfolding(crate::specs::Lines::next_cell))]
    pub fn put_next_cell(&mut self, cell: Cell)
        ensures { Writes self.old self.new (next_cell cell) }
    {
        self.put_byte(b' ');
        self.put_cell(cell);
    }
}

// `OK` with counts of components, pins, selectors, models and rows.
#[tactic(auto, using(crate::proofs::Laws::put_append), unfolding(crate::specs::Lines::accepted_text))]
pub fn accepted_line(page: &mut Page, counts: Counts)
    ensures { Writes page.old page.new (accepted_text counts) }
{
    page.put_bytes(b"OK");
    page.put_count(counts.components);
    page.put_count(counts.pins);
    page.put_count(counts.selectors);
    page.put_count(counts.models);
    page.put_count(counts.rows);
    page.put_byte(b'\n');
}

// `NO`, the fault's number, its line and its column.
#[tactic(auto, using(crate::proofs::Laws::put_append), unfolding(crate::specs::Lines::refused_text))]
pub fn refused_line(page: &mut Page, fault: Fault)
    ensures { Writes page.old page.new (refused_text fault) }
{
    page.put_bytes(b"NO");
    page.put_count(fault.number as usize);
    page.put_count(fault.line as usize);
    page.put_count(fault.column as usize);
    page.put_byte(b'\n');
}

// `P`, pin, signal, the model after selection, its Vinl and its Vinh.
#[tactic(auto, using(crate::proofs::Laws::put_append), unfolding(crate::specs::Lines::pin_text))]
pub fn listed_line(page: &mut Page, pin: Name, signal: Name, model: Name, vinl: Cell, vinh: Cell)
    ensures { Writes page.old page.new (pin_text pin signal model vinl vinh) }
{
    page.put_byte(b'P');
    page.put_names(pin, signal, model);
    page.put_next_cell(vinl);
    page.put_next_cell(vinh);
    page.put_byte(b'\n');
}
