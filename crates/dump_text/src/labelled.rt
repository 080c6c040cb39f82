// Lines of a label and what stands behind it.
ghost use Rattle.text_buffer.specs.Pages.{Writes};
ghost use Rattle.dump_text.specs.Labelled.{triple_text, cell_line, triple_line, count_line, name_line, words_line, section_line, range_line};

use decimal::Cell;
use records::{Name, Range, Triple, Words};
use text_buffer::Page;

pub(crate) fn put_triple(page: &mut Page, t: Triple)
    ensures { Writes page.old page.new (triple_text t) }
{
    page.put_next_cell(t.typ);
    page.put_next_cell(t.min);
    page.put_next_cell(t.max);
}

pub fn cell_line(page: &mut Page, label: &[u8], cell: Cell)
    ensures { Writes page.old page.new (cell_line label.now cell) }
{
    page.put_bytes(label);
    page.put_next_cell(cell);
    page.put_byte(b'\n');
}

pub fn triple_line(page: &mut Page, label: &[u8], t: Triple)
    ensures { Writes page.old page.new (triple_line label.now t) }
{
    page.put_bytes(label);
    put_triple(page, t);
    page.put_byte(b'\n');
}

pub fn count_line(page: &mut Page, label: &[u8], count: usize)
    ensures { Writes page.old page.new (count_line label.now count) }
{
    page.put_bytes(label);
    page.put_count(count);
    page.put_byte(b'\n');
}

pub(crate) fn name_line(page: &mut Page, label: &[u8], name: Name)
    ensures { Writes page.old page.new (name_line label.now name) }
{
    page.put_bytes(label);
    page.put_byte(b' ');
    page.put_name(name);
    page.put_byte(b'\n');
}

pub(crate) fn words_line(page: &mut Page, label: &[u8], words: Words)
    ensures { Writes page.old page.new (words_line label.now words) }
{
    page.put_bytes(label);
    page.put_byte(b' ');
    page.put_words(words);
    page.put_byte(b'\n');
}

// A section's first line: its kind, its index among those of the kind, its name.
pub fn section_line(page: &mut Page, label: &[u8], index: usize, name: Name)
    ensures { Writes page.old page.new (section_line label.now index name) }
{
    page.put_bytes(label);
    page.put_count(index);
    name_line(page, b"", name);
}

// Three cells, or `-` where they are absent.
pub fn range_line(page: &mut Page, label: &[u8], range: Range)
    ensures { Writes page.old page.new (range_line label.now range) }
{
    if range.given {
        triple_line(page, label, range.cells);
    } else {
        page.put_bytes(label);
        page.put_bytes(b" -\n");
    }
}
