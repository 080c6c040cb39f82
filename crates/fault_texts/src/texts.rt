// The text for a fault's number, out of a table of texts: a line each, by the number.
ghost use Rattle.text_buffer.specs.Pages.{Writes};
ghost use Rattle.fault_texts.specs.Texts.{texts_in, text_for};

use text_buffer::{Page, part_at};

pub(crate) fn put_text(page: &mut Page, texts: &[u8], number: u8)
    ensures { Writes page.old page.new (text_for (texts_in texts.now) number) }
{
    let place = number as usize;
    let found = part_at(texts, b'\n', place);
    if found.start < texts.len() {
        page.put_part(texts, b'\n', place);
    } else {
        page.put_part(texts, b'\n', 0);
    }
}
