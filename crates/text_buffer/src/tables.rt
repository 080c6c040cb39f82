// Texts that stand one after another in one table of bytes, each ended by a separator.
ghost use Rattle.std.specs.Prelude.{[], get_or};
ghost use Rattle.text_buffer.specs.Parts.{parts, PartAt};
ghost use Rattle.text_buffer.specs.Pages.{Writes};

use crate::page::Page;
use words::Word;

// The text at a place of a table, from 0.
pub fn part_at(table: &[u8], separator: u8, place: usize) -> Word
    ensures { PartAt table.now separator place result }
{
    let mut start = 0;
    let mut left = place;
    while start < table.len() {
        let end = words::find(table, start, separator);
        if left == 0 {
            return Word {
                start: start,
                end: end,
            };
        }
        left -= 1;
        start = end + 1;
    }
    let end = table.len();
    Word {
        start: end,
        end: end,
    }
}

impl Page<'_> {
    // The same onto the page; of a place past the last text nothing.
    pub fn put_part(&mut self, table: &[u8], separator: u8, place: usize)
        ensures { Writes self.old self.new (get_or (parts separator table.now) place []) }
    {
        let found = part_at(table, separator, place);
        self.put_bytes(&table[found.start..found.end]);
    }
}
