// Tables that hold a pattern where nothing is read.
use program_output::tables::words_in;
use table_records::values::record_at;

// A word that no record holds at its start: as a number it is past every count, as a text no letter, as a cell no number that is read.
pub(crate) const PATTERN: u64 = 0xA5A5A5A5A5A5A5A5;

pub(crate) fn is_plain(words: &[u64]) -> bool {
    let n = words.len();
    for i in 0..n {
        if words[i] != PATTERN {
            return false;
        }
    }
    true
}

fn paint(words: &mut [u64]) {
    let n = words.len();
    for i in 0..n {
        words[i] = PATTERN;
    }
}

// The words of the records in use hold the pattern again; whether those of the next record still did.
pub(crate) fn renewed(table: &mut [u64], size: usize, count: usize) -> bool {
    let n = words_in(table.len(), size, count);
    paint(&mut table[0..n]);
    is_plain(record_at(table, size, count))
}
