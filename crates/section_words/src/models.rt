// A whole model: its record as its first lines leave it, which is all that a listing takes; then its keywords one after another, each into that
// record and the rest of two tables.
ghost use Rattle.std.specs.Prelude.{◌≡◌, ◌^◌, ◌≤◌, ◌<◌, length};
ghost use Rattle.cut_lines.specs.Cursors.{rest, Placed};
ghost use Rattle.lines_under.specs.Under.{StopsAt};
ghost use Rattle.records.specs.Stored.{over};
ghost use Rattle.record_words.specs.Records.{model_words, model_size};
ghost use Rattle.section_words.specs.Models.{model_behind, waveforms_behind, rows_behind, BodyFills};
ghost use Rattle.section_words.specs.Listed.{listed_behind};

use crate::Used;
use crate::keys::fill_key;
use crate::puts::put_model;
use cut_lines::Cursor;
use lines_under::Key;
use model_record::bodies::bare_body;
use model_record::firsts::first_lines;
use model_record::record::model_over;
use record_words::{MODEL_WORDS, ROW_WORDS, WAVEFORM_WORDS};

// What the keywords from a cursor on say, written into the model's record, and what stands under them, up to the end of the section;
// row is the place of the first row.
fn fill_body(
    model: &mut [u64],
    waveforms: &mut [u64],
    rows: &mut [u64],
    src: &[u8],
    c: Cursor,
    row: usize,
) -> Used
    requires placed { Placed src.now c × (row < 2 ^ 63) × (model_size ≤ length model.old) }
    requires c_in_bounds { length (waveforms_behind row (rest src.now c)) ≤ length waveforms.old }
    requires c_in_bounds_2 { length (rows_behind (rest src.now c)) ≤ length rows.old }
    ensures { BodyFills (rest src.now c) row model.old model.new waveforms.old waveforms.new rows.old rows.new result }
{
    let mut d = c;
    let mut place = row;
    let mut waves: usize = 0;
    let mut words: usize = 0;
    loop {
        match lines_under::next_key(src, d) {
            Some(
                Key {
                    keyword,
                    start,
                    end,
                    next,
                },
            ) => {
                if lines_under::ends(keyword) {
                    return Used {
                        waveforms: waves,
                        rows: words,
                    };
                }
                let filled = fill_key(
                    model,
                    &mut waveforms[waves..],
                    &mut rows[words..],
                    src,
                    next,
                    place,
                    keyword,
                    &src[start..end],
                );
                d = filled.next;
                place += filled.used.rows / ROW_WORDS;
                waves += filled.used.waveforms;
                words += filled.used.rows;
            }
            None => {
                return Used {
                    waveforms: waves,
                    rows: words,
                };
            }
        }
    }
}

// Writes a model's record with what its first lines say, and answers where the next keyword line stands.
fn put_firsts(
    model: &mut [u64],
    src: &[u8],
    c: Cursor,
    name: &[u8],
    section: usize,
    start: usize,
) -> Cursor
    requires { Placed src.now c × (model_size ≤ length model.old) }
    ensures model_after { model.new ≡ over model.old (model_words (listed_behind section start name.now (rest src.now c))) }
    ensures stops_at { StopsAt src.now c result }
{
    let first = first_lines(src, c);
    let lines = first.lines;
    let next = first.next;
    let bare = model_over(section, start, records::name_of(name), lines, bare_body(0));
    put_model(model, 0, bare);
    next
}

// Writes the record, with what its first lines say and no more, of the model whose name was read and behind whose keyword line a cursor stands;
// start is the place where its waveforms would begin.
pub fn list_model(
    model: &mut [u64],
    src: &[u8],
    c: Cursor,
    name: &[u8],
    section: usize,
    start: usize,
)
    requires { Placed src.now c × (model_size ≤ length model.old) }
    ensures { model.new ≡ over model.old (model_words (listed_behind section start name.now (rest src.now c))) }
{
    put_firsts(model, src, c, name, section, start);
}

// Writes the model whose name was read and behind whose keyword line a cursor stands: its record, its waveforms' records and its rows;
// row and start are the places of its first row and waveform.
pub fn fill_model(
    model: &mut [u64],
    waveforms: &mut [u64],
    rows: &mut [u64],
    src: &[u8],
    c: Cursor,
    name: &[u8],
    section: usize,
    row: usize,
    start: usize,
) -> Used
    requires placed { Placed src.now c × (row < 2 ^ 63) }
    requires model_size_in_bounds { model_size ≤ length model.old }
    requires c_in_bounds { length (waveforms_behind row (rest src.now c)) ≤ length waveforms.old }
    requires c_in_bounds_2 { length (rows_behind (rest src.now c)) ≤ length rows.old }
    ensures model_after { model.new ≡ over model.old (model_words (model_behind section row start name.now (rest src.now c))) }
    ensures waveforms_after { waveforms.new ≡ over waveforms.old (waveforms_behind row (rest src.now c)) }
    ensures rows_after { rows.new ≡ over rows.old (rows_behind (rest src.now c)) }
    ensures value { result ≡ record { waveforms = length (waveforms_behind row (rest src.now c)); rows = length (rows_behind (rest src.now c)) } }
{
    let next = put_firsts(model, src, c, name, section, start);
    let used = fill_body(model, waveforms, rows, src, next, row);
    model[MODEL_WORDS - 1] = (used.waveforms / WAVEFORM_WORDS) as u64;
    used
}
