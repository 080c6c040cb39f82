// A file read into lent tables of words, and its dump or its refusal on standard output.
#![tactic(auto)]

ghost use Rattle.table_words.specs.Packed.{word_tables};
ghost use Rattle.table_reader.specs.ReadInWords.{ReadInWords};

use dump_text::components::{accepted_line, end_line, header_lines};
use program_output::tables::Tables;
use program_output::{print_refusal, put_page};
use records::Answer;
use sections::put_sections;
use text_buffer::Page;

mod parts; // parts.rt: a record's lines, with those of what is its own in other tables
mod sections; // sections.rt: the sections in file order

// The dump of an accepted file.
fn print_dump(page: &mut Page, answer: Answer, t: Tables) {
    accepted_line(page, answer.counts);
    header_lines(page, answer.header);
    put_sections(page, t.in_use(answer.counts));
    end_line(page);
    put_page(page);
}

// Reads a file into the lent tables, as `table_reader::read` does, and prints its dump or its refusal.
pub fn print_file(
    src: &[u8],
    components: &mut [u64],
    pins: &mut [u64],
    selectors: &mut [u64],
    choices: &mut [u64],
    models: &mut [u64],
    waveforms: &mut [u64],
    rows: &mut [u64],
) -> Answer
    ensures { ReadInWords src.now (word_tables components.old pins.old selectors.old choices.old models.old waveforms.old rows.old) result (word_tables components.new pins.new selectors.new choices.new models.new waveforms.new rows.new) }
{
    let answer = table_reader::read(
        src, components, pins, selectors, choices, models, waveforms, rows,
    );
    match answer.verdict {
        Ok(()) => {
            let mut out = io::large_buffer();
            let tables = Tables {
                components,
                pins,
                selectors,
                choices,
                models,
                waveforms,
                rows,
            };
            print_dump(&mut Page::new(&mut out), answer, tables);
        }
        Err(f) => print_refusal(f),
    }
    answer
}
