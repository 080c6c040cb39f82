// What a person is told of a file that was read into tables of words, on standard output: a summary, or the fault and its line.
#![tactic(auto)]

use program_output::put_page;
use program_output::tables::Tables;
use records::{
    Answer, Fault, Lengths, MOST_CHOICES, MOST_COMPONENTS, MOST_MODELS, MOST_PINS, MOST_SELECTORS,
    MOST_WAVEFORMS,
};
use text_buffer::Page;

mod summary; // summary.rt: the summary of an accepted file

// Whether the word at fault is too many: the reader is asked of a copy, as if all that a file can have were lent.
fn is_surplus(src: &[u8], fault: Fault) -> bool {
    if fault.number != 10 {
        return false;
    }
    let most = Lengths {
        components: MOST_COMPONENTS,
        pins: MOST_PINS,
        selectors: MOST_SELECTORS,
        choices: MOST_CHOICES,
        models: MOST_MODELS,
        waveforms: MOST_WAVEFORMS,
    };
    let mut copy = program_output::file_buffer();
    let n = src.len().min(copy.len());
    copy[..n].copy_from_slice(&src[..n]);
    surplus_word::is_surplus(&mut copy[..n], most, fault)
}

fn print_refusal(page: &mut Page, name: &[u8], src: &[u8], fault: Fault) {
    refusal_text::put_refusal(page, name, src, fault, is_surplus(src, fault));
    put_page(page);
}

pub fn print_answer(name: &[u8], src: &[u8], answer: Answer, tables: Tables) {
    let mut out = io::large_buffer();
    let mut page = Page::new(&mut out);
    match answer.verdict {
        Ok(()) => summary::print_summary(&mut page, name, answer, tables),
        Err(f) => print_refusal(&mut page, name, src, f),
    }
}
