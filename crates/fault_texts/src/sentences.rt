// The sentence for each fault, after document 01's list of faults and those of document 02.
ghost use Rattle.text_buffer.specs.Pages.{Writes};
ghost use Rattle.fault_texts.specs.Sentences.{sentence_of};

use crate::texts::put_text;
use text_buffer::Page;

// What fault `number` means.
pub fn put_sentence(page: &mut Page, number: u8)
    ensures { Writes page.old page.new (sentence_of number) }
{
    let sentences = b"\
        No fault has this number.\n\
        The file has more than 65,536 bytes.\n\
        The line has a forbidden byte.\n\
        The line is longer than 120 characters.\n\
        The last line is not ended.\n\
        The keyword is badly formed.\n\
        The standard has this keyword, but it is not carried here.\n\
        The line is out of place.\n\
        The line gives for the second time what may be given once.\n\
        A required part is missing.\n\
        A word, a name or the count of words is wrong.\n\
        A word is not a number, and must be one.\n\
        A number is out of range.\n\
        A row is out of order, or a divisor is not above zero; or a table's row count or end typ is wrong.\n\
        The name is already used.\n\
        The model name is not found.\n\
        The model or selector is not listed.\n\
        A bound is passed.\n\
        No fault has this number.\n\
        There is no [End].\n\
        Vinl is not below Vinh.\n\
        No keyword has this name.\n\
        No fault has this number.\n\
        No fault has this number.\n\
        No fault has this number.\n\
        Fewer than 8,192 rows are lent.\n\
        ";
    put_text(page, sentences, number);
}
