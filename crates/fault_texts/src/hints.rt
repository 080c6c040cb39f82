// A hint for each fault: what to look at.
ghost use Rattle.text_buffer.specs.Pages.{Writes};
ghost use Rattle.fault_texts.specs.Hints.{hint_of};

use crate::texts::put_text;
use text_buffer::Page;

// What to look at for fault `number`.
pub fn put_hint(page: &mut Page, number: u8)
    ensures { Writes page.old page.new (hint_of number) }
{
    let hints = b"\
        Look at the line and at the keyword above it.\n\
        Leave out comments, or split the file.\n\
        Allowed are tab, the characters from space to ~, and a CR before the line's end only; look for accents and for UTF-16.\n\
        A tab counts as one, and a comment counts too: break the line.\n\
        Put a line end behind the last line.\n\
        Parts of a keyword are joined by one space or underscore; behind ] comes a blank or nothing.\n\
        What the keyword gives is not read: comment it out, with the lines that belong to it.\n\
        Look at the keyword above: the line has no place in what is open there, or stands before [IBIS Ver] or after [End].\n\
        Look further up in the same section, and leave one of the two.\n\
        The line is the keyword of the section or table that lacks something: compare it with a whole one.\n\
        Count the words, and look at the spelling, the length and the letter case of each.\n\
        A number is perhaps a sign, digits with at most one point, perhaps a power, then letters only.\n\
        At most 15 digits, and a power of ten from -40 to 24. M is mega, m is milli.\n\
        The first column rises from row to row; 2 to 100 rows, of a waveform 2 to 1,000; the first and last typ are numbers.\n\
        Look for the name further up: names of components, of pins in one component, of models and selectors, of rows in one selector.\n\
        No model or selector is called so. Letter case counts. A selector's row names a model.\n\
        A model is named by a pin or a selector, a selector by a pin: name it there, or take the section out.\n\
        At most 8 components, 512 pins, 32 selectors, 256 selector rows, 64 models, 16 waveforms a model, 1,024 in all.\n\
        Look at the line and at the keyword above it.\n\
        The file is cut off, or its last keyword is missing.\n\
        Look at Vinl and Vinh of this model. Where one is absent, Vinl is 0.8 and Vinh 2.0; in Input_ECL and I/O_ECL, Vinl is -1.475 and Vinh -1.165.\n\
        Look at the spelling: the standard has no such keyword.\n\
        Look at the line and at the keyword above it.\n\
        Look at the line and at the keyword above it.\n\
        Look at the line and at the keyword above it.\n\
        Lend 32,768 words of rows: no file has more rows than that.\n\
        ";
    put_text(page, hints, number);
}
