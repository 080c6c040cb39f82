// A model type as document 01 spells it, into a lent buffer.
#![tactic(auto)]

ghost use Rattle.text_buffer.specs.Pages.{Writes};
ghost use Rattle.line_rules.specs.Tables.{type_name};

use records::{ModelType, type_number};
use text_buffer::Page;

pub fn put_type(page: &mut Page, kind: ModelType)
    ensures { Writes page.old page.new (type_name kind) }
{
    let names = b"Input Output I/O 3-state Open_drain I/O_open_drain Open_sink I/O_open_sink \
        Open_source I/O_open_source Input_ECL Output_ECL I/O_ECL 3-state_ECL Terminator";
    page.put_part(names, b' ', type_number(kind) as usize);
}
