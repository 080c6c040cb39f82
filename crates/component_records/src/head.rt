// The header: the arguments of [File Name] and [File Rev], which stand before the first section.
ghost use Rattle.std.specs.Prelude.{◌≡◌, List, ℕ};
ghost use Rattle.keywords.specs.declared.Keyword.TheVariants.{InHeader};
ghost use Rattle.cut_lines.specs.Cursors.{rest, Placed};
ghost use Rattle.component_records.specs.Views.{no_header, head_step, header_laid};

use cut_lines::Cursor;
use keywords::{HeaderPart, Keyword};
use records::{Header, no_words, words_of};

fn no_header() -> Header
    ensures { result ≡ no_header }
{
    Header {
        name: no_words(),
        revision: no_words(),
    }
}

fn with_part(h: Header, p: HeaderPart, argument: &[u8]) -> Header
    ensures { (ls : List (List ℕ)) → result ≡ head_step h (InHeader p) argument.now ls }
{
    let mut header = h;
    match p {
        HeaderPart::FileName => {
            header.name = words_of(argument);
        }
        HeaderPart::FileRev => {
            header.revision = words_of(argument);
        }
        HeaderPart::FreeText(_) => {}
    }
    header
}

// A keyword of the header goes to its place; another changes nothing.
fn with_key(h: Header, k: Keyword, argument: &[u8]) -> Header
    ensures { (ls : List (List ℕ)) → result ≡ head_step h k argument.now ls }
{
    match k {
        Keyword::InHeader(p) => with_part(h, p, argument),
        _ => h,
    }
}

pub fn header_of(src: &[u8], c: Cursor) -> Header
    requires { Placed src.now c }
    ensures { result ≡ header_laid (rest src.now c) }
{
    let mut header = no_header();
    let mut d = c;
    while let Some(key) = lines_under::next_key(src, d) {
        if lines_under::ends(key.keyword) {
            return header;
        }
        header = with_key(header, key.keyword, &src[key.start..key.end]);
        d = key.next;
    }
    header
}
