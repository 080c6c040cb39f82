// What every program needs: where a file's bytes are kept, the tables and the parts of them that are in use, and bytes and refusals written to
// standard output.
#![tactic(auto)]

ghost use Rattle.std.specs.Prelude.{◌≡◌, length};
ghost use Rattle.text_buffer.specs.Pages.{sheet};
ghost use Rattle.program_output.specs.Kept.{file_buffer, next_place, after_flush};

use records::Fault;
use text_buffer::Page;

pub mod sections; // sections.rt: where a section's record lies
pub mod tables; // tables.rt: how long tables are, and the parts of them that are in use
pub mod walks; // walks.rt: text for one record after another

// The bytes of a file, and one more: a longer file is too long anyhow.
pub fn file_buffer() -> [u8; 65537]
    ensures { result ≡ file_buffer }
{
    [0; 65537]
}

// Writes the first n bytes.
pub fn put_out(out: &[u8], n: usize) {
    if n <= out.len() {
        io::write_all(1, &out[..n]);
    }
}

// Writes the first n bytes once they are more than half of the buffer; answers where the next text goes. For a buffer that is no page.
pub fn flushed(out: &[u8], n: usize) -> usize
    ensures { result ≡ next_place (length out.now) n }
{
    if n <= out.len() / 2 {
        return n;
    }
    put_out(out, n);
    0
}

// Writes out what a page holds.
pub fn put_page(page: &Page) {
    put_out(page.written(), page.len());
}

// Writes out what a page holds once that is more than half of it; the next text then goes to its front.
pub fn flush(page: &mut Page)
    ensures { sheet page.new ≡ after_flush (sheet page.old) }
{
    if page.is_half_full() {
        put_page(page);
        page.turn();
    }
}

pub fn print_refusal(f: Fault) {
    let mut out = io::buffer();
    let mut page = Page::new(&mut out);
    text_buffer::refused_line(&mut page, f);
    put_page(&page);
}
