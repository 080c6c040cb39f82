// Text for one record after another. The page is written out when it is more than half full, so that half a buffer is free for the next record: what a
// record needs beyond that is left out.
ghost use Rattle.std.specs.Prelude.{◌≡◌, ℕ, ◌+◌, ◌-◌, min};
ghost use Rattle.text_buffer.specs.Put.{Sheet};
ghost use Rattle.text_buffer.specs.Pages.{sheet};
ghost use Rattle.program_output.specs.Walks.{walked, Puts};

use crate::flush;
use crate::tables::end_in;
use records::Span;
use text_buffer::Page;

// For each place below n.
pub fn put_all<F: FnMut(&mut Page, usize)>(page: &mut Page, n: usize, mut put: F)
    requires { F.IsAlwaysCallable put }
    ensures { (text : ℕ → Sheet → Sheet) → Puts F.FnMut put text → sheet page.new ≡ walked text 0 n (sheet page.old) }
{
    for i in 0..n {
        put(page, i);
        flush(page);
    }
}

// For each place of a span in a table of n records.
pub fn put_span<F: FnMut(&mut Page, usize)>(page: &mut Page, span: Span, n: usize, mut put: F)
    requires { F.IsAlwaysCallable put }
    ensures { (text : ℕ → Sheet → Sheet) → Puts F.FnMut put text → sheet page.new ≡ walked text span.start (min (span.start + span.count) n - span.start) (sheet page.old) }
{
    for i in span.start..end_in(span, n) {
        put(page, i);
        flush(page);
    }
}
