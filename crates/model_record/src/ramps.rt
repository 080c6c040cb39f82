// The lines of [Ramp]: dV/dt_r, dV/dt_f and R_load.
ghost use Rattle.std.specs.Prelude.{◌≡◌};
ghost use Rattle.laws.specs.Said.{or_else};
ghost use Rattle.cut_lines.specs.Cursors.{Placed};
ghost use Rattle.line_rules.specs.Fields.{slopes_line};
ghost use Rattle.records.specs.Stored.{no_slopes};
ghost use Rattle.model_record.specs.Ramps.{RampReadIs};

use crate::RampLinesRead;
use cut_lines::Cursor;
use decimal::Cell;
use lines_under::LineNext;
use named_lines::fields::number_after;
use records::{RampCell, RampTable, RampTriple};

pub(crate) fn no_slopes() -> RampTriple
    ensures { result ≡ no_slopes }
{
    RampTriple {
        typ: RampCell::Absent,
        min: RampCell::Absent,
        max: RampCell::Absent,
    }
}

// Slopes after their line.
fn slopes_after(w: &[u8], before: RampTriple) -> RampTriple
    ensures { result ≡ or_else before (slopes_line w.now) }
{
    match line_faults::slopes_line(w) {
        Ok(slopes) => slopes,
        Err(_) => before,
    }
}

// The lines of the ramp behind whose keyword a cursor stands. A line is copied into its own part only.
pub fn ramp_lines(src: &[u8], c: Cursor) -> RampLinesRead
    requires { Placed src.now c }
    ensures { RampReadIs src.now c result }
{
    let mut rise = no_slopes();
    let mut fall = no_slopes();
    let mut load = Cell::Missing;
    let mut d = c;
    loop {
        match lines_under::next_line(src, d) {
            LineNext::Line { start, end, next } => {
                d = next;
                if let Some(n) = named_lines::ramp_line(&src[start..end]) {
                    match n {
                        0 => rise = slopes_after(&src[start..end], rise),
                        1 => fall = slopes_after(&src[start..end], fall),
                        _ => load = number_after(2, n, &src[start..end], load),
                    }
                }
            }
            LineNext::NoLine { next } => {
                return RampLinesRead {
                    ramp: RampTable {
                        given: true,
                        rise: rise,
                        fall: fall,
                        load: load,
                    },
                    next: next,
                };
            }
        }
    }
}
