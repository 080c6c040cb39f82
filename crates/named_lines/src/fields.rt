// A field of a list after the line at place n of its names: what the line says, or what was known before.
ghost use Rattle.std.specs.Prelude.{cond, ◌≡◌, eqb};
ghost use Rattle.laws.specs.Said.{or_else};
ghost use Rattle.line_rules.specs.Fields.{word_line, number_line};
ghost use Rattle.line_rules.specs.Tables.{model_types};

use decimal::Cell;
use records::ModelType;

// The type, whose line stands first.
pub fn type_after(n: usize, w: &[u8], before: ModelType) -> ModelType
    ensures { result ≡ cond (eqb n 0) (or_else before (word_line model_types w.now)) before }
{
    if n != 0 {
        return before;
    }
    match crate::lookups::type_of(w) {
        Ok(kind) => kind,
        Err(_) => before,
    }
}

// A number whose own line stands at `place`.
pub fn number_after(place: usize, n: usize, w: &[u8], before: Cell) -> Cell
    ensures { result ≡ cond (eqb n place) (or_else before (number_line w.now)) before }
{
    if n != place {
        return before;
    }
    match crate::lines::number_line(w) {
        Ok(number) => number,
        Err(_) => before,
    }
}
