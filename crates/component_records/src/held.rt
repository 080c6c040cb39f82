// A pin's model as it lies in its record.
ghost use Rattle.std.specs.Prelude.{◌≡◌};
ghost use Rattle.rules.specs.Component.{kept_model};
ghost use Rattle.records.specs.Stored.{name_laid};

use records::{Name, name_of};

// A pin's model: the words for none are kept in capitals.
pub(crate) fn model_kept(w: &[u8]) -> Name
    ensures { result ≡ name_laid (kept_model w.now) }
{
    if words::same_capitals(w, b"POWER") {
        return name_of(b"POWER");
    }
    if words::same_capitals(w, b"GND") {
        return name_of(b"GND");
    }
    if words::same_capitals(w, b"NC") {
        return name_of(b"NC");
    }
    name_of(w)
}
