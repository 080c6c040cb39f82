// A model's state: new, and with its list changed.
ghost use Rattle.std.specs.Prelude.{◌≡◌};
ghost use Rattle.rules.specs.Going.{quietly};
ghost use Rattle.rules.specs.Model.{new_model, with_model_list};
ghost use Rattle.rules.specs.declared.Stage.TheVariants.{InModel};

use decimal::Cell;
use given::Given;
use records::ModelType;
use rules::{Event, ModelList, ModelState, Stage, Went};

// [Model] at line k.
pub fn new_model(k: u64) -> ModelState
    ensures { result ≡ new_model k }
{
    let none = Given::none();
    ModelState {
        line: k,
        first: none,
        kind: ModelType::Terminator,
        vinl: Cell::Missing,
        vinh: Cell::Missing,
        parts: none,
        waveforms: 0,
        list: ModelList::ModelFirst,
    }
}

// The state with another list or table open.
pub fn with_list(m: ModelState, list: ModelList) -> ModelState
    ensures { result ≡ with_model_list m list }
{
    ModelState { list, ..m }
}

// On with the model, and nothing to tell.
pub(crate) fn quiet(m: ModelState) -> Went
    ensures { result ≡ quietly (InModel m) }
{
    Ok((Stage::InModel(m), Event::Quiet))
}
