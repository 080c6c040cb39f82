// What a model's type asks of it, and the thresholds that it takes.
ghost use Rattle.std.specs.Prelude.{◌≡◌};
ghost use Rattle.decimal.specs.declared.Cell.TheVariants.{Number};
ghost use Rattle.rules.specs.Types.{is_input, is_driven, is_ecl, ecl_thresholds, input_thresholds, no_thresholds, defaults, filled, thresholds, is_below};

use crate::Thresholds;
use decimal::{Cell, Decimal};
use records::ModelType;

// The type begins Input or I/O.
pub fn is_input(t: ModelType) -> bool
    ensures { result ≡ is_input t }
{
    match t {
        ModelType::Input => true,
        ModelType::Output => false,
        ModelType::InputOutput => true,
        ModelType::ThreeState => false,
        ModelType::OpenDrain => false,
        ModelType::InputOutputOpenDrain => true,
        ModelType::OpenSink => false,
        ModelType::InputOutputOpenSink => true,
        ModelType::OpenSource => false,
        ModelType::InputOutputOpenSource => true,
        ModelType::InputEcl => true,
        ModelType::OutputEcl => false,
        ModelType::InputOutputEcl => true,
        ModelType::ThreeStateEcl => false,
        ModelType::Terminator => false,
    }
}

// The type wants a ramp.
pub fn is_driven(t: ModelType) -> bool
    ensures { result ≡ is_driven t }
{
    match t {
        ModelType::Input => false,
        ModelType::Output => true,
        ModelType::InputOutput => true,
        ModelType::ThreeState => true,
        ModelType::OpenDrain => true,
        ModelType::InputOutputOpenDrain => true,
        ModelType::OpenSink => true,
        ModelType::InputOutputOpenSink => true,
        ModelType::OpenSource => true,
        ModelType::InputOutputOpenSource => true,
        ModelType::InputEcl => false,
        ModelType::OutputEcl => true,
        ModelType::InputOutputEcl => true,
        ModelType::ThreeStateEcl => true,
        ModelType::Terminator => false,
    }
}

// It is Input_ECL or I/O_ECL.
fn is_ecl(t: ModelType) -> bool
    ensures { result ≡ is_ecl t }
{
    match t {
        ModelType::Input => false,
        ModelType::Output => false,
        ModelType::InputOutput => false,
        ModelType::ThreeState => false,
        ModelType::OpenDrain => false,
        ModelType::InputOutputOpenDrain => false,
        ModelType::OpenSink => false,
        ModelType::InputOutputOpenSink => false,
        ModelType::OpenSource => false,
        ModelType::InputOutputOpenSource => false,
        ModelType::InputEcl => true,
        ModelType::OutputEcl => false,
        ModelType::InputOutputEcl => true,
        ModelType::ThreeStateEcl => false,
        ModelType::Terminator => false,
    }
}

fn volts(negative: bool, digits: u64, power: u8) -> Cell
    ensures { result ≡ Number (record { negative = negative; digits = digits; power = power }) }
{
    Cell::Number(Decimal {
        negative: negative,
        digits: digits,
        power: power,
    })
}

// −1.475 and −1.165 volts.
fn ecl_thresholds() -> Thresholds
    ensures { result ≡ ecl_thresholds }
{
    Thresholds {
        vinl: volts(true, 1475, 37),
        vinh: volts(true, 1165, 37),
    }
}

// 0.8 and 2 volts.
fn input_thresholds() -> Thresholds
    ensures { result ≡ input_thresholds }
{
    Thresholds {
        vinl: volts(false, 8, 39),
        vinh: volts(false, 2, 40),
    }
}

fn no_thresholds() -> Thresholds
    ensures { result ≡ no_thresholds }
{
    Thresholds {
        vinl: Cell::Missing,
        vinh: Cell::Missing,
    }
}

// What a type takes where nothing is given.
fn defaults(t: ModelType) -> Thresholds
    ensures { result ≡ defaults t }
{
    if is_ecl(t) {
        return ecl_thresholds();
    }
    if is_input(t) {
        return input_thresholds();
    }
    no_thresholds()
}

fn filled(default: Cell, given: Cell) -> Cell
    ensures { result ≡ filled default given }
{
    match given {
        Cell::Number(d) => Cell::Number(d),
        Cell::Missing => default,
    }
}

// The thresholds of a model of this type, of which these were given.
pub fn thresholds(t: ModelType, vinl: Cell, vinh: Cell) -> Thresholds
    ensures { result ≡ thresholds t vinl vinh }
{
    let standard = defaults(t);
    let low = standard.vinl;
    let high = standard.vinh;
    Thresholds {
        vinl: filled(low, vinl),
        vinh: filled(high, vinh),
    }
}

// Both are numbers, the first below the second.
pub fn is_below(vinl: Cell, vinh: Cell) -> bool
    ensures { result ≡ is_below vinl vinh }
{
    let Cell::Number(low) = vinl else {
        return false;
    };
    let Cell::Number(high) = vinh else {
        return false;
    };
    decimal::less(low, high)
}
