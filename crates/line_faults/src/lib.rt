// What is wrong with what stands on a line: the faults of named lines and of keywords' arguments.
#![tactic(auto)]

ghost use Rattle.std.specs.Prelude.{◌≡◌, ◌≤◌, length, drop};
ghost use Rattle.records.specs.Flaws.{flaw_in, told, told_in, checked};
ghost use Rattle.line_rules.specs.Fields.{word_line, cells_line, slopes_line, number_line, three_cells, heading};
ghost use Rattle.line_rules.specs.Tables.{locations, model_types, polarities, enables};
ghost use Rattle.rules.specs.Component.{component_flaw};
ghost use Rattle.line_faults.specs.Places.{first_at, value_at, ramp_at};
ghost use Rattle.rules.specs.Model.{model_flaw};

use keywords::{ComponentPart, ModelPart};
use name_table::NameList;
use records::{LineFault, RampTriple, Triple};

// ---- three cells or slopes behind a name

pub fn cells_line(w: &[u8]) -> Result<Triple, LineFault>
    ensures { result ≡ told_in w.now (cells_line w.now) }
{
    let name = named_lines::name_of(w);
    let end = name.end;
    if named_lines::equals_at(w, end) {
        return Err(records::at_fault(10, end));
    }
    line_cells::three_cells(w, end)
}

pub fn slopes_line(w: &[u8]) -> Result<RampTriple, LineFault>
    ensures { result ≡ told_in w.now (slopes_line w.now) }
{
    let name = named_lines::name_of(w);
    let end = name.end;
    if named_lines::equals_at(w, end) {
        return Err(records::at_fault(10, end));
    }
    line_cells::three_slopes(w, end)
}

// ---- a word behind a name: one function of named_lines, by the table that each clause names, which no code has to hand in

pub fn location_fault(w: &[u8]) -> Result<(), LineFault>
    ensures { result ≡ checked (told w.now (flaw_in (word_line locations w.now))) }
{
    named_lines::word_line_fault(w, NameList::Locations)
}

fn type_fault(w: &[u8]) -> Result<(), LineFault>
    ensures { result ≡ checked (told w.now (flaw_in (word_line model_types w.now))) }
{
    named_lines::word_line_fault(w, NameList::ModelTypes)
}

fn polarity_fault(w: &[u8]) -> Result<(), LineFault>
    ensures { result ≡ checked (told w.now (flaw_in (word_line polarities w.now))) }
{
    named_lines::word_line_fault(w, NameList::Polarities)
}

fn enable_fault(w: &[u8]) -> Result<(), LineFault>
    ensures { result ≡ checked (told w.now (flaw_in (word_line enables w.now))) }
{
    named_lines::word_line_fault(w, NameList::Enables)
}

// ---- a model's lines

// `=` and a number behind the name.
pub fn number_fault(w: &[u8]) -> Result<(), LineFault>
    ensures { result ≡ checked (told w.now (flaw_in (number_line w.now))) }
{
    named_lines::number_line(w)?;
    Ok(())
}

// Three cells behind the name.
pub fn cells_fault(w: &[u8]) -> Result<(), LineFault>
    ensures { result ≡ checked (told w.now (flaw_in (cells_line w.now))) }
{
    cells_line(w)?;
    Ok(())
}

// C_comp and its four parts have three cells, the lines behind them `=` and a number.
fn value_fault(n: usize, w: &[u8]) -> Result<(), LineFault>
    ensures { result ≡ checked (told w.now (value_at n w.now)) }
{
    if n < 8 {
        return cells_fault(w);
    }
    number_fault(w)
}

// The line at place n of a model's first lines.
pub fn first_fault(n: usize, w: &[u8]) -> Result<(), LineFault>
    ensures { result ≡ checked (told w.now (first_at n w.now)) }
{
    match n {
        0 => type_fault(w),
        1 => polarity_fault(w),
        2 => enable_fault(w),
        _ => value_fault(n, w),
    }
}

// The line at place n of a ramp's.
pub fn ramp_line_fault(n: usize, w: &[u8]) -> Result<(), LineFault>
    ensures { result ≡ checked (told w.now (ramp_at n w.now)) }
{
    if n == 2 {
        return number_fault(w);
    }
    slopes_line(w)?;
    Ok(())
}

// ---- keywords' arguments, which begin at a place

fn cells_argument(w: &[u8], at: usize) -> Result<(), LineFault>
    requires { at ≤ length w.now }
    ensures { result ≡ checked (told w.now (flaw_in (three_cells (drop at w.now)))) }
{
    line_cells::three_cells(w, at)?;
    Ok(())
}

pub fn model_fault(w: &[u8], at: usize, p: ModelPart) -> Result<(), LineFault>
    requires { at ≤ length w.now }
    ensures { result ≡ checked (told w.now (model_flaw (drop at w.now) p)) }
{
    match p {
        ModelPart::VoltageRange => cells_argument(w, at),
        ModelPart::TemperatureRange => cells_argument(w, at),
        ModelPart::Current(_) => named_lines::surplus_fault(w, at),
        ModelPart::Ramp => named_lines::surplus_fault(w, at),
        ModelPart::Waveform(_) => named_lines::surplus_fault(w, at),
    }
}

// The heading of the pins.
fn heading_fault(w: &[u8], at: usize) -> Result<(), LineFault>
    requires { at ≤ length w.now }
    ensures { result ≡ checked (told w.now (flaw_in (heading (drop at w.now)))) }
{
    line_cells::heading_of(w, at)?;
    Ok(())
}

pub fn component_fault(w: &[u8], at: usize, p: ComponentPart) -> Result<(), LineFault>
    requires { at ≤ length w.now }
    ensures { result ≡ checked (told w.now (component_flaw (drop at w.now) p)) }
{
    match p {
        ComponentPart::Manufacturer => named_lines::sized_fault(w, at, 40),
        ComponentPart::Package => named_lines::surplus_fault(w, at),
        ComponentPart::Pin => heading_fault(w, at),
    }
}
