// The steps of [Component] and [Model Selector].
#![tactic(auto)]

ghost use Rattle.std.specs.Prelude.{◌≡◌, true, false, ◌≤◌, length, drop};
ghost use Rattle.laws.specs.Said.{or_else};
ghost use Rattle.records.specs.Flaws.{told, bare, checked};
ghost use Rattle.keywords.specs.Answers.{ArgumentFrom};
ghost use Rattle.given.specs.Given.{none_given};
ghost use Rattle.line_rules.specs.Fields.{heading};
ghost use Rattle.rules.specs.Component.{pin_flaw, component_line, component_place, component_opens, component_part, component_shut, component_done};
ghost use Rattle.rules.specs.Selector.{selector_line, selector_shut};
ghost use Rattle.rules.specs.declared.ComponentList.TheVariants.{ComponentFirst, PackageLines, PinRows};
ghost use Rattle.line_cells.specs.Threes.{Within};
ghost use Rattle.component_steps.specs.Steps.{NamesLie, names_fault, all_three, shut_if};

use given::Given;
use keywords::ComponentPart;
use named_lines::Form;
use records::{LineFault, at_line};
use rules::{ComponentList, ComponentState, Event, SelectorState, Stage, Went};
use words::Word;

// Where the names of a pin row lie: the pin, its signal and its model.
#[derive(Clone, Copy)]
pub struct PinNames {
    pub pin: Word,
    pub signal: Word,
    pub model: Word,
}

// [Component] at line k.
pub fn new_component(k: u64) -> ComponentState
    ensures { result ≡ record { line = k; first = none_given; parts = none_given; list = ComponentFirst } }
{
    ComponentState {
        line: k,
        first: Given::none(),
        parts: Given::none(),
        list: ComponentList::ComponentFirst,
    }
}

// ---- a pin row

// What is wrong with a row's three names, which lie here: the leftmost counts.
fn names_fault(w: &[u8], pin: Word, signal: Word, model: Word) -> Result<(), LineFault>
    requires within { Within w.now pin }
    requires within_2 { Within w.now signal }
    requires within_3 { Within w.now model }
    ensures { result ≡ checked (names_fault w.now pin signal model) }
{
    if !named_lines::pin_name(&w[pin.start..pin.end]) {
        return Err(records::at_fault(10, pin.start));
    }
    if !named_lines::sized(&w[signal.start..signal.end], 40) {
        return Err(records::at_fault(10, signal.start));
    }
    if !named_lines::pin_model(&w[model.start..model.end]) {
        return Err(records::at_fault(10, model.start));
    }
    Ok(())
}

// Where a row's three names lie.
pub fn pin_names(w: &[u8]) -> PinNames
    ensures { NamesLie w.now result }
{
    let pin = words::word_at(w, 0);
    let signal = words::word_at(w, pin.end);
    let model = words::word_at(w, signal.end);
    PinNames { pin, signal, model }
}

// Three names, which lie here; cells behind them stand under the long heading alone.
pub fn row_fault(w: &[u8], names: PinNames, long: bool) -> Result<(), LineFault>
    requires { NamesLie w.now names }
    ensures { result ≡ checked (told w.now (pin_flaw long w.now)) }
{
    let PinNames { pin, signal, model } = names;
    names_fault(w, pin, signal, model)?;
    // A part is handed on, and w itself stays where it is quickest read.
    if long {
        line_cells::pin_cells(&w[0..], model.end)?;
        return Ok(());
    }
    let cell = words::word_at(w, model.end);
    if cell.start < w.len() {
        return Err(records::at_fault(10, cell.start));
    }
    Ok(())
}

// ---- a line that is no keyword line, by the list that is open

fn location_line(c: ComponentState, k: u64, w: &[u8]) -> Went
    ensures { result ≡ component_line c k w.now ComponentFirst }
{
    let Some(n) = named_lines::component_line(w) else {
        return rules::stopped_at(named_lines::name_fault(w), k);
    };
    let first = rules::once(c.first, n, k, line_faults::location_fault(w))?;
    let next = ComponentState { first, ..c };
    Ok((Stage::InComponent(next), Event::Quiet))
}

// A line of [Package], which stands at line o.
fn package_line(c: ComponentState, o: u64, g: Given, k: u64, w: &[u8]) -> Went
    ensures { result ≡ component_line c k w.now (PackageLines o g) }
{
    let Some(n) = named_lines::package_line(w) else {
        return rules::stopped_at(named_lines::name_fault(w), k);
    };
    let given = rules::once(g, n, k, line_faults::cells_fault(w))?;
    let list = ComponentList::PackageLines { line: o, given };
    let next = ComponentState { list, ..c };
    Ok((Stage::InComponent(next), Event::Quiet))
}

// A row of [Pin], which stands at line o.
fn rows_line(c: ComponentState, o: u64, long: bool, k: u64, w: &[u8]) -> Went
    ensures { result ≡ component_line c k w.now (PinRows o long true) }
{
    at_line(row_fault(w, pin_names(w), long), k)?;
    let list = ComponentList::PinRows {
        line: o,
        long,
        any: true,
    };
    let next = ComponentState { list, ..c };
    Ok((Stage::InComponent(next), Event::PinRow))
}

// A line of a component that is no keyword line.
pub fn component_line(c: ComponentState, k: u64, w: &[u8]) -> Went
    ensures { result ≡ component_line c k w.now c.list }
{
    match c.list {
        ComponentList::ComponentFirst => location_line(c, k, w),
        ComponentList::ComponentShut => rules::stopped(7, k),
        ComponentList::PackageLines { line, given } => package_line(c, line, given, k, w),
        ComponentList::PinRows { line, long, any } => rows_line(c, line, long, k, w),
    }
}

// ---- [Manufacturer], [Package], [Pin]

fn part_place(p: ComponentPart) -> usize
    ensures { result ≡ component_place p }
{
    match p {
        ComponentPart::Manufacturer => 0,
        ComponentPart::Package => 1,
        ComponentPart::Pin => 2,
    }
}

// The list that a keyword at line k opens, whose argument begins at a place.
fn part_opens(k: u64, w: &[u8], at: usize, p: ComponentPart) -> ComponentList
    requires { at ≤ length w.now }
    ensures { result ≡ component_opens k (drop at w.now) p }
{
    match p {
        ComponentPart::Manufacturer => ComponentList::ComponentShut,
        ComponentPart::Package => ComponentList::PackageLines {
            line: k,
            given: Given::none(),
        },
        ComponentPart::Pin => ComponentList::PinRows {
            line: k,
            long: is_long(w, at),
            any: false,
        },
    }
}

// The heading of the pins is the long one.
fn is_long(w: &[u8], at: usize) -> bool
    requires { at ≤ length w.now }
    ensures { result ≡ or_else false (heading (drop at w.now)) }
{
    line_cells::heading_of(w, at).unwrap_or(false)
}

// A keyword of a component at line k, whose argument begins at a place.
pub fn component_part(c: ComponentState, k: u64, w: &[u8], at: usize, p: ComponentPart) -> Went
    requires { ArgumentFrom w.now at }
    ensures { result ≡ component_part c k w.now p }
{
    let own = line_faults::component_fault(w, at, p);
    let parts = rules::once(c.parts, part_place(p), k, own)?;
    let list = part_opens(k, w, at, p);
    let next = ComponentState { parts, list, ..c };
    Ok((Stage::InComponent(next), Event::Quiet))
}

// ---- closing

// Of three things, all were given.
fn all_three(g: Given) -> bool
    ensures { result ≡ all_three g }
{
    g.is_given(0) && g.is_given(1) && g.is_given(2)
}

// The list that is open is whole, or 9 is told at line o.
fn shut(c: ComponentState, whole: bool, o: u64) -> Went
    ensures { result ≡ shut_if c whole o }
{
    if !whole {
        return rules::stopped(9, o);
    }
    let list = ComponentList::ComponentShut;
    let next = ComponentState { list, ..c };
    Ok((Stage::InComponent(next), Event::Quiet))
}

// What a keyword line closes of a component.
pub fn component_shut(c: ComponentState) -> Went
    ensures { result ≡ component_shut c c.list }
{
    match c.list {
        ComponentList::ComponentFirst | ComponentList::ComponentShut => shut(c, true, 0),
        ComponentList::PackageLines { line, given } => shut(c, all_three(given), line),
        ComponentList::PinRows { line, long, any } => shut(c, any, line),
    }
}

// What a component lacks.
pub fn component_done(c: ComponentState) -> Result<(), LineFault>
    ensures { result ≡ checked (bare (component_done c)) }
{
    if !all_three(c.parts) {
        return Err(records::bare_fault(9));
    }
    Ok(())
}

// ---- [Model Selector]

// [Model Selector] at line k.
pub fn new_selector(k: u64) -> SelectorState
    ensures { result ≡ record { line = k; any = false } }
{
    SelectorState {
        line: k,
        any: false,
    }
}

// A row of a selector.
pub fn selector_line(s: SelectorState, k: u64, w: &[u8]) -> Went
    ensures { result ≡ selector_line s k w.now }
{
    at_line(named_lines::word_fault(w, 0, Form::ModelName), k)?;
    let next = SelectorState { any: true, ..s };
    Ok((Stage::InSelector(next), Event::ChoiceRow))
}

// The rows of a selector end.
pub fn selector_shut(s: SelectorState) -> Went
    ensures { result ≡ selector_shut s }
{
    if !s.any {
        return rules::stopped(9, s.line);
    }
    Ok((Stage::InSelector(s), Event::Quiet))
}
