// The step of a text in any stage: first what it closes, inner table before section, then the line itself.
#![tactic(auto)]

ghost use Rattle.std.specs.Prelude.{◌≡◌, ◌≤◌, length, drop};
ghost use Rattle.records.specs.Flaws.{told, checked};
ghost use Rattle.keywords.specs.Form.{argument};
ghost use Rattle.line_rules.specs.Fields.{no_argument};
ghost use Rattle.keywords.specs.Answers.{ArgumentFrom};
ghost use Rattle.keywords.specs.Carried.{key_of};
ghost use Rattle.rules.specs.Going.{and_then, quietly};
ghost use Rattle.rules.specs.Header.{header_part};
ghost use Rattle.rules.specs.Component.{component_part};
ghost use Rattle.rules.specs.Model.{model_part};
ghost use Rattle.rules.specs.Steps.{header_of, component_of, model_of, is_before, is_ended, shut, done, opened_flaw, section_stage, opened, within, on_version, on_keyword, keyed, on_line, on_plain, on_change};
ghost use Rattle.rules.specs.declared.Stage.{Stage};
ghost use Rattle.rules.specs.declared.Stage.TheVariants.{AfterEnd};
ghost use Rattle.rules.specs.declared.Event.TheVariants.{Ended};

use keywords::{ComponentPart, HeaderPart, Keyword, ModelPart, Section};
use named_lines::Form;
use records::{LineFault, at_line};
use rules::{Event, Stage, Went};

// The next stage, with nothing added to the file.
fn quiet(s: Stage) -> Went
    ensures { result ≡ quietly s }
{
    Ok((s, Event::Quiet))
}

// Before [IBIS Ver]; after [End].
fn is_before(s: Stage) -> bool
    ensures { result ≡ is_before s }
{
    matches!(s, Stage::BeforeVersion)
}

fn is_ended(s: Stage) -> bool
    ensures { result ≡ is_ended s }
{
    matches!(s, Stage::AfterEnd)
}

// Closes the table or list above the keyword line k.
fn shut_list(k: u64, s: Stage) -> Went
    ensures { result ≡ shut k s }
{
    match s {
        Stage::BeforeVersion => quiet(Stage::BeforeVersion),
        Stage::InHeader(h) => header_steps::header_shut(h),
        Stage::InComponent(c) => component_steps::component_shut(c),
        Stage::InSelector(c) => component_steps::selector_shut(c),
        Stage::InModel(m) => model_steps::model_shut(m),
        Stage::AfterEnd => rules::stopped(7, k),
    }
}

// Closes the section or the header above line k.
fn close_section(k: u64, s: Stage) -> Went
    ensures { result ≡ done k s }
{
    match s {
        Stage::BeforeVersion | Stage::AfterEnd => rules::stopped(7, k),
        Stage::InHeader(h) => {
            at_line(header_steps::header_done(h), h.line)?;
            quiet(s)
        }
        Stage::InComponent(c) => {
            at_line(component_steps::component_done(c), c.line)?;
            quiet(s)
        }
        Stage::InSelector(_) => quiet(s),
        Stage::InModel(m) => {
            at_line(model_steps::model_done(m), m.line)?;
            quiet(s)
        }
    }
}

// What is wrong with the argument of a section's keyword, which begins at a place.
fn section_fault(w: &[u8], at: usize, o: Section) -> Result<(), LineFault>
    requires { at ≤ length w.now }
    ensures { result ≡ checked (told w.now (opened_flaw (drop at w.now) o)) }
{
    match o {
        Section::Component => named_lines::sized_fault(w, at, 40),
        Section::Selector | Section::Model => named_lines::argument_fault(w, at, Form::ModelName),
    }
}

// The section that line k opens.
fn section_stage(k: u64, o: Section) -> Stage
    ensures { result ≡ section_stage k o }
{
    match o {
        Section::Component => Stage::InComponent(component_steps::new_component(k)),
        Section::Selector => Stage::InSelector(component_steps::new_selector(k)),
        Section::Model => Stage::InModel(model_steps::new_model(k)),
    }
}

// A section's keyword at line k.
fn open_section(k: u64, w: &[u8], at: usize, o: Section) -> Went
    requires { ArgumentFrom w.now at }
    ensures { result ≡ opened k w.now o }
{
    at_line(section_fault(w, at, o), k)?;
    Ok((section_stage(k, o), Event::Opened(o)))
}

// [IBIS Ver], the first or a second one.
fn version_key(s: Stage, k: u64, w: &[u8], at: usize) -> Went
    requires { ArgumentFrom w.now at }
    ensures { result ≡ on_version s k w.now }
{
    if is_before(s) {
        return header_steps::open_header(k, w, at);
    }
    let Stage::InHeader(_) = s else {
        return rules::stopped(7, k);
    };
    rules::stopped(8, k)
}

// A keyword of the header, of a component and of a model: each has its place in its own section alone.
fn header_key(s: Stage, k: u64, w: &[u8], at: usize, p: HeaderPart) -> Went
    requires { ArgumentFrom w.now at }
    ensures { result ≡ within k (header_of s) (λ h. header_part h k w.now p) }
{
    let Stage::InHeader(h) = s else {
        return rules::stopped(7, k);
    };
    header_steps::header_part(h, k, w, at, p)
}

fn component_key(s: Stage, k: u64, w: &[u8], at: usize, p: ComponentPart) -> Went
    requires { ArgumentFrom w.now at }
    ensures { result ≡ within k (component_of s) (λ c. component_part c k w.now p) }
{
    let Stage::InComponent(c) = s else {
        return rules::stopped(7, k);
    };
    component_steps::component_part(c, k, w, at, p)
}

fn model_key(s: Stage, k: u64, w: &[u8], at: usize, p: ModelPart) -> Went
    requires { ArgumentFrom w.now at }
    ensures { result ≡ within k (model_of s) (λ m. model_part m k w.now p) }
{
    let Stage::InModel(m) = s else {
        return rules::stopped(7, k);
    };
    model_steps::model_part(m, k, w, at, p)
}

// A section closes, and another opens.
fn section_key(s: Stage, k: u64, w: &[u8], at: usize, o: Section) -> Went
    requires { ArgumentFrom w.now at }
    ensures { result ≡ and_then (done k s) (λ (t : Stage). opened k w.now o) }
{
    close_section(k, s)?;
    open_section(k, w, at, o)
}

// The last section closes, and the file ends.
fn end_key(s: Stage, k: u64, w: &[u8], at: usize) -> Went
    requires { ArgumentFrom w.now at }
    ensures { result ≡ and_then (done k s) (λ (t : Stage). Ok (AfterEnd, Ended (told w.now (no_argument (argument w.now))))) }
{
    close_section(k, s)?;
    let fault = named_lines::surplus_fault(w, at).err();
    let told = fault.unwrap_or(records::bare_fault(0));
    Ok((Stage::AfterEnd, Event::Ended(told)))
}

fn on_keyword(s: Stage, k: u64, w: &[u8], at: usize, key: Keyword) -> Went
    requires { ArgumentFrom w.now at }
    ensures { result ≡ on_keyword s k w.now key }
{
    match key {
        Keyword::IbisVer => version_key(s, k, w, at),
        Keyword::InHeader(p) => header_key(s, k, w, at, p),
        Keyword::Opens(o) => section_key(s, k, w, at, o),
        Keyword::InComponent(p) => component_key(s, k, w, at, p),
        Keyword::InModel(p) => model_key(s, k, w, at, p),
        Keyword::End => end_key(s, k, w, at),
    }
}

// A keyword line, once what it closes is closed.
fn keyword_line(s: Stage, k: u64, w: &[u8]) -> Went
    ensures { result ≡ keyed s k w.now (key_of w.now) }
{
    match keywords::key_of(w) {
        Ok((keyword, argument)) => on_keyword(s, k, w, argument, keyword),
        Err(fault) => rules::stopped(fault.number(), k),
    }
}

// A line that is no keyword line.
fn on_line(s: Stage, k: u64, w: &[u8]) -> Went
    ensures { result ≡ on_line s k w.now }
{
    match s {
        Stage::BeforeVersion | Stage::AfterEnd => rules::stopped(7, k),
        Stage::InHeader(h) => header_steps::header_line(h, k),
        Stage::InComponent(c) => component_steps::component_line(c, k, w),
        Stage::InSelector(c) => component_steps::selector_line(c, k, w),
        Stage::InModel(m) => model_steps::model_line(m, k, w),
    }
}

// A line that cutting leaves.
pub fn on_plain(s: Stage, k: u64, w: &[u8]) -> Went
    ensures { result ≡ on_plain s k w.now }
{
    if !named_lines::bracketed(w) {
        return on_line(s, k, w);
    }
    let (t, _) = shut_list(k, s)?;
    keyword_line(t, k, w)
}

// A [Comment Char] line with its fault, number 0 for none, as `on_change` of the rules has it.
pub fn on_change(s: Stage, k: u64, fault: LineFault) -> Went
    ensures { result ≡ on_change s k fault }
{
    if is_ended(s) {
        return rules::stopped(7, k);
    }
    if fault.number == 5 {
        return rules::stopped(5, k);
    }
    if is_before(s) {
        return rules::stopped(7, k);
    }
    if fault.number != 0 {
        return rules::stopped_at(fault, k);
    }
    quiet(s)
}
