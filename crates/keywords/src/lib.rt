// Keyword lines: their form, and the keyword by its name, in any letter case, a space equal to an underscore.
#![tactic(auto)]

ghost use Rattle.std.specs.Prelude.{◌≡◌, false, cond, drop};
ghost use Rattle.laws.specs.Lists.{eqs, one_of};
ghost use Rattle.name_table.specs.Names.{meaning};
ghost use Rattle.name_table.specs.Places.{meaning_at};
ghost use Rattle.hierarchy.specs.Hierarchy.{hierarchy};
ghost use Rattle.keywords.specs.Form.{spelled, is_joint, in_parts, is_closed};
ghost use Rattle.keywords.specs.Carried.{carried, key_of};
ghost use Rattle.keywords.specs.Answers.{key_fault, keyword_says, key_read};
ghost use Rattle.keywords.specs.declared.KeyFault.TheVariants.{Gap, Slip};

use name_table::NameList;
use records::Edge;
use words::Spelling;

#[derive(Clone, Copy)]
pub enum HeaderText {
    Date,
    Source,
    Notes,
    Disclaimer,
    Copyright,
}

#[derive(Clone, Copy)]
pub enum HeaderPart {
    FileName,
    FileRev,
    FreeText(HeaderText),
}

#[derive(Clone, Copy)]
pub enum Section {
    Component,
    Selector,
    Model,
}

#[derive(Clone, Copy)]
pub enum ComponentPart {
    Manufacturer,
    Package,
    Pin,
}

#[derive(Clone, Copy)]
pub enum CurrentTable {
    Pulldown,
    Pullup,
    GndClamp,
    PowerClamp,
}

#[derive(Clone, Copy)]
pub enum ModelPart {
    VoltageRange,
    TemperatureRange,
    Current(CurrentTable),
    Ramp,
    Waveform(Edge),
}

// The keywords that are carried, by where they stand. [Comment Char] is none of them: its line is known before it is cut.
#[derive(Clone, Copy)]
pub enum Keyword {
    IbisVer,
    InHeader(HeaderPart),
    Opens(Section),
    InComponent(ComponentPart),
    InModel(ModelPart),
    End,
}

// Why a keyword line opens nothing: a gap of ours, a keyword of the hierarchy that is not carried (6); a slip, one outside the hierarchy (21); badly
// formed (5).
#[derive(Clone, Copy)]
pub enum KeyFault {
    Gap,
    Slip,
    Malformed,
}

impl KeyFault {
    // Document 01's number.
    pub fn number(self) -> u8
        ensures { result ≡ key_fault self }
    {
        match self {
            KeyFault::Gap => 6,
            KeyFault::Slip => 21,
            KeyFault::Malformed => 5,
        }
    }
}

// A space or an underscore.
#[tactic(auto, unfolding(crate::specs::Form::is_joint))]
fn joint(b: u8) -> bool
    ensures { result ≡ is_joint b }
{
    b == b' ' || b == b'_'
}

// One or more parts, joined by one space or one underscore each.
fn in_parts(w: &[u8]) -> bool
    ensures { result ≡ in_parts false w.now }
{
    let mut part = false;
    for &b in w {
        if joint(b) {
            if !part {
                return false;
            }
            part = false;
        } else {
            if words::blank(b) {
                return false;
            }
            part = true;
        }
    }
    part
}

// A `]` stands at a place, and after it nothing or a blank.
pub fn closed_at(w: &[u8], at: usize) -> bool
    ensures { result ≡ is_closed (drop at w.now) }
{
    if w.len() <= at {
        return false;
    }
    let after = at + 1;
    if w.len() <= after {
        return true;
    }
    words::blank(w[after])
}

// The same name, once w is spelled in small letters with underscores.
pub fn same_spelled(w: &[u8], name: &[u8]) -> bool
    ensures { result ≡ eqs (spelled w.now) name.now }
{
    words::same_as(Spelling::AsKeyword, w, name)
}

// The keywords, in the order of their names.
static CARRIED: [Keyword; 24] = [
    Keyword::IbisVer,
    Keyword::InHeader(HeaderPart::FileName),
    Keyword::InHeader(HeaderPart::FileRev),
    Keyword::InHeader(HeaderPart::FreeText(HeaderText::Date)),
    Keyword::InHeader(HeaderPart::FreeText(HeaderText::Source)),
    Keyword::InHeader(HeaderPart::FreeText(HeaderText::Notes)),
    Keyword::InHeader(HeaderPart::FreeText(HeaderText::Disclaimer)),
    Keyword::InHeader(HeaderPart::FreeText(HeaderText::Copyright)),
    Keyword::Opens(Section::Component),
    Keyword::InComponent(ComponentPart::Manufacturer),
    Keyword::InComponent(ComponentPart::Package),
    Keyword::InComponent(ComponentPart::Pin),
    Keyword::Opens(Section::Selector),
    Keyword::Opens(Section::Model),
    Keyword::InModel(ModelPart::VoltageRange),
    Keyword::InModel(ModelPart::TemperatureRange),
    Keyword::InModel(ModelPart::Current(CurrentTable::Pulldown)),
    Keyword::InModel(ModelPart::Current(CurrentTable::Pullup)),
    Keyword::InModel(ModelPart::Current(CurrentTable::GndClamp)),
    Keyword::InModel(ModelPart::Current(CurrentTable::PowerClamp)),
    Keyword::InModel(ModelPart::Ramp),
    Keyword::InModel(ModelPart::Waveform(Edge::Rising)),
    Keyword::InModel(ModelPart::Waveform(Edge::Falling)),
    Keyword::End,
];

// The keyword at a place of their list.
fn keyword_at(k: usize) -> Option<Keyword>
    ensures { result ≡ meaning_at carried k }
{
    if k < CARRIED.len() {
        return Some(CARRIED[k]);
    }
    None
}

// A keyword by its name, of any length, compared byte by byte as it stands.
pub fn keyword_named(w: &[u8]) -> Option<Keyword>
    ensures { result ≡ meaning (spelled w.now) carried }
{
    match name_table::place_as(Spelling::AsKeyword, w, NameList::Keywords) {
        Some(k) => keyword_at(k),
        None => None,
    }
}

// How long the longest name of a carried keyword is.
const LONGEST: usize = 17;

// What a name is that is not carried. It is asked in two places of `key_of`, so that the compiler leaves the table out of that function's frame.
fn gap_or_slip(name: &[u8]) -> KeyFault
    ensures { result ≡ cond (one_of (spelled name.now) hierarchy) Gap Slip }
{
    match hierarchy::place(name) {
        Some(_) => KeyFault::Gap,
        None => KeyFault::Slip,
    }
}

// What a keyword line is: a keyword and where its argument begins. Its text begins with `[`.
pub fn key_of(w: &[u8]) -> Result<(Keyword, usize), KeyFault>
    ensures value { result ≡ key_read w.now }
    ensures result_value { keyword_says result ≡ key_of w.now }
{
    if w.len() == 0 {
        return Err(KeyFault::Malformed);
    }
    let stop = words::find(w, 1, b']');
    if !closed_at(w, stop) {
        return Err(KeyFault::Malformed);
    }
    let name = &w[1..stop];
    if !in_parts(name) {
        return Err(KeyFault::Malformed);
    }
    if LONGEST < name.len() {
        return Err(gap_or_slip(name));
    }
    match keyword_named(name) {
        Some(keyword) => Ok((keyword, words::skip_blanks(w, stop + 1))),
        None => Err(gap_or_slip(name)),
    }
}
