// A model's first lines: its type, polarity, enable, C_comp with its four parts and six numbers.
ghost use Rattle.std.specs.Prelude.{cond, ◌≡◌, eqb};
ghost use Rattle.laws.specs.Said.{or_else};
ghost use Rattle.cut_lines.specs.Cursors.{Placed};
ghost use Rattle.line_rules.specs.Fields.{word_line, cells_line};
ghost use Rattle.line_rules.specs.Tables.{polarities, enables};
ghost use Rattle.rules.specs.Reading.{no_split};
ghost use Rattle.model_record.specs.Firsts.{bare_marks, bare_levels, bare_lines, marks_at, group_at, split_at, levels_at, levels_of, FirstReadIs};

use crate::{FirstLines, FirstRead, Levels, Marks};
use cut_lines::Cursor;
use decimal::Cell;
use lines_under::LineNext;
use named_lines::fields::{number_after, type_after};
use records::{Enable, ModelType, Polarity, Range, Split, Triple};

// ---- one field after the line at place n

fn polarity_after(n: usize, w: &[u8], before: Option<Polarity>) -> Option<Polarity>
    ensures { result ≡ cond (eqb n 1) (or_else before (word_line polarities w.now)) before }
{
    if n != 1 {
        return before;
    }
    match named_lines::polarity_of(w) {
        None => before,
        Some(polarity) => Some(polarity),
    }
}

fn enable_after(n: usize, w: &[u8], before: Option<Enable>) -> Option<Enable>
    ensures { result ≡ cond (eqb n 2) (or_else before (word_line enables w.now)) before }
{
    if n != 2 {
        return before;
    }
    match named_lines::enable_of(w) {
        None => before,
        Some(enable) => Some(enable),
    }
}

// Three cells whose own line stands at `place`.
fn group_after(place: usize, n: usize, w: &[u8], before: Range) -> Range
    ensures { result ≡ group_at place n before w.now }
{
    if n != place {
        return before;
    }
    match line_faults::cells_line(w) {
        Ok(cells) => Range {
            given: true,
            cells: cells,
        },
        Err(_) => before,
    }
}

// C_comp after its line.
fn comp_after(w: &[u8], before: Triple) -> Triple
    ensures { result ≡ or_else before (cells_line w.now) }
{
    match line_faults::cells_line(w) {
        Ok(cells) => cells,
        Err(_) => before,
    }
}

fn split_after(n: usize, w: &[u8], before: Split) -> Split
    ensures { result ≡ split_at n before w.now }
{
    Split {
        pullup: group_after(4, n, w, before.pullup),
        pulldown: group_after(5, n, w, before.pulldown),
        power: group_after(6, n, w, before.power),
        ground: group_after(7, n, w, before.ground),
    }
}

fn marks_after(n: usize, w: &[u8], before: Marks) -> Marks
    ensures { result ≡ marks_at n before w.now }
{
    let kind = before.kind;
    let polarity = before.polarity;
    let enable = before.enable;
    Marks {
        kind: type_after(n, w, kind),
        polarity: polarity_after(n, w, polarity),
        enable: enable_after(n, w, enable),
    }
}

fn levels_after(n: usize, w: &[u8], before: Levels) -> Levels
    ensures { result ≡ levels_at n before w.now }
{
    let vinl = before.vinl;
    let vinh = before.vinh;
    let vmeas = before.vmeas;
    let cref = before.cref;
    let rref = before.rref;
    let vref = before.vref;
    Levels {
        vinl: number_after(8, n, w, vinl),
        vinh: number_after(9, n, w, vinh),
        vmeas: number_after(10, n, w, vmeas),
        cref: number_after(11, n, w, cref),
        rref: number_after(12, n, w, rref),
        vref: number_after(13, n, w, vref),
    }
}

// ---- before the first line

fn no_marks() -> Marks
    ensures { result ≡ bare_marks }
{
    Marks {
        kind: ModelType::Terminator,
        polarity: None,
        enable: None,
    }
}

fn no_split() -> Split
    ensures { result ≡ no_split }
{
    let absent = Range {
        given: false,
        cells: records::no_cells(),
    };
    Split {
        pullup: absent,
        pulldown: absent,
        power: absent,
        ground: absent,
    }
}

fn no_levels() -> Levels
    ensures { result ≡ bare_levels }
{
    Levels {
        vinl: Cell::Missing,
        vinh: Cell::Missing,
        vmeas: Cell::Missing,
        cref: Cell::Missing,
        rref: Cell::Missing,
        vref: Cell::Missing,
    }
}

// ---- the lines

// Before the first line.
pub fn bare_lines() -> FirstLines
    ensures { result ≡ bare_lines }
{
    FirstLines {
        marks: no_marks(),
        comp: records::no_cells(),
        split: no_split(),
        levels: no_levels(),
    }
}

// The first lines of the model behind whose keyword a cursor stands. They are held in four parts: a line is copied into its own only.
pub fn first_lines(src: &[u8], c: Cursor) -> FirstRead
    requires { Placed src.now c }
    ensures { FirstReadIs src.now c result }
{
    let mut marks = no_marks();
    let mut comp = records::no_cells();
    let mut split = no_split();
    let mut levels = no_levels();
    let mut d = c;
    loop {
        match lines_under::next_line(src, d) {
            LineNext::Line { start, end, next } => {
                d = next;
                if let Some(n) = named_lines::model_line(&src[start..end]) {
                    match n {
                        0 | 1 | 2 => marks = marks_after(n, &src[start..end], marks),
                        3 => comp = comp_after(&src[start..end], comp),
                        4 | 5 | 6 | 7 => split = split_after(n, &src[start..end], split),
                        _ => levels = levels_after(n, &src[start..end], levels),
                    }
                }
            }
            LineNext::NoLine { next } => {
                return FirstRead {
                    lines: FirstLines {
                        marks: marks,
                        comp: comp,
                        split: split,
                        levels: levels,
                    },
                    next: next,
                };
            }
        }
    }
}

// ---- thresholds

// The thresholds of its type, each where absent.
pub(crate) fn with_defaults(kind: ModelType, l: Levels) -> Levels
    ensures { result ≡ levels_of kind l }
{
    let vinl = l.vinl;
    let vinh = l.vinh;
    let vmeas = l.vmeas;
    let cref = l.cref;
    let rref = l.rref;
    let vref = l.vref;
    let t = rules::types::thresholds(kind, vinl, vinh);
    let low = t.vinl;
    let high = t.vinh;
    Levels {
        vinl: low,
        vinh: high,
        vmeas: vmeas,
        cref: cref,
        rref: rref,
        vref: vref,
    }
}
