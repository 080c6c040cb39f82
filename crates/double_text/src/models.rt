// The lines of a model's cells: its own, and those of rows, a ramp and a waveform.
ghost use Rattle.std.specs.Prelude.{[], ◌∷◌};
ghost use Rattle.decimal.specs.Answers.{cell_in};
ghost use Rattle.text_buffer.specs.Pages.{Writes};
ghost use Rattle.records.specs.Cells.{split_cells, level_cells, model_cells, slope_cells, slopes_cells, ramp_cells, fixture_cells, device_cells, waveform_cells};
ghost use Rattle.double_text.specs.Lines.{cell_line, cell_lines};

use crate::cells::{double_line, range_lines, triple_lines};
use decimal::{Cell, cell_in};
use records::{Model, RampCell, RampTable, RampTriple, Split, Waveform};
use text_buffer::Page;

fn split_lines(page: &mut Page, split: Split)
    ensures { Writes page.old page.new (cell_lines (split_cells split)) }
{
    range_lines(page, split.pullup);
    range_lines(page, split.pulldown);
    range_lines(page, split.power);
    range_lines(page, split.ground);
}

fn level_lines(page: &mut Page, m: Model)
    ensures { Writes page.old page.new (cell_lines (level_cells m)) }
{
    double_line(page, m.vinl);
    double_line(page, m.vinh);
    double_line(page, m.vmeas);
    double_line(page, m.cref);
    double_line(page, m.rref);
    double_line(page, m.vref);
}

// A model's lines before those of its tables.
pub fn model_lines(page: &mut Page, m: Model)
    ensures { Writes page.old page.new (cell_lines (model_cells m)) }
{
    triple_lines(page, m.comp);
    split_lines(page, m.split);
    level_lines(page, m);
    triple_lines(page, m.voltage);
    range_lines(page, m.temperature);
}

// The cell that a word of the row store holds.
fn word_line(page: &mut Page, word: u64)
    ensures { Writes page.old page.new (cell_line (cell_in word)) }
{
    double_line(page, cell_in(word));
}

// A row of the row store: its number and its three cells, a word each.
pub fn row_lines(page: &mut Page, number: u64, typ: u64, min: u64, max: u64)
    ensures { Writes page.old page.new (cell_lines (cell_in number ∷ cell_in typ ∷ cell_in min ∷ cell_in max ∷ [])) }
{
    word_line(page, number);
    word_line(page, typ);
    word_line(page, min);
    word_line(page, max);
}

fn slope_lines(page: &mut Page, slope: RampCell)
    ensures { Writes page.old page.new (cell_lines (slope_cells slope)) }
{
    match slope {
        RampCell::Ratio { dividend, divisor } => {
            double_line(page, Cell::Number(dividend));
            double_line(page, Cell::Number(divisor));
        }
        RampCell::Absent => double_line(page, Cell::Missing),
    }
}

fn slopes_lines(page: &mut Page, slopes: RampTriple)
    ensures { Writes page.old page.new (cell_lines (slopes_cells slopes)) }
{
    slope_lines(page, slopes.typ);
    slope_lines(page, slopes.min);
    slope_lines(page, slopes.max);
}

pub fn ramp_lines(page: &mut Page, ramp: RampTable)
    ensures { Writes page.old page.new (cell_lines (ramp_cells ramp)) }
{
    if ramp.given {
        slopes_lines(page, ramp.rise);
        slopes_lines(page, ramp.fall);
        double_line(page, ramp.load);
    }
}

fn fixture_lines(page: &mut Page, w: Waveform)
    ensures { Writes page.old page.new (cell_lines (fixture_cells w)) }
{
    double_line(page, w.rfixture);
    double_line(page, w.vfixture);
    double_line(page, w.vmin);
    double_line(page, w.vmax);
    double_line(page, w.cfixture);
    double_line(page, w.lfixture);
}

fn device_lines(page: &mut Page, w: Waveform)
    ensures { Writes page.old page.new (cell_lines (device_cells w)) }
{
    double_line(page, w.rdut);
    double_line(page, w.ldut);
    double_line(page, w.cdut);
}

// The rows' lines follow.
pub fn waveform_lines(page: &mut Page, w: Waveform)
    ensures { Writes page.old page.new (cell_lines (waveform_cells w)) }
{
    fixture_lines(page, w);
    device_lines(page, w);
}
