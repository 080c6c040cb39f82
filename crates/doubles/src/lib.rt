// A cell as a double: its number rounded once, or missing.
#![tactic(auto)]

ghost use Rattle.std.specs.Prelude.{◌≡◌, false, ◌*◌, ◌-◌, ◌^◌, ◌<◌, ◌≤◌};
ghost use Rattle.std.specs.Float.{binary64};
ghost use Rattle.std.specs.Float.Ieee.{round};
ghost use Rattle.std.specs.Float.Ieee.Exact.{HasValue};
ghost use Rattle.decimal.specs.Answers.{cell_in};
ghost use Rattle.decimal.specs.declared.Cell.TheVariants.{Number};
ghost use Rattle.doubles.specs.Double.{rounded, counted, double_of};

use decimal::{Cell, Decimal};

// A cell as a double, or missing: the two cases of a Cell.
#[derive(Clone, Copy)]
pub enum CellDouble {
    Double(f64),
    Missing,
}

// The powers of ten that are doubles exactly, from 10^0 on.
const TENS: [f64; 23] = [
    1e0, 1e1, 1e2, 1e3, 1e4, 1e5, 1e6, 1e7, 1e8, 1e9, 1e10, 1e11, 1e12, 1e13, 1e14, 1e15, 1e16,
    1e17, 1e18, 1e19, 1e20, 1e21, 1e22,
];

// The first number of sixteen digits.
const LIMIT: u64 = 1_000_000_000_000_000;

// Ten to the power k, exactly.
fn ten_to(k: u8) -> f64
    requires { k ≤ 22 }
    ensures { HasValue result false (10 ^ k) 1 }
{
    TENS[k as usize]
}

// The number without its sign, rounded once. Fifteen digits become a double without loss. A power has 40 added.
fn size_of(digits: u64, power: u8) -> f64
    requires { (digits < 10 ^ 15) × (18 ≤ power) × (power ≤ 62) }
    ensures { result ≡ round binary64 false (digits * 10 ^ (power - 40)) (10 ^ (40 - power)) }
{
    let whole = digits as f64;
    if power < 40 {
        return whole / ten_to(40 - power);
    }
    whole * ten_to(power - 40)
}

// With its sign, which zero has not. The last fifteen digits count: a number that is read has no more.
fn nearest_to(d: Decimal) -> f64
    requires { (18 ≤ d.power) × (d.power ≤ 62) }
    ensures { result ≡ rounded (counted d) }
{
    let digits = d.digits % LIMIT;
    let size = size_of(digits, d.power);
    if d.negative {
        if 0 < digits {
            return -size;
        }
    }
    size
}

fn double_of_number(d: Decimal) -> Result<CellDouble, u8>
    ensures { result ≡ double_of (Number d) }
{
    if d.power < 18 {
        return Err(24);
    }
    if 62 < d.power {
        return Err(24);
    }
    Ok(CellDouble::Double(nearest_to(d)))
}

// A cell as a double or as missing, or 24.
pub fn double_of(c: Cell) -> Result<CellDouble, u8>
    ensures { result ≡ double_of c }
{
    match c {
        Cell::Number(d) => double_of_number(d),
        Cell::Missing => Ok(CellDouble::Missing),
    }
}

// The same of the cell that a word of the row store holds.
pub fn double_in(w: u64) -> Result<CellDouble, u8>
    ensures { result ≡ double_of (cell_in w) }
{
    double_of(decimal::cell_in(w))
}
