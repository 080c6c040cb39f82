// Numbers as people and programs read them: digits, decimals with a power or with a point, and cells.
ghost use Rattle.std.specs.Prelude.{◌≡◌};
ghost use Rattle.text_buffer.specs.Pages.{Writes};
ghost use Rattle.text_buffer.specs.Numerals.{digit_of, numeral_of, sign_text, power_text, decimal_text, cell_text, pointed, unit_text, plain_text, DigitsAre};

use crate::page::Page;
use decimal::{Cell, Decimal};

// A number's digits: those of bytes from first on.
#[derive(Clone, Copy)]
pub(crate) struct Digits {
    pub(crate) bytes: [u8; 20],
    pub(crate) first: usize,
}

// The last digit of a number.
fn digit_of(number: u64) -> u8
    ensures { result ≡ digit_of number }
{
    b'0' + (number % 10) as u8
}

// The digits are found from the last one on.
fn digits_of(number: u64) -> Digits
    ensures { DigitsAre number result }
{
    let mut bytes = [b'0'; 20];
    let mut rest = number;
    for first in (0..20).rev() {
        bytes[first] = digit_of(rest);
        rest /= 10;
        if rest == 0 {
            return Digits { bytes, first };
        }
    }
    Digits { bytes, first: 0 }
}

impl Page<'_> {
    pub fn put_number(&mut self, number: u64)
        ensures { Writes self.old self.new (numeral_of number) }
    {
        let digits = digits_of(number);
        self.put_bytes(&digits.bytes[digits.first..]);
    }

    // A minus below zero, else nothing.
    fn put_sign(&mut self, negative: bool)
        ensures { Writes self.old self.new (sign_text negative) }
    {
        if negative {
            self.put_byte(b'-');
        }
    }

    // A power that has 40 added.
    #[tactic(auto, using(crate::proofs::Laws::put_append), unfolding(crate::specs::Numerals::power_text))]
    fn put_power(&mut self, power: u8)
        ensures { Writes self.old self.new (power_text power) }
    {
        if power < 40 {
            self.put_byte(b'-');
        }
        self.put_number(power.abs_diff(40) as u64);
    }

    // The whole number, `e`, the power.
    #[tactic(auto, using(crate::proofs::Laws::put_append), unfolding(crate::specs::Numerals::decimal_text))]
    pub fn put_decimal(&mut self, d: Decimal)
        ensures { Writes self.old self.new (decimal_text d) }
    {
        self.put_sign(d.negative);
        self.put_number(d.digits);
        self.put_byte(b'e');
        self.put_power(d.power);
    }

    pub fn put_cell(&mut self, cell: Cell)
        ensures { Writes self.old self.new (cell_text cell) }
    {
        match cell {
            Cell::Number(d) => self.put_decimal(d),
            Cell::Missing => self.put_bytes(b"NA"),
        }
    }

    // A number whose last digits stand behind a point, as many as places says; with a digit before the point.
    #[tactic(auto, using(crate::proofs::Laws::put_append), unfolding(crate::specs::Numerals::pointed))]
    fn put_pointed(&mut self, number: u64, places: usize)
        ensures { Writes self.old self.new (pointed places (numeral_of number)) }
    {
        let digits = digits_of(number);
        let count = 20 - digits.first;
        if places < count {
            let point = 20 - places;
            self.put_bytes(&digits.bytes[digits.first..point]);
            self.put_byte(b'.');
            self.put_bytes(&digits.bytes[point..]);
            return;
        }
        self.put_bytes(b"0.");
        self.put_repeated(b'0', places - count);
        self.put_bytes(&digits.bytes[digits.first..]);
    }

    // A decimal written out in units of ten to a power that has 40 added: 5e-12 is 5 in unit 28.
    #[tactic(auto, using(crate::proofs::Laws::put_append), unfolding(crate::specs::Numerals::unit_text))]
    pub fn put_in_unit(&mut self, d: Decimal, unit: u8)
        ensures { Writes self.old self.new (unit_text unit d) }
    {
        if d.digits == 0 {
            self.put_byte(b'0');
            return;
        }
        self.put_sign(d.negative);
        if d.power < unit {
            self.put_pointed(d.digits, (unit - d.power) as usize);
            return;
        }
        self.put_number(d.digits);
        self.put_repeated(b'0', (d.power - unit) as usize);
    }

    // A decimal written out, without a power: 0.8 and not 8e-1.
    pub fn put_plain_decimal(&mut self, d: Decimal)
        ensures { Writes self.old self.new (plain_text d) }
    {
        self.put_in_unit(d, 40);
    }
}
