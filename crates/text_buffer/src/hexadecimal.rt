// Numbers in hexadecimal digits, in small letters.
ghost use Rattle.std.specs.Prelude.{◌≡◌, ◌/◌, ◌%◌, ◌^◌};
ghost use Rattle.text_buffer.specs.Pages.{Writes};
ghost use Rattle.text_buffer.specs.Numerals.{hex_digit, hexadecimal};

use crate::page::Page;

const DIGITS: [u8; 16] = *b"0123456789abcdef";

// The digit of a number that has so many behind it.
fn digit_before(number: u64, behind: usize) -> u8
    ensures { result ≡ hex_digit (number / 16 ^ behind % 16) }
{
    if behind < 16 {
        return DIGITS[((number >> (behind * 4)) % 16) as usize];
    }
    b'0'
}

impl Page<'_> {
    // So many digits, the last ones, the highest first; zeros before those that a number has.
    pub fn put_hexadecimal(&mut self, number: u64, count: usize)
        ensures { Writes self.old self.new (hexadecimal count number) }
    {
        for behind in (0..count).rev() {
            self.put_byte(digit_before(number, behind));
        }
    }
}
