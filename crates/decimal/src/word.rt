// The parts of a word, from a place on: sign, digits, exponent, letters.
ghost use Rattle.std.specs.Prelude.{◌≡◌, ◌+◌, ◌*◌, ◌^◌, ◌≤◌, ◌<◌, min, length, drop};
ghost use Rattle.laws.specs.Bytes.{is_letter};
ghost use Rattle.laws.specs.Lists.{all};
ghost use Rattle.decimal.specs.Decimal.{after_e, scale_up, scale_down};
ghost use Rattle.decimal.specs.Parts.{cap, short, SignRead, DigitsRead, PlainRead, CappedRead, MantissaRead, ShortRead, ExponentRead};

// Digits so far: number times ten to the zeros. The number has no trailing zero, and is capped; at is the next byte.
#[derive(Clone, Copy)]
pub(crate) struct Figures {
    pub(crate) number: u64,
    pub(crate) zeros: u64,
    pub(crate) at: usize,
}

// Digits as the number that they say; at is the next byte.
#[derive(Clone, Copy)]
pub(crate) struct Plain {
    pub(crate) number: u64,
    pub(crate) at: usize,
}

// The digits of a word with their point: how many they are, and how many stand after the point.
#[derive(Clone, Copy)]
pub(crate) struct Mantissa {
    pub(crate) number: u64,
    pub(crate) zeros: u64,
    pub(crate) count: usize,
    pub(crate) places: u64,
    pub(crate) at: usize,
}

#[derive(Clone, Copy)]
pub(crate) struct Sign {
    pub(crate) minus: bool,
    pub(crate) at: usize,
}

#[derive(Clone, Copy)]
pub(crate) struct Exponent {
    pub(crate) minus: bool,
    pub(crate) size: u64,
    pub(crate) at: usize,
}

// Above every length of a slice, so an exponent may stop growing here.
const CAP: u64 = 10_000_000_000_000_000_000;

// number with a digit after it, or CAP if that is less.
fn push(number: u64, digit: u64) -> u64
    requires { (number ≤ cap) × (digit < 10) }
    ensures { result ≡ min (number * 10 + digit) cap }
{
    if number < CAP / 10 {
        number * 10 + digit
    } else {
        CAP
    }
}

// number times ten to the zeros, or CAP if that is less.
fn grow(number: u64, zeros: u64) -> u64
    requires { number ≤ cap }
    ensures { result ≡ min (number * 10 ^ zeros) cap }
{
    let mut grown = number;
    for _ in 0..zeros {
        grown = push(grown, 0);
    }
    grown
}

pub(crate) fn sign_at(w: &[u8], at: usize) -> Sign
    requires { at ≤ length w.now }
    ensures { SignRead w.now at result }
{
    if w.len() <= at {
        return Sign {
            minus: false,
            at: at,
        };
    }
    let byte = w[at];
    // Neither sign stands above a minus.
    if b'-' < byte {
        return Sign {
            minus: false,
            at: at,
        };
    }
    match byte {
        b'+' => Sign {
            minus: false,
            at: at + 1,
        },
        b'-' => Sign {
            minus: true,
            at: at + 1,
        },
        _ => Sign {
            minus: false,
            at: at,
        },
    }
}

// The digits from `at` on, after those that number and zeros stand for. A zero waits until another digit follows.
fn digits_at(w: &[u8], at: usize, number: u64, zeros: u64) -> Figures
    requires { (at ≤ length w.now) × (number ≤ cap) × (zeros ≤ at) }
    ensures { DigitsRead w.now at number zeros result }
{
    let mut read = number;
    let mut waiting = zeros;
    for i in at..w.len() {
        let byte = w[i];
        match byte {
            b'0' => {
                waiting += 1;
            }
            b'1'..=b'9' => {
                read = push(grow(read, waiting), (byte - b'0') as u64);
                waiting = 0;
            }
            _ => {
                return Figures {
                    number: read,
                    zeros: waiting,
                    at: i,
                };
            }
        }
    }
    Figures {
        number: read,
        zeros: waiting,
        at: w.len(),
    }
}

// The digits from `at` on, with at most one point.
pub(crate) fn mantissa_at(w: &[u8], at: usize) -> Mantissa
    requires { at ≤ length w.now }
    ensures { MantissaRead w.now (drop at w.now) result }
{
    let whole = digits_at(w, at, 0, 0);
    let point = whole.at;
    if point < w.len() {
        if w[point] == b'.' {
            let all = digits_at(w, point + 1, whole.number, whole.zeros);
            let places = all.at - point - 1;
            return Mantissa {
                number: all.number,
                zeros: all.zeros,
                count: point - at + places,
                places: places as u64,
                at: all.at,
            };
        }
    }
    Mantissa {
        number: whole.number,
        zeros: whole.zeros,
        count: point - at,
        places: 0,
        at: point,
    }
}

// The digits from `at` on, after those that number stands for, in a word so short that no number overflows.
fn plain_at(w: &[u8], at: usize, number: u64) -> Plain
    requires { (at ≤ length w.now) × (length w.now ≤ short) × (number < 10 ^ at) }
    ensures { PlainRead w.now at number result }
{
    let mut read = number;
    // With `for`, whether it returns or breaks, the compiler counts three times in the loop of every number.
    let mut i = at;
    while i < w.len() {
        // How far the byte lies behind 0, and far above 9 for what is no digit; as a byte it would be widened in each turn.
        let digit = (w[i] as u64).wrapping_sub(b'0' as u64);
        if 9 < digit {
            break;
        }
        read = read * 10 + digit;
        i += 1;
    }
    Plain {
        number: read,
        at: i,
    }
}

// The digits from `at` on, with at most one point, in a short word: the number still has its trailing zeros. It differs from mantissa_at in what it
// promises of the number, and a scan handed in would have to promise it for both.
pub(crate) fn short_mantissa_at(w: &[u8], at: usize) -> Mantissa
    requires { (at ≤ length w.now) × (length w.now ≤ short) }
    ensures { ShortRead w.now (drop at w.now) result }
{
    let whole = plain_at(w, at, 0);
    let point = whole.at;
    if point < w.len() {
        if w[point] == b'.' {
            let all = plain_at(w, point + 1, whole.number);
            let places = all.at - point - 1;
            return Mantissa {
                number: all.number,
                zeros: 0,
                count: point - at + places,
                places: places as u64,
                at: all.at,
            };
        }
    }
    Mantissa {
        number: whole.number,
        zeros: 0,
        count: point - at,
        places: 0,
        at: point,
    }
}

// The digits from `at` on as a number, or CAP if that is less.
fn capped_at(w: &[u8], at: usize) -> Plain
    requires { at ≤ length w.now }
    ensures { CappedRead w.now at result }
{
    let digits = digits_at(w, at, 0, 0);
    Plain {
        number: grow(digits.number, digits.zeros),
        at: digits.at,
    }
}

// What follows the e at `at`: a sign or none, and digits. An e without digits stays, as a letter.
fn after_e(w: &[u8], at: usize) -> Exponent
    requires { (at < length w.now) × (after_e (drop at w.now) ≡ drop (at + 1) w.now) }
    ensures { ExponentRead w.now (drop at w.now) result }
{
    let sign = sign_at(w, at + 1);
    let first = sign.at;
    let digits = capped_at(w, first);
    if digits.at == first {
        return Exponent {
            minus: sign.minus,
            size: 0,
            at: at,
        };
    }
    Exponent {
        minus: sign.minus,
        size: digits.number,
        at: digits.at,
    }
}

// The exponent from `at` on; of size 0 where there is none.
pub(crate) fn exponent_at(w: &[u8], at: usize) -> Exponent
    requires { at ≤ length w.now }
    ensures { ExponentRead w.now (drop at w.now) result }
{
    let none = Exponent {
        minus: false,
        size: 0,
        at: at,
    };
    if w.len() <= at {
        return none;
    }
    let byte = w[at];
    match byte {
        b'e' | b'E' => after_e(w, at),
        _ => none,
    }
}

pub fn letter(byte: u8) -> bool
    ensures { result ≡ is_letter byte }
{
    byte.is_ascii_alphabetic()
}

// Is every byte from `at` on a letter?
pub(crate) fn letters_from(w: &[u8], at: usize) -> bool
    requires { at ≤ length w.now }
    ensures { result ≡ all is_letter (drop at w.now) }
{
    w[at..].iter().all(|b| letter(*b))
}

// What the letter at `at` adds to the power.
pub(crate) fn scale_up(w: &[u8], at: usize) -> u64
    ensures { result ≡ scale_up (drop at w.now) }
{
    if w.len() <= at {
        return 0;
    }
    let byte = w[at];
    match byte {
        b'T' => 12,
        b'G' => 9,
        b'M' => 6,
        b'k' => 3,
        _ => 0,
    }
}

// What the letter at `at` takes from the power.
pub(crate) fn scale_down(w: &[u8], at: usize) -> u64
    ensures { result ≡ scale_down (drop at w.now) }
{
    if w.len() <= at {
        return 0;
    }
    let byte = w[at];
    match byte {
        b'm' => 3,
        b'u' => 6,
        b'n' => 9,
        b'p' => 12,
        b'f' => 15,
        _ => 0,
    }
}
