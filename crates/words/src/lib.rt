// Blanks, words and names within a slice of bytes: scans that answer places, and comparisons.
#![tactic(auto)]

ghost use Rattle.std.specs.Prelude.{◌≡◌, ◌<◌, ℕ, true, false, map, ◌+◌, ◌≤◌, length, drop, slice_index};
ghost use Rattle.laws.specs.Bytes.{is_blank, capital, spelled_byte};
ghost use Rattle.laws.specs.Lists.{front, part, trim, other, eqs};
ghost use Rattle.words.specs.Places.{WordAt};
ghost use Rattle.words.specs.Words.{words, is_ink};
ghost use Rattle.std.specs.Iterator.{YieldsFirstBy, item_count};
ghost use Rattle.words.specs.Spelled.{byte_as};

// A word, from start up to end. Where no word is left, both are the end of the slice.
#[derive(Clone, Copy)]
pub struct Word {
    pub start: usize,
    pub end: usize,
}

impl Word {
    // Its bytes in the text in which it lies.
    pub fn of<'a>(self, s: &'a [u8]) -> &'a [u8]
        requires { (self.start ≤ self.end) × (self.end ≤ length s.now) }
        ensures { result.now ≡ part self.start self.end s.now }
    {
        &s[self.start..self.end]
    }
}

// How a text is spelled when it is compared with a name: as it stands; small letters as capitals; or as a keyword, capitals as small letters and
// spaces as underscores.
#[derive(Clone, Copy)]
pub enum Spelling {
    AsItStands,
    InCapitals,
    AsKeyword,
}

// Space and tab. With `b == b' ' || b == b'\t'` lines cut into words take 21.7 instructions a byte in place of 19.7.
#[tactic(auto, unfolding(laws::specs::Bytes::is_blank))]
pub fn blank(b: u8) -> bool
    ensures { result ≡ is_blank b }
{
    if b' ' < b {
        return false;
    }
    if b == b' ' {
        return true;
    }
    b == b'\t'
}

// A byte so spelled.
#[tactic(auto, unfolding(laws::specs::Bytes::capital, laws::specs::Bytes::is_small, laws::specs::Bytes::small, laws::specs::Bytes::is_capital, laws::specs::Bytes::spelled_byte))]
pub fn byte_as(how: Spelling, b: u8) -> u8
    ensures { result ≡ byte_as how b }
{
    match how {
        Spelling::AsItStands => b,
        Spelling::InCapitals => b.to_ascii_uppercase(),
        Spelling::AsKeyword if b == b' ' => b'_',
        Spelling::AsKeyword => b.to_ascii_lowercase(),
    }
}

// Where the bytes from at on that pass a test end.
pub fn skip<F: Fn(u8) -> bool>(s: &[u8], at: usize, passes: F) -> usize
    requires at_in_bounds { at ≤ length s.now }
    requires callable { F.IsAlwaysCallable passes }
    ensures lower_bound { (at ≤ result) × (result ≤ length s.now) }
    ensures passed { (k : ℕ) → at + k < result → F.post passes (slice_index s.now (at + k)) true }
    ensures stopped { result < length s.now → F.post passes (slice_index s.now result) false }
{
    match s[at..].iter().position(|b| !passes(*b)) {
        Some(k) => at + k,
        None => s.len(),
    }
}

// Where the byte b first stands from at on, or the end.
pub fn find(s: &[u8], at: usize, b: u8) -> usize
    requires { at ≤ length s.now }
    ensures value { result ≡ at + length (front (other b) (drop at s.now)) }
    ensures lower_bound { (at ≤ result) × (result ≤ length s.now) }
{
    skip(s, at, |c| c != b)
}

// Where the blanks from at on end.
pub fn skip_blanks(s: &[u8], at: usize) -> usize
    requires { at ≤ length s.now }
    ensures value { result ≡ at + length (front is_blank (drop at s.now)) }
    ensures lower_bound { (at ≤ result) × (result ≤ length s.now) }
{
    // The words of each row are found by these two: by `skip` a row's words take a quarter more of the time.
    let mut i = at;
    while i < s.len() {
        if !blank(s[i]) {
            return i;
        }
        i += 1;
    }
    i
}

// Where the bytes other than blanks from at on end.
pub fn skip_ink(s: &[u8], at: usize) -> usize
    requires { at ≤ length s.now }
    ensures value { result ≡ at + length (front is_ink (drop at s.now)) }
    ensures lower_bound { (at ≤ result) × (result ≤ length s.now) }
{
    let mut i = at;
    while i < s.len() {
        if blank(s[i]) {
            return i;
        }
        i += 1;
    }
    i
}

// How much of s is left without the blanks at its end.
pub fn trimmed(s: &[u8]) -> usize
    ensures value { result ≡ length (trim is_blank s.now) }
    ensures upper_bound { result ≤ length s.now }
{
    match s.iter().rposition(|b| !blank(*b)) {
        Some(k) => k + 1,
        None => 0,
    }
}

// The first word from a place on.
pub fn word_at(s: &[u8], at: usize) -> Word
    requires { at ≤ length s.now }
    ensures { WordAt s.now at result }
{
    let start = skip_blanks(s, at);
    if s.len() <= start {
        return Word { start, end: start };
    }
    // The byte at start is no blank.
    let end = skip_ink(s, start + 1);
    Word { start, end }
}

// The words of a text, one after another.
#[derive(Clone, Copy)]
pub struct Words<'a> {
    pub left: &'a [u8],
}

impl<'a> Iterator for Words<'a> {
    type Item = &'a [u8];

    ghost next_gives = { YieldsFirstBy (λ x. x.now) (λ s. words s.left.now) };

    ghost remaining = { item_count (λ s. words s.left.now) };

    fn next(&mut self) -> Option<&'a [u8]> {
        let left = self.left;
        let word = word_at(left, 0);
        if left.len() <= word.start {
            return None;
        }
        self.left = &left[word.end..];
        Some(word.of(left))
    }
}

// The same bytes, once w is so spelled: byte by byte, as they stand in w.
pub fn same_as(how: Spelling, w: &[u8], name: &[u8]) -> bool
    ensures { result ≡ eqs (map (byte_as how) w.now) name.now }
{
    w.len() == name.len() && w.iter().zip(name).all(|(a, b)| byte_as(how, *a) == *b)
}

// The same bytes.
pub fn same(w: &[u8], other: &[u8]) -> bool
    ensures { result ≡ eqs w.now other.now }
{
    w == other
}

// The same bytes, once small letters of w are capitals.
pub fn same_capitals(w: &[u8], name: &[u8]) -> bool
    ensures { result ≡ eqs (map capital w.now) name.now }
{
    same_as(Spelling::InCapitals, w, name)
}
