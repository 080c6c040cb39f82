// A page: a lent buffer, and how much of it is written. What has no room is left out.
ghost use Rattle.std.specs.Prelude.{◌≡◌, ◌≤◌, [], ◌∷◌, length, min, take, replicate};

use records::{Name, Words};

#[derive(Drop)]
pub struct Page<'a> {
    bytes: &'a mut [u8],
    at: usize,
    ghost within: { at ≤ length bytes.now },
}

impl<'a> Page<'a> {
    ghost use Rattle.text_buffer.specs.Put.{turned, half_full};
    ghost use Rattle.text_buffer.specs.Pages.{sheet, Writes};

    // A page with nothing written.
    pub fn new(bytes: &'a mut [u8]) -> Page<'a>
        ensures same_reference { result.bytes.ghost_name ≡ bytes.entry.ghost_name }
        ensures same_bytes { result.bytes.now ≡ bytes.entry.now }
        ensures at_start { result.at ≡ 0 }
    {
        Page { bytes, at: 0 }
    }

    // A page whose text begins at a place: at the buffer's end, if the place is past it.
    pub fn at(bytes: &'a mut [u8], place: usize) -> Page<'a>
        ensures same_reference { result.bytes.ghost_name ≡ bytes.entry.ghost_name }
        ensures same_bytes { result.bytes.now ≡ bytes.entry.now }
        ensures at_place { result.at ≡ min place (length bytes.entry.now) }
    {
        let at = place.min(bytes.len());
        Page { bytes, at }
    }

    // What is written.
    pub fn written(&self) -> &[u8]
        ensures { result.now ≡ take self.now.at self.now.bytes.now }
    {
        &self.bytes[..self.at]
    }

    // How many bytes are written.
    pub fn len(&self) -> usize
        ensures { result ≡ self.now.at }
    {
        self.at
    }

    // Nothing is written; the bytes stay until others come in their place.
    pub fn turn(&mut self)
        ensures { sheet self.new ≡ turned (sheet self.old) }
    {
        self.at = 0;
    }

    pub fn is_half_full(&self) -> bool
        ensures { result ≡ half_full (sheet self.now) }
    {
        self.bytes.len() / 2 < self.at
    }

    #[tactic(auto, unfolding(crate::specs::Put::put_one))]
    pub fn put_byte(&mut self, byte: u8)
        ensures { Writes self.old self.new (byte ∷ []) }
    {
        if self.at < self.bytes.len() {
            self.bytes[self.at] = byte;
            self.at += 1;
        }
    }

    pub fn put_bytes(&mut self, text: &[u8])
        ensures { Writes self.old self.new text.now }
    {
        let count = text.len().min(self.bytes.len() - self.at);
        self.bytes[self.at..self.at + count].copy_from_slice(&text[..count]);
        self.at += count;
    }

    // A byte as often as count says.
    pub fn put_repeated(&mut self, byte: u8, count: usize)
        ensures { Writes self.old self.new (replicate count byte) }
    {
        let fitting = count.min(self.bytes.len() - self.at);
        self.bytes[self.at..self.at + fitting].fill(byte);
        self.at += fitting;
    }

    // The first bytes of a text, as many as count says; all if it has fewer.
    fn put_front(&mut self, text: &[u8], count: usize)
        ensures { Writes self.old self.new (take count text.now) }
    {
        self.put_bytes(&text[..count.min(text.len())]);
    }

    // A name or a text as the records hold it: the bytes that its length counts.
    pub fn put_name(&mut self, name: Name)
        ensures { Writes self.old self.new (take name.len name.bytes) }
    {
        self.put_front(&name.bytes, name.len as usize);
    }

    pub fn put_words(&mut self, words: Words)
        ensures { Writes self.old self.new (take words.len words.bytes) }
    {
        self.put_front(&words.bytes, words.len as usize);
    }
}
