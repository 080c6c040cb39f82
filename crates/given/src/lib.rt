// What was given so far, of up to 64 things: lines of a list, or keywords of a section.
#![tactic(auto)]

ghost use Rattle.std.specs.Prelude.{◌≡◌};
ghost use Rattle.given.specs.Given.{none_given, has, with};

// Which of up to 64 things were given, by their places in document 01's list of them: bit k is set if the thing at place k was.
#[derive(Clone, Copy)]
pub struct Given {
    pub bits: u64,
}

impl Given {
    pub fn none() -> Given
        ensures { result ≡ none_given }
    {
        Given { bits: 0 }
    }

    // The thing at place k was given.
    pub fn is_given(self, k: usize) -> bool
        ensures { result ≡ has self k }
    {
        k < 64 && (self.bits >> k) % 2 == 1
    }

    // The thing at place k is given too.
    pub fn also(self, k: usize) -> Given
        ensures { result ≡ with self k }
    {
        if k >= 64 {
            return self;
        }
        Given {
            bits: self.bits | (1 << k),
        }
    }
}
