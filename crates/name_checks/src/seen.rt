// The keys that were seen: a bit for each remainder of a key, set if some name had such a key.
ghost use Rattle.std.specs.Prelude.{◌≡◌, cond};
ghost use Rattle.name_checks.specs.Lookup.{is_seen, with_seen};

use given::Given;

// 8,192 bits: 512 different names seldom meet in one.
pub const SEEN_WORDS: usize = 128;

pub fn is_seen(seen: &[u64; SEEN_WORDS], key: usize) -> bool
    ensures { result ≡ is_seen seen.now key }
{
    let bits = seen[key / 64 % SEEN_WORDS];
    Given { bits: bits }.is_given(key % 64)
}

pub fn see(seen: &mut [u64; SEEN_WORDS], key: usize)
    ensures { seen.new ≡ with_seen seen.old key }
{
    let at = key / 64 % SEEN_WORDS;
    let bits = seen[at];
    let more = Given { bits: bits }.also(key % 64);
    seen[at] = more.bits;
}

// How many of the i earlier names one with this key is to meet: none where its key was not seen.
pub fn to_meet(seen: &[u64; SEEN_WORDS], key: usize, i: usize) -> usize
    ensures { result ≡ cond (is_seen seen.now key) i 0 }
{
    if is_seen(seen, key) {
        return i;
    }
    0
}
