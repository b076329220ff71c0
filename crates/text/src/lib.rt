// Owns a short text that is put together piece by piece, for a line of output: bytes, words and decimal numbers.
#![tactic(auto)]

ghost use Rattle.std.specs.Prelude.{◌≡◌, ◌+◌, ◌≤◌, ◌<◌};
ghost use Rattle.text.specs.Spelling.{empty_of, byte_of, spelled_of, word_of, decimal_of};

// The text is the first `count` bytes. It has room for 64; what comes after them is dropped.
// An array with a count and not a String: there is no heap.
#[derive(Clone, Copy)]
pub struct Text {
    pub bytes: [u8; 64],
    pub count: usize,
}

// The text with the digits of n in a base after it, `most` of them at most, the highest first. The byte of the digit 0 is `zero`.
#[tactic(auto, using(crate::proofs::Laws::spelled_more), unfolding(crate::specs::Spelling::spelled_of))]
fn spelled(text: Text, n: u64, base: u64, zero: u64, most: usize) -> Text
    requires base_nonzero { 0 < base }
    requires base_bound { zero + base ≤ 256 }
    ensures { result ≡ spelled_of text n base zero most }
{
    if most == 0 {
        return text;
    }
    if n < base {
        return text.byte((zero + n) as u8);
    }
    let front = spelled(text, n / base, base, zero, most - 1);
    front.byte((zero + n % base) as u8)
}

impl Text {
    #[tactic(auto, unfolding(crate::specs::Spelling::empty_of))]
    pub fn empty() -> Text
        ensures { result ≡ empty_of }
    {
        let bytes = [0; 64];
        Text { bytes, count: 0 }
    }

    #[tactic(auto, unfolding(crate::specs::Spelling::byte_of))]
    pub fn byte(mut self, b: u8) -> Text
        ensures { result ≡ byte_of self b }
    {
        if self.count < 64 {
            self.bytes[self.count] = b;
            self.count += 1;
        }
        self
    }

    // A word is handed in as a number, eight bits for each letter, the first letter highest.
    #[tactic(auto, unfolding(crate::specs::Spelling::word_of))]
    pub fn word(self, letters: u64) -> Text
        ensures { result ≡ word_of self letters }
    {
        spelled(self, letters, 256, 0, 8)
    }

    #[tactic(auto, unfolding(crate::specs::Spelling::decimal_of))]
    pub fn decimal(self, n: u64) -> Text
        ensures { result ≡ decimal_of self n }
    {
        spelled(self, n, 10, 48, 20)
    }
}
