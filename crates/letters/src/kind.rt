// The letter interface, and the printable one above it.
ghost use Rattle.std.specs.Prelude.{◌≡◌, ℕ, ◌<◌, ◌≤◌, Some, None, Option};
ghost use Rattle.models.specs.Alphabet.{Alphabet, Numbered, lettered};

// A kind of letters: a value of the type is one letter. Its numbers and bytes are the kind's own table, both ways; a `From`
// and a `TryFrom` beside them would say it twice.
pub trait Letter: Copy {
    // How many letters there are, 1 to 32.
    const LETTERS: u8;

    ghost LETTERS: { ℕ };

    ghost alphabet: { Alphabet Self };

    ghost numbered: { Numbered alphabet };

    ghost sized: { LETTERS ≡ alphabet.size };

    // The count of letters.
    fn count() -> u8
        ensures { result ≡ alphabet.size }
    {
        Self::LETTERS
    }

    // The letter's number, from 0 to one below the count.
    fn number(self) -> u8
        ensures { result ≡ alphabet.number self };

    // The letter with the number n.
    fn from_number(n: u8) -> Option<Self>
        ensures { result ≡ alphabet.letter n };
}

// A kind whose letters have a printed form, one byte for each.
pub trait Printable: Letter {
    // the byte of the letter with a number
    ghost printed: { ℕ → ℕ };

    // the number of the letter that a byte reads as
    ghost parsed: { ℕ → Option ℕ };

    // The letter's byte.
    fn byte(self) -> u8
        ensures { result ≡ printed (Self.Letter.alphabet.number self) };

    // The letter that a byte reads as.
    fn from_byte(b: u8) -> Option<Self>
        ensures { result ≡ lettered Self.Letter.alphabet (parsed b) };

    // a letter's byte reads back as that letter, and a byte that reads as a letter is that letter's byte
    ghost back: { (x : Self) → parsed (printed (Self.Letter.alphabet.number x)) ≡ Some (Self.Letter.alphabet.number x) };

    ghost only: { (b n : ℕ) → parsed b ≡ Some n → (printed n ≡ b) × (n < Self.Letter.alphabet.size) };

    // `?` and the newline read as none
    ghost gap: { parsed 63 ≡ None };

    ghost newline: { parsed 10 ≡ None };
}
