// The numbers that words write: decimal digits with no leading zero, at most nine, and for a signed number a minus
// before them, but not before 0.

ghost use Rattle.decimal.specs.Reading.{SomeExactly};
ghost use Rattle.std.specs.Fmt.{signed_decimal};
ghost use Rattle.std.specs.Prelude.{ℕ, List, decimal, unsigned_abs};
ghost use Rattle.words.specs.Laws.{natural_legible, signed_legible};
ghost use Rattle.words.specs.Numbers.{Legible, Writes, WritesNatural, WritesSigned};

const MOST_DIGITS: usize = 9;

// A number that a word may write.
pub trait Numeral: Sized {
    // how a number is written, and its size without a sign
    ghost form: { Self → List ℕ };

    ghost size: { Self → ℕ };

    // The number of at most nine digits whose form the word is; `None` for any other word.
    fn of_word(word: &[u8]) -> Option<Self>
        ensures { SomeExactly result (Writes form size word.now) };

    // no form has a space in it, and no two numbers have one form
    ghost legible: { Legible form size };
}

// The clause of `of_word` says the trait's in the words of natural numbers.
impl Numeral for u32 {
    ghost form = { decimal };

    ghost size = { λ n. n };

    ghost legible = { natural_legible };

    fn of_word(word: &[u8]) -> Option<u32>
        ensures { SomeExactly result (WritesNatural word.now) }
    {
        if word.len() > MOST_DIGITS {
            return None;
        }
        Some(decimal::natural(word)? as u32)
    }
}

// The clause of `of_word` says the trait's in the words of signed numbers.
impl Numeral for i32 {
    ghost form = { signed_decimal };

    ghost size = { unsigned_abs };

    ghost legible = { signed_legible };

    fn of_word(word: &[u8]) -> Option<i32>
        ensures { SomeExactly result (WritesSigned word.now) }
    {
        match word {
            [b'-', digits @ ..] => match u32::of_word(digits)? {
                0 => None,
                size => Some(-(size as i32)),
            },
            _ => Some(u32::of_word(word)? as i32),
        }
    }
}
