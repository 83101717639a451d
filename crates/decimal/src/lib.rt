// Whole numbers written in decimal, read from bytes: one word, or a line of words.
//
// A number has the form that `{n}` prints: digits, with no sign and no leading zero.
// It is below 10^18, so it has at most 18 digits and fits a `u64`.
// The crate relies on `std` alone.
#![tactic(auto)]

ghost use Rattle.std.specs.Prelude.{◌≡◌, ◌≤◌, ◌↔◌, ◌++◌, length, None};
ghost use Rattle.std.specs.Option.{SomeIff};
ghost use Rattle.std.specs.Str.Iter.{LacksByte};
ghost use Rattle.std.specs.Str.Parse.{AllDigits, digits_value};
ghost use Rattle.decimal.specs.Reading.{SomeExactly, Writes, WritesAll, after_space};

const MOST_DIGITS: usize = 18;

// The number below 10^18 whose decimal form the word is; `None` for any other word.
pub fn natural(word: &[u8]) -> Option<u64>
    ensures { SomeExactly result (Writes word.now) }
{
    if word.len() > MOST_DIGITS {
        return None;
    }
    match word {
        [] => None,
        [b'0', _, ..] => None,
        _ => digits_value(word),
    }
}

// The value of a word of digits, with leading zeros or without; `None` where a byte is no digit.
fn digits_value(word: &[u8]) -> Option<u64>
    requires { length word.now ≤ 18 }
    ensures { SomeIff result (AllDigits 10 word.now) (digits_value 10 word.now) }
{
    let mut number = 0;
    for byte in word {
        let digit = char::from(*byte).to_digit(10)?;
        number = number * 10 + u64::from(digit);
    }
    Some(number)
}

// The word before the first space of the line, and what follows that space.
// Where the line has no space, all of it is the word, and `None` follows.
pub fn split_word(line: &[u8]) -> (&[u8], Option<&[u8]>)
    ensures word { LacksByte 32 result.0.now }
    ensures whole { line.now ≡ result.0.now ++ after_space result.1 }
    ensures no_rest { (result.1 ≡ None) ↔ LacksByte 32 line.now }
{
    // slices have no `split_once`
    match line.iter().position(|byte| *byte == b' ') {
        Some(end) => (&line[..end], Some(&line[end + 1..])),
        None => (line, None),
    }
}

// The N numbers below 10^18 whose decimal forms, with one space between each two, are the line; `None` for any other line.
pub fn naturals<const N: usize>(line: &[u8]) -> Option<[u64; N]>
    ensures { SomeExactly result (WritesAll N line.now) }
{
    // The empty line is the line of no numbers. Below, a line has at least one word.
    if N == 0 && line.is_empty() {
        return Some([0; N]);
    }
    let mut numbers = [0; N];
    // What follows the words read so far, or `None` where the last of them ends the line.
    let mut rest = Some(line);
    for number in &mut numbers {
        let (word, after) = split_word(rest?);
        *number = natural(word)?;
        rest = after;
    }
    rest.is_none().then_some(numbers)
}

#[cfg(test)]
mod tests {
    use super::*;

    #[test]
    fn natural_takes_decimal_forms_alone(rt: HostRuntime) {
        assert_eq!(rt; natural(b"0"), Some(0));
        assert_eq!(rt;
            natural(b"999999999999999999"),
            Some(999_999_999_999_999_999)
        );
        assert_eq!(rt; natural(b"1000000000000000000"), None);
        assert_eq!(rt; natural(b"007"), None);
        assert_eq!(rt; natural(b"+7"), None);
        assert_eq!(rt; natural(b""), None);
    }

    #[test]
    fn naturals_take_one_space_between_numbers(rt: HostRuntime) {
        assert_eq!(rt; naturals(b"12 34"), Some([12, 34]));
        assert_eq!(rt; naturals::<2>(b"12  34"), None);
        assert_eq!(rt; naturals::<2>(b"12 34 "), None);
        assert_eq!(rt; naturals::<2>(b"12"), None);
        assert_eq!(rt; naturals(b""), Some([]));
    }
}
