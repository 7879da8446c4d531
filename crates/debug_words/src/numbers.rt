// The numbers of a line.
ghost use Rattle.std.specs.Prelude.{◌≡◌, ◌≤◌, ◌<◌, length, IfSome};
ghost use Rattle.debug_words.specs.Grammar.{digit_value, digit as digit_in, digits_in, number, with_number, ranged as within};

// The most characters of a number, and what stands before hexadecimal digits.
const MOST_CHARACTERS: usize = 10;

const DECIMAL: u64 = 10;

const HEXADECIMAL: u64 = 16;

/// The numbers of a line, of which no command has more than three.
#[derive(Clone, Copy, Debug, PartialEq, Eq)]
pub enum Numbers {
    /// None.
    Zero,
    /// One.
    One(u64),
    /// Two, in their order.
    Two(u64, u64),
    /// Three, in their order.
    Three(u64, u64, u64),
}

impl Numbers {
    // These numbers and one more, where a command may have so many.
    pub fn with(self, number: u64) -> Option<Numbers>
        ensures { result ≡ with_number number self }
    {
        match self {
            Numbers::Zero => Some(Numbers::One(number)),
            Numbers::One(a) => Some(Numbers::Two(a, number)),
            Numbers::Two(a, b) => Some(Numbers::Three(a, b, number)),
            Numbers::Three(_, _, _) => None,
        }
    }
}

// The value of a digit of sixteen, of either case.
fn value_of(byte: u8) -> Option<u8>
    ensures value { result ≡ digit_value byte }
    ensures small { IfSome result (λ d. d < 16) }
{
    match byte {
        b'0'..=b'9' => Some(byte - b'0'),
        b'a'..=b'f' => Some(byte - b'a' + 10),
        b'A'..=b'F' => Some(byte - b'A' + 10),
        _ => None,
    }
}

// The value of a digit of this radix.
fn digit_of(radix: u64, byte: u8) -> Option<u64>
    ensures value { result ≡ digit_in radix byte }
    ensures small { IfSome result (λ d. d < 16) }
{
    let digit = u64::from(value_of(byte)?);
    if digit < radix { Some(digit) } else { None }
}

// The number of these digits, of which there is at least one.
fn number_of_digits(radix: u64, digits: &[u8]) -> Option<u64>
    requires radix { radix ≤ 16 }
    requires few { length digits.now ≤ 10 }
    ensures { result ≡ digits_in radix digits.now }
{
    if digits.is_empty() {
        return None;
    }
    let mut number: u64 = 0;
    for byte in digits {
        let digit = digit_of(radix, *byte)?;
        number = radix * number + digit;
    }
    Some(number)
}

// The number that a word is.
#[tactic(auto, unfolding(crate::specs::Grammar::number))]
pub fn number_of(word: &[u8]) -> Option<u64>
    ensures { result ≡ number word.now }
{
    if word.len() > MOST_CHARACTERS {
        return None;
    }
    match word.strip_prefix(b"0x") {
        Some(digits) => number_of_digits(HEXADECIMAL, digits),
        None => number_of_digits(DECIMAL, word),
    }
}

// A number that is in its range.
pub fn ranged(least: u32, most: u32, number: u64) -> Option<u32>
    ensures value { result ≡ within least most number }
    ensures least { IfSome result (λ n. least ≤ n) }
    ensures most { IfSome result (λ n. n ≤ most) }
{
    if number >= u64::from(least) && number <= u64::from(most) {
        Some(number as u32)
    } else {
        None
    }
}
