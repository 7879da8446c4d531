//! The fields of a listing.
// The bases of numbers: subarrays are written in hexadecimal, and all others in decimal.
const HEXADECIMAL: u32 = 16;

pub(crate) const DECIMAL: u32 = 10;

/// Fields, which are read one after another. Where one is missing or has another form it is read as 0, and they are not
/// sound.
#[derive(Drop)]
pub(crate) struct Fields<'a> {
    words: &'a [&'a str],
    is_sound: bool,
}

impl<'a> Fields<'a> {
    /// The fields of these words.
    pub(crate) fn new(words: &'a [&'a str]) -> Fields<'a> {
        Fields {
            words,
            is_sound: true,
        }
    }

    // The next word, or an empty one where there is none.
    fn next(&mut self) -> &'a str {
        match self.words {
            [first, rest @ ..] => {
                self.words = rest;
                first
            }
            [] => "",
        }
    }

    // What a field was read as, or that value where it could not be read.
    fn taken<T: Copy>(&mut self, value: Option<T>, none: T) -> T {
        match value {
            Some(value) => value,
            None => {
                self.is_sound = false;
                none
            }
        }
    }

    /// A row, a width or another small number.
    pub(crate) fn byte(&mut self) -> u8 {
        let value = u8::from_str_radix(self.next(), DECIMAL).ok();
        self.taken(value, 0)
    }

    /// The number of an element, or of elements.
    pub(crate) fn number(&mut self) -> u32 {
        let value = u32::from_str_radix(self.next(), DECIMAL).ok();
        self.taken(value, 0)
    }

    /// A control number.
    pub(crate) fn control(&mut self) -> u64 {
        let value = u64::from_str_radix(self.next(), DECIMAL).ok();
        self.taken(value, 0)
    }

    /// A set of subarrays.
    pub(crate) fn subarrays(&mut self) -> u32 {
        let value = u32::from_str_radix(self.next(), HEXADECIMAL).ok();
        self.taken(value, 0)
    }

    /// A flag.
    pub(crate) fn flag(&mut self) -> bool {
        let value = flag_of(self.next());
        self.taken(value, false)
    }

    /// A name.
    pub(crate) fn name(&mut self) -> &'a str {
        self.next()
    }

    /// The words that are left but for the last, which a flag may follow; then the last alone is left.
    pub(crate) fn all_but_last(&mut self) -> &'a [&'a str] {
        match self.words {
            [words @ .., _] => {
                self.words = &self.words[words.len()..];
                words
            }
            [] => &[],
        }
    }

    /// Whether all fields were read, and each had its form.
    pub(crate) fn are_read(&self) -> bool {
        self.is_sound && self.words.is_empty()
    }
}

/// The flag of a word.
pub(crate) fn flag_of(word: &str) -> Option<bool> {
    match word {
        "0" => Some(false),
        "1" => Some(true),
        _ => None,
    }
}
