//! Numbers of one word.
ghost use Rattle.std.specs.Prelude.{◌≡◌, ◌≤◌};
ghost use Rattle.library_probe.specs.Numbers.{byte_in, decimal_in, hexadecimal_in, word_in_base};

// The base of hexadecimal numbers, and of all others.
const HEXADECIMAL: u32 = 16;

const DECIMAL: u32 = 10;

/// The byte that a text writes in decimal.
#[tactic(auto, using(crate::proofs::NumberLemmas::number_read))]
pub(crate) fn byte_of(text: &str) -> Option<u8>
    ensures { result ≡ byte_in text.now }
{
    u8::from_str_radix(text, DECIMAL).ok()
}

// The word of 32 bits that a text writes in a base.
#[tactic(auto, using(crate::proofs::NumberLemmas::number_read))]
fn word_of(text: &str, radix: u32) -> Option<u32>
    requires low { 2 ≤ radix }
    requires high { radix ≤ 36 }
    ensures { result ≡ word_in_base radix text.now }
{
    u32::from_str_radix(text, radix).ok()
}

/// The word that a text writes in decimal.
pub(crate) fn decimal_of(text: &str) -> Option<u32>
    ensures { result ≡ decimal_in text.now }
{
    word_of(text, DECIMAL)
}

/// The word that a text writes in hexadecimal.
pub(crate) fn hexadecimal_of(text: &str) -> Option<u32>
    ensures { result ≡ hexadecimal_in text.now }
{
    word_of(text, HEXADECIMAL)
}
