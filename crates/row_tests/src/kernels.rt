//! The kernels on as many words as they take one by one, together, and both.
use bit_rows::{and_words, count_words, match_words, or_words};
use std::test::Fail;

const LENGTHS: [usize; 6] = [0, 1, 7, 8, 31, 32];

const MOST_WORDS: usize = 32;

// Each word of the first operand and of the second one: all four pairs of bits.
const LEFT: u64 = 0b1100;

const RIGHT: u64 = 0b1010;

// A kernel on two operands, and each word that it leaves of the first.
#[derive(Clone, Copy)]
enum Kernel {
    And,
    Or,
    Match(bool),
}

#[rattlefmt::skip]
const KERNELS: [(Kernel, u64); 4] = [
    (Kernel::And, 0b1000),
    (Kernel::Or, 0b1110),
    (Kernel::Match(true), 0b1000),
    (Kernel::Match(false), 0b0100),
];

// Whether the first words are `word`, and the words past them stayed.
fn are_words(words: &[u64], len: usize, word: u64) -> bool {
    for (i, found) in words.iter().enumerate() {
        if *found != if i < len { word } else { LEFT } {
            return false;
        }
    }
    true
}

// Whether the kernel leaves this of so many words.
fn leaves(kernel: Kernel, len: usize, word: u64) -> bool {
    if len > MOST_WORDS {
        return false;
    }
    let mut words = [LEFT; MOST_WORDS];
    let with = [RIGHT; MOST_WORDS];
    match kernel {
        Kernel::And => and_words(&mut words[..len], &with[..len]),
        Kernel::Or => or_words(&mut words[..len], &with[..len]),
        Kernel::Match(want) => match_words(&with[..len], want, &mut words[..len]),
    }
    are_words(&words, len, word)
}

// Whether each kernel leaves its words.
fn all_leave(len: usize) -> bool {
    for (kernel, word) in KERNELS {
        if !leaves(kernel, len, word) {
            return false;
        }
    }
    true
}

#[test]
fn kernels_take_all_words_and_no_more(rt: HostRuntime) -> Result<(), Fail> {
    for len in LENGTHS {
        assert!(rt; all_leave(len), "{len} words");
    }
    Ok(())
}

#[test]
fn bits_of_all_words_are_counted(rt: HostRuntime) -> Result<(), Fail> {
    let words = [RIGHT; MOST_WORDS];
    for len in LENGTHS {
        assert!(rt;
            len <= MOST_WORDS && count_words(&words[..len]) as usize == 2 * len,
            "{len} words"
        );
    }
    Ok(())
}
