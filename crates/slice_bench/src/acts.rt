//! Operations that are made once.
use crate::operations::Operation;
use bit_rows::Planes;
use cam_chain::{Chain, Keys};
use reduce_tree::{any, count, first};
use steer_net::{free, pack_mask, window};

const ALL: u32 = u32::MAX;

// Counters stay below this.
const MANY: u128 = 1 << 64;

// Rows of operands, of results, and the mask is register 0.
const A: u8 = 3;

const B: u8 = 20;

const C: u8 = 36;

const MASK: u8 = 0;

/// Makes an operation on all subarrays. Turns with even and odd numbers write other bits, or go other ways.
pub(crate) fn act(chain: &mut Chain, operation: Operation, turn: u32) {
    let even = turn % 2 == 0;
    match operation {
        Operation::Search => search(chain, &[(A, even)], false),
        Operation::Keys => search(chain, &[(A, even), (B, false), (C, true)], false),
        Operation::Join => search(chain, &[(A, even)], true),
        Operation::Update => update(chain, even),
        Operation::Pass => pass(chain, even),
        Operation::Window => mark_words(chain, turn % 2),
        Operation::Bytes => mark_bytes(chain, turn % 2, false),
        Operation::Masked => mark_bytes(chain, turn % 2, true),
        Operation::Mask => mark_bits(chain, turn % 2),
        Operation::Free => mark_free(chain, turn % 2),
        Operation::Pack => pack(chain),
        Operation::Count => {
            let tags = count(chain, ALL);
            keep(chain, tags % 2 == 1);
        }
        Operation::Any => {
            let some = any(chain, ALL);
            keep(chain, some);
        }
        Operation::First => {
            let place = first(chain);
            keep(chain, place.is_some());
        }
    }
}

fn search(chain: &mut Chain, pairs: &[(u8, bool)], join: bool) {
    if let Some(keys) = Keys::new(pairs) {
        if chain.counts().searches < MANY {
            chain.search(ALL, &keys, join);
        }
    }
}

fn update(chain: &mut Chain, bit: bool) {
    if chain.counts().updates < MANY {
        chain.update(ALL, C, bit);
    }
}

fn pass(chain: &mut Chain, up: bool) {
    if chain.counts().passes < MANY {
        chain.pass(up, 1);
    }
}

// Marks all elements of a row but the first ones, of which there are `from`.
fn mark_words<P: Planes>(planes: &mut P, from: u32) {
    let columns = planes.columns();
    window(planes, C, 32, 0, from, columns, false);
}

fn mark_bytes<P: Planes>(planes: &mut P, from: u32, masked: bool) {
    let elements = 4 * planes.columns();
    window(planes, C, 8, 0, from, elements, masked);
}

fn mark_bits<P: Planes>(planes: &mut P, from: u32) {
    let bits = 32 * planes.columns();
    window(planes, C, 1, 0, from, bits, true);
}

// Marks the free elements, where the last one is the tail.
fn mark_free<P: Planes>(planes: &mut P, from: u32) {
    let elements = 4 * planes.columns();
    free(planes, C, 8, 0, from, elements - 1, true, true, true);
}

// Packs the highest bits of all elements of eight bits into the mask.
fn pack<P: Planes>(planes: &mut P) {
    pack_mask(planes, A, B, MASK, 8, 0);
}

// Writes an answer of the tree into a bit, so that it is asked for.
fn keep(chain: &mut Chain, answer: bool) {
    if answer && chain.columns() > 0 {
        chain.write_word(C, 0, 1);
    }
}
