//! An operation, from the words of its listing.
use crate::fields::{DECIMAL, Fields, flag_of};
use cam_chain::Keys;
use micro_ir::MicroOp;
use reduce_tree::How;
use steer_net::Reach;

// The most keys of a search.
const MOST_KEYS: usize = 4;

/// The operation whose listing these words are, or `None` where they have another form.
pub fn op_of(words: &[&str]) -> Option<MicroOp> {
    let [name, rest @ ..] = words else {
        return None;
    };
    let mut fields = Fields::new(rest);
    let op = match tagged(name, &mut fields) {
        Some(op) => Some(op),
        None => network(name, &mut fields),
    };
    if fields.are_read() { op } else { None }
}

// An operation on tags, counts or control numbers.
fn tagged(name: &str, f: &mut Fields<'_>) -> Option<MicroOp> {
    match name {
        "search" => search(f),
        "update" => Some(MicroOp::Update {
            subs: f.subarrays(),
            row: f.byte(),
            bit: f.flag(),
        }),
        "updateby" => Some(MicroOp::UpdateBy {
            row: f.byte(),
            width: f.byte(),
        }),
        "pass" => Some(MicroOp::Pass {
            up: f.flag(),
            times: f.byte(),
        }),
        "setnum" => Some(MicroOp::SetNum { num: f.control() }),
        "count" => Some(MicroOp::Count {
            subs: f.subarrays(),
            bit: f.byte(),
            how: how_of(f.name())?,
        }),
        "first" => Some(MicroOp::First),
        _ => None,
    }
}

// A search: its subarrays, its keys, and whether the match joins the tags.
fn search(f: &mut Fields<'_>) -> Option<MicroOp> {
    let subs = f.subarrays();
    let keys = keys_of(f.all_but_last())?;
    Some(MicroOp::Search {
        subs,
        keys,
        join: f.flag(),
    })
}

// The keys of these words, each a row and the wanted bit, as in `5=1`.
fn keys_of(words: &[&str]) -> Option<Keys> {
    let mut pairs = [(0, false); MOST_KEYS];
    if words.len() > MOST_KEYS {
        return None;
    }
    for (i, word) in words.iter().enumerate() {
        pairs[i] = key_of(word)?;
    }
    Keys::new(&pairs[..words.len()])
}

// The row and the wanted bit of a key.
fn key_of(word: &str) -> Option<(u8, bool)> {
    let (row, bit) = word.split_once('=')?;
    let row = u8::from_str_radix(row, DECIMAL).ok()?;
    Some((row, flag_of(bit)?))
}

// What a count of tags does.
fn how_of(name: &str) -> Option<How> {
    match name {
        "sum" => Some(How::Sum),
        "less" => Some(How::Less),
        "or" => Some(How::Or),
        "clear" => Some(How::Clear),
        "xor" => Some(How::Xor),
        "clip" => Some(How::Clip),
        _ => None,
    }
}

// How places stand to the control number.
fn reach_of(name: &str) -> Option<Reach> {
    match name {
        "before" => Some(Reach::Before),
        "upto" => Some(Reach::Upto),
        "at" => Some(Reach::At),
        _ => None,
    }
}

// An operation of the network.
fn network(name: &str, f: &mut Fields<'_>) -> Option<MicroOp> {
    match name {
        "window" => Some(MicroOp::Window {
            row: f.byte(),
            width: f.byte(),
            first: f.number(),
            from: f.number(),
            to: f.number(),
            masked: f.flag(),
        }),
        "free" => Some(MicroOp::Free {
            row: f.byte(),
            width: f.byte(),
            first: f.number(),
            from: f.number(),
            to: f.number(),
            masked: f.flag(),
            tail: f.flag(),
            off: f.flag(),
        }),
        "packmask" => Some(MicroOp::PackMask {
            from: f.byte(),
            under: f.byte(),
            to: f.byte(),
            width: f.byte(),
            first: f.number(),
        }),
        _ => moving(name, f),
    }
}

// An operation that moves or numbers elements.
fn moving(name: &str, f: &mut Fields<'_>) -> Option<MicroOp> {
    match name {
        "spread" => Some(MicroOp::Spread {
            from: f.byte(),
            to: f.byte(),
            narrow: f.byte(),
            wide: f.byte(),
            part: f.byte(),
        }),
        "narrow" => Some(MicroOp::Narrow {
            from: f.byte(),
            to: f.byte(),
            wide: f.byte(),
            part: f.byte(),
        }),
        "slide" => Some(MicroOp::Slide {
            to: f.byte(),
            base: f.byte(),
            width: f.byte(),
            first: f.number(),
            up: f.flag(),
            by: f.number(),
            limit: f.number(),
        }),
        "pick" => Some(MicroOp::Pick {
            to: f.byte(),
            base: f.byte(),
            width: f.byte(),
            index: f.number(),
            limit: f.number(),
        }),
        "index" => Some(MicroOp::Index {
            to: f.byte(),
            width: f.byte(),
            first: f.number(),
        }),
        "below" => Some(MicroOp::Below {
            to: f.byte(),
            how: reach_of(f.name())?,
        }),
        _ => None,
    }
}
