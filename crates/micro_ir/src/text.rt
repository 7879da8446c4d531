ghost use Rattle.std.specs.Prelude.{◌≡◌, ◌+◌, ◌*◌, ◌<◌, ◌≤◌, [], ◌∷◌, ◌++◌, codes, decimal, length, IsTrue};
ghost use Rattle.arrayvec.specs.ArrayString.{array_string_len};
ghost use Rattle.bit_laws.specs.Digits.{hex_word};
ghost use Rattle.cam_chain.specs.KeyPairs.{are_keys};
ghost use Rattle.micro_ir.specs.Listing.{flag, numbers, flags, keys_text, how_text, reach_text, listing_text};

use crate::op::MicroOp;
use cam_chain::Keys;
use itoa::Buffer;
pub use line_text::LineBuf;
use line_text::push_hex;
use reduce_tree::How;
use steer_net::Reach;

// A set of subarrays is so many hexadecimal digits.
const DIGITS: u32 = 8;

/// Sets the line to the text of an operation: its name in lower case, and its fields in their order,
/// each after a space. A set of subarrays is eight hexadecimal digits, a key its row, `=` and its
/// wanted bit, a flag 0 or 1, a name in lower case, and any other field decimal.
pub fn listing(op: &MicroOp, line: &mut LineBuf)
    ensures { line.new.bytes ≡ listing_text op.now }
{
    line.clear();
    match op {
        MicroOp::Search { subs, keys, join } => {
            line.push_str("search ");
            push_subs(line, *subs);
            push_keys(line, keys);
            push_flag(line, *join);
        }
        MicroOp::Update { subs, row, bit } => {
            line.push_str("update ");
            push_subs(line, *subs);
            push_number(line, u64::from(*row));
            push_flag(line, *bit);
        }
        MicroOp::Pass { up, times } => {
            line.push_str("pass");
            push_flag(line, *up);
            push_number(line, u64::from(*times));
        }
        MicroOp::Window {
            row,
            width,
            first,
            from,
            to,
            masked,
        } => {
            line.push_str("window");
            push_bounds(line, *row, *width, *first, *from, *to);
            push_flag(line, *masked);
        }
        MicroOp::Free {
            row,
            width,
            first,
            from,
            to,
            masked,
            tail,
            off,
        } => {
            line.push_str("free");
            push_bounds(line, *row, *width, *first, *from, *to);
            push_flag(line, *masked);
            push_flag(line, *tail);
            push_flag(line, *off);
        }
        MicroOp::PackMask {
            from,
            under,
            to,
            width,
            first,
        } => {
            line.push_str("packmask");
            push_fields(line, &[*from, *under, *to, *width]);
            push_number(line, u64::from(*first));
        }
        MicroOp::UpdateBy { row, width } => {
            line.push_str("updateby");
            push_fields(line, &[*row, *width]);
        }
        MicroOp::Spread {
            from,
            to,
            narrow,
            wide,
            part,
        } => {
            line.push_str("spread");
            push_fields(line, &[*from, *to, *narrow, *wide, *part]);
        }
        MicroOp::Narrow {
            from,
            to,
            wide,
            part,
        } => {
            line.push_str("narrow");
            push_fields(line, &[*from, *to, *wide, *part]);
        }
        MicroOp::Slide {
            to,
            base,
            width,
            first,
            up,
            by,
            limit,
        } => {
            line.push_str("slide");
            push_fields(line, &[*to, *base, *width]);
            push_number(line, u64::from(*first));
            push_flag(line, *up);
            push_number(line, u64::from(*by));
            push_number(line, u64::from(*limit));
        }
        MicroOp::Pick {
            to,
            base,
            width,
            index,
            limit,
        } => {
            line.push_str("pick");
            push_fields(line, &[*to, *base, *width]);
            push_number(line, u64::from(*index));
            push_number(line, u64::from(*limit));
        }
        MicroOp::Index { to, width, first } => {
            line.push_str("index");
            push_fields(line, &[*to, *width]);
            push_number(line, u64::from(*first));
        }
        MicroOp::SetNum { num } => {
            line.push_str("setnum");
            push_number(line, *num);
        }
        MicroOp::Count { subs, bit, how } => {
            line.push_str("count ");
            push_subs(line, *subs);
            push_number(line, u64::from(*bit));
            push_how(line, *how);
        }
        MicroOp::First => line.push_str("first"),
        MicroOp::Below { to, how } => {
            line.push_str("below");
            push_number(line, u64::from(*to));
            push_reach(line, *how);
        }
    }
}

/// Appends the fields that a window and the agnostic elements share.
fn push_bounds(line: &mut LineBuf, row: u8, width: u8, first: u32, from: u32, to: u32)
    requires { array_string_len line.old ≤ 100 }
    ensures text { line.new.bytes
        ≡ line.old.bytes ++ numbers (row ∷ width ∷ first ∷ from ∷ to ∷ []) }
    ensures room { array_string_len line.new ≤ array_string_len line.old + 105 }
{
    push_fields(line, &[row, width]);
    push_number(line, u64::from(first));
    push_number(line, u64::from(from));
    push_number(line, u64::from(to));
}

/// Appends each number after a space.
fn push_fields(line: &mut LineBuf, fields: &[u8])
    requires room { array_string_len line.old ≤ 100 }
    requires few { length fields.now ≤ 5 }
    ensures text { line.new.bytes ≡ line.old.bytes ++ numbers fields.now }
    ensures room { array_string_len line.new ≤ array_string_len line.old + 21 * length fields.now }
{
    for field in fields {
        push_number(line, u64::from(*field));
    }
}

/// Appends a space and a number.
fn push_number(line: &mut LineBuf, number: u64)
    requires { array_string_len line.old ≤ 200 }
    ensures text { line.new.bytes ≡ line.old.bytes ++ (codes " " ++ decimal number) }
    ensures room { array_string_len line.new ≤ array_string_len line.old + 21 }
{
    let mut digits = Buffer::new();
    line.push_str(" ");
    line.push_str(digits.format(number));
}

/// Appends a space and a flag.
fn push_flag(line: &mut LineBuf, set: bool)
    requires { array_string_len line.old ≤ 200 }
    ensures text { line.new.bytes ≡ line.old.bytes ++ (codes " " ++ flag set) }
    ensures room { array_string_len line.new ≤ array_string_len line.old + 2 }
{
    line.push_str(if set { " 1" } else { " 0" });
}

/// Appends each key after a space.
fn push_keys(line: &mut LineBuf, keys: &Keys)
    requires { array_string_len line.old ≤ 100 }
    ensures text { line.new.bytes ≡ line.old.bytes ++ keys_text keys.now }
    ensures room { array_string_len line.new ≤ array_string_len line.old + 96 }
{
    for key in keys.as_slice() {
        push_key(line, key.0, key.1);
    }
}

/// Appends a space and a key.
fn push_key(line: &mut LineBuf, row: u8, want: bool)
    requires { array_string_len line.old ≤ 200 }
    ensures text { line.new.bytes
        ≡ line.old.bytes ++ (codes " " ++ decimal row ++ codes "=" ++ flag want) }
    ensures room { array_string_len line.new ≤ array_string_len line.old + 24 }
{
    push_number(line, u64::from(row));
    line.push_str(if want { "=1" } else { "=0" });
}

/// Appends a space and the name of what a count does.
fn push_how(line: &mut LineBuf, how: How)
    requires { array_string_len line.old ≤ 200 }
    ensures { line.new.bytes ≡ line.old.bytes ++ how_text how }
{
    match how {
        How::Sum => line.push_str(" sum"),
        How::Less => line.push_str(" less"),
        How::Or => line.push_str(" or"),
        How::Clear => line.push_str(" clear"),
        How::Xor => line.push_str(" xor"),
        How::Clip => line.push_str(" clip"),
    }
}

/// Appends a space and the name of how places stand to the control number.
fn push_reach(line: &mut LineBuf, how: Reach)
    requires { array_string_len line.old ≤ 200 }
    ensures { line.new.bytes ≡ line.old.bytes ++ reach_text how }
{
    match how {
        Reach::Before => line.push_str(" before"),
        Reach::Upto => line.push_str(" upto"),
        Reach::At => line.push_str(" at"),
    }
}

/// Appends a set of subarrays in eight hexadecimal digits, in lower case.
#[tactic(auto, unfolding(bit_laws::specs::Digits::hex_word))]
fn push_subs(line: &mut LineBuf, subs: u32)
    requires { array_string_len line.old ≤ 200 }
    ensures text { line.new.bytes ≡ line.old.bytes ++ hex_word subs }
    ensures room { array_string_len line.new ≡ array_string_len line.old + DIGITS }
{
    push_hex(line, DIGITS, subs);
}
