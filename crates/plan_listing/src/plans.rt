//! What is told of a question.
ghost use Rattle.std.specs.Prelude.{◌≡◌, ◌+◌, [], true, length, IsTrue, OnOk};
ghost use Rattle.vtype_cfg.specs.Settings.{is_valid, is_vill_or_supported};

use crate::lines::Question;
use micro_ir::{LineBuf, MicroBuf, listing};
use rvv_decode::{VInstr, decode_v};
use std::alloc::{AllocError, Global};
use std::fmt::Write;
use vec_exec::{engine, plan};
use vtype_cfg::legal;

// The program as lines, behind a line of its length.
fn push_program(text: &mut String, buf: &MicroBuf) -> Result<(), AllocError> {
    let mut line = LineBuf::new();
    writeln!(text, "plan {}", buf.ops().len())?;
    for op in buf.ops() {
        listing(op, &mut line);
        text.push_str(line.as_str())?;
        text.push_str("\n")?;
    }
    Ok(())
}

/// What is told of a question. The buffer is empty, with room for 262,144 operations.
pub(crate) fn push_answer(
    alloc: Global,
    question: &Question,
    buf: &mut MicroBuf,
) -> Result<String, AllocError>
    requires valid { IsTrue (is_valid question.now.cfg) }
    requires setting { IsTrue (is_vill_or_supported question.now.cfg.vtype) }
    requires room { length buf.old.ops + buf.old.spare ≡ 262144 }
    ensures room { OnOk result (length buf.new.ops + buf.new.spare ≡ 262144) }
{
    buf.clear();
    let cfg = &question.cfg;
    let Some(i) = decode_v(question.word) else {
        return String::from_str(alloc, "none\n");
    };
    if !legal(&i, &cfg.vtype, cfg.vstart, cfg.vlen) {
        return String::from_str(alloc, "illegal\n");
    }
    if !engine(&i) {
        return String::from_str(alloc, "no plan\n");
    }
    plan(&i, cfg, question.scalar, buf);
    let mut text = String::new(alloc);
    push_program(&mut text, buf)?;
    Ok(text)
}
