//! What a vector word is planned to, on registers of 64 bits, and what that leaves.
use crate::chains::{Cost, Trial, Word, cost_in, cost_of};
use micro_ir::MicroBuf;
use rvv_decode::decode_v;
use std::alloc::Global;
use std::test::Fail;
use vec_exec::{engine, plan};
use vtype_cfg::{Cfg, Policy, Vtype, legal};

// The length of a register, and the columns that hold it.
const VLEN: u32 = 64;

const COLUMNS: u32 = 2;

// The most micro-operations of one instruction.
const ROOM: u32 = 262_144;

// The last of the rounding modes.
const LAST_MODE: u8 = 3;

/// A word, the setting that it is planned under, words of the chain before and after it, whether it clips an element, and
/// its cost.
#[derive(Clone, Copy)]
pub(crate) struct Row {
    pub(crate) word: u32,
    pub(crate) vtype: u32,
    pub(crate) vl: u32,
    pub(crate) vxrm: u8,
    pub(crate) policy: Policy,
    pub(crate) before: &'static [Word],
    pub(crate) after: &'static [Word],
    pub(crate) clips: bool,
    pub(crate) cost: Cost,
}

// The program of the row's word.
#[tactic(auto, unfolding(vtype_cfg::specs::Settings::is_valid, vtype_cfg::specs::Settings::is_legal_vlen, vtype_cfg::specs::Settings::legal_vlens))]
fn program_of(alloc: Global, row: &Row) -> Result<MicroBuf, Fail> {
    let vtype = Vtype::from_bits(row.vtype);
    if row.vl > vtype.vlmax(VLEN) || row.vxrm > LAST_MODE {
        return Err("a length and a rounding mode".into());
    }
    let cfg = Cfg {
        vtype,
        vl: row.vl,
        vstart: 0,
        vxrm: row.vxrm,
        vlen: VLEN,
        policy: row.policy,
    };
    let i = decode_v(row.word).ok_or("a vector word")?;
    if !engine(&i) {
        return Err("an instruction with a program".into());
    }
    if !legal(&i, &cfg.vtype, cfg.vstart, cfg.vlen) {
        return Err("a legal instruction".into());
    }
    let mut buf = MicroBuf::new(alloc, ROOM)?;
    plan(&i, &cfg, 0, &mut buf);
    Ok(buf)
}

/// Whether the program of the row's word leaves what the row says, sets the flag of clipped results where it says so, and
/// costs what it says.
pub(crate) fn is_carried_out(alloc: Global, row: &Row) -> Result<bool, Fail> {
    let buf = program_of(alloc, row)?;
    let trial = Trial {
        columns: COLUMNS,
        before: row.before,
        after: row.after,
        clips: row.clips,
    };
    let cost = cost_of(alloc, &trial, &buf, buf.ops().len())?;
    Ok(cost == Some(row.cost) && cost_in(buf.tally()) == row.cost)
}
