// Loads and stores at the end of the last page of a stack: the page from 7ffff000 on is mapped, and that from 80000000 on is not.
// Byte k of the page is k modulo 251.
ghost use Rattle.std.specs.Prelude.{◌≡◌, IfOk};

use crate::instructions::{VLEN, load_of, setting, store_of};
use bitflags::Flags;
use cam_chain::Chain;
use guest_mem::{ByteList, Mem, Perms, Region};
use std::alloc::{AllocError as NoMemory, Global};
use std::test::Fail;
use vec_mem::{VecFault, load, store};
use vtype_cfg::Policy;

const PAGE: u32 = 0x7fff_f000;

const COLUMNS: u32 = VLEN / 32;

// What each word of v2, v3 and v4 begins as for a load.
const OLD: u32 = 0xaaaa_aaaa;

// Vector types at LMUL 1: e8, e16 and e32, undisturbed; e8 with vma; e8 with vta.
const E8: u32 = 0b0000_0000;

const E16: u32 = 0b0000_1000;

const E32: u32 = 0b0001_0000;

const E8_MA: u32 = 0b1000_0000;

const E8_TA: u32 = 0b0100_0000;

// A load: its word, the vector type, vl and vstart, the policy, the base and the stride; the cause and the element of its
// fault, vl and vstart after it; and
// the first two words of v2 and the first one of v3 and v4.
struct LoadRow {
    word: u32,
    vtype: u32,
    vl: u32,
    vstart: u32,
    policy: Policy,
    base: u32,
    stride: u32,
    stop: Option<(u8, u32)>,
    vl_after: u32,
    vstart_after: u32,
    words: [u32; 4],
}

// A store in the same way; what v2 and v3 begin with is 04030201 and 14131211. Then a place, and the word of memory there.
struct StoreRow {
    word: u32,
    vtype: u32,
    vl: u32,
    vstart: u32,
    base: u32,
    stride: u32,
    stop: Option<(u8, u32)>,
    vstart_after: u32,
    place: u32,
    memory: u32,
}

const LOADS: [LoadRow; 9] = [
    // vlseg3e8.v v2, (x10): segment 4 has its last byte on the page that is absent, and none of its fields is loaded.
    LoadRow {
        word: 0x4205_0107,
        vtype: E8,
        vl: 8,
        vstart: 0,
        policy: Policy::Keep,
        base: 0x7fff_fff2,
        stride: 0,
        stop: Some((5, 4)),
        vl_after: 8,
        vstart_after: 4,
        words: [0x4b48_4542, OLD, 0x4c49_4643, 0x4d4a_4744],
    },
    // vle32.v v2, (x10)
    LoadRow {
        word: 0x0205_6107,
        vtype: E32,
        vl: 8,
        vstart: 0,
        policy: Policy::Keep,
        base: 0x7fff_fff4,
        stride: 0,
        stop: Some((5, 3)),
        vl_after: 8,
        vstart_after: 3,
        words: [0x4746_4544, 0x4b4a_4948, OLD, OLD],
    },
    // vle8ff.v v2, (x10)
    LoadRow {
        word: 0x0305_0107,
        vtype: E8_TA,
        vl: 8,
        vstart: 0,
        policy: Policy::Ones,
        base: 0x7fff_fffb,
        stride: 0,
        stop: None,
        vl_after: 5,
        vstart_after: 0,
        words: [0x4e4d_4c4b, 0xaaaa_aa4f, OLD, OLD],
    },
    LoadRow {
        word: 0x0305_0107,
        vtype: E8,
        vl: 8,
        vstart: 0,
        policy: Policy::Keep,
        base: 0x8000_0000,
        stride: 0,
        stop: Some((5, 0)),
        vl_after: 8,
        vstart_after: 0,
        words: [OLD, OLD, OLD, OLD],
    },
    // vle8.v v2, (x10), v0.t: elements 2 and 3 are masked off.
    LoadRow {
        word: 0x0005_0107,
        vtype: E8_MA,
        vl: 4,
        vstart: 0,
        policy: Policy::Ones,
        base: 0x7fff_fffe,
        stride: 0,
        stop: None,
        vl_after: 4,
        vstart_after: 0,
        words: [0xffff_4f4e, OLD, OLD, OLD],
    },
    // vlse16.v v2, (x10), x11 with a stride of -4
    LoadRow {
        word: 0x0ab5_5107,
        vtype: E16,
        vl: 2,
        vstart: 0,
        policy: Policy::Keep,
        base: 0x7fff_ff00,
        stride: 0xffff_fffc,
        stop: None,
        vl_after: 2,
        vstart_after: 0,
        words: [0x4847_4c4b, OLD, OLD, OLD],
    },
    // vluxei8.v v2, (x10), v1: the index is ff, without a sign.
    LoadRow {
        word: 0x0615_0107,
        vtype: E8,
        vl: 1,
        vstart: 0,
        policy: Policy::Keep,
        base: 0x7fff_ff00,
        stride: 0,
        stop: None,
        vl_after: 1,
        vstart_after: 0,
        words: [0xaaaa_aa4f, OLD, OLD, OLD],
    },
    // vlm.v v2, (x10): two bytes of eleven bits, and a tail that is agnostic though vta is 0.
    LoadRow {
        word: 0x02b5_0107,
        vtype: E8,
        vl: 11,
        vstart: 0,
        policy: Policy::Ones,
        base: 0x7fff_ff00,
        stride: 0,
        stop: None,
        vl_after: 11,
        vstart_after: 0,
        words: [0xffff_4c4b, 0xffff_ffff, OLD, OLD],
    },
    // vl2re8.v v2, (x10) from element 126 on, though vl is 1: the next register is loaded too, up to its second byte.
    LoadRow {
        word: 0x2285_0107,
        vtype: E8,
        vl: 1,
        vstart: 126,
        policy: Policy::Keep,
        base: 0x7fff_ff7e,
        stride: 0,
        stop: Some((5, 130)),
        vl_after: 1,
        vstart_after: 130,
        words: [OLD, OLD, 0xaaaa_4f4e, OLD],
    },
];

const STORES: [StoreRow; 3] = [
    // vsseg2e16.v v2, (x10): segment 1 ends on the page that is absent, and none of its fields is stored.
    StoreRow {
        word: 0x2205_5127,
        vtype: E16,
        vl: 2,
        vstart: 0,
        base: 0x7fff_fffa,
        stride: 0,
        stop: Some((7, 1)),
        vstart_after: 1,
        place: 0x7fff_fffa,
        memory: 0x1211_0201,
    },
    StoreRow {
        word: 0x2205_5127,
        vtype: E16,
        vl: 2,
        vstart: 0,
        base: 0x7fff_fffa,
        stride: 0,
        stop: Some((7, 1)),
        vstart_after: 1,
        place: 0x7fff_fffc,
        memory: 0x4f4e_1211,
    },
    // vs1r.v v2, (x10), whatever vl is
    StoreRow {
        word: 0x0285_0127,
        vtype: E8,
        vl: 0,
        vstart: 1,
        base: 0x7fff_ff00,
        stride: 0,
        stop: None,
        vstart_after: 0,
        place: 0x7fff_ff00,
        memory: 0x0403_024b,
    },
];

// The page.
fn memory(alloc: Global) -> Result<Mem, NoMemory> {
    let mut items = Vec::new(alloc);
    for k in 0..4096u32 {
        items.push((k % 251) as u8)?;
    }
    let mut regions = Vec::new(alloc);
    regions.push(Region {
        start: PAGE,
        len: 4096,
        perms: Perms::READ.union(Perms::WRITE),
        bytes: ByteList::new(items),
    })?;
    Mem::new(alloc, &regions, 0x1_0000, 0x2_0000)
}

// A chain with the mask 3 in v0, the index ff in v1, and these first words in v2 and v3.
fn chain_with(alloc: Global, two: u32, three: u32) -> Result<Chain, NoMemory>
    ensures { IfOk result (λ chain. chain.columns ≡ COLUMNS) }
{
    let mut chain = Chain::new(alloc, COLUMNS)?;
    chain.write_word(0, 0, 0b11);
    chain.write_word(1, 0, 0xff);
    chain.write_word(2, 0, two);
    chain.write_word(2, 1, two);
    chain.write_word(3, 0, three);
    chain.write_word(4, 0, three);
    Ok(chain)
}

// What a call left: the cause and the element of a fault whose address is the first one past the page, vl, vstart, and four
// words of registers or one of memory.
#[derive(Clone, Copy, PartialEq, Eq, Debug)]
struct Left {
    stop: Option<(u8, u32)>,
    vl: u32,
    vstart: u32,
    words: [u32; 4],
}

// The fault of a call, which is told with the first address past the page.
fn stop_of(end: Result<(), VecFault>) -> Option<(u8, u32)> {
    match end {
        Err(fault) if fault.address == 0x8000_0000 => Some((fault.cause, fault.element)),
        Err(_) => Some((0, 0)),
        Ok(()) => None,
    }
}

// What the load of a row leaves, where it is one.
fn loaded(alloc: Global, row: &LoadRow) -> Result<Option<Left>, NoMemory> {
    let mem = memory(alloc)?;
    let mut chain = chain_with(alloc, OLD, OLD)?;
    let mut cfg = setting(row.vtype, row.vl, row.vstart.min(VLEN - 1), row.policy);
    match load_of(row.word, &cfg) {
        None => Ok(None),
        Some(i) => {
            let end = load(&i, &mut cfg, row.base, row.stride, &mut chain, &mem);
            Ok(Some(Left {
                stop: stop_of(end),
                vl: cfg.vl,
                vstart: cfg.vstart,
                words: [
                    chain.read_word(2, 0),
                    chain.read_word(2, 1),
                    chain.read_word(3, 0),
                    chain.read_word(4, 0),
                ],
            }))
        }
    }
}

// What the store of a row leaves, where it is one.
fn stored(alloc: Global, row: &StoreRow) -> Result<Option<Left>, NoMemory> {
    let mut mem = memory(alloc)?;
    let chain = chain_with(alloc, 0x0403_0201, 0x1413_1211)?;
    let mut cfg = setting(row.vtype, row.vl, row.vstart.min(VLEN - 1), Policy::Keep);
    match store_of(row.word, &cfg) {
        None => Ok(None),
        Some(i) => {
            let end = store(&i, &mut cfg, row.base, row.stride, &chain, &mut mem);
            let word = mem.load(row.place, 4).unwrap_or(0);
            Ok(Some(Left {
                stop: stop_of(end),
                vl: cfg.vl,
                vstart: cfg.vstart,
                words: [word, 0, 0, 0],
            }))
        }
    }
}

#[test]
fn loads(rt: HostRuntime) -> Result<(), Fail> {
    for row in &LOADS {
        let left = Left {
            stop: row.stop,
            vl: row.vl_after,
            vstart: row.vstart_after,
            words: row.words,
        };
        assert_eq!(rt; loaded(rt.alloc(), row)?, Some(left));
    }
    Ok(())
}

#[test]
fn stores(rt: HostRuntime) -> Result<(), Fail> {
    for row in &STORES {
        let left = Left {
            stop: row.stop,
            vl: row.vl,
            vstart: row.vstart_after,
            words: [row.memory, 0, 0, 0],
        };
        assert_eq!(rt; stored(rt.alloc(), row)?, Some(left));
    }
    Ok(())
}
