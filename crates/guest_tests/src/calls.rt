// Calls over memory, with the answers that Linux for RISC-V gives.
use cape_io::{MemSink, MemSource};
use guest_env::{EnvFault, EnvFlow, call};
use guest_mem::Mem;
use rv32_core::Regs;
use std::alloc::{AllocError as NoMemory, Global};
use std::test::Fail;

// A guest and its devices.
#[derive(Drop)]
struct Guest {
    regs: Regs,
    mem: Mem,
    input: MemSource,
    out: MemSink,
    err: MemSink,
}

// The number of a call and its arguments, how it ends, x10 after it, and what the sinks hold then.
#[derive(Clone, Copy)]
struct Row(
    [u32; 4],
    Result<EnvFlow, EnvFault>,
    u32,
    &'static [u8],
    &'static [u8],
);

// A call that goes back.
const BACK: Result<EnvFlow, EnvFault> = Ok(EnvFlow::Back);

// The calls that are made in this order. The input has three bytes and gives one at a time; there is one page from 0x1000
// on.
const CALLS: [Row; 21] = [
    // The last bytes of the range have no page.
    Row([63, 0, 0x1ffc, 10], BACK, 0xffff_fff2, b"", b""),
    Row([63, 1, 0x1000, 10], BACK, 0xffff_fff7, b"", b""),
    Row([63, 0, 0x5000, 0], BACK, 0, b"", b""),
    Row([63, 0, 0x1000, 10], BACK, 3, b"", b""),
    Row([63, 0, 0x1000, 10], BACK, 0, b"", b""),
    Row([64, 1, 0x1000, 3], BACK, 3, b"abc", b""),
    Row([64, 2, 0x1001, 2], BACK, 2, b"abc", b"bc"),
    Row([64, 1, 0x1ffe, 4], BACK, 0xffff_fff2, b"abc", b"bc"),
    Row([64, 0, 0x1000, 1], BACK, 0xffff_fff7, b"abc", b"bc"),
    Row([64, 3, 0x5000, 0], BACK, 0xffff_fff7, b"abc", b"bc"),
    Row([57, 0, 0, 0], BACK, 0, b"abc", b"bc"),
    Row([57, 2, 0, 0], BACK, 0, b"abc", b"bc"),
    Row([57, 3, 0, 0], BACK, 0xffff_fff7, b"abc", b"bc"),
    Row([62, 1, 0, 0], BACK, 0xffff_ffe3, b"abc", b"bc"),
    Row([62, 3, 0, 0], BACK, 0xffff_fff7, b"abc", b"bc"),
    Row([80, 1, 0x1000, 0], BACK, 0xffff_ffda, b"abc", b"bc"),
    Row([214, 0, 0, 0], BACK, 0x4000, b"abc", b"bc"),
    Row([214, 0x8000, 0, 0], BACK, 0x8000, b"abc", b"bc"),
    Row([214, 0x8001, 0, 0], BACK, 0x8000, b"abc", b"bc"),
    Row([214, 0x4000, 0, 0], BACK, 0x4000, b"abc", b"bc"),
    // An exit leaves the register.
    Row(
        [94, 0x1ff, 0, 0],
        Ok(EnvFlow::Exit(0xff)),
        0x1ff,
        b"abc",
        b"bc",
    ),
];

// A write over an end of a page puts a piece for each page, here both to the error output. The second put fails after one
// byte.
const TORN: [Row; 1] = [Row(
    [64, 1, 0x1ffe, 4],
    Err(EnvFault::WriteFault),
    1,
    b"",
    b"\0\0\0",
)];

// Pages to read and to write, and a heap from 0x4000 to 0x8000.
fn memory(alloc: Global, pages: &[u32]) -> Result<Mem, NoMemory> {
    let mut mem = Mem::new(alloc, &[], 0x4000, 0x8000)?;
    for page in pages {
        mem.map(alloc, *page)?;
    }
    Ok(mem)
}

// A guest with this memory, whose error output fails at listed puts.
fn guest_over(alloc: Global, mem: Mem, fails: &[(u64, usize)]) -> Result<Guest, NoMemory> {
    Ok(Guest {
        regs: Regs::new(),
        mem,
        input: MemSource::new(alloc, b"abc", 1, &[])?,
        out: MemSink::new(alloc, 10, &[])?,
        err: MemSink::new(alloc, 10, fails)?,
    })
}

// Makes the call that these words ask for.
fn ask(guest: &mut Guest, words: [u32; 4], merged: bool) -> Result<EnvFlow, EnvFault> {
    let [number, first, second, third] = words;
    guest.regs.set(17, number);
    guest.regs.set(10, first);
    guest.regs.set(11, second);
    guest.regs.set(12, third);
    call(
        &mut guest.regs,
        &mut guest.mem,
        &mut guest.input,
        &mut guest.out,
        &mut guest.err,
        merged,
    )
}

// Whether x10 and the sinks hold this.
fn holds(guest: &Guest, answer: u32, out: &[u8], err: &[u8]) -> bool {
    guest.regs.get(10) == answer && guest.out.bytes() == out && guest.err.bytes() == err
}

// Makes the call of a row, and says whether it ends and leaves its answer and the sinks so.
fn goes(guest: &mut Guest, row: &Row, merged: bool) -> bool {
    let Row(words, ends, answer, out, err) = *row;
    ask(guest, words, merged) == ends && holds(guest, answer, out, err)
}

#[test]
fn each_call_has_its_answer(rt: HostRuntime) -> Result<(), Fail> {
    let mut guest = guest_over(rt.alloc(), memory(rt.alloc(), &[0x1000])?, &[])?;
    for (i, row) in CALLS.iter().enumerate() {
        assert!(rt; goes(&mut guest, row, false), "call {i}");
    }
    Ok(())
}

#[test]
fn a_write_puts_a_piece_for_each_page(rt: HostRuntime) -> Result<(), Fail> {
    let mut guest = guest_over(
        rt.alloc(),
        memory(rt.alloc(), &[0x1000, 0x2000])?,
        &[(1, 1)],
    )?;
    for (i, row) in TORN.iter().enumerate() {
        assert!(rt; goes(&mut guest, row, true), "call {i}");
    }
    Ok(())
}
