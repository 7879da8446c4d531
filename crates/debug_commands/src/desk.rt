// What a session holds beside its machine.
ghost use Rattle.std.specs.Prelude.{◌≡◌, ◌+◌, ◌*◌, ◌/◌, ◌<◌, ◌≤◌, ◌^◌, ℕ, [], length, true, false, IfOk, IfSome, is_ok};
ghost use Rattle.cam_chain.specs.ChainValue.{slices_of};
ghost use Rattle.cape_io.specs.Views.{Writes};
ghost use Rattle.machine.specs.Moments.{program_at};
ghost use Rattle.micro_ir.specs.Replay.{AllInRange, state_of};
ghost use Rattle.debug_commands.specs.Commands.{place_from, place_among, toggled, stands, most_pages, program_or_none, replayed, replayed_text, is_among as stands_among};

use arrayvec::ArrayVec;
use cam_chain::Chain;
use cape_io::{Failed, Sink};
use debug_texts::{write_replayed, write_text};
use machine::Machine;
use micro_ir::{Control, MicroBuf, replay};
use std::alloc::{AllocError as NoMemory, Global};
use std::marker::Model;

// The most micro-operations of one instruction.
const ROOM: u32 = 262_144;

// The most breaks of a session.
const MOST_BREAKS: usize = 64;

// The most pages that a session maps.
const MOST_PAGES: u32 = 4096;

// The control numbers that a program starts from.
const CLEARED: Control = Control {
    num: 0,
    clip: false,
};

// What is told of a number outside its range.
pub(crate) const RANGE: &[u8] = b"? range\n";

/// The breaks of a session, how many pages it mapped, and a second chain and a list, on which programs are tried out. After
/// `new` it takes no memory.
#[derive(Drop)]
pub struct Desk {
    breaks: ArrayVec<u32, 64>,
    pages: u32,
    chain: Chain,
    buf: MicroBuf,
}

impl Model for Desk {
    ghost use Rattle.std.specs.Prelude.{◌≡◌, ◌+◌, ◌≤◌, length};
    ghost use Rattle.debug_commands.specs.Sittings.{DeskValue};
    ghost use Rattle.debug_commands.specs.Commands.{most_pages};

    ghost Value = { DeskValue };

    ghost view = { λ d. record { breaks = d.breaks.items; pages = d.pages; columns = d.chain.columns } };

    ghost invariant = { λ d. record {
      room : length d.buf.ops + d.buf.spare ≡ 262144;
      few : d.pages ≤ most_pages;
    } };
}

// The place of an address among breaks.
fn place_of(address: u32, breaks: &[u32]) -> Option<usize>
    ensures value { result ≡ place_among address breaks.now }
    ensures inside { IfSome result (λ i. i < length breaks.now) }
{
    for (i, b) in breaks.iter().enumerate() {
        if address == *b {
            return Some(i);
        }
    }
    None
}

/// Whether an address is among breaks.
pub(crate) fn is_among(address: u32, breaks: &[u32]) -> bool
    ensures { result ≡ stands_among address breaks.now }
{
    place_of(address, breaks).is_some()
}

impl Desk {
    /// A desk without breaks, for a machine whose slices have so many columns.
    pub fn new(alloc: Global, columns: u32) -> Result<Desk, NoMemory>
        requires some { 1 ≤ columns }
        requires few { columns ≤ 2048 }
        ensures breaks { IfOk result (λ d. d.breaks ≡ []) }
        ensures pages { IfOk result (λ d. d.pages ≡ 0) }
        ensures columns { IfOk result (λ d. d.columns ≡ columns) }
    {
        Ok(Desk {
            breaks: ArrayVec::new(),
            pages: 0,
            chain: Chain::new(alloc, columns)?,
            buf: MicroBuf::new(alloc, ROOM)?,
        })
    }

    /// The breaks.
    pub fn breaks(&self) -> &[u32]
        ensures { result.now ≡ self.now.breaks }
    {
        self.breaks.as_slice()
    }

    /// Takes a break away where it stands, and else adds it where there is room, and tells whether it stands then. `None`
    /// where there was no room.
    #[tactic(auto, unfolding(crate::specs::Commands::toggled, crate::specs::Commands::stands))]
    pub fn toggle(&mut self, address: u32) -> Option<bool>
        ensures breaks { self.new ≡ record self.old { breaks = toggled address self.old.breaks } }
        ensures stands { result ≡ stands address self.old.breaks }
    {
        match place_of(address, self.breaks.as_slice()) {
            Some(place) => {
                self.breaks.remove(place);
                Some(false)
            }
            None => {
                if self.breaks.len() < MOST_BREAKS {
                    self.breaks.push(address);
                    Some(true)
                } else {
                    None
                }
            }
        }
    }

    /// Whether the session may map one more page.
    pub fn has_pages(&self) -> bool
        ensures more { result ≡ true → self.now.pages < most_pages }
        ensures none { result ≡ false → self.now.pages ≡ most_pages }
    {
        self.pages < MOST_PAGES
    }

    /// Counts a page that was mapped.
    pub fn count_page(&mut self)
        requires { self.old.pages < most_pages }
        ensures { self.new ≡ record self.old { pages = self.old.pages + 1 } }
    {
        self.pages += 1;
    }

    /// Writes the line of a row and the tags of a subarray after the first `k` operations of the program of the instruction
    /// at pc, which are replayed from the present slices on the second chain; the machine stays. Where the program is
    /// shorter, the number has no range.
    #[tactic(auto, unfolding(crate::specs::Commands::replayed_text))]
    pub fn write_ustep<O: Sink>(
        &mut self,
        machine: &Machine,
        k: u32,
        sub: u8,
        row: u8,
        out: &mut O,
    ) -> Result<(), Failed>
        requires subarray { sub < 32 }
        requires row { row < 64 }
        requires length { machine.now.core.csrs.vlen ≡ 32 * self.old.columns }
        requires count { machine.now.core.csrs.retired ≤ 2 ^ 63 }
        ensures stays { self.new ≡ self.old }
        ensures text { Writes O.Sink (replayed_text k sub row (program_or_none (program_at machine.now.core)) (slices_of machine.now.chain)) (is_ok result) out.old out.new }
    {
        plan_at(machine, &mut self.buf);
        if k as usize > self.buf.ops().len() {
            return write_text(RANGE, out);
        }
        replay_first(machine, &mut self.chain, &self.buf, k);
        write_replayed(k, &self.chain, sub, row, out)
    }
}

// Writes the program of the instruction at pc, or an empty list where it has none.
fn plan_at(machine: &Machine, buf: &mut MicroBuf)
    requires room { length buf.old.ops + buf.old.spare ≡ 262144 }
    ensures program { buf.new.ops ≡ program_or_none (program_at machine.now.core) }
    ensures range { AllInRange (machine.now.core.csrs.vlen / 32) buf.new.ops }
    ensures room { length buf.new.ops + buf.new.spare ≡ 262144 }
{
    machine.plan_next(buf);
}

// Makes a chain that of a machine, and replays the first operations of a list on it.
fn replay_first(machine: &Machine, chain: &mut Chain, buf: &MicroBuf, k: u32)
    requires length { machine.now.core.csrs.vlen ≡ 32 * chain.old.columns }
    requires count { machine.now.core.csrs.retired ≤ 2 ^ 63 }
    requires within { k ≤ length buf.now.ops }
    requires range { AllInRange (machine.now.core.csrs.vlen / 32) buf.now.ops }
    ensures slices { (num : ℕ) × (state_of chain.new num ≡ replayed k buf.now.ops (slices_of machine.now.chain)) }
    ensures columns { chain.new.columns ≡ chain.old.columns }
{
    let _columns = machine.columns();
    let _counts = machine.counts();
    chain.copy_from(machine.chain());
    let mut control = CLEARED;
    replay(chain, &mut control, buf, k);
}
