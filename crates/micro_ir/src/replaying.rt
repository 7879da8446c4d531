ghost use Rattle.std.specs.Prelude.{◌≡◌, ℕ, ◌^◌, ◌<◌, ◌≤◌, ◌||◌, true, take, length};
ghost use Rattle.bit_laws.specs.Numbers.{bit_of};
ghost use Rattle.cam_chain.specs.ChainValue.{slices_of};
ghost use Rattle.reduce_tree.specs.Tags.{first_place};
ghost use Rattle.reduce_tree.specs.Weights.{num_after};
ghost use Rattle.steer_net.specs.Network.{is_width};
ghost use Rattle.micro_ir.specs.Replay.{effect, replay, finds_clipped, sets_clip, state_of, control_after, IsInRange, AllInRange, counts_in, counts_and, tally};
ghost use Rattle.micro_ir.specs.Subs.{subs_of};

use crate::buf::MicroBuf;
use crate::control::Control;
use crate::op::MicroOp;
use crate::pieces::SUBARRAYS;
use cam_chain::Chain;
use reduce_tree::{How, count, first, weighted};
use steer_net::{below, free, index, narrow, pack_mask, pick, slide, spread, window};

/// Carries out the first `first` operations in their order. The chain counts their searches,
/// updates and passes. The control numbers become those that the list leaves.
pub fn replay(chain: &mut Chain, ctl: &mut Control, buf: &MicroBuf, first: u32)
    requires within { first ≤ length buf.now.ops }
    requires in_range { AllInRange chain.old.columns (take first buf.now.ops) }
    requires searches { chain.old.counts.searches ≤ 2 ^ 99 }
    requires updates { chain.old.counts.updates ≤ 2 ^ 99 }
    requires passes { chain.old.counts.passes ≤ 2 ^ 99 }
    ensures slices { state_of chain.new ctl.new.num
        ≡ replay (take first buf.now.ops) (state_of chain.old ctl.old.num) }
    ensures control { ctl.new ≡ control_after (take first buf.now.ops) ctl.old chain.old }
    ensures counted { chain.new.counts
        ≡ counts_and chain.old.counts (tally (take first buf.now.ops)) }
    ensures columns { chain.new.columns ≡ chain.old.columns }
{
    let ops = buf.ops();
    for i in 0..first {
        apply(chain, ctl, &ops[i as usize]);
    }
}

/// Carries out one operation.
fn apply(chain: &mut Chain, ctl: &mut Control, op: &MicroOp)
    requires in_range { IsInRange chain.old.columns op.now }
    requires searches { chain.old.counts.searches < 2 ^ 100 }
    requires updates { chain.old.counts.updates < 2 ^ 100 }
    requires passes { chain.old.counts.passes < 2 ^ 100 }
    ensures slices { state_of chain.new ctl.new.num
        ≡ effect op.now (state_of chain.old ctl.old.num) }
    ensures clip { ctl.new.clip
        ≡ (ctl.old.clip || finds_clipped op.now (state_of chain.old ctl.old.num)) }
    ensures counted { chain.new.counts ≡ counts_and chain.old.counts (counts_in op.now) }
    ensures columns { chain.new.columns ≡ chain.old.columns }
{
    match op {
        MicroOp::Search { subs, keys, join } => chain.search(*subs, keys, *join),
        MicroOp::Update { subs, row, bit } => chain.update(*subs, *row, *bit),
        MicroOp::Pass { up, times } => chain.pass(*up, *times),
        MicroOp::Window {
            row,
            width,
            first,
            from,
            to,
            masked,
        } => window(chain, *row, *width, *first, *from, *to, *masked),
        MicroOp::Free {
            row,
            width,
            first,
            from,
            to,
            masked,
            tail,
            off,
        } => free(
            chain, *row, *width, *first, *from, *to, *masked, *tail, *off,
        ),
        MicroOp::PackMask {
            from,
            under,
            to,
            width,
            first,
        } => pack_mask(chain, *from, *under, *to, *width, *first),
        MicroOp::UpdateBy { row, width } => chain.update(chosen_subs(ctl.num, *width), *row, true),
        MicroOp::Spread {
            from,
            to,
            narrow,
            wide,
            part,
        } => spread(chain, *from, *to, *narrow, *wide, *part),
        MicroOp::Narrow {
            from,
            to,
            wide,
            part,
        } => narrow(chain, *from, *to, *wide, *part),
        MicroOp::Slide {
            to,
            base,
            width,
            first,
            up,
            by,
            limit,
        } => slide(chain, *to, *base, *width, *first, *up, *by, *limit),
        MicroOp::Pick {
            to,
            base,
            width,
            index,
            limit,
        } => pick(chain, *to, *base, *width, *index, *limit),
        MicroOp::Index { to, width, first } => index(chain, *to, *width, *first),
        MicroOp::SetNum { num } => ctl.num = *num,
        MicroOp::Count { subs, bit, how } => take_tags(ctl, count(chain, *subs), *bit, *how),
        MicroOp::First => ctl.num = first_tag(chain),
        MicroOp::Below { to, how } => below(chain, *to, *how, ctl.num),
    }
}

/// Takes a number of tags into the control numbers.
fn take_tags(ctl: &mut Control, tags: u32, bit: u8, how: How)
    requires { bit < 32 }
    ensures num { ctl.new.num ≡ num_after how ctl.old.num tags bit }
    ensures clip { ctl.new.clip ≡ (ctl.old.clip || sets_clip how tags) }
{
    ctl.num = weighted(ctl.num, tags, bit, how);
    ctl.clip = ctl.clip || (how == How::Clip && tags > 0);
}

/// The place of the first tag, or the greatest number of 32 bits where no tag is set.
fn first_tag(chain: &Chain) -> u64
    ensures { result ≡ first_place (slices_of chain.now) }
{
    match first(chain) {
        Some(place) => u64::from(place),
        None => u64::from(u32::MAX),
    }
}

/// The subarrays whose bit in their element of `width` bits is 1 in the number.
fn chosen_subs(num: u64, width: u8) -> u32
    requires { is_width width ≡ true }
    ensures { result ≡ subs_of width (bit_of num) }
{
    let mut subs: u32 = 0;
    for sub in 0..SUBARRAYS {
        let place = sub % u32::from(width);
        if (num >> place) & 1 == 1 {
            subs += 1 << sub;
        }
    }
    subs
}
