//! Vector instructions: their names, their forms and their fields (version 1.0 of the vector extension).
use crate::encode::{config_word, memory_word, opi_word, opm_word};

/// What the second source of an arithmetic instruction is. Instructions with no such choice have `V`.
#[derive(Clone, Copy, PartialEq, Eq, Debug)]
pub enum Form {
    /// A vector register.
    V,
    /// A scalar register.
    X,
    /// An immediate of 5 bits.
    I,
}

/// The integer, fixed-point and permutation instructions of OPIVV, OPIVX and OPIVI words (section 19), named by
/// their mnemonics without the form.
#[derive(Clone, Copy, PartialEq, Eq)]
pub enum OpiOp {
    Vadd,
    Vsub,
    Vrsub,
    Vminu,
    Vmin,
    Vmaxu,
    Vmax,
    Vand,
    Vor,
    Vxor,
    Vrgather,
    Vrgatherei16,
    Vslideup,
    Vslidedown,
    Vadc,
    Vmadc,
    Vsbc,
    Vmsbc,
    Vmerge,
    /// `vmv.v.v`, `vmv.v.x` and `vmv.v.i`.
    VmvV,
    Vmseq,
    Vmsne,
    Vmsltu,
    Vmslt,
    Vmsleu,
    Vmsle,
    Vmsgtu,
    Vmsgt,
    Vsaddu,
    Vsadd,
    Vssubu,
    Vssub,
    Vsll,
    Vsmul,
    /// `vmv1r.v`, `vmv2r.v`, `vmv4r.v` and `vmv8r.v`.
    VmvWhole,
    Vsrl,
    Vsra,
    Vssrl,
    Vssra,
    Vnsrl,
    Vnsra,
    Vnclipu,
    Vnclip,
    Vwredsumu,
    Vwredsum,
}

/// The multiply, divide, reduction, mask and widening instructions of OPMVV and OPMVX words (section 19), named by
/// their mnemonics without the form. A last `W` is that of a wide `vs2`, as in `vwaddu.w`.
#[derive(Clone, Copy, PartialEq, Eq)]
pub enum OpmOp {
    Vredsum,
    Vredand,
    Vredor,
    Vredxor,
    Vredminu,
    Vredmin,
    Vredmaxu,
    Vredmax,
    Vaaddu,
    Vaadd,
    Vasubu,
    Vasub,
    Vslide1up,
    Vslide1down,
    /// `vmv.x.s`.
    VmvXS,
    Vcpop,
    Vfirst,
    /// `vmv.s.x`.
    VmvSX,
    VzextVf4,
    VsextVf4,
    VzextVf2,
    VsextVf2,
    Vmsbf,
    Vmsof,
    Vmsif,
    Viota,
    Vid,
    Vcompress,
    Vmandn,
    Vmand,
    Vmor,
    Vmxor,
    Vmorn,
    Vmnand,
    Vmnor,
    Vmxnor,
    Vdivu,
    Vdiv,
    Vremu,
    Vrem,
    Vmulhu,
    Vmul,
    Vmulhsu,
    Vmulh,
    Vmadd,
    Vnmsub,
    Vmacc,
    Vnmsac,
    Vwaddu,
    Vwadd,
    Vwsubu,
    Vwsub,
    VwadduW,
    VwaddW,
    VwsubuW,
    VwsubW,
    Vwmulu,
    Vwmulsu,
    Vwmul,
    Vwmaccu,
    Vwmacc,
    Vwmaccus,
    Vwmaccsu,
}

/// The instructions that set the vector type and length (section 6).
#[derive(Clone, Copy, PartialEq, Eq, Debug)]
pub enum ConfigOp {
    Vsetvli,
    Vsetivli,
    Vsetvl,
}

/// Loads and stores, by addressing mode and by what a unit stride moves (section 7). Those of segments have no names
/// of their own.
#[derive(Clone, Copy, PartialEq, Eq, Debug)]
pub enum MemoryOp {
    /// `vle` and `vlseg`.
    LoadUnitStride,
    /// `vl1re` to `vl8re`.
    LoadWholeRegister,
    /// `vlm`.
    LoadMask,
    /// `vleff` and `vlsegff`.
    LoadFaultOnlyFirst,
    /// `vluxei` and `vluxseg`.
    LoadIndexedUnordered,
    /// `vlse` and `vlsseg`.
    LoadStrided,
    /// `vloxei` and `vloxseg`.
    LoadIndexedOrdered,
    /// `vse` and `vsseg`.
    StoreUnitStride,
    /// `vs1r` to `vs8r`.
    StoreWholeRegister,
    /// `vsm`.
    StoreMask,
    /// `vsuxei` and `vsuxseg`.
    StoreIndexedUnordered,
    /// `vsse` and `vssseg`.
    StoreStrided,
    /// `vsoxei` and `vsoxseg`.
    StoreIndexedOrdered,
}

/// The name of a vector instruction, by the kind of word that it has.
#[derive(Clone, Copy, PartialEq, Eq)]
pub enum VOp {
    /// OPIVV, OPIVX or OPIVI.
    Opi(OpiOp),
    /// OPMVV or OPMVX.
    Opm(OpmOp),
    /// OPCFG.
    Config(ConfigOp),
    /// A load or a store.
    Memory(MemoryOp),
}

/// A vector instruction with its fields. What an instruction has no field for is 0, false or `V`.
#[derive(Clone, Copy, PartialEq, Eq)]
pub struct VInstr {
    pub op: VOp,
    pub form: Form,
    /// Bits 11:7: `vd`, `vs3` of a store, or `rd`.
    pub vd: u8,
    /// Bits 19:15: `vs1`, `rs1`, or the immediate as it stands in the word, signed or not.
    pub vs1: u8,
    /// Bits 24:20: `vs2`, `rs2`, or what a unit-stride load or store moves.
    pub vs2: u8,
    /// Bit 25, which is 1 where no mask applies; false of a configuration.
    pub vm: bool,
    /// How many fields a segment has, or how many registers a whole-register load or store moves: 1 to 8.
    pub nf: u8,
    /// The width in bits that a load or store encodes, of its elements or of its indices: 8, 16 or 32.
    pub eew: u8,
    /// The vector type as an immediate: 11 bits of `vsetvli`, 10 bits of `vsetivli`.
    pub zimm: u16,
}

impl VInstr {
    ghost use Rattle.std.specs.Prelude.{◌≡◌, ℕ, ◌^◌, ◌<◌, Some};
    ghost use Rattle.rvv_decode.specs.Rows.{means, HasWord};

    /// The word that means this instruction. Some word must mean it, as of one that `decode_v` gave.
    pub fn bits(&self) -> u32
        requires { HasWord self.now }
        ensures { (word : ℕ) → word < 2 ^ 32 → means word ≡ Some self.now → result ≡ word }
    {
        match self.op {
            VOp::Opi(op) => opi_word(op, self),
            VOp::Opm(op) => opm_word(op, self),
            VOp::Config(op) => config_word(op, self),
            VOp::Memory(op) => memory_word(op, self),
        }
    }
}
