// Why an image is refused.
ghost use Rattle.std.specs.Prelude.{◌≡◌, ◌≤◌, length};
ghost use Rattle.elf_load.specs.Names.{number_of, name_of};

// The most characters of a fault's name.
const NAME_LIMIT: usize = 16;

/// The fault of an image, in the order in which they are looked for; or that there is not enough memory, which is said
/// only of an image without a fault.
#[derive(Clone, Copy, PartialEq, Eq)]
pub enum LoadFault {
    /// The image has more than 33,554,432 bytes.
    TooBig,
    /// It has fewer bytes than a header.
    TooShort,
    /// It does not begin with 7F 45 4C 46.
    BadMagic,
    /// Its class is not that of 32 bits.
    NotElf32,
    /// Its numbers do not have their lowest byte first.
    NotLittleEndian,
    /// One of its two versions is not 1.
    BadVersion,
    /// It is no executable file.
    NotExecutable,
    /// It is for another machine than RISC-V.
    NotRiscv,
    /// It says that it has compressed code.
    Compressed,
    /// It has program headers of another size than 32 bytes.
    BadPhentsize,
    /// It has more than 64 program headers.
    TooManyHeaders,
    /// Its program headers end after its last byte.
    HeadersPastEnd,
    /// It asks for a dynamic linker.
    Dynamic,
    /// The file holds more bytes of a segment than memory does.
    FileszAboveMemsz,
    /// A segment's bytes end after the last byte of the file.
    SegmentPastFile,
    /// A segment ends above FFFFF000.
    SegmentWraps,
    /// Two segments share a byte of memory.
    Overlap,
    /// A segment has a byte of the stack.
    OverStack,
    /// More than 16,384 pages would be mapped, stack and heap included.
    TooLarge,
    /// There is no segment.
    NoSegments,
    /// The entry is not a multiple of 4, or its page may not be executed.
    BadEntry,
    /// There is not enough memory to lay out an image that has no fault.
    NoMemory,
}

impl LoadFault {
    /// The number of the fault in the order in which faults are looked for, from 1; 0 for `NoMemory`.
    pub fn number(&self) -> u8
        ensures { result ≡ number_of self.now }
    {
        match self {
            LoadFault::NoMemory => 0,
            LoadFault::TooBig => 1,
            LoadFault::TooShort => 2,
            LoadFault::BadMagic => 3,
            LoadFault::NotElf32 => 4,
            LoadFault::NotLittleEndian => 5,
            LoadFault::BadVersion => 6,
            LoadFault::NotExecutable => 7,
            LoadFault::NotRiscv => 8,
            LoadFault::Compressed => 9,
            LoadFault::BadPhentsize => 10,
            LoadFault::TooManyHeaders => 11,
            LoadFault::HeadersPastEnd => 12,
            LoadFault::Dynamic => 13,
            LoadFault::FileszAboveMemsz => 14,
            LoadFault::SegmentPastFile => 15,
            LoadFault::SegmentWraps => 16,
            LoadFault::Overlap => 17,
            LoadFault::OverStack => 18,
            LoadFault::TooLarge => 19,
            LoadFault::NoSegments => 20,
            LoadFault::BadEntry => 21,
        }
    }

    /// The name of the fault, as it is written here.
    #[tactic(auto, unfolding(crate::specs::Names::name_of))]
    pub fn name(&self) -> &'static str
        ensures text { result.now ≡ name_of self.now }
        ensures short { length result.now ≤ NAME_LIMIT }
    {
        match self {
            LoadFault::TooBig => "TooBig",
            LoadFault::TooShort => "TooShort",
            LoadFault::BadMagic => "BadMagic",
            LoadFault::NotElf32 => "NotElf32",
            LoadFault::NotLittleEndian => "NotLittleEndian",
            LoadFault::BadVersion => "BadVersion",
            LoadFault::NotExecutable => "NotExecutable",
            LoadFault::NotRiscv => "NotRiscv",
            LoadFault::Compressed => "Compressed",
            LoadFault::BadPhentsize => "BadPhentsize",
            LoadFault::TooManyHeaders => "TooManyHeaders",
            LoadFault::HeadersPastEnd => "HeadersPastEnd",
            LoadFault::Dynamic => "Dynamic",
            LoadFault::FileszAboveMemsz => "FileszAboveMemsz",
            LoadFault::SegmentPastFile => "SegmentPastFile",
            LoadFault::SegmentWraps => "SegmentWraps",
            LoadFault::Overlap => "Overlap",
            LoadFault::OverStack => "OverStack",
            LoadFault::TooLarge => "TooLarge",
            LoadFault::NoSegments => "NoSegments",
            LoadFault::BadEntry => "BadEntry",
            LoadFault::NoMemory => "NoMemory",
        }
    }
}
