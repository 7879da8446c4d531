// The fields of a word.
ghost use Rattle.std.specs.Prelude.{◌≡◌, ◌+◌, ◌^◌, ◌<◌, ◌≤◌};
ghost use Rattle.word_rows.specs.Field.{field, sign_extended};
ghost use Rattle.rv32_decode.specs.Formats.{opcode_of, f3_of, f7_of, rd_of, rs1_of, rs2_of};

// Where the fields of a word begin.
pub const RD: u32 = 7;

pub const FUNCT3: u32 = 12;

pub const RS1: u32 = 15;

pub const RS2: u32 = 20;

pub const FUNCT7: u32 = 25;

// The bits of a word from bit `low` on, `width` of them.
pub fn bits_at(word: u32, low: u32, width: u32) -> u32
    requires inside { low < 32 }
    requires narrow { width < 32 }
    ensures value { result ≡ field low width word }
    ensures bound { result < 2 ^ width }
{
    (word >> low) & ((1 << width) - 1)
}

// A number of `width` bits with its sign in each bit above them.
pub fn extend_sign(number: u32, width: u32) -> u32
    requires positive { 0 < width }
    requires narrow { width < 32 }
    requires fits { number < 2 ^ width }
    ensures { result ≡ sign_extended width number }
{
    if number < 1 << (width - 1) {
        number
    } else {
        number + (u32::MAX - ((1 << width) - 1))
    }
}

pub fn opcode(word: u32) -> u32
    ensures { result ≡ opcode_of word }
{
    bits_at(word, 0, 7)
}

pub fn funct3(word: u32) -> u32
    ensures { result ≡ f3_of word }
{
    bits_at(word, FUNCT3, 3)
}

pub fn funct7(word: u32) -> u32
    ensures { result ≡ f7_of word }
{
    bits_at(word, FUNCT7, 7)
}

pub fn rd(word: u32) -> u8
    ensures { result ≡ rd_of word }
{
    bits_at(word, RD, 5) as u8
}

pub fn rs1(word: u32) -> u8
    ensures { result ≡ rs1_of word }
{
    bits_at(word, RS1, 5) as u8
}

pub fn rs2(word: u32) -> u8
    ensures { result ≡ rs2_of word }
{
    bits_at(word, RS2, 5) as u8
}
