//! The kinds of operation and the widths of elements, and their names.
ghost use Rattle.std.specs.Prelude.{◌≡◌};
ghost use Rattle.library_probe.specs.Names.{size_in, bitwise_in, sum_in, truth_in, choice_in, shift_in, source_in, product_in, division_in, kind_in};

/// A width of elements.
#[derive(Clone, Copy)]
pub(crate) enum Size {
    Byte,
    Half,
    Word,
}

/// The kinds that act bit by bit.
#[derive(Clone, Copy)]
pub(crate) enum Bitwise {
    And,
    Or,
    Xor,
    Nand,
    Nor,
    Xnor,
    Andn,
    Orn,
    Move,
    Merge,
}

/// Sums and differences.
#[derive(Clone, Copy)]
pub(crate) enum Added {
    Add,
    Sub,
    Adc,
    Sbc,
}

/// Comparisons, and the carries out of sums and differences.
#[derive(Clone, Copy)]
pub(crate) enum Truth {
    Madc,
    MadcIn,
    Msbc,
    MsbcIn,
    Eq,
    Ne,
    Ltu,
    Lt,
    Leu,
    Le,
    Gtu,
    Gt,
}

/// The lesser and the greater of two.
#[derive(Clone, Copy)]
pub(crate) enum Choice {
    Minu,
    Min,
    Maxu,
    Max,
}

/// Shifts, into a register and without a commit.
#[derive(Clone, Copy)]
pub(crate) enum Shifted {
    Sll,
    Srl,
    Sra,
    SrlRaw,
    SraRaw,
}

/// The bits of the numbers that are extended by their sign.
#[derive(Clone, Copy)]
pub(crate) enum Source {
    Eight,
    Sixteen,
}

/// Products, their high halves, and multiply-adds.
#[derive(Clone, Copy)]
pub(crate) enum Multiplied {
    Mul,
    Mulhu,
    Mulhsu,
    Mulh,
    Macc,
    Nmsac,
}

/// Quotients and remainders.
#[derive(Clone, Copy)]
pub(crate) enum Divided {
    Divu,
    Remu,
    Div,
    Rem,
}

/// A kind of operation.
#[derive(Clone, Copy)]
pub(crate) enum Kind {
    Bits(Bitwise),
    Sum(Added),
    Tells(Truth),
    Chooses(Choice),
    Shifts(Shifted),
    Extends(Source),
    Multiplies(Multiplied),
    Divides(Divided),
}

/// The width that a word names.
pub(crate) fn size_named(word: &str) -> Option<Size>
    ensures { result ≡ size_in word.now }
{
    match word {
        "8" => Some(Size::Byte),
        "16" => Some(Size::Half),
        "32" => Some(Size::Word),
        _ => None,
    }
}

/// The kind that acts bit by bit of this name.
fn bitwise_named(word: &str) -> Option<Bitwise>
    ensures { result ≡ bitwise_in word.now }
{
    match word {
        "and" => Some(Bitwise::And),
        "or" => Some(Bitwise::Or),
        "xor" => Some(Bitwise::Xor),
        "nand" => Some(Bitwise::Nand),
        "nor" => Some(Bitwise::Nor),
        "xnor" => Some(Bitwise::Xnor),
        "andn" => Some(Bitwise::Andn),
        "orn" => Some(Bitwise::Orn),
        "move" => Some(Bitwise::Move),
        "merge" => Some(Bitwise::Merge),
        _ => None,
    }
}

/// The sum or difference of this name.
fn sum_named(word: &str) -> Option<Added>
    ensures { result ≡ sum_in word.now }
{
    match word {
        "add" => Some(Added::Add),
        "sub" => Some(Added::Sub),
        "adc" => Some(Added::Adc),
        "sbc" => Some(Added::Sbc),
        _ => None,
    }
}

/// The comparison or carry of this name.
fn truth_named(word: &str) -> Option<Truth>
    ensures { result ≡ truth_in word.now }
{
    match word {
        "madc" => Some(Truth::Madc),
        "madc_in" => Some(Truth::MadcIn),
        "msbc" => Some(Truth::Msbc),
        "msbc_in" => Some(Truth::MsbcIn),
        "eq" => Some(Truth::Eq),
        "ne" => Some(Truth::Ne),
        "ltu" => Some(Truth::Ltu),
        "lt" => Some(Truth::Lt),
        "leu" => Some(Truth::Leu),
        "le" => Some(Truth::Le),
        "gtu" => Some(Truth::Gtu),
        "gt" => Some(Truth::Gt),
        _ => None,
    }
}

/// The choice of one of two of this name.
fn choice_named(word: &str) -> Option<Choice>
    ensures { result ≡ choice_in word.now }
{
    match word {
        "minu" => Some(Choice::Minu),
        "min" => Some(Choice::Min),
        "maxu" => Some(Choice::Maxu),
        "max" => Some(Choice::Max),
        _ => None,
    }
}

/// The shift of this name.
fn shift_named(word: &str) -> Option<Shifted>
    ensures { result ≡ shift_in word.now }
{
    match word {
        "sll" => Some(Shifted::Sll),
        "srl" => Some(Shifted::Srl),
        "sra" => Some(Shifted::Sra),
        "srl_raw" => Some(Shifted::SrlRaw),
        "sra_raw" => Some(Shifted::SraRaw),
        _ => None,
    }
}

/// The extension of this name.
fn source_named(word: &str) -> Option<Source>
    ensures { result ≡ source_in word.now }
{
    match word {
        "sext_8" => Some(Source::Eight),
        "sext_16" => Some(Source::Sixteen),
        _ => None,
    }
}

/// The product of this name.
fn product_named(word: &str) -> Option<Multiplied>
    ensures { result ≡ product_in word.now }
{
    match word {
        "mul" => Some(Multiplied::Mul),
        "mulhu" => Some(Multiplied::Mulhu),
        "mulhsu" => Some(Multiplied::Mulhsu),
        "mulh" => Some(Multiplied::Mulh),
        "macc" => Some(Multiplied::Macc),
        "nmsac" => Some(Multiplied::Nmsac),
        _ => None,
    }
}

/// The quotient or remainder of this name.
fn division_named(word: &str) -> Option<Divided>
    ensures { result ≡ division_in word.now }
{
    match word {
        "divu" => Some(Divided::Divu),
        "remu" => Some(Divided::Remu),
        "div" => Some(Divided::Div),
        "rem" => Some(Divided::Rem),
        _ => None,
    }
}

/// The kind that a word names.
pub(crate) fn kind_named(word: &str) -> Option<Kind>
    ensures { result ≡ kind_in word.now }
{
    if let Some(kind) = bitwise_named(word) {
        Some(Kind::Bits(kind))
    } else if let Some(kind) = sum_named(word) {
        Some(Kind::Sum(kind))
    } else if let Some(kind) = truth_named(word) {
        Some(Kind::Tells(kind))
    } else if let Some(kind) = choice_named(word) {
        Some(Kind::Chooses(kind))
    } else if let Some(kind) = shift_named(word) {
        Some(Kind::Shifts(kind))
    } else if let Some(source) = source_named(word) {
        Some(Kind::Extends(source))
    } else if let Some(kind) = product_named(word) {
        Some(Kind::Multiplies(kind))
    } else if let Some(kind) = division_named(word) {
        Some(Kind::Divides(kind))
    } else {
        None
    }
}
