// The numbers of the calls.
ghost use Rattle.std.specs.Prelude.{◌≡◌};
ghost use Rattle.rvv_meaning.specs.Calls.{call_of as named};

use rvv_meaning::Call;

const READ: u32 = 63;

const WRITE: u32 = 64;

const EXIT: u32 = 93;

const EXIT_GROUP: u32 = 94;

const BREAK: u32 = 214;

const CLOSE: u32 = 57;

const SEEK: u32 = 62;

// Which call a number names.
#[tactic(auto, unfolding(rvv_meaning::specs::Calls::call_of))]
pub(crate) fn call_of(number: u32) -> Call
    ensures { result ≡ named number }
{
    match number {
        READ => Call::Read,
        WRITE => Call::Write,
        EXIT | EXIT_GROUP => Call::Exit,
        BREAK => Call::Break,
        CLOSE => Call::Close,
        SEEK => Call::Seek,
        _ => Call::Unknown,
    }
}
