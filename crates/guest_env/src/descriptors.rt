// The descriptors that a guest has from its start, and the calls on them that move no bytes.
ghost use Rattle.std.specs.Prelude.{◌≡◌};
ghost use Rattle.rvv_meaning.specs.Calls.{close_answer, is_input as input, is_open as opened, is_output as output, seek_answer};

use crate::answers::{BAD_DESCRIPTOR, NO_SEEK};

// The input, the output and the error output.
const INPUT: u32 = 0;

const OUTPUT: u32 = 1;

pub(crate) const ERROR_OUTPUT: u32 = 2;

// Whether a guest may read from a descriptor.
pub(crate) fn is_input(descriptor: u32) -> bool
    ensures { result ≡ input descriptor }
{
    descriptor == INPUT
}

// Whether a guest may write to a descriptor.
pub(crate) fn is_output(descriptor: u32) -> bool
    ensures { result ≡ output descriptor }
{
    descriptor == OUTPUT || descriptor == ERROR_OUTPUT
}

// Whether a descriptor is open.
fn is_open(descriptor: u32) -> bool
    ensures { result ≡ opened descriptor }
{
    is_input(descriptor) || is_output(descriptor)
}

// What close(descriptor) answers. The descriptor stays open.
pub(crate) fn close(descriptor: u32) -> u32
    ensures { result ≡ close_answer descriptor }
{
    if is_open(descriptor) {
        0
    } else {
        BAD_DESCRIPTOR
    }
}

// What llseek(descriptor, ..) answers.
pub(crate) fn seek(descriptor: u32) -> u32
    ensures { result ≡ seek_answer descriptor }
{
    if is_open(descriptor) {
        NO_SEEK
    } else {
        BAD_DESCRIPTOR
    }
}
