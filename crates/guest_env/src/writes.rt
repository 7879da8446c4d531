// The write call of a guest.
ghost use Rattle.std.specs.Prelude.{◌≡◌, ◌<◌, true, is_ok, OnErr, IfOk};
ghost use Rattle.cape_io.specs.Devices.{Rose};
ghost use Rattle.guest_mem.specs.Ranges.{range_bytes};
ghost use Rattle.rvv_meaning.specs.Calls.{is_output as output, is_readable, write_answer, write_bytes};
ghost use Rattle.guest_env.specs.Outputs.{bytes_out, bytes_err, IsWritten, FailsOf};

use crate::answers::{BAD_ADDRESS, BAD_DESCRIPTOR};
use crate::descriptors::{ERROR_OUTPUT, is_output};
use crate::ranges::is_allowed;
use cape_io::{Failed, Sink};
use guest_mem::{Mem, PAGE_SIZE, Perms};

// Writes the bytes of a range, a piece for each page that it meets, in the range's own order.
fn write_range<K: Sink>(mem: &Mem, address: u32, count: u32, sink: &mut K) -> Result<(), Failed>
    requires { is_readable mem.now.pages address count ≡ true }
    ensures written { IsWritten K.Sink address (range_bytes mem.now.pages address count) (is_ok result) sink.old sink.new }
    ensures some { OnErr result (0 < count) }
    ensures rose { OnErr result (Rose (K.faults sink.old) (K.faults sink.new)) }
{
    let mut at = address;
    let mut left = count;
    while left > 0 {
        let len = (PAGE_SIZE - at % PAGE_SIZE).min(left);
        sink.put(mem.bytes_in_page(at, len))?;
        at = at.wrapping_add(len);
        left -= len;
    }
    Ok(())
}

// What write(descriptor, address, count) answers, after its bytes were written. A call that is refused writes nothing.
pub(crate) fn write<O: Sink, E: Sink>(
    mem: &Mem,
    descriptor: u32,
    address: u32,
    count: u32,
    out: &mut O,
    err: &mut E,
    merged: bool,
) -> Result<u32, Failed>
    ensures answer { IfOk result (λ answer. answer ≡ write_answer mem.now.pages descriptor address count) }
    ensures to_out { IsWritten O.Sink address (bytes_out merged descriptor (write_bytes mem.now.pages descriptor address count)) (is_ok result) out.old out.new }
    ensures to_err { IsWritten E.Sink address (bytes_err merged descriptor (write_bytes mem.now.pages descriptor address count)) (is_ok result) err.old err.new }
    ensures allowed { OnErr result (output descriptor ≡ true) }
    ensures inside { OnErr result (is_readable mem.now.pages address count ≡ true) }
    ensures some { OnErr result (0 < count) }
    ensures rose { OnErr result (FailsOf O.Sink E.Sink merged descriptor out.old out.new err.old err.new) }
{
    if !is_output(descriptor) {
        return Ok(BAD_DESCRIPTOR);
    }
    if !is_allowed(mem, address, count, Perms::READ) {
        return Ok(BAD_ADDRESS);
    }
    if merged || descriptor == ERROR_OUTPUT {
        write_range(mem, address, count, err)?;
    } else {
        write_range(mem, address, count, out)?;
    }
    Ok(count)
}
