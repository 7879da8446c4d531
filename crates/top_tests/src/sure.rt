// A run over devices that never fail, and that do not tell what they hold.
use cape_io::{SureFiles, SureSink, SureSource};
use cape_top::{Status, cape};
use guest_images::image_of;
use std::alloc::Global;
use std::test::Fail;

// A guest that exits with 7: addi x10, x0, 7; vsetivli x0, 4, e32, m1, ta, ma; vmv.v.x v1, x10; vxor.vv v2, v1, v1;
// addi x17, x0, 93; ecall
const SPLAT: [u32; 6] = [
    0x00700513, 0xcd027057, 0x5e0540d7, 0x2e108157, 0x05d00893, 0x00000073,
];

// The length of `cape: exited 7 after 6` and its end.
const LINE: u64 = 23;

// Whether a run of the image exits with 7, and its outputs count what it puts.
fn exits_with_seven(alloc: Global) -> Result<bool, Fail> {
    let words = [
        String::from_str(alloc, "run")?,
        String::from_str(alloc, "A")?,
    ];
    let mut files = SureFiles::new(alloc, words.as_slice());
    let image = image_of(alloc, SPLAT.as_slice())?;
    files.add(alloc, "A", &image)?;
    let mut input = SureSource::new(alloc, &[], 1)?;
    let mut out = SureSink::new();
    let mut err = SureSink::new();
    let mut kept = None;
    let status = cape(
        alloc,
        words.as_slice(),
        &mut files,
        &mut input,
        &mut out,
        &mut err,
        &mut kept,
    );
    Ok(status == Status::Exited(7) && out.len() == 0 && err.len() == LINE && kept.is_some())
}

#[test]
fn a_run_over_sure_devices_ends_the_same(rt: HostRuntime) -> Result<(), Fail> {
    assert!(rt; exits_with_seven(rt.alloc())?);
    Ok(())
}
