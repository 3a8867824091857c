use super::runs::boxed;
use merge_tree::TreeFault;
use refusals::{Refusal, tell};
use seg_io::{MemoryDesk, Port};
use std::alloc::Global;
use std::process::Abort;
use std::test::Fail;
use volume_file::VolumeFault;

/// Refusals that no case of a whole run has: those with the greatest numbers, and want of memory.
static REFUSALS: [(u8, Refusal, &str); 7] = [
    (1, Refusal::Memory, "agglo: out of memory\n"),
    (
        3,
        Refusal::Volume(VolumeFault::Channels(4_294_967_295)),
        "agglo: volume fault 3: 4294967295 channels\n",
    ),
    (
        3,
        Refusal::Volume(VolumeFault::AxisLarge(2)),
        "agglo: volume fault 6: axis 2 is above 65535\n",
    ),
    (
        3,
        Refusal::Volume(VolumeFault::Truncated(805_306_367)),
        "agglo: volume fault 8: body of 805306367 bytes\n",
    ),
    (
        4,
        Refusal::Leaves(18_446_744_073_709_551_615),
        "agglo: 18446744073709551615 leaves are too many\n",
    ),
    (
        7,
        Refusal::Tree(TreeFault::Truncated(8_589_934_561)),
        "agglo: tree fault 6: body of 8589934561 bytes\n",
    ),
    (
        7,
        Refusal::Tree(TreeFault::Below(268_435_454)),
        "agglo: tree fault 11: record 268435454\n",
    ),
];

/// Tells a refusal on a desk with this room on each port, and compares whether all of it went out, and what did.
fn check<R: Abort>(rt: &R, desk: &mut MemoryDesk, refusal: &Refusal, wanted: (bool, &str)) {
    let whole = tell(desk, refusal).is_ok();
    let line = desk.written(Port::Trouble);
    assert!(rt;
        whole == wanted.0 && line == wanted.1.as_bytes(),
        "no {}",
        wanted.1
    );
}

fn check_with_room<R: Abort>(
    rt: &R,
    alloc: Global,
    room: usize,
    refusal: &Refusal,
    wanted: (bool, &str),
) -> Result<(), Fail> {
    let mut desk = boxed(alloc, room)?;
    check(rt, &mut *desk, refusal, wanted);
    Ok(())
}

#[test]
fn lines_have_their_numbers_and_are_cut_without_room(rt: HostRuntime) -> Result<(), Fail> {
    let alloc = rt.alloc();
    for (status, refusal, line) in &REFUSALS {
        assert_eq!(rt; refusal.status(), *status, "of {line}");
        check_with_room(&rt, alloc, 100, refusal, (true, line))?;
    }
    let refusal = Refusal::Leaves(70_000);
    check_with_room(&rt, alloc, 10, &refusal, (false, "agglo: 700"))
}
