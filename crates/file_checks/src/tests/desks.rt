use crate::tests::{boxed, failing};
use seg_io::{
    CallKind, Desk, Failed, MemoryDesk, Piecer, Port, Side, fill, put_all, u32_at, u64_at,
};
use std::test::Fail;

/// Opens the file `in`, fills the buffer from it, and answers how many bytes came.
fn fill_from_file(desk: &mut MemoryDesk, buffer: &mut [u8]) -> Option<usize> {
    desk.open_in("in").ok()?;
    fill(desk, buffer).ok()
}

/// What each of four such calls answers, and what it leaves: the buffer, of zeros before, the bytes of the input, and
/// the count of its faults.
const FILLS: &[(Option<usize>, [u8; 5], usize, u64)] = &[
    (Some(3), *b"abc\0\0", 0, 0),
    (None, [0; 5], 0, 1),
    (None, *b"ab\0\0\0", 1, 2),
    (Some(3), *b"abc\0\0", 0, 2),
];

#[test]
fn only_the_told_openings_and_reads_fail(rt: HostRuntime) -> Result<(), Fail> {
    let mut desk = failing(rt.alloc(), 0, 2, (CallKind::OpenIn, 2))?;
    desk.fail_call(CallKind::Read, 5)?;
    desk.add_file("in", b"abc")?;
    for &fills in FILLS {
        let mut buffer = [0; 5];
        let filled = fill_from_file(&mut desk, &mut buffer);
        assert_eq!(rt;
            (filled, buffer, desk.left(), desk.faults(Side::Input)),
            fills
        );
    }
    Ok(())
}

/// Texts that are put one after another, whether all of each is, and what stands on the port and in the count of
/// faults then.
const PUTS: &[(&[u8], bool, &[u8], u64)] = &[
    (b"xyz", false, b"x", 1),
    (b"abc", true, b"xabc", 1),
    (b"de", false, b"xabcd", 2),
];

#[test]
fn the_told_write_fails_and_that_with_no_room(rt: HostRuntime) -> Result<(), Fail> {
    let mut desk = failing(rt.alloc(), 5, 1, (CallKind::Write(Port::Trouble), 2))?;
    for &(bytes, is_put, written, faults) in PUTS {
        let answer = put_all(&mut *desk, Port::Trouble, bytes);
        assert_eq!(rt;
            (
                answer.is_ok(),
                desk.written(Port::Trouble),
                desk.faults(Side::Trouble)
            ),
            (is_put, written, faults)
        );
    }
    Ok(())
}

/// Puts the bytes twice and finishes.
fn put_twice(desk: &mut MemoryDesk, bytes: &[u8]) -> Result<(), Failed> {
    let mut piecer = Piecer::new(Port::Note);
    piecer.put(desk, bytes)?;
    piecer.put(desk, bytes)?;
    piecer.finish(desk)
}

#[test]
fn pieces_are_whole_but_for_the_last(rt: HostRuntime) -> Result<(), Fail> {
    for (nth, is_put, length) in [(2, false, 16_384), (3, true, 32_000)] {
        let mut desk = failing(
            rt.alloc(),
            40_000,
            40_000,
            (CallKind::Write(Port::Note), nth),
        )?;
        let answer = put_twice(&mut desk, &[7; 16_000]);
        assert_eq!(rt;
            (answer.is_ok(), desk.written(Port::Note).len()),
            (is_put, length)
        );
    }
    Ok(())
}

#[test]
fn a_port_has_the_name_that_it_was_opened_under(rt: HostRuntime) -> Result<(), Fail> {
    let mut desk = boxed(rt.alloc(), 4)?;
    let answer = desk.open_out(Port::Tree, "tree");
    let (labels, tree) = (desk.opened_name(Port::Labels), desk.opened_name(Port::Tree));
    assert_eq!(rt;
        (answer.is_ok(), desk.opened(), labels, tree),
        (true, 1, None, Some("tree"))
    );
    Ok(())
}

#[test]
fn numbers_stand_lowest_byte_first(rt: HostRuntime) {
    let bytes = b"\0\x08\x07\x06\x05\x04\x03\x02\x01";
    assert_eq!(rt;
        (u32_at(bytes, 1), u64_at(bytes, 1)),
        (0x0506_0708, 0x0102_0304_0506_0708)
    );
}
