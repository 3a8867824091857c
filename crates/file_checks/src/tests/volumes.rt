use crate::tests::{boxed, file, opened};
use seg_base::Dims;
use seg_io::Port;
use std::alloc::Global;
use std::process::Abort;
use std::test::Fail;
use volume_file::{Volume, generate, read_volume, write_generated, write_volume};

/// The words of a file, which read of it fails, and the fault, followed by how many bytes are left. Of several faults
/// the first is told. The header is read in five pieces.
const FAULTS: &[(&str, u64, &str)] = &[
    ("AFFVOL01 4 1 1 3 0 abc", 0, "Some(ShortHeader(31)) 0"),
    ("AFFVOL02 4 1 1 4 0 16777216 abc", 0, "Some(Magic) 3"),
    ("AFFVOL01 4 1 1 4 0 16777216 abc", 0, "Some(Channels(4)) 3"),
    ("AFFVOL01 4 0 1 3 0 16777216 abc", 0, "Some(Reserved) 3"),
    ("AFFVOL01 4 0 65536 3 0 0 a", 0, "Some(AxisZero(1)) 1"),
    ("AFFVOL01 65536 1 1 3 0 0 a", 0, "Some(AxisLarge(0)) 1"),
    ("AFFVOL01 65535 4097 1 3 0 0 a", 0, "Some(TooMany) 1"),
    (
        "AFFVOL01 4 1 1 3 0 0 abcdefghijk",
        0,
        "Some(Truncated(11)) 0",
    ),
    ("AFFVOL01 4 1 1 3 0 0 abcdefghijklmn", 0, "Some(Trailing) 1"),
    ("AFFVOL01 4 1 1 3 0 0 abcdefghijkl", 6, "Some(Read) 12"),
];

/// The fault of a file of these words, and how many bytes of it are left. The read of this number fails.
fn fault_of(alloc: Global, words: &str, failing: u64) -> Result<String, Fail> {
    let bytes = file(alloc, words)?;
    let mut desk = opened(alloc, &bytes, failing)?;
    let fault = read_volume(alloc, &mut *desk).err();
    Ok(format!(in alloc; "{fault:?} {}", desk.left())?)
}

#[test]
fn the_first_fault_is_told(rt: HostRuntime) -> Result<(), Fail> {
    for &(words, failing, fault) in FAULTS {
        let told = fault_of(rt.alloc(), words, failing)?;
        assert_eq!(rt; told.as_str(), fault);
    }
    Ok(())
}

/// The volume of a file of these bytes, which is read to its end, and written back as it was.
fn read_back<R: Abort>(rt: &R, alloc: Global, bytes: &[u8]) -> Result<Volume, Fail> {
    let mut desk = opened(alloc, bytes, 0)?;
    let volume = read_volume(alloc, &mut *desk)?;
    write_volume(&mut *desk, Port::Note, &volume)?;
    assert!(rt; desk.left() == 0 && desk.written(Port::Note) == bytes);
    Ok(volume)
}

/// The words of files, their lengths, up to which bytes of 7 follow, how many voxels there are, and the affinity of
/// edge 6. The body of the second is read in two pieces.
const VOLUMES: &[(&str, usize, u32, u8)] = &[
    ("AFFVOL01 4 1 1 3 0 0 abcdefghijkl", 44, 4, b'g'),
    ("AFFVOL01 300 300 1 3 0 0", 270_032, 90_000, 7),
];

/// How many voxels a volume has, its version, and the affinity of edge 6.
fn numbers(volume: &Volume) -> (u32, u8, Option<u8>) {
    let affinity = if volume.dims().body_len() > 6 {
        Some(volume.aff(6))
    } else {
        None
    };
    (volume.dims().voxels(), volume.head().version, affinity)
}

#[test]
fn a_whole_volume_is_read_and_written_back(rt: HostRuntime) -> Result<(), Fail> {
    let alloc = rt.alloc();
    for &(words, length, voxels, affinity) in VOLUMES {
        let mut bytes = file(alloc, words)?;
        bytes.resize(length, 7)?;
        let volume = read_back(&rt, alloc, &bytes)?;
        assert_eq!(rt; numbers(&volume), (voxels, 1, Some(affinity)));
    }
    Ok(())
}

#[test]
fn a_volume_is_generated(rt: HostRuntime) -> Result<(), Fail> {
    let alloc = rt.alloc();
    let dims = Dims::new(3, 1, 1)?;
    let volume = generate(alloc, 0, &dims)?;
    let affinities = [60, 71, 209, 170, 98, 159, 87, 163, 129];
    let mut desk = boxed(alloc, 41)?;
    write_generated(&mut *desk, Port::Note, 0, &dims)?;
    assert!(rt;
        volume.bytes() == affinities.as_slice() && desk.written(Port::Note).ends_with(&affinities)
    );
    Ok(())
}
