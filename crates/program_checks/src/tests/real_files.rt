use super::runs::{end_status, file, numbers, words};
use agglo_program::FileDesk;
use segment_run::Open;
use std::alloc::{AllocError, Global};
use std::fs;
use std::rt::Files;
use std::test::Fail;
use std::thread::Threads;

/// The status of a segmentation over real files.
fn run_on_files<R: Threads + Sync + Files + Print + Eprint>(
    rt: &R,
    alloc: Global,
) -> Result<u8, AllocError> {
    let words = words(
        alloc,
        "segment --volume agglo_test.vol --labels agglo_test.lab --tree agglo_test.tree \
         --low 1 --merge 50/1 --chunk 4,1,1 --workers 1",
    )?;
    let mut desk = FileDesk::new(rt, alloc);
    Ok(end_status(rt, alloc, &words, &mut desk, &Open))
}

#[test]
fn reads_and_writes_real_files(rt: HostRuntime) -> Result<(), Fail> {
    let alloc = rt.alloc();
    let bytes = file(alloc, "AFFVOL01 4 1 1 3 0 0 / 12 0 / 200 3 / 50 6 / 180 9")?;
    fs::write(&rt, "agglo_test.vol", &bytes)?;
    assert_eq!(rt; run_on_files(&rt, alloc)?, 0);
    let labels = numbers(alloc, &fs::read(&rt, "agglo_test.lab")?)?;
    assert_eq!(rt; labels.as_str(), "AFFLAB01 4 1 1 4 0 0 1 1 1 1");
    let tree = numbers(alloc, &fs::read(&rt, "agglo_test.tree")?)?;
    assert_eq!(rt; tree.as_str(), "AFFTRE01 4 1 1 50 1 1 1 3 50 0 1 0 6 0");
    for name in ["agglo_test.vol", "agglo_test.lab", "agglo_test.tree"] {
        fs::remove_file(&rt, name)?;
    }
    assert_eq!(rt; run_on_files(&rt, alloc)?, 5);
    Ok(())
}
