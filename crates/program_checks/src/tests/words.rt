use super::runs::words;
use command_words::{Job, read_words};
use std::alloc::Global;
use std::test::Fail;

/// The numbers of what these words ask for: the start, the axes, and of a trial `low`, the threshold, the sizes of
/// leaves and the workers.
fn numbers_of(alloc: Global, line: &str) -> Result<String, Fail> {
    let words = words(alloc, line)?;
    match read_words(alloc, &words)? {
        Job::Make { start, dims, .. } => {
            let (x, y, z) = (dims.nx(), dims.ny(), dims.nz());
            Ok(format!(in alloc; "{start} {x},{y},{z}")?)
        }
        Job::Trial {
            start,
            dims,
            low,
            threshold,
            chunk,
            workers,
        } => {
            let (x, y, z) = (dims.nx(), dims.ny(), dims.nz());
            let (p, q) = (threshold.p(), threshold.q());
            Ok(format!(in alloc; "{start} {x},{y},{z} {low} {p}/{q} {chunk:?} {workers}")?)
        }
        _ => Err(Fail::from("another job")),
    }
}

#[test]
fn numbers_go_up_to_their_limits(rt: HostRuntime) -> Result<(), Fail> {
    let line = "make --dims=65535,4096,1 --volume v --start=4294967295";
    let numbers = numbers_of(rt.alloc(), line)?;
    assert_eq!(rt; numbers.as_str(), "4294967295 65535,4096,1");
    let line = "trial --start 0 --dims 1,2,3 --low=255 --merge 4294967295/4294967294 \
         --chunk=64,0065,65535 --workers 32";
    let numbers = numbers_of(rt.alloc(), line)?;
    let wanted = "0 1,2,3 255 4294967295/4294967294 [64, 65, 65535] 32";
    assert_eq!(rt; numbers.as_str(), wanted);
    Ok(())
}
