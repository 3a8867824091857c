use super::runs::{NOTHING, file, run};
use segment_run::Gate;
use std::alloc::Global;
use std::sync::atomic::{AtomicU32, Ordering};
use std::test::Fail;

/// Counts how often each of seven nodes passes. The leaves 0 and 1 are held until both have come.
#[derive(Drop)]
struct Meeting {
    passes: [AtomicU32; 7],
    given_up: AtomicU32,
}

impl Gate for Meeting {
    fn pass(&self, _lane: u32, node: u32) {
        for (number, passes) in self.passes.iter().enumerate() {
            if node as usize == number {
                passes.fetch_add(1, Ordering::SeqCst);
            }
        }
        if node < 2 {
            self.meet();
        }
    }
}

impl Meeting {
    fn new() -> Meeting {
        Meeting {
            passes: [
                AtomicU32::new(0),
                AtomicU32::new(0),
                AtomicU32::new(0),
                AtomicU32::new(0),
                AtomicU32::new(0),
                AtomicU32::new(0),
                AtomicU32::new(0),
            ],
            given_up: AtomicU32::new(0),
        }
    }

    /// Comes back when both leaves have come, or after a long time.
    fn meet(&self) {
        for _ in 0..1_000_000_000 {
            let first = self.passes[0].load(Ordering::SeqCst);
            let second = self.passes[1].load(Ordering::SeqCst);
            if first > 0 && second > 0 {
                return;
            }
        }
        self.given_up.fetch_add(1, Ordering::SeqCst);
    }

    /// How often each node has passed, and how often a leaf was held in vain.
    fn told(&self, alloc: Global) -> Result<String, Fail> {
        let mut told = String::new(alloc);
        for passes in &self.passes {
            let passes = passes.load(Ordering::SeqCst);
            write!(told, "{passes} ")?;
        }
        let given_up = self.given_up.load(Ordering::SeqCst);
        write!(told, "and {given_up}")?;
        Ok(told)
    }
}

#[test]
fn two_lanes_run_at_once_and_each_node_passes_once(rt: HostRuntime) -> Result<(), Fail> {
    let alloc = rt.alloc();
    let gate = Meeting::new();
    let line =
        "segment --volume in --labels l --tree t --low 1 --merge 90/1 --chunk 2,1,1 --workers 2";
    let bytes = file(
        alloc,
        "AFFVOL01 8 1 1 3 0 0 / 24 0 / 200 3 9 15 21 / 100 6 18 / 90 12",
    )?;
    let left = run(&rt, alloc, line, &bytes, NOTHING, &gate)?;
    let files = "0 | l AFFLAB01 8 1 1 4 0 0 1 1 1 1 1 1 1 1 | \
         t AFFTRE01 8 1 1 90 1 3 1 3 100 0 1 0 6 0 5 7 100 0 1 0 18 0 1 5 90 0 1 0 12 0 | ";
    assert!(rt; left.as_str().starts_with(files));
    assert_eq!(rt; gate.told(alloc)?.as_str(), "1 1 1 1 1 1 1 and 0");
    Ok(())
}
