use super::sheets::{FOUR_PAIRS, volume_of};
use super::telling::{expect_text, told_merges};
use agglo_model::laws_of_nodes::basins_are_connected;
use chunk_run::{Gate, TreeRun, run_tree};
use chunk_tree::Cutting;
use mean_fraction::Threshold;
use region_graph::Site;
use std::alloc::Global;
use std::sync::atomic::{AtomicU32, Ordering};
use std::test::Fail;
use std::thread::Threads;
use steepest_ascent::whole_basins;

/// Counts how often each of three nodes passes, and how often one passes in another lane than by its place.
#[derive(Drop)]
struct Counting {
    first: AtomicU32,
    second: AtomicU32,
    root: AtomicU32,
    strays: AtomicU32,
}

impl Gate for Counting {
    fn pass(&self, lane: u32, node: u32) {
        let passes = match node {
            0 => &self.first,
            1 => &self.second,
            _ => &self.root,
        };
        passes.fetch_add(1, Ordering::SeqCst);
        if lane != node % 2 {
            self.strays.fetch_add(1, Ordering::SeqCst);
        }
    }
}

/// The run in two lanes over a row of four pairs, of which the first three are one leaf and the last is another.
fn run_of_pairs<R: Threads + Sync>(
    rt: &R,
    alloc: Global,
    gate: &Counting,
) -> Result<TreeRun, Fail> {
    let Ok(threshold) = Threshold::new(90, 1) else {
        return Err("no threshold".into());
    };
    let vol = volume_of(alloc, &FOUR_PAIRS)?;
    let Ok(cutting) = Cutting::new(vol.dims(), [6, 1, 1]) else {
        return Err("no cutting".into());
    };
    let labels = whole_basins(alloc, &vol, 1)?;
    basins_are_connected();
    let site = Site::new(&vol, &labels, &cutting, threshold);
    Ok(run_tree(rt, alloc, &site, 2, gate)?)
}

/// The merges of a run, the nodes in order, and how many nodes each level has, how many merges it made and how many
/// names it passed on.
fn told_run(alloc: Global, run: &TreeRun) -> Result<String, Fail> {
    let mut told = told_merges(alloc, &run.merges)?;
    write!(told, "nodes {:?};", run.worked.as_slice())?;
    for level in &run.levels {
        write!(
            told,
            "level {} {} {};",
            level.nodes, level.merges, level.passed
        )?;
    }
    Ok(told)
}

#[test]
fn a_row_in_two_lanes(rt: HostRuntime) -> Result<(), Fail> {
    let gate = Counting {
        first: AtomicU32::new(0),
        second: AtomicU32::new(0),
        root: AtomicU32::new(0),
        strays: AtomicU32::new(0),
    };
    let run = run_of_pairs(&rt, rt.alloc(), &gate)?;
    let told = told_run(rt.alloc(), &run)?;
    let wanted =
        "merge 1 3 100/1 6;merge 5 7 100/1 18;merge 1 5 90/1 12;nodes [0, 1, 2];level 2 1 3;level 1 2 0;";
    expect_text(&rt, &told, wanted, "two lanes");
    let counts = [
        gate.first.load(Ordering::SeqCst),
        gate.second.load(Ordering::SeqCst),
        gate.root.load(Ordering::SeqCst),
        gate.strays.load(Ordering::SeqCst),
    ];
    assert_eq!(rt; counts, [1, 1, 1, 0]);
    Ok(())
}
