mod cases;
mod graphs;
mod hubs;
mod lists;
mod plain_basins;
mod plain_grid;
mod plain_merging;
mod running;
mod segmenting;
mod settling;
mod sheets;
mod telling;

use cases::{CASES, Case, make_case};
use chunk_tree::Cutting;
use plain_basins::{basin_labels, name_count};
use plain_grid::edges_of;
use plain_merging::{Pair, agglomerate, contact_edges};
use segment_run::{Open, segment};
use std::alloc::{AllocError, Global};
use std::process::Abort;
use std::test::Fail;
use std::thread::Threads;

/// The sizes of the leaves: the whole volume, single voxels, slabs, and some that do not fit evenly.
const CHUNKS: &[[u32; 3]] = &[
    [9, 9, 9],
    [1, 1, 1],
    [2, 2, 2],
    [3, 1, 2],
    [2, 3, 1],
    [1, 9, 9],
    [9, 1, 9],
    [9, 9, 1],
    [4, 2, 2],
];

/// A segmentation in plain numbers.
#[derive(Drop)]
struct Told {
    basins: usize,
    labels: Vec<u32>,
    merges: Vec<Pair>,
}

/// The segmentation by the definitions.
fn plainly(alloc: Global, case: &Case) -> Result<Told, AllocError> {
    let voxels = case.vol.dims().voxels();
    let edges = edges_of(alloc, &case.vol)?;
    let mut labels = basin_labels(alloc, &edges, voxels, case.settings.low)?;
    let basins = name_count(&labels, voxels);
    let contact_edges = contact_edges(alloc, &edges, &labels)?;
    let merges = agglomerate(alloc, &contact_edges, &mut labels, case.settings.threshold)?;
    Ok(Told {
        basins,
        labels,
        merges,
    })
}

/// The segmentation by leaves of these sizes.
fn by_leaves<R: Threads + Sync>(
    rt: &R,
    alloc: Global,
    case: &Case,
    chunk: [u32; 3],
) -> Result<Told, Fail> {
    let Ok(cutting) = Cutting::new(case.vol.dims(), chunk) else {
        return Err("no cutting".into());
    };
    let answer = segment(rt, alloc, &case.vol, &cutting, &case.settings, &Open)?;
    let mut merges = Vec::new(alloc);
    for merge in &answer.merges {
        let contact = merge.contact;
        merges.push(Pair {
            survivor: merge.survivor,
            absorbed: merge.absorbed,
            sum: contact.sum(),
            count: contact.count(),
            tie: contact.tie(),
        })?;
    }
    Ok(Told {
        basins: answer.basins as usize,
        labels: answer.labels.list().to_vec(alloc)?,
        merges,
    })
}

/// Stops the test unless both segmentations are the same.
fn expect_same<R: Abort>(rt: &R, told: &Told, plain: &Told, case: &str, chunk: &[u32; 3]) {
    assert_eq!(rt; told.basins, plain.basins, "{case} cut by {chunk:?}");
    assert_eq!(rt;
        told.merges.as_slice(),
        plain.merges.as_slice(),
        "{case} cut by {chunk:?}"
    );
    assert_eq!(rt;
        told.labels.as_slice(),
        plain.labels.as_slice(),
        "{case} cut by {chunk:?}"
    );
}

/// Compares the segmentations of a case by leaves of each of these sizes with the plain one.
fn compare<R: Abort + Threads + Sync>(
    rt: &R,
    alloc: Global,
    case: &Case,
    chunks: &[[u32; 3]],
    shows: &str,
) -> Result<(), Fail> {
    let plain = plainly(alloc, case)?;
    for chunk in chunks {
        let told = by_leaves(rt, alloc, case, *chunk)?;
        expect_same(rt, &told, &plain, shows, chunk);
    }
    Ok(())
}

#[test]
fn segmentations_are_as_plainly_computed(rt: HostRuntime) -> Result<(), Fail> {
    for seed in 0..CASES {
        let case = make_case(rt.alloc(), seed)?;
        let shows = format!(in rt.alloc(); "seed {seed}")?;
        compare(&rt, rt.alloc(), &case, CHUNKS, &shows)?;
    }
    Ok(())
}
