use super::cases::volume;
use super::sheets::{TWO_PAIRS, volume_of};
use super::telling::{expect_text, told_merges};
use chunk_tree::Cutting;
use mean_fraction::Threshold;
use segment_run::{Answer, Open, Settings, basins, report_text, segment};
use std::alloc::Global;
use std::test::Fail;
use std::thread::Threads;
use steepest_ascent::whole_basins;
use volume_file::Volume;

/// The sizes of the pieces, some of which do not fit evenly.
const PIECES: &[[u32; 3]] = &[
    [1, 1, 1],
    [2, 2, 2],
    [3, 2, 1],
    [1, 9, 9],
    [9, 1, 9],
    [9, 9, 1],
    [4, 4, 4],
    [5, 3, 2],
    [2, 7, 3],
    [8, 8, 8],
    [6, 1, 1],
    [100, 100, 100],
];

/// The labels by pieces of this size.
fn by_pieces<R: Threads + Sync>(
    rt: &R,
    alloc: Global,
    vol: &Volume,
    low: u8,
    chunk: [u32; 3],
) -> Result<Vec<u32>, Fail> {
    let Ok(cutting) = Cutting::new(vol.dims(), chunk) else {
        return Err("no cutting".into());
    };
    let labels = basins(rt, alloc, vol, low, &cutting)?;
    Ok(labels.list().to_vec(alloc)?)
}

#[test]
fn the_cutting_does_not_show_in_basins(rt: HostRuntime) -> Result<(), Fail> {
    for seed in 0..20 {
        let vol = volume(rt.alloc(), [9, 8, 7], 5, seed)?;
        let whole = whole_basins(rt.alloc(), &vol, 2)?;
        for chunk in PIECES {
            let labels = by_pieces(&rt, rt.alloc(), &vol, 2, *chunk)?;
            assert!(rt;
                labels.as_slice() == whole.list(),
                "seed {seed} cut by {chunk:?}"
            );
        }
    }
    Ok(())
}

/// A row of two pairs in leaves of this length, with a mean from which on regions are merged, and what comes of it.
struct Case {
    shows: &'static str,
    chunk: u32,
    mean: u32,
    wanted: &'static str,
}

const CASES: &[Case] = &[
    Case {
        shows: "one leaf",
        chunk: 4,
        mean: 50,
        wanted: "merge 1 3 50/1 6;labels [1, 1, 1, 1];voxels 4\nbasins 2\nmerges 1\nregions 1\nlevel 0 nodes 1 merges 1 passed 0\n",
    },
    Case {
        shows: "below the threshold",
        chunk: 4,
        mean: 51,
        wanted: "labels [1, 1, 3, 3];voxels 4\nbasins 2\nmerges 0\nregions 2\nlevel 0 nodes 1 merges 0 passed 0\n",
    },
    Case {
        shows: "leaves of one voxel",
        chunk: 1,
        mean: 50,
        wanted: "merge 1 3 50/1 6;labels [1, 1, 1, 1];voxels 4\nbasins 2\nmerges 1\nregions 1\nlevel 0 nodes 4 merges 0 passed 4\nlevel 1 nodes 2 merges 0 passed 2\nlevel 2 nodes 1 merges 1 passed 0\n",
    },
];

/// The segmentation of a case.
fn segmented<R: Threads + Sync>(rt: &R, alloc: Global, case: &Case) -> Result<Answer, Fail> {
    let Ok(threshold) = Threshold::new(case.mean, 1) else {
        return Err("no threshold".into());
    };
    let settings = Settings {
        low: 1,
        threshold,
        workers: 1,
    };
    let vol = volume_of(alloc, &TWO_PAIRS)?;
    let Ok(cutting) = Cutting::new(vol.dims(), [case.chunk, 1, 1]) else {
        return Err("no cutting".into());
    };
    Ok(segment(rt, alloc, &vol, &cutting, &settings, &Open)?)
}

/// The merges, the labels and the report.
fn told_answer(alloc: Global, answer: &Answer) -> Result<String, Fail> {
    let mut told = told_merges(alloc, &answer.merges)?;
    write!(told, "labels {:?};", answer.labels.list())?;
    told.push_str(&report_text(alloc, answer)?)?;
    Ok(told)
}

#[test]
fn a_row_and_its_report(rt: HostRuntime) -> Result<(), Fail> {
    for case in CASES {
        let answer = segmented(&rt, rt.alloc(), case)?;
        let told = told_answer(rt.alloc(), &answer)?;
        expect_text(&rt, &told, case.wanted, case.shows);
    }
    Ok(())
}

/// The segmentation of a long volume in chunks of this length.
fn segmented_by<R: Threads + Sync>(rt: &R, alloc: Global, chunk: u32) -> Result<Answer, Fail> {
    let Ok(threshold) = Threshold::new(2, 1) else {
        return Err("no threshold".into());
    };
    let settings = Settings {
        low: 1,
        threshold,
        workers: 2,
    };
    let vol = volume(alloc, [130, 3, 2], 5, 7)?;
    let Ok(cutting) = Cutting::new(vol.dims(), [chunk, 3, 2]) else {
        return Err("no cutting".into());
    };
    Ok(segment(rt, alloc, &vol, &cutting, &settings, &Open)?)
}

/// What shows of the levels: of each the nodes and the merges.
fn told_levels(alloc: Global, answer: &Answer) -> Result<String, Fail> {
    let mut told = String::new(alloc);
    for level in &answer.levels {
        write!(told, "{} nodes {} merges;", level.nodes, level.merges)?;
    }
    Ok(told)
}

#[test]
fn a_leaf_that_is_cut_inside_counts_as_one(rt: HostRuntime) -> Result<(), Fail> {
    let whole = segmented_by(&rt, rt.alloc(), 130)?;
    let cut = segmented_by(&rt, rt.alloc(), 9)?;
    let merges = told_merges(rt.alloc(), &whole.merges)?;
    expect_text(
        &rt,
        &told_merges(rt.alloc(), &cut.merges)?,
        &merges,
        "merges",
    );
    let levels = format!(in rt.alloc(); "1 nodes {} merges;", whole.merges.len())?;
    expect_text(&rt, &told_levels(rt.alloc(), &whole)?, &levels, "levels");
    Ok(())
}
