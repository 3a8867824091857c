use super::expect_text;
use chunk_tree::{CutFault, Cutting, Kids};
use seg_base::Dims;
use std::alloc::Global;
use std::test::Fail;

/// Of each cutting the axes, the size of a leaf, and what comes of it.
const CUTTINGS: &[([u32; 3], [u32; 3], &str)] = &[
    ([4, 1, 1], [1, 1, 1], "levels 3 leaves 4 nodes 7 root 6"),
    ([8, 1, 1], [6, 1, 1], "levels 2 leaves 2 nodes 3 root 2"),
    ([8, 8, 8], [3, 3, 3], "levels 3 leaves 27 nodes 36 root 35"),
    (
        [64, 64, 64],
        [1, 1, 1],
        "levels 7 leaves 262144 nodes 299593 root 299592",
    ),
    // one layer more
    ([64, 64, 65], [1, 1, 1], "266240 leaves are too many"),
    // a size of zero is told before too many leaves
    ([64, 64, 65], [1, 0, 0], "zero on axis 1"),
];

/// How many levels, leaves and nodes a cutting has, and which is the root, or its fault.
fn told(alloc: Global, axes: [u32; 3], chunk: [u32; 3]) -> Result<String, Fail> {
    let [nx, ny, nz] = axes;
    let Ok(dims) = Dims::new(nx, ny, nz) else {
        return Err("no axes of a volume".into());
    };
    let text = match Cutting::new(&dims, chunk) {
        Ok(cutting) => format!(in alloc;
            "levels {} leaves {} nodes {} root {}",
            cutting.levels(),
            cutting.leaves(),
            cutting.nodes(),
            cutting.root()
        )?,
        Err(CutFault::TooManyLeaves(leaves)) => format!(in alloc; "{leaves} leaves are too many")?,
        Err(CutFault::ChunkZero(axis)) => format!(in alloc; "zero on axis {axis}")?,
    };
    Ok(text)
}

#[test]
fn cuttings_have_levels_up_to_a_root(rt: HostRuntime) -> Result<(), Fail> {
    for (axes, chunk, wanted) in CUTTINGS {
        let text = told(rt.alloc(), *axes, *chunk)?;
        expect_text(&rt, &text, wanted, wanted);
    }
    Ok(())
}

/// Of each cutting the axes, the size of a leaf, and the one with sides up to 64 inside its leaves.
const FINER: &[([u32; 3], [u32; 3], &str)] = &[
    ([64, 64, 64], [64, 64, 64], "levels 0 leaves 1"),
    ([256, 256, 256], [256, 256, 256], "levels 2 leaves 64"),
    // a whole axis need not be even
    ([65, 3, 1], [65, 3, 1], "levels 1 leaves 4"),
    ([100, 260, 4], [100, 130, 4], "levels 1 leaves 16"),
    // one half of a leaf would be longer than the other
    ([300, 1, 1], [150, 1, 1], "levels 1 leaves 4"),
    ([300, 1, 1], [75, 1, 1], "levels 0 leaves 4"),
];

/// How many levels the cutting inside leaves has more, and how many leaves.
fn told_finer(alloc: Global, axes: [u32; 3], chunk: [u32; 3]) -> Result<String, Fail> {
    let [nx, ny, nz] = axes;
    let Ok(dims) = Dims::new(nx, ny, nz) else {
        return Err("no axes of a volume".into());
    };
    let Ok(cutting) = Cutting::new(&dims, chunk) else {
        return Err("no cutting".into());
    };
    let finer = cutting.finer(64);
    let leaves = finer.cutting.leaves();
    Ok(format!(in alloc; "levels {} leaves {leaves}", finer.levels)?)
}

#[test]
fn leaves_are_halved(rt: HostRuntime) -> Result<(), Fail> {
    for (axes, chunk, wanted) in FINER {
        let text = told_finer(rt.alloc(), *axes, *chunk)?;
        expect_text(&rt, &text, wanted, wanted);
    }
    Ok(())
}

/// Two leaves and a root: of each node the level, the parent, the number of children, the artificial faces, and the
/// corners of the cell.
const NODES: &str =
    "0 Some(2) 0 2 [0, 0, 0] [6, 1, 1];0 Some(2) 0 1 [6, 0, 0] [8, 1, 1];1 None 2 0 [0, 0, 0] [8, 1, 1];";

/// The same of all nodes of a cutting.
fn told_nodes(alloc: Global, cutting: &Cutting) -> Result<String, Fail> {
    let mut told = String::new(alloc);
    for m in 0..cutting.nodes() {
        let cell = cutting.cell(m);
        write!(
            told,
            "{} {:?} {} {} {:?} {:?};",
            cutting.level_of(m),
            cutting.parent(m),
            cutting.child_count(m),
            cutting.artificial(m),
            cell.lo,
            cell.hi
        )?;
    }
    Ok(told)
}

#[test]
fn nodes_of_two_leaves_and_a_root(rt: HostRuntime) -> Result<(), Fail> {
    let Ok(dims) = Dims::new(8, 1, 1) else {
        return Err("no axes of a volume".into());
    };
    let Ok(cutting) = Cutting::new(&dims, [6, 1, 1]) else {
        return Err("no cutting".into());
    };
    let told = told_nodes(rt.alloc(), &cutting)?;
    expect_text(&rt, &told, NODES, "all nodes");
    assert!(rt; cutting.dims().voxels() == 8 && cutting.levels() == 2 && cutting.nodes() == 3);
    assert!(rt; cutting.child_count(2) == 2);
    let children = [cutting.child(2, 0), cutting.child(2, 1)];
    let ends = [cutting.level_end(0), cutting.level_end(1)];
    let leaves = [cutting.leaf_of(5), cutting.leaf_of(6)];
    assert!(rt; [children, ends, leaves] == [[0, 1], [2, 3], [0, 1]]);
    Ok(())
}

#[test]
fn kids_are_taken_in_order(rt: HostRuntime) {
    let mut kids = Kids::none();
    kids.push(5);
    kids.push(7);
    kids.push(9);
    let count = kids.len();
    let first = kids.take_first();
    assert_eq!(rt; (count, first, kids.take_first()), (3, Some(5), Some(7)));
}
