use super::expect_text;
use super::sheets::{FOUR_PAIRS, sheet};
use seg_base::Cell;
use std::alloc::Global;
use std::test::Fail;
use steepest_ascent::{End, climb};

/// A cell of a row of voxels, from one place up to, but not including, another, and the ends in it.
struct Case {
    shows: &'static str,
    length: u32,
    bytes: &'static [u8],
    low: u8,
    cell: [u32; 2],
    ends: &'static str,
}

const CASES: &[Case] = &[
    Case {
        shows: "an ascent leaves a cell through its face",
        length: 4,
        bytes: &[0, 100, 100, 100],
        low: 1,
        cell: [2, 4],
        ends: "exit 1;exit 1;",
    },
    Case {
        shows: "the partner of a root lies outside",
        length: 4,
        bytes: &[0, 100, 100, 100],
        low: 1,
        cell: [0, 1],
        ends: "root 1;",
    },
    Case {
        shows: "no edge is strong",
        length: 4,
        bytes: &[0, 100, 100, 100],
        low: 101,
        cell: [1, 3],
        ends: "background;background;",
    },
    Case {
        shows: "a root in a cell has its name in the volume",
        length: 8,
        bytes: &FOUR_PAIRS,
        low: 1,
        cell: [0, 6],
        ends: "root 1;root 1;root 3;root 3;root 5;root 5;",
    },
    Case {
        shows: "so it has where the cell begins at another voxel",
        length: 8,
        bytes: &FOUR_PAIRS,
        low: 1,
        cell: [3, 7],
        ends: "root 3;root 5;root 5;root 7;",
    },
];

/// What the ascents from the voxels of a cell come to.
fn ends_of(alloc: Global, case: &Case) -> Result<String, Fail> {
    let vol = sheet(alloc, [case.length, 1], case.bytes, &[])?;
    let [from, to] = case.cell;
    if from >= to || to > vol.dims().nx() {
        return Err("no such cell".into());
    }
    let cell = Cell {
        lo: [from, 0, 0],
        hi: [to, 1, 1],
    };
    let ends = climb(alloc, &vol, case.low, &cell)?;
    let mut told = String::new(alloc);
    for i in 0..ends.grid().voxels() {
        match ends.get(i) {
            End::Background => told.push_str("background;")?,
            End::Root(name) => write!(told, "root {name};")?,
            End::Exit(voxel) => write!(told, "exit {voxel};")?,
        }
    }
    Ok(told)
}

#[test]
fn an_ascent_leaves_a_cell_or_ends_in_it(rt: HostRuntime) -> Result<(), Fail> {
    for case in CASES {
        let ends = ends_of(rt.alloc(), case)?;
        expect_text(&rt, &ends, case.ends, case.shows);
    }
    Ok(())
}
