ghost use Rattle.std.specs.Prelude.{◌≡◌, IfOk};
ghost use Rattle.face_pointers.specs.Pieces.{AreClimbs};

use super::sheets::{FOUR_PAIRS, sheet};
use agglo_model::Memory;
use chunk_tree::Cutting;
use face_pointers::{climb_leaf, resolve};
use std::alloc::Global;
use std::process::Abort;
use std::test::Fail;
use std::thread::Threads;
use steepest_ascent::{Ends, whole_basins};
use volume_file::Volume;

/// The bytes of a sheet on x and on y, and its basins.
struct Case {
    shows: &'static str,
    axes: [u32; 2],
    x: &'static [u8],
    y: &'static [u8],
    low: u8,
    labels: &'static [u32],
}

const CASES: &[Case] = &[
    Case {
        shows: "a basin is named by the lower voxel of its strongest edge",
        axes: [4, 1],
        x: &[0, 200, 50, 180],
        y: &[],
        low: 1,
        labels: &[1, 1, 3, 3],
    },
    Case {
        shows: "background where no edge is strong",
        axes: [4, 1],
        x: &[0, 200, 50, 180],
        y: &[],
        low: 190,
        labels: &[1, 1, 0, 0],
    },
    Case {
        shows: "background where no edge of all is strong",
        axes: [4, 1],
        x: &[0, 200, 50, 180],
        y: &[],
        low: 255,
        labels: &[0, 0, 0, 0],
    },
    Case {
        shows: "bytes without an edge mean nothing",
        axes: [4, 1],
        x: &[255, 200, 50, 180],
        y: &[255, 255, 255, 255],
        low: 1,
        labels: &[1, 1, 3, 3],
    },
    Case {
        shows: "a voxel alone has no edge",
        axes: [1, 1],
        x: &[255],
        y: &[255],
        low: 0,
        labels: &[0],
    },
    Case {
        shows: "a plateau is one basin",
        axes: [4, 1],
        x: &[0, 100, 100, 100],
        y: &[],
        low: 1,
        labels: &[1, 1, 1, 1],
    },
    Case {
        shows: "no edge of a plateau is strong",
        axes: [4, 1],
        x: &[0, 100, 100, 100],
        y: &[],
        low: 101,
        labels: &[0, 0, 0, 0],
    },
    Case {
        shows: "a basin on both sides of a face",
        axes: [8, 1],
        x: &FOUR_PAIRS,
        y: &[],
        low: 1,
        labels: &[1, 1, 3, 3, 5, 5, 7, 7],
    },
    Case {
        shows: "three basins in a sheet",
        axes: [6, 3],
        x: &[
            0, 200, 10, 200, 100, 200, 0, 200, 200, 200, 100, 200, 0, 200, 200, 200, 100, 200,
        ],
        y: &[
            0, 0, 0, 0, 0, 0, 200, 200, 10, 10, 200, 200, 200, 200, 200, 200, 200, 200,
        ],
        low: 1,
        labels: &[1, 1, 3, 3, 5, 5, 1, 1, 1, 1, 5, 5, 1, 1, 1, 1, 5, 5],
    },
    Case {
        shows: "a basin between the arms of another",
        axes: [4, 3],
        x: &[0, 200, 200, 200, 0, 40, 200, 200, 0, 200, 200, 200],
        y: &[0, 0, 0, 0, 200, 40, 40, 40, 200, 40, 40, 40],
        low: 1,
        labels: &[1, 1, 1, 1, 1, 6, 6, 6, 1, 1, 1, 1],
    },
];

/// The lengths of the pieces on x and on y.
const PIECES: &[[u32; 2]] = &[[1, 1], [2, 1], [3, 1], [6, 1], [8, 8], [1, 2], [2, 2]];

/// The ends of the ascents within each leaf, in order of number.
fn climbs(alloc: Global, vol: &Volume, low: u8, cutting: &Cutting) -> Result<Vec<Ends>, Memory>
    requires { cutting.now.axes ≡ vol.now.axes }
    ensures { IfOk result (λ pieces. AreClimbs vol.now low cutting.now pieces.items) }
{
    let mut pieces = Vec::new(alloc);
    for leaf in 0..cutting.leaves() {
        let piece = climb_leaf(alloc, vol, low, cutting, leaf)?;
        pieces.push(piece)?;
    }
    Ok(pieces)
}

/// The labels of a volume by pieces of these lengths on x and on y.
fn by_pieces<R: Threads + Sync>(
    rt: &R,
    alloc: Global,
    vol: &Volume,
    low: u8,
    [x, y]: [u32; 2],
) -> Result<Vec<u32>, Fail> {
    let Ok(cutting) = Cutting::new(vol.dims(), [x, y, 1]) else {
        return Err("no cutting".into());
    };
    let pieces = climbs(alloc, vol, low, &cutting)?;
    let labels = resolve(rt, alloc, vol, low, &cutting, pieces)?;
    Ok(labels.list().to_vec(alloc)?)
}

/// Stops the test unless labels are those of a case.
fn expect_labels<R: Abort>(rt: &R, labels: &[u32], case: &Case, cut: &str) {
    assert_eq!(rt; labels, case.labels, "{}, {cut}", case.shows);
}

#[test]
fn basins_of_the_whole_and_from_pieces(rt: HostRuntime) -> Result<(), Fail> {
    for case in CASES {
        let vol = sheet(rt.alloc(), case.axes, case.x, case.y)?;
        let whole = whole_basins(rt.alloc(), &vol, case.low)?;
        expect_labels(&rt, whole.list(), case, "whole");
        for lengths in PIECES {
            let labels = by_pieces(&rt, rt.alloc(), &vol, case.low, *lengths)?;
            expect_labels(&rt, &labels, case, "in pieces");
        }
    }
    Ok(())
}

/// The bytes rise along x, so the ascent from the first voxel passes all others.
#[test]
fn a_long_ascent_ends_at_the_top(rt: HostRuntime) -> Result<(), Fail> {
    let mut bytes = [0u8; 250];
    let mut rise = 0u8;
    for byte in bytes.iter_mut() {
        *byte = rise;
        rise = rise.wrapping_add(1);
    }
    let vol = sheet(rt.alloc(), [250, 1], &bytes, &[])?;
    let labels = whole_basins(rt.alloc(), &vol, 1)?;
    assert!(rt; labels.list().iter().all(|label| *label == 249));
    Ok(())
}
