use super::sheets::sheet;
use edge_order::{Step, best_edge, best_step, best_steps, cell_steps, stronger};
use seg_base::Cell;
use std::test::Fail;

/// Of each row of four voxels the bytes, `low`, a voxel and its best edge.
const BEST_EDGES: &[([u8; 4], u8, u32, Option<u32>)] = &[
    ([255, 200, 50, 180], 1, 0, Some(3)),
    ([255, 200, 50, 180], 1, 1, Some(3)),
    ([255, 200, 50, 180], 1, 2, Some(9)),
    ([255, 200, 50, 180], 1, 3, Some(9)),
    // the byte itself is enough
    ([255, 200, 50, 180], 200, 1, Some(3)),
    ([255, 200, 50, 180], 201, 1, None),
    ([255, 200, 50, 180], 190, 2, None),
    // of equal bytes the smaller number
    ([0, 100, 100, 100], 1, 1, Some(3)),
    ([0, 100, 100, 100], 1, 2, Some(6)),
    ([0, 100, 100, 100], 1, 3, Some(9)),
];

#[test]
fn each_voxel_has_its_strongest_edge(rt: HostRuntime) -> Result<(), Fail> {
    for (bytes, low, voxel, wanted) in BEST_EDGES {
        let vol = sheet(rt.alloc(), [4, 1], bytes, &[])?;
        assert!(rt; *voxel < vol.dims().voxels());
        let edge = best_edge(&vol, *low, *voxel);
        assert!(rt; edge == *wanted, "{edge:?} at voxel {voxel} from {low} on");
    }
    Ok(())
}

#[test]
fn steps_lead_along_the_best_edges(rt: HostRuntime) -> Result<(), Fail> {
    let vol = sheet(rt.alloc(), [4, 1], &[0, 200, 50, 180], &[])?;
    let dims = vol.dims();
    assert!(rt; dims.nx() == 4 && dims.ny() == 1 && dims.nz() == 1 && dims.voxels() == 4);
    let one = [best_step(&vol, 1, 2), best_step(&vol, 181, 2)];
    assert!(rt; one == [Step::OnX, Step::Stay]);
    let whole = best_steps(rt.alloc(), &vol, 190)?;
    assert!(rt; whole.as_slice() == [Step::OnX, Step::BackX, Step::Stay, Step::Stay].as_slice());
    let cell = Cell {
        lo: [1, 0, 0],
        hi: [3, 1, 1],
    };
    let part = cell_steps(rt.alloc(), &vol, 1, &cell)?;
    assert!(rt;
        part.as_slice() == [Step::BackX, Step::OnX].as_slice(),
        "they leave the cell"
    );
    Ok(())
}

/// Two edges of a row, and whether the first of them comes before the other. Edges 3 and 9 have equal bytes.
const PAIRS: &[(u32, u32, bool)] = &[(3, 6, true), (6, 3, false), (3, 9, true), (9, 3, false)];

#[test]
fn the_greater_byte_comes_first(rt: HostRuntime) -> Result<(), Fail> {
    let vol = sheet(rt.alloc(), [4, 1], &[0, 200, 50, 200], &[])?;
    for (one, other, first) in PAIRS {
        let dims = vol.dims();
        assert!(rt; dims.edge_ends(*one).is_some() && dims.edge_ends(*other).is_some());
        assert!(rt;
            stronger(&vol, *one, *other) == *first,
            "edges {one} and {other}"
        );
    }
    Ok(())
}
