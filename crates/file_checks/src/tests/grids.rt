use seg_base::{Cell, DimFault, Dims, Labels};
use std::test::Fail;

#[test]
fn axes_are_judged_x_first_and_zero_before_large(rt: HostRuntime) {
    assert!(rt; matches!(Dims::new(4, 0, 1), Err(DimFault::AxisZero(1))));
    assert!(rt; matches!(Dims::new(65_536, 1, 0), Err(DimFault::AxisZero(2))));
    assert!(rt; matches!(Dims::new(65_536, 1, 65_536), Err(DimFault::AxisLarge(0))));
    assert!(rt; matches!(Dims::new(65_535, 4_097, 1), Err(DimFault::TooMany)));
}

/// The lengths of axes, and how many voxels and edge numbers they have, up to the most.
const SIZES: &[[u32; 5]] = &[
    [6, 3, 2, 36, 108],
    [65_535, 4_096, 1, 268_431_360, 805_294_080],
    [16_384, 16_384, 1, 268_435_456, 805_306_368],
];

#[test]
fn grids_up_to_the_largest_have_all_their_voxels(rt: HostRuntime) -> Result<(), Fail> {
    for &sizes in SIZES {
        let dims = Dims::new(sizes[0], sizes[1], sizes[2])?;
        assert_eq!(rt;
            [
                dims.nx(),
                dims.ny(),
                dims.nz(),
                dims.voxels(),
                dims.body_len()
            ],
            sizes
        );
    }
    Ok(())
}

#[test]
fn a_voxel_and_its_place(rt: HostRuntime) -> Result<(), Fail> {
    let dims = Dims::new(6, 3, 2)?;
    assert_eq!(rt; (dims.voxel(1, 2, 1), dims.place(31)), (31, [1, 2, 1]));
    Ok(())
}

/// Edge numbers of a grid of 6 x 3 x 2 voxels, and the voxels that each joins: none where its voxel has no
/// predecessor on the axis, and past the last number.
const EDGES: &[(u32, Option<(u32, u32)>)] = &[
    (21, Some((6, 7))),
    (22, Some((1, 7))),
    (23, None),
    (18, None),
    (107, Some((17, 35))),
    (108, None),
];

#[test]
fn an_edge_joins_a_voxel_to_its_predecessor(rt: HostRuntime) -> Result<(), Fail> {
    let dims = Dims::new(6, 3, 2)?;
    for &(edge, ends) in EDGES {
        assert_eq!(rt; (edge, dims.edge_ends(edge)), (edge, ends));
    }
    Ok(())
}

#[test]
fn a_cell_is_half_open(rt: HostRuntime) -> Result<(), Fail> {
    let dims = Dims::new(6, 3, 2)?;
    let cell = Cell {
        lo: [1, 1, 0],
        hi: [3, 3, 1],
    };
    for voxel in 0..36 {
        assert_eq!(rt; cell.holds(&dims, voxel), [7, 8, 13, 14].contains(&voxel));
    }
    Ok(())
}

#[test]
fn labels_are_filled_set_and_read(rt: HostRuntime) -> Result<(), Fail> {
    let dims = Dims::new(4, 1, 1)?;
    let mut labels = Labels::filled(rt.alloc(), &dims, 0)?;
    assert!(rt; labels.list() == [0, 0, 0, 0].as_slice());
    labels.set(2, 3);
    assert!(rt; labels.list() == [0, 0, 3, 0].as_slice() && labels.get(2) == 3);
    Ok(())
}
