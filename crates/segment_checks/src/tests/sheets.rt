use seg_base::Dims;
use std::alloc::Global;
use std::test::Fail;
use volume_file::{Head, Volume};

/// A volume with one voxel on z: its lengths on x and y, and the bytes of its edges on x and on y.
pub(crate) struct Sheet {
    axes: [u32; 2],
    x: &'static [u8],
    y: &'static [u8],
}

/// A row of four voxels with two basins, 1 and 3.
pub(crate) const TWO_PAIRS: Sheet = Sheet {
    axes: [4, 1],
    x: &[0, 200, 50, 180],
    y: &[0; 4],
};

/// A row of eight voxels with four basins, 1, 3, 5 and 7.
pub(crate) const FOUR_PAIRS: Sheet = Sheet {
    axes: [8, 1],
    x: &[0, 200, 100, 200, 90, 200, 100, 200],
    y: &[0; 8],
};

/// A basin, 6, between the arms of another, 1.
pub(crate) const ARMS: Sheet = Sheet {
    axes: [4, 3],
    x: &[0, 200, 200, 200, 0, 40, 200, 200, 0, 200, 200, 200],
    y: &[0, 0, 0, 0, 200, 40, 40, 40, 200, 40, 40, 40],
};

/// The volume of a sheet.
pub(crate) fn volume_of(alloc: Global, sheet: &Sheet) -> Result<Volume, Fail> {
    let [nx, ny] = sheet.axes;
    let Ok(dims) = Dims::new(nx, ny, 1) else {
        return Err("no axes of a volume".into());
    };
    let mut body = Vec::new(alloc);
    for (x, y) in sheet.x.iter().zip(sheet.y) {
        body.extend_from_slice(&[*x, *y, 0])?;
    }
    if body.len() != dims.body_len() as usize {
        return Err("the bytes are too few or too many".into());
    }
    Ok(Volume::of(Head { dims, version: 1 }, body))
}
