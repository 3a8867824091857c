use seg_base::Dims;
use std::alloc::Global;
use std::test::Fail;
use volume_file::{Head, Volume};

/// The bytes on x of a row of eight voxels with four basins.
pub(crate) const FOUR_PAIRS: [u8; 8] = [0, 200, 100, 200, 90, 200, 100, 200];

/// A volume of these lengths on x and y and of one voxel on z, whose edges have these bytes on x and on y. Where
/// bytes on y are left out, they are 0.
pub(crate) fn sheet(alloc: Global, axes: [u32; 2], x: &[u8], y: &[u8]) -> Result<Volume, Fail> {
    let Ok(dims) = Dims::new(axes[0], axes[1], 1) else {
        return Err("no axes of a volume".into());
    };
    let mut body = Vec::new(alloc);
    for (voxel, byte) in x.iter().enumerate() {
        body.extend_from_slice(&[*byte, y.get(voxel).copied().unwrap_or(0), 0])?;
    }
    if body.len() != dims.body_len() as usize {
        return Err("the bytes are too few or too many".into());
    }
    Ok(Volume::of(Head { dims, version: 1 }, body))
}
