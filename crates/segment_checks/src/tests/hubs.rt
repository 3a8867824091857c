use super::cases::Case;
use super::compare;
use mean_fraction::Threshold;
use seg_base::Dims;
use segment_run::Settings;
use std::alloc::Global;
use std::test::Fail;
use volume_file::{Head, Volume};

/// The lengths of the volume on x, y and z.
const AXES: [u32; 3] = [36, 34, 4];

/// The affinity inside a region, and the least one that joins two voxels to a basin.
const STRONG: u8 = 255;

const LOW: u8 = 200;

/// The sizes of the leaves: the whole volume, one with more than 256 regions in contact with two that are frozen, one
/// where all those regions are frozen, and many.
const CHUNKS: &[[u32; 3]] = &[[36, 34, 4], [34, 34, 4], [36, 34, 2], [9, 9, 9]];

/// The affinity of a contact, below `LOW`, by where it is and by two factors.
fn weak(x: u32, y: u32, by_x: u8, by_y: u8) -> u8 {
    let place = u32::from(by_x) * (x % 64) + u32::from(by_y) * (y % 64);
    1 + (place % 150) as u8
}

/// The affinity of the edge of a voxel with the one before it on an axis. The layers at both ends of z are a region
/// each; every other voxel on x and y between them is the end of a region of two voxels on z, in contact with both.
fn affinity([x, y, z]: [u32; 3], axis: u32) -> u8 {
    let is_layer = z == 0 || z == 3;
    match axis {
        0 | 1 if is_layer => STRONG,
        2 if x % 2 == 1 && y % 2 == 1 => match z {
            1 => weak(x, y, 5, 11),
            2 => STRONG,
            3 => weak(x, y, 7, 3),
            _ => 0,
        },
        _ => 0,
    }
}

/// Two regions, each in contact with the same 306 others, which both take in turns.
fn two_hubs(alloc: Global) -> Result<Volume, Fail> {
    let [nx, ny, nz] = AXES;
    let Ok(dims) = Dims::new(nx, ny, nz) else {
        return Err("no axes of a volume".into());
    };
    let mut body = Vec::new(alloc);
    for number in 0..dims.body_len() {
        let voxel = number / 3;
        let place = [voxel % nx, voxel / nx % ny, voxel / nx / ny];
        body.push(affinity(place, number % 3))?;
    }
    if body.len() != dims.body_len() as usize {
        return Err("there is one byte for each edge number".into());
    }
    Ok(Volume::of(Head { dims, version: 1 }, body))
}

#[test]
fn regions_with_many_contacts_are_as_plainly_computed(rt: HostRuntime) -> Result<(), Fail> {
    let Ok(threshold) = Threshold::new(30, 1) else {
        return Err("no threshold".into());
    };
    for workers in [1, 4] {
        let settings = Settings {
            low: LOW,
            threshold,
            workers,
        };
        let vol = two_hubs(rt.alloc())?;
        let case = Case { vol, settings };
        compare(&rt, rt.alloc(), &case, CHUNKS, "two hubs")?;
    }
    Ok(())
}
