ghost use Rattle.std.specs.Prelude.{◌<◌};

use mean_fraction::Threshold;
use seg_base::Dims;
use segment_run::Settings;
use std::alloc::Global;
use std::test::Fail;
use volume_file::{Head, Volume};

/// How many cases there are.
pub(crate) const CASES: u32 = 540;

/// A volume with the settings of a segmentation.
#[derive(Drop)]
pub(crate) struct Case {
    pub(crate) vol: Volume,
    pub(crate) settings: Settings,
}

/// How many lanes there are, by the seed.
const WORKERS: [u32; 6] = [1, 2, 3, 5, 8, 32];

/// The case of a seed below `CASES`. Each of the 60 axes from 1, 1, 1 to 5, 4, 3 comes with four values of `low`,
/// and with each of them another threshold, twice and with other bytes; six numbers of workers take turns.
pub(crate) fn make_case(alloc: Global, seed: u32) -> Result<Case, Fail> {
    let axes = [1 + seed % 5, 1 + seed / 5 % 4, 1 + seed / 20 % 3];
    let low = (seed / 60 % 4) as u8;
    let (p, q) = match (seed % 60 + seed / 60) % 4 {
        0 => (0, 1),
        1 => (1, 1),
        2 => (3, 2),
        _ => (2, 1),
    };
    let Ok(threshold) = Threshold::new(p, q) else {
        return Err("no threshold".into());
    };
    let settings = Settings {
        low,
        threshold,
        workers: WORKERS[(seed % 6) as usize],
    };
    // at least two of the bytes are strong, and all below `low` may come too
    let distinct = (2 + (seed / 3 % 4) as u8).max(low + 2);
    let vol = volume(alloc, axes, distinct, seed)?;
    Ok(Case { vol, settings })
}

/// A volume of these axes, of so few distinct bytes that many edges and means are equal.
pub(crate) fn volume(alloc: Global, axes: [u32; 3], distinct: u8, seed: u32) -> Result<Volume, Fail>
    requires { 0 < distinct }
{
    let [nx, ny, nz] = axes;
    let Ok(dims) = Dims::new(nx, ny, nz) else {
        return Err("no axes of a volume".into());
    };
    let mut body = Vec::new(alloc);
    let mut random = seed;
    for _ in 0..dims.body_len() {
        random = random.wrapping_mul(1664525).wrapping_add(1013904223);
        body.push((random >> 24) as u8 % distinct)?;
    }
    if body.len() != dims.body_len() as usize {
        return Err("there is one byte for each edge number".into());
    }
    Ok(Volume::of(Head { dims, version: 1 }, body))
}
