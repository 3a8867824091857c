ghost use Rattle.std.specs.Prelude.{◌<◌, IfSome};

use seg_base::Dims;
use std::alloc::{AllocError, Global};
use volume_file::Volume;

/// An edge of a grid: its number, the two voxels that it joins, and its affinity.
#[derive(Clone, Copy, PartialEq)]
pub(crate) struct Edge {
    pub(crate) number: u32,
    pub(crate) lower: u32,
    pub(crate) higher: u32,
    pub(crate) affinity: u8,
    ghost ascending: { lower < higher },
}

impl Edge {
    /// The end that is not this voxel; none where the edge doesn't meet it.
    pub(crate) fn across(&self, voxel: u32) -> Option<u32> {
        if voxel == self.lower {
            Some(self.higher)
        } else if voxel == self.higher {
            Some(self.lower)
        } else {
            None
        }
    }

    /// Whether this edge is the stronger of two, or as strong with the smaller number.
    pub(crate) fn comes_before(&self, other: &Edge) -> bool {
        self.affinity > other.affinity
            || self.affinity == other.affinity && self.number < other.number
    }
}

/// All edges of a volume, by ascending number.
pub(crate) fn edges_of(alloc: Global, vol: &Volume) -> Result<Vec<Edge>, AllocError> {
    let mut edges = Vec::new(alloc);
    for number in 0..vol.dims().body_len() {
        if let Some((lower, higher)) = ends(vol.dims(), number) {
            let affinity = vol.aff(number);
            edges.push(Edge {
                number,
                lower,
                higher,
                affinity,
            })?;
        }
    }
    Ok(edges)
}

/// The voxels that an edge joins, the lower first; none where a voxel has no predecessor on the axis.
fn ends(dims: &Dims, number: u32) -> Option<(u32, u32)>
    ensures { IfSome result (λ ends. ends.0 < ends.1) }
{
    let voxel = number / 3;
    let (stride, length) = match number % 3 {
        0 => (1, dims.nx()),
        1 => (dims.nx(), dims.ny()),
        _ => (dims.nx() * dims.ny(), dims.nz()),
    };
    if voxel / stride % length == 0 {
        return None;
    }
    Some((voxel - stride, voxel))
}
