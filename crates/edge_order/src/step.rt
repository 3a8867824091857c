ghost use Rattle.std.specs.Prelude.{◌≡◌, ◌<◌, true};
ghost use Rattle.agglo_model.specs.Axes.{IsPlace, voxel_count};
ghost use Rattle.edge_order.specs.Keys.{key, rank, step_of_key};
ghost use Rattle.edge_order.specs.Steps.{LeadsTo, edge_at, leads_within, reversed, steps_within};

use seg_base::Dims;

/// One of the six edges of a voxel, by where it leads. It takes one byte.
#[derive(Clone, Copy, PartialEq)]
pub enum Step {
    /// None of the edges.
    Stay,
    /// To the predecessor on the x axis.
    BackX,
    /// To the predecessor on the y axis.
    BackY,
    /// To the predecessor on the z axis.
    BackZ,
    /// To the successor on the x axis.
    OnX,
    /// To the successor on the y axis.
    OnY,
    /// To the successor on the z axis.
    OnZ,
}

const _: () = prove!(size_of::<Step>() == 1);

impl Step {
    /// The step that takes the same edge from its far end.
    pub fn reversed(self) -> Step
        ensures { result ≡ reversed self }
    {
        match self {
            Step::Stay => Step::Stay,
            Step::BackX => Step::OnX,
            Step::BackY => Step::OnY,
            Step::BackZ => Step::OnZ,
            Step::OnX => Step::BackX,
            Step::OnY => Step::BackY,
            Step::OnZ => Step::BackZ,
        }
    }

    /// The step of the edge with this key, where its byte is at least `low`, and else `Stay`.
    pub(crate) fn of_key(key: u16, low: u8) -> Step
        ensures { result ≡ step_of_key low key }
    {
        if key / 8 < u16::from(low) {
            return Step::Stay;
        }
        match key % 8 {
            7 => Step::BackX,
            6 => Step::BackY,
            5 => Step::BackZ,
            4 => Step::OnX,
            3 => Step::OnY,
            2 => Step::OnZ,
            _ => Step::Stay,
        }
    }

    /// A number that is greater, the smaller the number of the edge that this step takes.
    fn rank(self) -> u16
        ensures value { result ≡ rank self }
        ensures small { result < 8 }
    {
        match self {
            Step::Stay => 0,
            Step::BackX => 7,
            Step::BackY => 6,
            Step::BackZ => 5,
            Step::OnX => 4,
            Step::OnY => 3,
            Step::OnZ => 2,
        }
    }

    /// The edge with this byte at this step as one number, which is greater for the edge that comes
    /// before. So the best edge of a voxel is a maximum, and a row of voxels is done at once.
    pub(crate) fn key(self, byte: u8) -> u16
        ensures value { result ≡ key byte self }
    {
        8 * u16::from(byte) + self.rank()
    }

    /// The number of the edge that this step takes from voxel `v`.
    pub fn edge(self, dims: &Dims, v: u32) -> Option<u32>
        requires { v < voxel_count dims.now }
        ensures { result ≡ edge_at dims.now v self }
    {
        let row = dims.nx();
        let layer = row * dims.ny();
        match self {
            Step::Stay => None,
            Step::BackX => Some(3 * v),
            Step::BackY => Some(3 * v + 1),
            Step::BackZ => Some(3 * v + 2),
            Step::OnX => Some(3 * (v + 1)),
            Step::OnY => Some(3 * (v + row) + 1),
            Step::OnZ => Some(3 * (v + layer) + 2),
        }
    }

    /// Whether this step leads from a place to another place of the grid, or stays.
    pub fn leads_within(self, dims: &Dims, x: u32, y: u32, z: u32) -> bool
        requires { IsPlace dims.now x y z }
        ensures { result ≡ steps_within dims.now x y z self }
    {
        match self {
            Step::Stay => true,
            Step::BackX => x > 0,
            Step::BackY => y > 0,
            Step::BackZ => z > 0,
            Step::OnX => dims.nx() > x + 1,
            Step::OnY => dims.ny() > y + 1,
            Step::OnZ => dims.nz() > z + 1,
        }
    }

    /// The voxel to which this step leads from voxel `v`. It does not lead out of the grid.
    pub fn far_end(self, dims: &Dims, v: u32) -> u32
        requires voxel { v < voxel_count dims.now }
        requires within { leads_within dims.now v self ≡ true }
        ensures leads { LeadsTo dims.now v self result }
        ensures voxel { result < voxel_count dims.now }
    {
        let row = dims.nx();
        let layer = row * dims.ny();
        match self {
            Step::Stay => v,
            Step::BackX => v - 1,
            Step::BackY => v - row,
            Step::BackZ => v - layer,
            Step::OnX => v + 1,
            Step::OnY => v + row,
            Step::OnZ => v + layer,
        }
    }
}
