ghost use Rattle.std.specs.Prelude.{◌≡◌, ◌<◌, Some, None, MatchOption, MatchResult, false};
ghost use Rattle.agglo_model.specs.Axes.{Axes, IsWithinLimits, IsPlace, IsEdgeBetween, axes_flaw, voxel_count, edge_count, voxel_at, place_of, coordinate, stride, is_edge};
ghost use Rattle.seg_base.specs.Flaw.{flaw_of};

use std::marker::Model;

/// The longest axis, in voxels.
const LONGEST_AXIS: u32 = 65_535;

/// The greatest number of voxels.
const MOST_VOXELS: u64 = 1 << 28;

/// Why three numbers are no axes of a volume. Axis 0 is x, 1 is y and 2 is z.
#[derive(Clone, Copy, Debug)]
pub enum DimFault {
    /// This axis is the first of length 0.
    AxisZero(u8),
    /// No axis has length 0, and this one is the first that is longer than 65,535.
    AxisLarge(u8),
    /// Each axis is in range, and there are more than 2^28 voxels.
    TooMany,
}

/// The lengths of a volume's axes in voxels: each from 1 to 65,535, and together at most 2^28 voxels.
#[derive(Clone, Copy, Debug, PartialEq)]
pub struct Dims {
    nx: u32,
    ny: u32,
    nz: u32,
}

impl Model for Dims {
    ghost use Rattle.agglo_model.specs.Axes.{Axes, IsWithinLimits};

    ghost Value = { Axes };

    ghost view = { λ dims. record { nx = dims.nx; ny = dims.ny; nz = dims.nz } };

    ghost invariant = { λ dims. IsWithinLimits (record { nx = dims.nx; ny = dims.ny; nz = dims.nz }) };

    ghost inverse = { λ axes. record { nx = axes.nx; ny = axes.ny; nz = axes.nz } };
}

impl Dims {
    /// The axes of these lengths, or the first fault that they have.
    #[tactic(auto, using(std::proofs::lemmas::Bool::Decides::nat_tests), unfolding(agglo_model::specs::Axes::axes_flaw))]
    pub fn new(nx: u32, ny: u32, nz: u32) -> Result<Dims, DimFault>
        ensures { let axes : Axes = record { nx = nx; ny = ny; nz = nz } in MatchResult result
            (λ dims. (axes_flaw axes ≡ None) × (dims ≡ axes))
            (λ fault. axes_flaw axes ≡ Some (flaw_of fault)) }
    {
        if nx == 0 {
            Err(DimFault::AxisZero(0))
        } else if ny == 0 {
            Err(DimFault::AxisZero(1))
        } else if nz == 0 {
            Err(DimFault::AxisZero(2))
        } else if nx > LONGEST_AXIS {
            Err(DimFault::AxisLarge(0))
        } else if ny > LONGEST_AXIS {
            Err(DimFault::AxisLarge(1))
        } else if nz > LONGEST_AXIS {
            Err(DimFault::AxisLarge(2))
        } else if u64::from(nx * ny) * u64::from(nz) > MOST_VOXELS {
            Err(DimFault::TooMany)
        } else {
            Ok(Dims { nx, ny, nz })
        }
    }

    /// The length of the x axis.
    pub fn nx(&self) -> u32
        ensures value { result ≡ self.now.nx }
        ensures limits { IsWithinLimits self.now }
    {
        self.nx
    }

    /// The length of the y axis.
    pub fn ny(&self) -> u32
        ensures value { result ≡ self.now.ny }
        ensures limits { IsWithinLimits self.now }
    {
        self.ny
    }

    /// The length of the z axis.
    pub fn nz(&self) -> u32
        ensures value { result ≡ self.now.nz }
        ensures limits { IsWithinLimits self.now }
    {
        self.nz
    }

    /// How many voxels there are.
    pub fn voxels(&self) -> u32
        ensures value { result ≡ voxel_count self.now }
        ensures limits { IsWithinLimits self.now }
    {
        self.nx * self.ny * self.nz
    }

    /// How many bytes the affinities take: three for each voxel.
    pub fn body_len(&self) -> u32
        ensures value { result ≡ edge_count self.now }
        ensures limits { IsWithinLimits self.now }
    {
        3 * self.voxels()
    }

    /// The number of the voxel at this place.
    pub fn voxel(&self, x: u32, y: u32, z: u32) -> u32
        requires { IsPlace self.now x y z }
        ensures value { result ≡ voxel_at self.now x y z }
        ensures voxel { result < voxel_count self.now }
        ensures limits { IsWithinLimits self.now }
    {
        x + self.nx * (y + self.ny * z)
    }

    /// The place of voxel `v`: its coordinates on the x, y and z axis. `voxel` leads back.
    #[tactic(auto, using(agglo_model::proofs::Places::row_layer))]
    pub fn place(&self, v: u32) -> [u32; 3]
        requires { v < voxel_count self.now }
        ensures value { result ≡ place_of self.now v }
        ensures place { IsPlace self.now (coordinate self.now v 0) (coordinate self.now v 1) (coordinate self.now v 2) }
        ensures back { voxel_at self.now (coordinate self.now v 0) (coordinate self.now v 1) (coordinate self.now v 2) ≡ v }
        ensures limits { IsWithinLimits self.now }
    {
        let row = v / self.nx;
        [v % self.nx, row % self.ny, row / self.ny]
    }

    /// The lower and the higher voxel of edge number `e`, where there is such an edge.
    #[tactic(auto, using(agglo_model::proofs::Places::edge_between))]
    pub fn edge_ends(&self, e: u32) -> Option<(u32, u32)>
        ensures ends { MatchOption result
            (is_edge self.now e ≡ false)
            (λ ends. IsEdgeBetween self.now e ends.0 ends.1) }
        ensures limits { IsWithinLimits self.now }
    {
        if e >= self.body_len() {
            return None;
        }
        let higher = e / 3;
        let axis = e % 3;
        if self.coordinate(higher, axis) == 0 {
            return None;
        }
        Some((higher - self.stride(axis), higher))
    }

    /// The coordinate of voxel `v` on an axis.
    fn coordinate(&self, v: u32, axis: u32) -> u32
        ensures value { result ≡ coordinate self.now v axis }
        ensures limits { IsWithinLimits self.now }
    {
        match axis {
            0 => v % self.nx,
            1 => v / self.nx % self.ny,
            _ => v / (self.nx * self.ny),
        }
    }

    /// How far the numbers of two neighbours on an axis lie apart.
    pub fn stride(&self, axis: u32) -> u32
        ensures value { result ≡ stride self.now axis }
        ensures limits { IsWithinLimits self.now }
    {
        match axis {
            0 => 1,
            1 => self.nx,
            _ => self.nx * self.ny,
        }
    }
}
