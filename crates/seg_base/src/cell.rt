ghost use Rattle.std.specs.Prelude.{◌≡◌, ◌<◌, ◌↔◌, ◌∷◌, [], IsTrue};
ghost use Rattle.agglo_model.specs.Axes.{IsWithinLimits, voxel_count};
ghost use Rattle.agglo_model.specs.Boxes.{IsBoxOf, box_grid};
ghost use Rattle.agglo_model.specs.Cell.{IsInBox};

use crate::dims::Dims;

/// A box of voxels: on the x, y and z axis the coordinates from `lo` up to, but not including, `hi`.
#[derive(Clone, Copy, Debug, PartialEq)]
pub struct Cell {
    pub lo: [u32; 3],
    pub hi: [u32; 3],
}

impl Cell {
    /// The box of all voxels of a grid.
    pub fn whole(dims: &Dims) -> Cell
        ensures low { result.lo ≡ 0 ∷ 0 ∷ 0 ∷ [] }
        ensures high { result.hi ≡ dims.now.nx ∷ dims.now.ny ∷ dims.now.nz ∷ [] }
        ensures limits { IsWithinLimits dims.now }
    {
        Cell {
            lo: [0, 0, 0],
            hi: [dims.nx(), dims.ny(), dims.nz()],
        }
    }

    /// The voxels of the box as a grid of their own. It is a box of this grid.
    #[tactic(auto, using(agglo_model::proofs::AxesLimits::no_flaw, agglo_model::proofs::BoxPlaces::box_limits))]
    pub fn grid(&self, dims: &Dims) -> Dims
        requires { IsBoxOf dims.now self.now.lo self.now.hi }
        ensures value { result ≡ box_grid self.now.lo self.now.hi }
        ensures limits { IsWithinLimits dims.now }
    {
        let [from_x, from_y, from_z] = self.lo;
        let [to_x, to_y, to_z] = self.hi;
        prove!(to_x <= dims.nx() && to_y <= dims.ny() && to_z <= dims.nz());
        match Dims::new(to_x - from_x, to_y - from_y, to_z - from_z) {
            Ok(lengths) => lengths,
            Err(_) => unreachable!(),
        }
    }

    /// Whether voxel `v` lies in the box.
    pub fn holds(&self, dims: &Dims, v: u32) -> bool
        requires { v < voxel_count dims.now }
        ensures { IsTrue result ↔ IsInBox dims.now self.now.lo self.now.hi v }
    {
        let [x, y, z] = dims.place(v);
        let [from_x, from_y, from_z] = self.lo;
        let [to_x, to_y, to_z] = self.hi;
        from_x <= x && x < to_x && from_y <= y && y < to_y && from_z <= z && z < to_z
    }
}
