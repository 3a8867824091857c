ghost use Rattle.std.specs.Prelude.{◌≡◌, ◌+◌, ◌*◌, ◌^◌, ◌<◌, ◌≤◌, ◌∷◌, [], max, IfSome, MatchOption, MatchResult, None, Some};
ghost use Rattle.agglo_model.specs.Axes.{voxel_count};
ghost use Rattle.agglo_model.specs.Cutting.{Chunking, IsChunking, artificial_faces, cell_length, cells_at, child, child_count, chunking, first_node, high_corner, last_level, leaf_of, level_grid, level_of, low_corner, node_count, parent, root, sizes_flaw};
ghost use Rattle.agglo_model.specs.Finer.{IsFiner};
ghost use Rattle.chunk_tree.specs.Flaw.{flaw_of};
ghost use Rattle.chunk_tree.specs.Levels.{AreChildren, IsLevel};

use crate::level::{Children, Level, bit, grid_of, piece, span};
use seg_base::{Cell, Dims};
use std::marker::Model;

/// The most leaves that a cutting may have.
const MOST_LEAVES: u32 = 1 << 18;

/// The most levels that a cutting may have.
const MOST_LEVELS: u32 = 17;

/// Why a volume is not cut into leaves of three sizes. Axis 0 is x, 1 is y and 2 is z.
#[derive(Clone, Copy)]
pub enum CutFault {
    /// The size on this axis is the first of 0.
    ChunkZero(u8),
    /// No size is 0, and there are this many leaves, more than 2^18.
    TooManyLeaves(u64),
}

/// A volume that is cut into chunks, as a tree of at most 17 levels and fewer than 2^20 nodes. The nodes of its
/// lowest level are the leaves, at most 2^18, and those of each higher level have cells of twice the length on
/// each axis; the last level is the first with one node, the root. Nodes are numbered level by level from the leaves,
/// and in each level x runs fastest, then y, then z.
#[derive(Clone, Copy)]
pub struct Cutting {
    dims: Dims,
    leaf: Dims,
    leaves: Dims,
}

/// A cutting that goes on inside the leaves of another one.
#[derive(Clone, Copy)]
pub struct Finer {
    pub cutting: Cutting,
    /// How many levels it has below those of the other.
    pub levels: u32,
}

impl Model for Cutting {
    ghost use Rattle.std.specs.Prelude.{◌≡◌};
    ghost use Rattle.agglo_model.specs.Cutting.{Chunking, IsChunking, level_grid};
    ghost use Rattle.std.proofs.Common.{sym};

    ghost Value = { Chunking };

    ghost view = { λ c. record { axes = c.dims; leaf = c.leaf } };

    ghost invariant = { λ c. IsChunking (record { axes = c.dims; leaf = c.leaf })
        × (c.leaves ≡ level_grid (record { axes = c.dims; leaf = c.leaf }) 0) };

    ghost inverse = { λ t. record { dims = t.axes; leaf = t.leaf; leaves = level_grid t 0 } };

    ghost inverse_ok = { λ c h. λ i. record { dims = c.dims; leaf = c.leaf; leaves = sym h.1 i } };
}

impl Cutting {
    /// The cutting by leaves of these sizes on the x, y and z axis, or the first fault that they have. A size
    /// above its axis is taken as the axis.
    #[tactic(auto, using(std::proofs::lemmas::Bool::Decides::nat_tests), unfolding(agglo_model::specs::Cutting::sizes_flaw))]
    pub fn new(dims: &Dims, chunk: [u32; 3]) -> Result<Cutting, CutFault>
        ensures { MatchResult result
            (λ cutting. (sizes_flaw dims.now chunk ≡ None) × (cutting ≡ chunking dims.now chunk))
            (λ fault. sizes_flaw dims.now chunk ≡ Some (flaw_of fault)) }
    {
        let [x, y, z] = chunk;
        if x == 0 {
            return Err(CutFault::ChunkZero(0));
        }
        if y == 0 {
            return Err(CutFault::ChunkZero(1));
        }
        if z == 0 {
            return Err(CutFault::ChunkZero(2));
        }
        let leaf = grid_of(x.min(dims.nx()), y.min(dims.ny()), z.min(dims.nz()));
        let leaves = leaves_of(dims, &leaf);
        if leaves.voxels() > MOST_LEAVES {
            return Err(CutFault::TooManyLeaves(u64::from(leaves.voxels())));
        }
        Ok(Cutting {
            dims: *dims,
            leaf,
            leaves,
        })
    }

    /// The cutting whose leaves are made by halving those of this one on each axis, as often as a side is longer than
    /// `side` voxels. A leaf is cut only where the halves make it up: a side has to be even, or the whole axis.
    #[tactic(auto, using(crate::proofs::Halving::no_finer))]
    pub fn finer(&self, side: u32) -> Finer
        ensures finer { IsFiner self.now result.cutting result.levels }
        ensures cutting { IsChunking self.now }
    {
        let mut cutting = *self;
        let mut levels = 0;
        let mut longest = self.longest_side();
        for times in 1..MOST_LEVELS {
            if longest > side {
                if let Some(halved) = self.halved(times) {
                    longest = halved.longest_side();
                    cutting = halved;
                    levels = times;
                }
            }
        }
        Finer { cutting, levels }
    }

    /// The longest side of a leaf.
    fn longest_side(&self) -> u32
        ensures value { result ≡ max (max self.now.leaf.nx self.now.leaf.ny) self.now.leaf.nz }
        ensures cutting { IsChunking self.now }
    {
        self.leaf.nx().max(self.leaf.ny()).max(self.leaf.nz())
    }

    /// The cutting whose leaves are made by halving those of this one so often, unless they do not make them up, or
    /// are too many, or have no halves left.
    fn halved(&self, times: u32) -> Option<Cutting>
        requires { times < 17 }
        ensures { IfSome result (λ cutting. IsFiner self.now cutting times) }
    {
        let parts = 2u32.pow(times);
        let x = piece(self.leaf.nx(), self.dims.nx(), parts)?;
        let y = piece(self.leaf.ny(), self.dims.ny(), parts)?;
        let z = piece(self.leaf.nz(), self.dims.nz(), parts)?;
        match Cutting::new(&self.dims, [x, y, z]) {
            Ok(cutting) if cutting.levels() == self.levels() + times => Some(cutting),
            _ => None,
        }
    }

    /// The axes of the volume.
    pub fn dims(&self) -> &Dims
        ensures value { result.now ≡ self.now.axes }
        ensures cutting { IsChunking self.now }
    {
        &self.dims
    }

    /// How many levels there are.
    pub fn levels(&self) -> u32
        ensures value { result ≡ last_level self.now + 1 }
        ensures most { result ≤ 17 }
        ensures cutting { IsChunking self.now }
    {
        self.last().number + 1
    }

    /// How many nodes there are; their numbers are those below it.
    pub fn nodes(&self) -> u32
        ensures value { result ≡ node_count self.now }
        ensures few { result < 2 ^ 20 }
        ensures cutting { IsChunking self.now }
    {
        self.last().first + 1
    }

    /// How many leaves there are; they are the first nodes.
    pub fn leaves(&self) -> u32
        ensures value { result ≡ cells_at self.now 0 }
        ensures cutting { IsChunking self.now }
    {
        self.leaves.voxels()
    }

    /// The root, which is the last node.
    pub fn root(&self) -> u32
        ensures value { result ≡ root self.now }
        ensures cutting { IsChunking self.now }
    {
        self.last().first
    }

    /// The node after the last one of level `number`, which is the first of the next level if there is one.
    pub fn level_end(&self, number: u32) -> u32
        requires { number ≤ last_level self.now }
        ensures value { result ≡ first_node self.now (number + 1) }
        ensures cutting { IsChunking self.now }
    {
        let level = self.level(number);
        level.first + level.grid.voxels()
    }

    /// The level of node `m`.
    pub fn level_of(&self, m: u32) -> u32
        requires { m < node_count self.now }
        ensures value { result ≡ level_of self.now m }
        ensures cutting { IsChunking self.now }
    {
        self.holding(m).number
    }

    /// The cell of node `m`.
    pub fn cell(&self, m: u32) -> Cell
        requires { m < node_count self.now }
        ensures low { result.lo ≡ low_corner self.now m }
        ensures high { result.hi ≡ high_corner self.now m }
        ensures cutting { IsChunking self.now }
    {
        let level = self.holding(m);
        let [x, y, z] = level.grid.place(m - level.first);
        let scale = 2u32.pow(level.number);
        let (low_x, high_x) = span(x, self.leaf.nx() * scale, self.dims.nx());
        let (low_y, high_y) = span(y, self.leaf.ny() * scale, self.dims.ny());
        let (low_z, high_z) = span(z, self.leaf.nz() * scale, self.dims.nz());
        Cell {
            lo: [low_x, low_y, low_z],
            hi: [high_x, high_y, high_z],
        }
    }

    /// The parent of node `m`; the root alone has none.
    pub fn parent(&self, m: u32) -> Option<u32>
        requires { m < node_count self.now }
        ensures value { result ≡ parent self.now m }
        ensures above { MatchOption result (m ≡ root self.now) (λ p. (m < p) × (p < node_count self.now)) }
        ensures cutting { IsChunking self.now }
    {
        let level = self.holding(m);
        if level.grid.voxels() == 1 {
            return None;
        }
        let [x, y, z] = level.grid.place(m - level.first);
        let next = self.above(&level);
        Some(next.first + next.grid.voxel(x / 2, y / 2, z / 2))
    }

    /// How many children node `m` has: none if it is a leaf, and else one to eight.
    pub fn child_count(&self, m: u32) -> u32
        requires { m < node_count self.now }
        ensures value { result ≡ child_count self.now m }
        ensures most { result ≤ 8 }
        ensures cutting { IsChunking self.now }
    {
        match self.children(m) {
            None => 0,
            Some(children) => children.grid.voxels(),
        }
    }

    /// Child `i` of node `m`, in ascending order of number.
    pub fn child(&self, m: u32, i: u32) -> u32
        requires node { m < node_count self.now }
        requires child { i < child_count self.now m }
        ensures value { result ≡ child self.now m i }
        ensures below { result < m }
        ensures cutting { IsChunking self.now }
    {
        match self.children(m) {
            None => unreachable!(),
            Some(children) => {
                let [x, y, z] = children.grid.place(i);
                let below = children.level;
                below.first
                    + below
                        .grid
                        .voxel(children.x + x, children.y + y, children.z + z)
            }
        }
    }

    /// The faces of node `m`'s cell that are not on the volume's border, as bits: 1 and 2 for the low and
    /// the high one on x, 4 and 8 on y, 16 and 32 on z.
    pub fn artificial(&self, m: u32) -> u8
        requires { m < node_count self.now }
        ensures value { result ≡ artificial_faces self.now m }
        ensures six { result < 64 }
        ensures cutting { IsChunking self.now }
    {
        let cell = self.cell(m);
        let [low_x, low_y, low_z] = cell.lo;
        let [high_x, high_y, high_z] = cell.hi;
        bit(low_x > 0, 1)
            + bit(high_x < self.dims.nx(), 2)
            + bit(low_y > 0, 4)
            + bit(high_y < self.dims.ny(), 8)
            + bit(low_z > 0, 16)
            + bit(high_z < self.dims.nz(), 32)
    }

    /// The leaf whose cell holds voxel `v`.
    pub fn leaf_of(&self, v: u32) -> u32
        requires { v < voxel_count self.now.axes }
        ensures value { result ≡ leaf_of self.now v }
        ensures leaf { result < cells_at self.now 0 }
        ensures cutting { IsChunking self.now }
    {
        let [x, y, z] = self.dims.place(v);
        self.leaves
            .voxel(x / self.leaf.nx(), y / self.leaf.ny(), z / self.leaf.nz())
    }

    /// The level of the leaves.
    fn lowest(&self) -> Level
        ensures level { IsLevel self.now result }
        ensures number { result.number ≡ 0 }
        ensures cutting { IsChunking self.now }
    {
        Level {
            number: 0,
            first: 0,
            grid: self.leaves,
        }
    }

    /// The level above a level that is not the last: half as many cells on each axis, rounded up.
    fn above(&self, level: &Level) -> Level
        requires cutting { IsChunking self.now }
        requires level { IsLevel self.now level.now }
        requires inner { level.now.number < last_level self.now }
        ensures level { IsLevel self.now result }
        ensures number { result.number ≡ level.now.number + 1 }
    {
        let nx = level.grid.nx().div_ceil(2);
        let ny = level.grid.ny().div_ceil(2);
        let nz = level.grid.nz().div_ceil(2);
        Level {
            number: level.number + 1,
            first: level.first + level.grid.voxels(),
            grid: grid_of(nx, ny, nz),
        }
    }

    /// The last level, the first with one node.
    fn last(&self) -> Level
        ensures level { IsLevel self.now result }
        ensures number { result.number ≡ last_level self.now }
        ensures cutting { IsChunking self.now }
    {
        let mut level = self.lowest();
        while level.grid.voxels() > 1 {
            level = self.above(&level);
        }
        level
    }

    /// The level of node `m`.
    fn holding(&self, m: u32) -> Level
        requires { m < node_count self.now }
        ensures level { IsLevel self.now result }
        ensures number { result.number ≡ level_of self.now m }
        ensures from { result.first ≤ m }
        ensures to { m < result.first + voxel_count result.grid }
        ensures cutting { IsChunking self.now }
    {
        let mut level = self.lowest();
        while level.first + level.grid.voxels() <= m {
            level = self.above(&level);
        }
        level
    }

    /// Level `number`.
    fn level(&self, number: u32) -> Level
        requires { number ≤ last_level self.now }
        ensures level { IsLevel self.now result }
        ensures number { result.number ≡ number }
        ensures cutting { IsChunking self.now }
    {
        let mut level = self.lowest();
        for _ in 0..number {
            level = self.above(&level);
        }
        level
    }

    /// The children of node `m`, if it is no leaf.
    fn children(&self, m: u32) -> Option<Children>
        requires { m < node_count self.now }
        ensures value { MatchOption result (level_of self.now m ≡ 0) (AreChildren self.now m) }
        ensures cutting { IsChunking self.now }
    {
        let own = self.holding(m);
        if own.number == 0 {
            return None;
        }
        let [x, y, z] = own.grid.place(m - own.first);
        let level = self.level(own.number - 1);
        let grid = grid_of(
            (level.grid.nx() - 2 * x).min(2),
            (level.grid.ny() - 2 * y).min(2),
            (level.grid.nz() - 2 * z).min(2),
        );
        Some(Children {
            level,
            x: 2 * x,
            y: 2 * y,
            z: 2 * z,
            grid,
        })
    }
}

/// The leaves of a volume as a grid, from the lengths of a leaf.
fn leaves_of(dims: &Dims, leaf: &Dims) -> Dims
    ensures { result ≡ level_grid (record { axes = dims.now; leaf = leaf.now }) 0 }
{
    grid_of(
        dims.nx().div_ceil(leaf.nx()),
        dims.ny().div_ceil(leaf.ny()),
        dims.nz().div_ceil(leaf.nz()),
    )
}
