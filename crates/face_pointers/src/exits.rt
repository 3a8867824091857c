ghost use Rattle.std.specs.Prelude.{◌≡◌, ℕ, ◌+◌, ◌<◌, ◌≤◌, EachIndex, IfOk, OnOk, length, slice_index_or};
ghost use Rattle.agglo_model.specs.Axes.{voxel_count};
ghost use Rattle.agglo_model.specs.Basins.{label_of};
ghost use Rattle.agglo_model.specs.Cutting.{cells_at};
ghost use Rattle.agglo_model.specs.Grid.{IsWhole};
ghost use Rattle.face_pointers.specs.Exits.{TellsOf};
ghost use Rattle.face_pointers.specs.Pieces.{AreClimbs, AreLabelsFrom, AreVoxels, leaf_grid};
ghost use Rattle.face_pointers.specs.Runs.{IsRunFrom};
ghost use Rattle.steepest_ascent.specs.Progress.{IsLabelOf};

use chunk_tree::Cutting;
use rayon::current_num_threads;
use seg_base::Dims;
use std::alloc::{AllocError, Global};
use std::marker::Model;
use std::thread::{Threads, for_each_chunk_mut, map_chunks};
use steepest_ascent::{End, Ends};
use volume_file::Volume;

/// How few voxels are worth a thread of their own.
const LEAST_PART: usize = 65_536;

/// Voxels of a leaf that follow one another in the leaf and in the volume.
#[derive(Clone, Copy)]
pub(crate) struct Run {
    leaf: u32,
    /// The number of the first in the leaf.
    own: u32,
    length: u32,
}

/// A volume in pieces, with an end for each voxel that tells of its label: at first the end of its
/// ascent within the piece.
#[derive(Drop)]
pub(crate) struct Exits<'a> {
    vol: &'a Volume,
    /// The threshold of the ascents, of which contracts alone speak.
    low: u8,
    cutting: &'a Cutting,
    pieces: Vec<Ends>,
}

impl<'a> Model for Exits<'a> {
    ghost use Rattle.face_pointers.specs.Pieces.{AreParts, Parts};

    ghost Value = { Parts };

    ghost view = { λ exits. record {
      grid = exits.vol.now;
      low = exits.low;
      cutting = exits.cutting.now;
    } };

    ghost invariant = { λ exits. AreParts (record {
      grid = exits.vol.now;
      low = exits.low;
      cutting = exits.cutting.now;
    }) exits.pieces.items };
}

impl<'a> Exits<'a> {
    /// A volume with the ends of the ascents within the leaves of a cutting, in order of number.
    pub(crate) fn of(vol: &'a Volume, low: u8, cutting: &'a Cutting, pieces: Vec<Ends>) -> Exits<'a>
        requires axes { cutting.now.axes ≡ vol.now.axes }
        requires climbs { AreClimbs vol.now low cutting.now pieces.items }
        ensures { result ≡ record { grid = vol.now; low = low; cutting = cutting.now } }
    {
        prove!(cutting.dims() == vol.dims());
        Exits {
            vol,
            low,
            cutting,
            pieces,
        }
    }

    /// Follows the ascents that lead from leaf to leaf and on to another, so that afterwards no exit leads to a
    /// voxel whose end is an exit.
    pub(crate) fn follow_all<R: Threads + Sync>(
        &mut self,
        rt: &R,
        alloc: Global,
    ) -> Result<(), AllocError>
        ensures { self.new ≡ self.old }
    {
        let found = self.search(rt, alloc)?;
        for ways in &found {
            match ways {
                Ok(ways) => self.follow_each(ways),
                Err(error) => return Err(*error),
            }
        }
        Ok(())
    }

    /// The same for the ascents from these voxels.
    fn follow_each(&mut self, voxels: &[u32])
        requires { AreVoxels self.old voxels.now }
        ensures { self.new ≡ self.old }
    {
        for v in voxels {
            self.follow(*v);
        }
    }

    /// The voxels to which exits lead and whose end is an exit, looked for in several threads.
    fn search<R: Threads + Sync>(
        &self,
        rt: &R,
        alloc: Global,
    ) -> Result<Vec<Result<Vec<u32>, AllocError>>, AllocError>
        ensures { IfOk result (λ found. (k : ℕ) (d : _) → k < length found.items
            → IfOk (slice_index_or found.items k d) (λ ways. AreVoxels self.now ways.items)) }
    {
        let pieces = self.pieces.as_slice();
        let size = pieces.len().div_ceil(current_num_threads(rt)).max(1);
        let search = |first: usize, part: &[Ends]| -> Result<Vec<u32>, AllocError>
            requires { first + length part.now ≤ cells_at self.now.cutting 0 }
            ensures { IfOk result (λ ways. AreVoxels self.entry.now ways.items) }
        { self.search_leaves(alloc, first, part.len()) };
        map_chunks(rt, alloc, pieces, size, &search)
    }

    /// The same for the exits of the leaves from `first` on, of which there are so many.
    fn search_leaves(
        &self,
        alloc: Global,
        first: usize,
        many: usize,
    ) -> Result<Vec<u32>, AllocError>
        requires { first + many ≤ cells_at self.now.cutting 0 }
        ensures { IfOk result (λ ways. AreVoxels self.now ways.items) }
    {
        let pieces = &self.pieces;
        let mut ways = Vec::new(alloc);
        for leaf in first..first + many {
            self.search_leaf(&mut ways, leaf, pieces[leaf].grid())?;
        }
        Ok(ways)
    }

    /// Adds to the ways those from a leaf, which is this grid. All exits lead to neighbours of voxels on its
    /// faces.
    fn search_leaf(&self, ways: &mut Vec<u32>, leaf: usize, grid: &Dims) -> Result<(), AllocError>
        requires leaf { leaf < cells_at self.now.cutting 0 }
        requires grid { grid.now ≡ leaf_grid self.now leaf }
        requires voxels { AreVoxels self.now ways.old.items }
        ensures { OnOk result (AreVoxels self.now ways.new.items) }
    {
        for z in 0..grid.nz() {
            for y in 0..grid.ny() {
                self.search_row(ways, leaf, grid, y, z)?;
            }
        }
        Ok(())
    }

    /// The same for the voxels on faces of a leaf in the row at these coordinates.
    fn search_row(
        &self,
        ways: &mut Vec<u32>,
        leaf: usize,
        grid: &Dims,
        y: u32,
        z: u32,
    ) -> Result<(), AllocError>
        requires leaf { leaf < cells_at self.now.cutting 0 }
        requires grid { grid.now ≡ leaf_grid self.now leaf }
        requires in_y { y < grid.now.ny }
        requires in_z { z < grid.now.nz }
        requires voxels { AreVoxels self.now ways.old.items }
        ensures { OnOk result (AreVoxels self.now ways.new.items) }
    {
        let width = grid.nx();
        let first = grid.voxel(0, y, z);
        if 0 < y && y + 1 < grid.ny() && 0 < z && z + 1 < grid.nz() {
            self.search_exit(ways, leaf, first)?;
            return self.search_exit(ways, leaf, first + (width - 1));
        }
        for x in 0..width {
            self.search_exit(ways, leaf, first + x)?;
        }
        Ok(())
    }

    /// The same for voxel `i` of a leaf.
    fn search_exit(&self, ways: &mut Vec<u32>, leaf: usize, i: u32) -> Result<(), AllocError>
        requires leaf { leaf < cells_at self.now.cutting 0 }
        requires voxel { i < voxel_count (leaf_grid self.now leaf) }
        requires voxels { AreVoxels self.now ways.old.items }
        ensures { OnOk result (AreVoxels self.now ways.new.items) }
    {
        if let End::Exit(next) = self.pieces[leaf].get(i) {
            if let End::Exit(_) = self.end(next) {
                ways.push(next)?;
            }
        }
        Ok(())
    }

    /// Gives voxel `v`, and those to which the way from it leads, the name of the basin as their end.
    fn follow(&mut self, v: u32)
        requires { v < voxel_count self.old.grid.axes }
        ensures { self.new ≡ self.old }
    {
        let label = self.label(v);
        let mut here = v;
        while let End::Exit(next) = self.end(here) {
            self.put(here, label);
            here = next;
        }
    }

    /// Lets the end of voxel `v` be the basin of this name.
    fn put(&mut self, v: u32, label: u32)
        requires voxel { v < voxel_count self.old.grid.axes }
        requires right { IsLabelOf self.old.grid self.old.low v label }
        ensures { self.new ≡ self.old }
    {
        let run = self.run_from(v);
        let piece = &mut self.pieces[run.leaf as usize];
        piece.put(run.own, End::Root(label));
    }

    /// Gives each voxel its label, in several threads.
    pub(crate) fn fill_all<R: Threads + Sync>(&self, rt: &R, labels: &mut [u32])
        requires { length labels.old ≡ voxel_count self.now.grid.axes }
        ensures { EachIndex labels.new (λ v. IsLabelOf self.now.grid self.now.low v (label_of labels.new v)) }
    {
        let threads = current_num_threads(rt);
        let size = labels.len().div_ceil(threads).max(LEAST_PART);
        let fill = |first: usize, part: &mut [u32]|
            requires { first + length part.now ≤ voxel_count self.now.grid.axes }
            ensures { AreLabelsFrom self.entry.now first part.exit.now (length part.entry.now) }
        { self.fill(first, part) };
        for_each_chunk_mut(rt, labels, size, &fill);
    }

    /// Gives the voxels from `first` on, as many as the part is long, their labels.
    fn fill(&self, first: usize, part: &mut [u32])
        requires { first + length part.old ≤ voxel_count self.now.grid.axes }
        ensures { AreLabelsFrom self.now first part.new (length part.old) }
    {
        let mut done = 0;
        while done < part.len() {
            done = self.fill_run(first, part, done);
        }
    }

    /// The same for the next voxels, of which `done` have their labels, as far as they lie in one row of a
    /// leaf. How many have their labels then.
    fn fill_run(&self, first: usize, part: &mut [u32], done: usize) -> usize
        requires within { first + length part.old ≤ voxel_count self.now.grid.axes }
        requires more { done < length part.old }
        requires done { AreLabelsFrom self.now first part.old done }
        ensures more { done < result }
        ensures within { result ≤ length part.old }
        ensures done { AreLabelsFrom self.now first part.new result }
    {
        let pieces = &self.pieces;
        let run = self.run_from((first + done) as u32);
        let piece = &pieces[run.leaf as usize];
        let length = run.length.min((part.len() - done) as u32);
        for k in 0..length {
            part[done + k as usize] = self.told(piece.get(run.own + k));
        }
        done + length as usize
    }

    /// The label of a voxel whose end this is.
    fn told(&self, end: End) -> u32
        requires { (v : ℕ) × TellsOf self.now.grid self.now.low v end }
        ensures { (v : ℕ) → TellsOf self.now.grid self.now.low v end → IsLabelOf self.now.grid self.now.low v result }
    {
        match end {
            End::Background => 0,
            End::Root(name) => name,
            End::Exit(next) => self.label(next),
        }
    }

    /// The label of voxel `v`, found from piece to piece.
    fn label(&self, v: u32) -> u32
        requires { v < voxel_count self.now.grid.axes }
        ensures { IsLabelOf self.now.grid self.now.low v result }
    {
        let mut here = v;
        loop {
            match self.end(here) {
                End::Background => return 0,
                End::Root(name) => return name,
                End::Exit(next) => here = next,
            }
        }
    }

    /// The end of voxel `v`.
    fn end(&self, v: u32) -> End
        requires { v < voxel_count self.now.grid.axes }
        ensures tells { TellsOf self.now.grid self.now.low v result }
        ensures whole { IsWhole self.now.grid }
    {
        let run = self.run_from(v);
        self.pieces[run.leaf as usize].get(run.own)
    }

    /// The voxels of the volume from `v` on, as far as they lie in one row of a leaf.
    fn run_from(&self, v: u32) -> Run
        requires { v < voxel_count self.now.grid.axes }
        ensures { IsRunFrom self.now v result }
    {
        let leaf = self.cutting.leaf_of(v);
        let piece = &self.pieces[leaf as usize];
        let [x, y, z] = self.vol.dims().place(v);
        let [from_x, from_y, from_z] = piece.cell().lo;
        let [to_x, _, _] = piece.cell().hi;
        Run {
            leaf,
            own: piece.grid().voxel(x - from_x, y - from_y, z - from_z),
            length: to_x - x,
        }
    }
}
