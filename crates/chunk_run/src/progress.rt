ghost use Rattle.std.specs.Prelude.{◌≡◌, ◌+◌, ◌-◌, ◌<◌, ◌≤◌, [], ◌∷◌, ◌++◌, List, Some, IfOk, length, replicate, slice_set};
ghost use Rattle.std.specs.List.{range_with_len};
ghost use Rattle.agglo_model.specs.Cutting.{level_of, node_count};
ghost use Rattle.agglo_model.specs.RegionGraph.{RegionGraph};
ghost use Rattle.chunk_run.specs.Lanes.{AreTurns, HasTaken, HasRun};
ghost use Rattle.chunk_run.specs.Turns.{HasRoom, level_at, no_node, with_node};

use crate::count::LevelCount;
use crate::gate::Gate;
use crate::handing::hand_out;
use crate::lanes::{Worked, in_node_order, work_lanes};
use agglo_model::Memory;
use merge_tree::Merge;
use mutual_merge::Settled;
use region_graph::{Graph, Site};
use std::alloc::Global;
use std::thread::Threads;
use work_laws::residues_stay;

/// How far a run over the nodes has come: the residues that wait for their parents, by the numbers of their
/// nodes, all merges so far, the nodes that were worked, and what each level has done.
#[derive(Drop)]
pub(crate) struct Progress {
    pub(crate) waiting: Vec<Option<Graph>>,
    pub(crate) merges: Vec<Merge>,
    pub(crate) worked: Vec<u32>,
    pub(crate) levels: Vec<LevelCount>,
}

impl Progress {
    /// Where no node has been worked yet.
    pub(crate) fn new(alloc: Global, levels: u32) -> Result<Progress, Memory>
        ensures none_waiting { IfOk result (λ start. start.waiting.items ≡ []) }
        ensures no_merge { IfOk result (λ start. start.merges.items ≡ []) }
        ensures none_worked { IfOk result (λ start. start.worked.items ≡ []) }
        ensures levels { IfOk result (λ start. start.levels.items ≡ replicate levels no_node) }
    {
        let none = LevelCount {
            nodes: 0,
            merges: 0,
            passed: 0,
        };
        Ok(Progress {
            waiting: Vec::new(alloc),
            merges: Vec::new(alloc),
            worked: Vec::new(alloc),
            levels: Vec::from_elem(alloc, none, levels as usize)?,
        })
    }

    /// Works the nodes of a level, which are those from `first` up to `end`.
    pub(crate) fn work_level<R: Threads + Sync, G: Gate>(
        &mut self,
        rt: &R,
        alloc: Global,
        site: &Site<'_>,
        first: u32,
        end: u32,
        workers: u32,
        gate: &G,
    ) -> Result<(), Memory>
        requires workers { 0 < workers }
        requires some { first < end }
        requires nodes { end ≤ node_count site.now.cutting }
        requires one_level { level_of site.now.cutting first ≡ level_of site.now.cutting (end - 1) }
        requires so_far { HasRun site.now first self.old.waiting.items self.old.merges.items self.old.worked.items self.old.levels.items }
        ensures { IfOk result (λ _. HasRun site.now end
            self.new.waiting.items self.new.merges.items self.new.worked.items self.new.levels.items) }
    {
        let lanes = hand_out(alloc, site, first, end, workers, &mut self.waiting)?;
        let done = in_node_order(work_lanes(rt, alloc, site, gate, lanes, workers)?);
        self.take_in(site, first, done)
    }

    /// Takes in what the nodes from `first` on have done.
    fn take_in(&mut self, site: &Site<'_>, first: u32, done: Vec<Worked>) -> Result<(), Memory>
        requires nodes { first + length done.items ≤ node_count site.now.cutting }
        requires done { (kids : List (List RegionGraph)) × AreTurns site.now first kids done.items
            × HasTaken site.now first first (first + length done.items) self.old.waiting.items self.old.merges.items self.old.levels.items kids }
        requires numbers { self.old.worked.items ≡ range_with_len 0 first }
        ensures { IfOk result (λ _. HasRun site.now (first + length done.items)
            self.new.waiting.items self.new.merges.items self.new.worked.items self.new.levels.items) }
    {
        residues_stay();
        let cutting = site.cutting();
        let mut m = first;
        for worked in done {
            self.add_node(m, cutting.level_of(m), worked.settled)?;
            m += 1;
        }
        Ok(())
    }

    /// Adds what a node of a level has done.
    fn add_node(&mut self, m: u32, level: u32, settled: Settled) -> Result<(), Memory>
        requires { HasRoom self.old.levels.items level (length settled.merges.items) (length settled.residue.regions) }
        ensures waiting { IfOk result (λ _. self.new.waiting.items ≡ self.old.waiting.items ++ Some settled.residue ∷ []) }
        ensures merges { IfOk result (λ _. self.new.merges.items ≡ self.old.merges.items ++ settled.merges.items) }
        ensures worked { IfOk result (λ _. self.new.worked.items ≡ self.old.worked.items ++ m ∷ []) }
        ensures levels { IfOk result (λ _. self.new.levels.items ≡ slice_set self.old.levels.items level
            (with_node (level_at self.old.levels.items level) (length settled.merges.items) (length settled.residue.regions))) }
    {
        count_node(&mut self.levels, level, &settled);
        let mut made = settled.merges;
        self.merges.append(&mut made)?;
        self.waiting.push(Some(settled.residue))?;
        self.worked.push(m)?;
        Ok(())
    }
}

/// Counts a node of a level, with its merges and with the names that it passes on.
fn count_node(levels: &mut [LevelCount], level: u32, settled: &Settled)
    requires { HasRoom levels.old level (length settled.now.merges.items) (length settled.now.residue.regions) }
    ensures { levels.new ≡ slice_set levels.old level (with_node (level_at levels.old level)
        (length settled.now.merges.items) (length settled.now.residue.regions)) }
{
    let merges = settled.merges.len() as u32;
    let passed = settled.residue.regions().len() as u32;
    let count = &mut levels[level as usize];
    count.nodes += 1;
    count.merges += merges;
    count.passed += passed;
}
