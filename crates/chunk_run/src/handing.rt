ghost use Rattle.std.specs.Prelude.{◌≡◌, ◌+◌, ◌-◌, ◌<◌, ◌≤◌, [], List, IfOk, length};
ghost use Rattle.agglo_model.specs.Cutting.{child_count, level_of, node_count};
ghost use Rattle.agglo_model.specs.Greedy.{Merge};
ghost use Rattle.agglo_model.specs.Report.{Level};
ghost use Rattle.parent_join.specs.Kids.{graphs_of};
ghost use Rattle.chunk_run.specs.Lanes.{AreHandedOut, jobs_in};
ghost use Rattle.chunk_run.specs.Turns.{AreTaken, AreThere, HasWorked};

use crate::lanes::{Job, Lane};
use agglo_model::Memory;
use chunk_tree::Cutting;
use region_graph::{Graph, Residue, Site};
use std::alloc::Global;

/// Hands the nodes of a level out to lanes, in turns, each with the residues of its children, which no longer
/// wait. The nodes are those from `first` up to `end`, of which there is one.
pub(crate) fn hand_out(
    alloc: Global,
    site: &Site<'_>,
    first: u32,
    end: u32,
    workers: u32,
    waiting: &mut [Option<Graph>],
) -> Result<Vec<Lane>, Memory>
    requires workers { 0 < workers }
    requires some { first < end }
    requires nodes { end ≤ node_count site.now.cutting }
    requires one_level { level_of site.now.cutting first ≡ level_of site.now.cutting (end - 1) }
    requires so_far { (merges : List Merge) × (levels : List Level) × HasWorked site.now first first waiting.old merges levels }
    ensures { IfOk result (λ lanes. AreHandedOut site.now first end waiting.old waiting.new (jobs_in lanes.items)) }
{
    let cutting = site.cutting();
    let count = workers.min(end - first);
    let mut lanes = empty_lanes(alloc, count)?;
    for node in first..end {
        let kids = take_kids(alloc, cutting, node, waiting)?;
        let lane = ((node - first) % count) as usize;
        lanes[lane].jobs.push(Job { node, kids })?;
    }
    Ok(lanes)
}

/// So many lanes with no node.
fn empty_lanes(alloc: Global, count: u32) -> Result<Vec<Lane>, Memory>
    ensures count { IfOk result (λ lanes. length lanes.items ≡ count) }
    ensures empty { IfOk result (λ lanes. jobs_in lanes.items ≡ []) }
{
    let mut lanes = Vec::new(alloc);
    for number in 0..count {
        lanes.push(Lane {
            number,
            jobs: Vec::new(alloc),
        })?;
    }
    Ok(lanes)
}

/// Takes the residues of the children of node `m` out of those that wait.
fn take_kids(
    alloc: Global,
    cutting: &Cutting,
    m: u32,
    waiting: &mut [Option<Graph>],
) -> Result<Vec<Residue>, Memory>
    requires node { m < node_count cutting.now }
    requires there { AreThere cutting.now m waiting.old }
    ensures { IfOk result (λ kids. AreTaken cutting.now m (child_count cutting.now m) waiting.old waiting.new
        (graphs_of kids.items)) }
{
    let mut kids = Vec::new(alloc);
    for i in 0..cutting.child_count(m) {
        let node = cutting.child(m, i);
        let graph = waiting[node as usize].take().unwrap();
        kids.push(Residue { node, graph })?;
    }
    Ok(kids)
}
