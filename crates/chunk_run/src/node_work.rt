ghost use Rattle.std.specs.Prelude.{◌≡◌, ◌<◌, ◌≤◌, IfOk, length};
ghost use Rattle.agglo_model.specs.Cutting.{node_count};
ghost use Rattle.agglo_model.specs.Settling.{Settles};
ghost use Rattle.parent_join.specs.Kids.{graphs_of};
ghost use Rattle.chunk_run.specs.Turns.{AreFromChildren, IsStartOf, TakesTurn};

use agglo_model::Memory;
use chunk_tree::Kids;
use mean_fraction::Threshold;
use mutual_merge::{Settled, settle, settle_free};
use parent_join::{join, residues_fit};
use region_graph::{Graph, Residue, Site, of_leaf};
use std::alloc::Global;
use std::thread::Threads;
use work_laws::{leaves_take_turns, parents_take_turns};

/// The work of node `m`: the graph of its cell, joined from the residues of its children if it is no leaf, and
/// settled. Nothing else is read, so nodes of one level may be worked in any order.
pub(crate) fn work_node<R: Threads + Sync>(
    rt: &R,
    alloc: Global,
    site: &Site,
    m: u32,
    kids: Vec<Residue>,
    workers: u32,
) -> Result<Settled, Memory>
    requires workers { 0 < workers }
    requires node { m < node_count site.now.cutting }
    requires kids { AreFromChildren site.now m (graphs_of kids.items) }
    ensures { IfOk result (λ settled.
        TakesTurn site.now m (graphs_of kids.items) settled.merges.items settled.residue) }
{
    leaves_take_turns();
    parents_take_turns();
    let graph = start_graph(alloc, site, m, kids)?;
    let faces = site.cutting().artificial(m);
    settle_by(rt, alloc, graph, site.threshold(), faces, workers)
}

/// Settles the graph of a node, by all workers where nothing is held back: no other node is worked at that time then.
fn settle_by<R: Threads + Sync>(
    rt: &R,
    alloc: Global,
    graph: Graph,
    threshold: &Threshold,
    faces: u8,
    workers: u32,
) -> Result<Settled, Memory>
    requires workers { 0 < workers }
    ensures settles { IfOk result (λ settled. Settles threshold.now faces graph settled.merges.items settled.residue) }
{
    if faces == 0 && workers > 1 {
        settle_free(rt, alloc, graph, threshold, workers)
    } else {
        settle(alloc, graph, threshold, faces)
    }
}

/// The graph that node `m` starts from.
fn start_graph(alloc: Global, site: &Site, m: u32, kids: Vec<Residue>) -> Result<Graph, Memory>
    requires node { m < node_count site.now.cutting }
    requires kids { AreFromChildren site.now m (graphs_of kids.items) }
    ensures { IfOk result (λ graph. IsStartOf site.now m (graphs_of kids.items) graph) }
{
    residues_fit();
    if m < site.cutting().leaves() {
        of_leaf(alloc, site, m)
    } else {
        join(alloc, site, m, kids_of(kids))
    }
}

/// The residues of a node's children as its kids. While a node waits for its turn a Vec holds them, which takes
/// less room than the places for eight.
fn kids_of(residues: Vec<Residue>) -> Kids<Residue>
    requires { length residues.items ≤ 8 }
    ensures { result ≡ residues.items }
{
    let mut kids = Kids::none();
    for residue in residues {
        kids.push(residue);
    }
    kids
}
