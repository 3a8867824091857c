ghost use Rattle.std.specs.Prelude.{◌≡◌, ◌<◌, All, IfOk, IsPermutation, length};
ghost use Rattle.std.specs.List.{AllZip};
ghost use Rattle.chunk_run.specs.Lanes.{AreAscending, ArePartsDone, IsDone, IsReady, jobs_in};

use crate::gate::Gate;
use crate::node_work::work_node;
use agglo_model::Memory;
use mutual_merge::Settled;
use region_graph::{Residue, Site};
use std::alloc::Global;
use std::thread;
use std::thread::Threads;

/// A node to be worked, with the residues of its children.
#[derive(Drop)]
pub(crate) struct Job {
    pub(crate) node: u32,
    pub(crate) kids: Vec<Residue>,
}

/// The nodes that one lane works, one after another.
#[derive(Drop)]
pub(crate) struct Lane {
    pub(crate) number: u32,
    pub(crate) jobs: Vec<Job>,
}

/// A node that was worked, and what became of its graph.
#[derive(Drop)]
pub(crate) struct Worked {
    pub(crate) node: u32,
    pub(crate) settled: Settled,
}

/// Works the nodes of all lanes, each lane in a thread of its own where one can be made. They come back lane
/// after lane.
pub(crate) fn work_lanes<R: Threads + Sync, G: Gate>(
    rt: &R,
    alloc: Global,
    site: &Site<'_>,
    gate: &G,
    lanes: Vec<Lane>,
    workers: u32,
) -> Result<Vec<Worked>, Memory>
    requires workers { 0 < workers }
    requires ready { All (λ lane. All (IsReady site.now) lane.jobs.items) lanes.items }
    ensures { IfOk result (λ done. AllZip (IsDone site.now) (jobs_in lanes.items) done.items) }
{
    let parts = thread::map_vec(
        rt,
        lanes,
        &|lane: Lane| -> Result<Vec<Worked>, Memory>
            requires workers { 0 < workers }
            requires ready { All (IsReady site.now) lane.jobs.items }
            ensures { IfOk result (λ done. AllZip (IsDone site.entry.now) lane.jobs.items done.items) }
        { work_lane(rt, alloc, site, gate, lane, workers) },
    )?;
    collect(alloc, parts)
}

/// Works the nodes of a lane in order.
fn work_lane<R: Threads + Sync, G: Gate>(
    rt: &R,
    alloc: Global,
    site: &Site<'_>,
    gate: &G,
    lane: Lane,
    workers: u32,
) -> Result<Vec<Worked>, Memory>
    requires workers { 0 < workers }
    requires ready { All (IsReady site.now) lane.jobs.items }
    ensures { IfOk result (λ done. AllZip (IsDone site.now) lane.jobs.items done.items) }
{
    let number = lane.number;
    let mut done = Vec::new(alloc);
    for job in lane.jobs {
        let node = job.node;
        gate.pass(number, node);
        let settled = work_node(rt, alloc, site, node, job.kids, workers)?;
        done.push(Worked { node, settled })?;
    }
    Ok(done)
}

/// What the lanes have done, in one list, lane after lane, or the first error.
fn collect(alloc: Global, parts: Vec<Result<Vec<Worked>, Memory>>) -> Result<Vec<Worked>, Memory>
    ensures { IfOk result (λ done. ArePartsDone parts.items done.items) }
{
    let mut done = Vec::new(alloc);
    for part in parts {
        let mut part = part?;
        done.append(&mut part)?;
    }
    Ok(done)
}

/// Puts nodes that were worked in order of number.
pub(crate) fn in_node_order(done: Vec<Worked>) -> Vec<Worked>
    ensures same { IsPermutation done.items result.items }
    ensures ascending { AreAscending result.items }
{
    let mut sorted = done;
    sorted.sort_unstable_by_key(|worked| number_of(worked));
    sorted
}

/// The number of a node that was worked.
fn number_of(worked: &Worked) -> u32
    ensures { result ≡ worked.now.node }
{
    worked.node
}
