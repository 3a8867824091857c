ghost use Rattle.std.specs.Prelude.{◌≡◌, ◌≢◌, ◌<◌, ◌≤◌, ◌^◌, All, AllPairs, IfOk, length, map};
ghost use Rattle.agglo_model.specs.RegionGraph.{RegionGraph};
ghost use Rattle.mutual_merge.specs.Closing.{AreOpenSlots, ArePlaces, HaveOwnNames};
ghost use Rattle.mutual_merge.specs.Linked.{AreLinked, graph_of, link_edges};
ghost use Rattle.mutual_merge.specs.Slots.{AreSlots, Stands, live_edges};

use crate::links::Link;
use crate::merging::{LinkedGraph, relink};
use agglo_model::Memory;
use region_graph::Region;
use std::alloc::Global;

/// An open slot, with its region.
#[derive(Clone, Copy)]
struct OpenSlot {
    slot: u32,
    region: Region,
}

/// The graph of the slots that are open: their regions by ascending name, and the links between those in order.
pub fn close(
    alloc: Global,
    regions: &[Region],
    closed: &[bool],
    links: &[Link],
) -> Result<LinkedGraph, Memory>
    requires slots { AreSlots regions.now closed.now links.now }
    requires fit { length regions.now ≤ 2 ^ 32 }
    ensures linked { IfOk result (λ graph. AreLinked graph.regions.items graph.links.items) }
    ensures fewer { IfOk result (λ graph. link_edges graph.links.items ≤ live_edges links.now) }
    ensures same { IfOk result (λ left. (graph : RegionGraph) → Stands graph regions.now closed.now links.now
        → graph_of left.regions.items left.links.items ≡ graph) }
{
    let open = open_slots(alloc, regions, closed)?;
    let places = place_slots(alloc, &open, regions.len())?;
    let links = relink(alloc, links, &places)?;
    let regions = regions_of(alloc, &open)?;
    Ok(LinkedGraph { regions, links })
}

/// The open slots by ascending name.
fn open_slots(alloc: Global, regions: &[Region], closed: &[bool]) -> Result<Vec<OpenSlot>, Memory>
    requires one_each { length closed.now ≡ length regions.now }
    requires apart { HaveOwnNames regions.now closed.now }
    requires fit { length regions.now ≤ 2 ^ 32 }
    ensures { IfOk result (λ slots. AreOpenSlots regions.now closed.now slots.items) }
{
    let mut slots = Vec::with_capacity(alloc, regions.len())?;
    for (slot, region) in regions.iter().enumerate() {
        if !closed[slot] {
            slots.push(OpenSlot {
                slot: slot as u32,
                region: *region,
            })?;
        }
    }
    slots.sort_unstable_by_key(|slot| slot.region.name);
    Ok(slots)
}

/// The place of each of `count` slots among those that are open. A closed one gets some place.
fn place_slots(alloc: Global, slots: &[OpenSlot], count: usize) -> Result<Vec<u32>, Memory>
    requires fit { length slots.now ≤ 2 ^ 32 }
    requires inside { All (λ s. s.slot < count) slots.now }
    requires apart { AllPairs (λ s u. s.slot ≢ u.slot) slots.now }
    ensures { IfOk result (λ places. ArePlaces count slots.now places.items) }
{
    let mut places = Vec::from_elem(alloc, 0, count)?;
    for (place, slot) in slots.iter().enumerate() {
        places[slot.slot as usize] = place as u32;
    }
    Ok(places)
}

/// The regions of slots.
fn regions_of(alloc: Global, slots: &[OpenSlot]) -> Result<Vec<Region>, Memory>
    ensures { IfOk result (λ regions. regions.items ≡ map (λ s. s.region) slots.now) }
{
    let regions = slots.iter().map(|slot| slot.region).collect(alloc)?;
    Ok(regions)
}
