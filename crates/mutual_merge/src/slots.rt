ghost use Rattle.std.specs.Prelude.{◌≡◌, ◌≢◌, ◌<◌, ◌^◌, false, IfOk, Some, length, replicate};
ghost use Rattle.mutual_merge.specs.Hubs.{AreReady};
ghost use Rattle.mutual_merge.specs.Indexed.{AreKnown, IsIndexed};
ghost use Rattle.mutual_merge.specs.Linked.{AreLinked};
ghost use Rattle.mutual_merge.specs.Slots.{
  AreGathered,
  AreItems,
  AreListed,
  Covers,
  HasTakenOver,
  IsFirstAt,
  IsLive,
  IsLiveAt,
  IsPairTried,
  IsSlotLink,
  both_regions,
  merge_at,
  nth_link,
};

use crate::hubs::Hubs;
use crate::links::{Link, name_of};
use crate::listing::{SlotItems, copy_items, list_links};
use crate::merging::LinkedGraph;
use crate::slot_links::{
    add_up, find_joining, first_link, is_live_at, is_single, mark_partners, move_ends, other_end,
};
use agglo_model::Memory;
use index_lists::Lists;
use merge_tree::Merge;
use region_graph::Region;
use std::alloc::Global;
use std::mem::swap;

/// A region graph while merges are made in it. Each region has a slot, which is closed when the region is taken into
/// another one. Links join slots; a link from a slot to itself is gone. Each end of a link has an item in the list of
/// its slot; items of links that are gone leave it when the list is next looked at. The first link at a hub, which has
/// many, is found without its list.
#[derive(Drop)]
pub struct Slots {
    pub regions: Vec<Region>,
    pub closed: Vec<bool>,
    pub links: Vec<Link>,
    pub lists: Lists,
    pub marks: Vec<u32>,
    pub hubs: Hubs,
}

/// A slot with more links than these becomes a hub when they are looked at.
const LONG: usize = 256;

/// Where a slot has a smaller share of the links of a hub than one in so many, those of the hub are not looked at.
const SHARE: usize = 8;

impl Slots {
    /// The slots of a graph, of which none is closed.
    pub fn open(alloc: Global, graph: LinkedGraph) -> Result<Slots, Memory>
        requires linked { AreLinked graph.regions.items graph.links.items }
        requires few { length graph.regions.items < 2 ^ 32 }
        ensures regions { IfOk result (λ slots. slots.regions.items ≡ graph.regions.items) }
        ensures closed { IfOk result (λ slots. slots.closed.items ≡ replicate (length graph.regions.items) false) }
        ensures links { IfOk result (λ slots. slots.links.items ≡ graph.links.items) }
        ensures listed { IfOk result (λ slots. AreListed (length graph.regions.items) graph.links.items slots.lists) }
        ensures marked { IfOk result (λ slots. length slots.marks.items ≡ length graph.regions.items) }
        ensures ready { IfOk result (λ slots. AreReady graph.links.items slots.hubs) }
    {
        let count = graph.regions.len();
        let lists = list_links(alloc, &graph.links, count as u32)?;
        let closed = Vec::from_elem(alloc, false, count)?;
        let marks = Vec::from_elem(alloc, 0, count)?;
        Ok(Slots {
            regions: graph.regions,
            closed,
            links: graph.links,
            lists,
            marks,
            hubs: Hubs::open(alloc, count)?,
        })
    }

    /// Gathers the items of a slot's links, unless they are at hand; those that are gone leave its list.
    fn gather(&mut self, slot: u32, room: &mut SlotItems) -> Result<(), Memory>
        requires indexed { IsIndexed self.old }
        requires inside { slot < length self.old.regions.items }
        requires known { AreKnown room.old self.old.links.items }
        ensures indexed { IfOk result (λ _. IsIndexed self.new) }
        ensures regions { self.new.regions ≡ self.old.regions }
        ensures closed { self.new.closed ≡ self.old.closed }
        ensures links { self.new.links ≡ self.old.links }
        ensures slot { IfOk result (λ _. room.new.slot ≡ Some slot) }
        ensures covers { IfOk result (λ _. Covers room.new.items.items self.old.links.items slot) }
        ensures items { IfOk result (λ _. AreItems (length self.old.links.items) room.new.items.items) }
    {
        if room.slot == Some(slot) {
            return Ok(());
        }
        copy_items(&mut self.lists, &self.links, slot, &mut room.items)?;
        room.slot = Some(slot);
        Ok(())
    }

    /// The same, and a slot that has many links becomes a hub.
    fn gather_at(&mut self, slot: u32, room: &mut SlotItems) -> Result<(), Memory>
        requires indexed { IsIndexed self.old }
        requires inside { slot < length self.old.regions.items }
        requires known { AreKnown room.old self.old.links.items }
        ensures indexed { IfOk result (λ _. IsIndexed self.new) }
        ensures regions { self.new.regions ≡ self.old.regions }
        ensures closed { self.new.closed ≡ self.old.closed }
        ensures links { self.new.links ≡ self.old.links }
        ensures slot { IfOk result (λ _. room.new.slot ≡ Some slot) }
        ensures covers { IfOk result (λ _. Covers room.new.items.items self.old.links.items slot) }
        ensures items { IfOk result (λ _. AreItems (length self.old.links.items) room.new.items.items) }
    {
        self.gather(slot, room)?;
        if room.items.len() <= LONG {
            return Ok(());
        }
        self.hubs.raise(slot, &self.links, &room.items)?;
        Ok(())
    }

    /// The first link at a slot, by its index. A slot that has many links becomes a hub. What is gathered on the way
    /// stays at hand for a merge.
    pub fn first_of(&mut self, slot: u32, room: &mut SlotItems) -> Result<Option<u32>, Memory>
        requires indexed { IsIndexed self.old }
        requires inside { slot < length self.old.regions.items }
        requires known { AreKnown room.old self.old.links.items }
        ensures indexed { IfOk result (λ _. IsIndexed self.new) }
        ensures regions { self.new.regions ≡ self.old.regions }
        ensures closed { self.new.closed ≡ self.old.closed }
        ensures links { self.new.links ≡ self.old.links }
        ensures known { IfOk result (λ _. AreKnown room.new self.old.links.items) }
        ensures first { IfOk result (λ first. IsFirstAt self.old.links.items slot first) }
    {
        if self.hubs.is_hub(slot) {
            return Ok(self.hubs.first(&self.links, slot));
        }
        self.gather_at(slot, room)?;
        Ok(first_link(&self.links, &room.items, slot))
    }

    /// Merges the pair of a link; None, and all stays as it is, where another link joins the same two slots. Of both
    /// regions the one with fewer links is taken into the other, and the links of a hub are looked at only where these
    /// are not far fewer. `one` and `other` have the items at hand, and are room to work in.
    pub fn merge(
        &mut self,
        index: u32,
        one: &mut SlotItems,
        other: &mut SlotItems,
    ) -> Result<Option<Merge>, Memory>
        requires indexed { IsIndexed self.old }
        requires inside { index < length self.old.links.items }
        requires live { IsLive (nth_link self.old.links.items index) }
        requires one { AreKnown one.old self.old.links.items }
        requires other { AreKnown other.old self.old.links.items }
        ensures indexed { IfOk result (λ _. IsIndexed self.new) }
        ensures tried { IfOk result (λ made. IsPairTried index self.old.regions.items self.old.closed.items self.old.links.items
            self.new.regions.items self.new.closed.items self.new.links.items made) }
    {
        let link = self.links[index as usize];
        let from = self.lesser_end(&link);
        let to = other_end(&link, from);
        if other.slot == Some(from) {
            swap(one, other);
        }
        self.gather(from, one)?;
        if self.hubs.len_of(to) / SHARE > one.items.len() {
            self.mark_shared(&one.items, from, to, other)?;
            return self.merge_from(index, from, &one.items);
        }
        self.gather(to, other)?;
        if one.items.len() <= other.items.len() {
            mark_partners(&mut self.marks, &self.links, &other.items, to);
            self.merge_from(index, from, &one.items)
        } else {
            mark_partners(&mut self.marks, &self.links, &one.items, from);
            self.merge_from(index, to, &other.items)
        }
    }

    /// The slot of a link's two that has fewer entries as a hub. A slot that is none has no entry.
    fn lesser_end(&self, link: &Link) -> u32
        requires { IsLive link.now }
        ensures { IsLiveAt result link.now }
    {
        if self.hubs.len_of(link.a) <= self.hubs.len_of(link.b) {
            link.a
        } else {
            link.b
        }
    }

    /// Marks the slots that links join to both of two slots, as `mark_partners` does for the second, but by their own
    /// lists: the second is a hub, with many links. The items are those of the links at the first.
    fn mark_shared(
        &mut self,
        items: &[u32],
        from: u32,
        to: u32,
        room: &mut SlotItems,
    ) -> Result<(), Memory>
        requires indexed { IsIndexed self.old }
        requires items { AreItems (length self.old.links.items) items.now }
        requires known { AreKnown room.old self.old.links.items }
        ensures indexed { IfOk result (λ _. IsIndexed self.new) }
        ensures regions { self.new.regions ≡ self.old.regions }
        ensures closed { self.new.closed ≡ self.old.closed }
        ensures links { self.new.links ≡ self.old.links }
    {
        for item in items {
            let link = self.links[(item / 2) as usize];
            if is_live_at(&link, from) {
                self.mark_joined(other_end(&link, from), to, room)?;
            }
        }
        Ok(())
    }

    /// Marks a slot with the number of a link that joins it to a hub, if one is found.
    fn mark_joined(&mut self, slot: u32, to: u32, room: &mut SlotItems) -> Result<(), Memory>
        requires indexed { IsIndexed self.old }
        requires inside { slot < length self.old.regions.items }
        requires known { AreKnown room.old self.old.links.items }
        ensures indexed { IfOk result (λ _. IsIndexed self.new) }
        ensures regions { self.new.regions ≡ self.old.regions }
        ensures closed { self.new.closed ≡ self.old.closed }
        ensures links { self.new.links ≡ self.old.links }
        ensures known { IfOk result (λ _. AreKnown room.new self.old.links.items) }
    {
        let index = if self.hubs.is_hub(slot) {
            self.hubs.link_between(slot, to)
        } else {
            self.gather_at(slot, room)?;
            find_joining(&self.links, &room.items, slot, to)
        };
        if let Some(index) = index {
            self.marks[slot as usize] = index;
        }
        Ok(())
    }

    /// The slot of a link's two that is not closed; the second, where neither is.
    pub fn left_of(&self, link: &Link) -> u32 {
        match self.closed.get(link.b as usize) {
            Some(true) => link.a,
            _ => link.b,
        }
    }

    /// Merges the pair of a link: the region of the first of its slots is taken into the other. None, and all stays as
    /// it is, where another link joins the same two. The items are those of the links at the first.
    fn merge_from(&mut self, index: u32, from: u32, items: &[u32]) -> Result<Option<Merge>, Memory>
        requires indexed { IsIndexed self.old }
        requires inside { index < length self.old.links.items }
        requires at_slot { IsLiveAt from (nth_link self.old.links.items index) }
        requires covers { Covers items.now self.old.links.items from }
        requires items { AreItems (length self.old.links.items) items.now }
        ensures indexed { IfOk result (λ _. IsIndexed self.new) }
        ensures tried { IfOk result (λ made. IsPairTried index self.old.regions.items self.old.closed.items self.old.links.items
            self.new.regions.items self.new.closed.items self.new.links.items made) }
    {
        if !is_single(&self.links, items, index) {
            return Ok(None);
        }
        let link = self.links[index as usize];
        let merge = merge_of(&self.regions, &link);
        self.take_over(from, other_end(&link, from), items)?;
        Ok(Some(merge))
    }

    /// Takes the region of one slot into that of another, and adds up the links that then join the same two slots. The
    /// items are those of the links at the first. The marks tell which links join the second to the same slots.
    fn take_over(&mut self, from: u32, to: u32, items: &[u32]) -> Result<(), Memory>
        requires indexed { IsIndexed self.old }
        requires from { from < length self.old.regions.items }
        requires to { to < length self.old.regions.items }
        requires apart { from ≢ to }
        requires covers { Covers items.now self.old.links.items from }
        requires items { AreItems (length self.old.links.items) items.now }
        ensures indexed { IfOk result (λ _. IsIndexed self.new) }
        ensures taken { IfOk result (λ _. HasTakenOver from to self.old.regions.items self.old.closed.items self.old.links.items
            self.new.regions.items self.new.closed.items self.new.links.items) }
    {
        self.hubs.close(from);
        move_ends(&mut self.links, items, from, to);
        self.lists.splice(from, to);
        self.regions[to as usize] = both(&self.regions[to as usize], &self.regions[from as usize]);
        self.closed[from as usize] = true;
        add_up(&mut self.links, items, &self.marks, to, &mut self.hubs)?;
        Ok(())
    }
}

/// The region that two make.
fn both(one: &Region, other: &Region) -> Region
    ensures { result ≡ both_regions one.now other.now }
{
    Region {
        name: one.name.min(other.name),
        faces: one.faces | other.faces,
    }
}

/// The merge of the regions of the two slots of a link.
fn merge_of(regions: &[Region], link: &Link) -> Merge
    requires { IsSlotLink (length regions.now) link.now }
    ensures { result ≡ merge_at regions.now link.now }
{
    let one = name_of(regions, link.a as usize);
    let other = name_of(regions, link.b as usize);
    Merge {
        survivor: one.min(other),
        absorbed: one.max(other),
        contact: link.contact,
    }
}
