ghost use Rattle.std.specs.Prelude.{◌≡◌, ℕ, ◌<◌, ◌↔◌, ◌∷◌, IfOk, IsPermutation, IsTrue, List, MatchOption, length};
ghost use Rattle.agglo_model.specs.PairOrder.{IsWithinLimits};
ghost use Rattle.mutual_merge.specs.Hubs.{AreReady, AreReadyBut, HasGained, HasSameEntries, IsHub, IsTrueEntry, TellAll, entry_of, number_at};
ghost use Rattle.mutual_merge.specs.Slots.{AreItems, Covers, IsFirstAt, IsLiveAt, nth_link};

use crate::links::Link;
use crate::slot_links::{is_live_at, other_end};
use agglo_model::Memory;
use mean_fraction::order_number;
use region_graph::pair_key;
use std::alloc::Global;
use std::collections::{BinaryHeap, HashMap};
use std::marker::Model;

/// No hub.
const NONE: u32 = u32::MAX;

/// A link by its index, and its contact by its number in pair order.
#[derive(Clone, Copy, PartialEq, Eq, PartialOrd, Ord)]
pub struct Entry {
    number: u128,
    link: u32,
}

/// The entries of the links at one slot. The one whose contact comes first in pair order is on top.
#[derive(Drop)]
struct Hub {
    slot: u32,
    heap: BinaryHeap<Entry>,
}

impl Model for Hub {
    ghost use Rattle.std.specs.BinaryHeap.{IsHeap, heap_items};
    ghost use Rattle.mutual_merge.specs.HubEntries.{HubEntries, entry_cmp};

    ghost Value = { HubEntries };

    ghost view = { λ h. record { slot = h.slot; entries = heap_items h.heap } };

    ghost invariant = { λ h. IsHeap entry_cmp (heap_items h.heap) };
}

impl Hub {
    /// A hub of the links at a slot that are among these items.
    fn open(alloc: Global, slot: u32, links: &[Link], items: &[u32]) -> Result<Hub, Memory>
        requires covers { Covers items.now links.now slot }
        requires items { AreItems (length links.now) items.now }
        ensures slot { IfOk result (λ hub. hub.slot ≡ slot) }
        ensures tells { IfOk result (λ hub. TellAll hub.entries links.now slot) }
    {
        let entries = list_entries(alloc, slot, links, items)?;
        Ok(Hub {
            slot,
            heap: BinaryHeap::from(entries),
        })
    }

    /// Takes in one more entry.
    fn push(&mut self, entry: Entry) -> Result<(), Memory>
        ensures slot { IfOk result (λ _. self.new.slot ≡ self.old.slot) }
        ensures pushed { IfOk result (λ _. IsPermutation (entry ∷ self.old.entries) self.new.entries) }
    {
        self.heap.push(entry)?;
        Ok(())
    }

    fn len(&self) -> usize {
        self.heap.len()
    }

    /// The first link at the slot, by its index. Entries of what is no longer so are thrown away as they come up.
    fn first(&mut self, links: &[Link]) -> Option<u32>
        requires { TellAll self.old.entries links.now self.old.slot }
        ensures slot { self.new.slot ≡ self.old.slot }
        ensures tells { TellAll self.new.entries links.now self.new.slot }
        ensures first { IsFirstAt links.now self.old.slot result }
    {
        while let Some(top) = self.heap.peek() {
            let top = *top;
            if is_true(top, links, self.slot) {
                return Some(top.link);
            }
            let _ = self.heap.pop();
        }
        None
    }
}

/// The entries of the links at a slot that are among these items.
fn list_entries(
    alloc: Global,
    slot: u32,
    links: &[Link],
    items: &[u32],
) -> Result<Vec<Entry>, Memory>
    requires covers { Covers items.now links.now slot }
    requires items { AreItems (length links.now) items.now }
    ensures { IfOk result (λ entries. TellAll entries.items links.now slot) }
{
    let mut entries = Vec::with_capacity(alloc, items.len())?;
    for item in items {
        let index = item / 2;
        let link = &links[index as usize];
        if is_live_at(link, slot) {
            entries.push(entry_of(index, link))?;
        }
    }
    Ok(entries)
}

/// The entry of a link as it is.
fn entry_of(index: u32, link: &Link) -> Entry
    ensures entry { result ≡ entry_of index link.now }
    ensures within { IsWithinLimits link.now.contact }
{
    Entry {
        number: order_number(&link.contact),
        link: index,
    }
}

/// One number for two slots in any order.
fn key_of(one: u32, other: u32) -> u64 {
    pair_key(one.min(other), one.max(other))
}

/// Whether an entry tells of a link at a slot as it is.
fn is_true(entry: Entry, links: &[Link], slot: u32) -> bool
    ensures { IsTrue result ↔ IsTrueEntry entry links.now slot }
{
    match links.get(entry.link as usize) {
        Some(link) => is_live_at(link, slot) && entry.number == order_number(&link.contact),
        None => false,
    }
}

/// Slots with so many links that their lists are not looked at for the first one, the hubs. A hub has a heap with an
/// entry for each link at it. An entry of what is no longer so stays until it comes up.
#[derive(Drop)]
pub struct Hubs {
    alloc: Global,
    /// For each slot the number of its hub, or NONE. A hub knows its slot, and counts only where that is this one.
    numbers: Vec<u32>,
    hubs: Vec<Hub>,
    /// A link for two hubs by their key. It is only a guess.
    pairs: HashMap<u64, u32>,
}

impl Hubs {
    /// None of so many slots is a hub.
    pub fn open(alloc: Global, slots: usize) -> Result<Hubs, Memory>
        ensures { IfOk result (λ hubs. (k : ℕ) → ¬ IsHub hubs k) }
    {
        Ok(Hubs {
            alloc,
            numbers: Vec::from_elem(alloc, NONE, slots)?,
            hubs: Vec::new(alloc),
            pairs: HashMap::new(alloc),
        })
    }

    /// Whether the slot is a hub.
    pub fn is_hub(&self, slot: u32) -> bool
        ensures { IsTrue result ↔ IsHub self.now slot }
    {
        self.find(slot).is_some()
    }

    /// How many entries a slot has, true ones and others.
    pub fn len_of(&self, slot: u32) -> usize {
        match self.find(slot) {
            Some(number) => self.hubs[number].len(),
            None => 0,
        }
    }

    /// Makes a hub of a slot that is none, of which all links are among these items.
    pub fn raise(&mut self, slot: u32, links: &[Link], items: &[u32]) -> Result<(), Memory>
        requires covers { Covers items.now links.now slot }
        requires items { AreItems (length links.now) items.now }
        ensures { IfOk result (λ _. AreReady links.now self.old → AreReady links.now self.new) }
    {
        if self.is_hub(slot) {
            return Ok(());
        }
        self.note_pairs(slot, links, items)?;
        let Ok(number) = u32::try_from(self.hubs.len()) else {
            return Ok(());
        };
        self.hubs.push(Hub::open(self.alloc, slot, links, items)?)?;
        if let Some(place) = self.numbers.get_mut(slot as usize) {
            *place = number;
        }
        Ok(())
    }

    /// Takes note of a link that was changed, by its index.
    pub fn note(&mut self, links: &[Link], index: u32) -> Result<(), Memory>
        requires { index < length links.now }
        ensures noted { IfOk result (λ _. (rest : List ℕ)
            → AreReadyBut links.now self.old (index ∷ rest) → AreReadyBut links.now self.new rest) }
        ensures ready { IfOk result (λ _. AreReady links.now self.old → AreReady links.now self.new) }
        ensures hubs { IfOk result (λ _. (k : ℕ) → IsHub self.new k ↔ IsHub self.old k) }
    {
        let link = &links[index as usize];
        self.add(link.a, index, link)?;
        self.add(link.b, index, link)
    }

    /// The first link at a hub, by its index. Entries of what is no longer so are thrown away as they come up.
    pub fn first(&mut self, links: &[Link], slot: u32) -> Option<u32>
        requires ready { AreReady links.now self.old }
        requires hub { IsHub self.old slot }
        ensures ready { AreReady links.now self.new }
        ensures first { IsFirstAt links.now slot result }
    {
        let number = self.find(slot)?;
        self.hubs[number].first(links)
    }

    /// A link that joins two hubs, by its index, if one is known that does or did.
    pub fn link_between(&self, one: u32, other: u32) -> Option<u32> {
        self.pairs.get(&key_of(one, other)).copied()
    }

    /// Lets a slot be no hub any more, and gives back the memory of its entries.
    pub fn close(&mut self, slot: u32)
        ensures ready { (links : List Link) → AreReady links self.old → AreReady links self.new }
        ensures closed { ¬ IsHub self.new slot }
    {
        if let Some(number) = self.find(slot) {
            self.hubs[number] = Hub {
                slot,
                heap: BinaryHeap::new(self.alloc),
            };
            self.numbers[slot as usize] = NONE;
        }
    }

    /// The number of a slot's hub, if it is one.
    fn find(&self, slot: u32) -> Option<usize>
        ensures { MatchOption result (¬ IsHub self.now slot) (λ number. (number ≡ number_at self.now slot) × IsHub self.now slot) }
    {
        let number = *self.numbers.get(slot as usize)?;
        match self.hubs.get(number as usize) {
            Some(hub) if number != NONE && hub.slot == slot => Some(number as usize),
            _ => None,
        }
    }

    /// Takes note of those of these items' links that join a slot to a hub.
    fn note_pairs(&mut self, slot: u32, links: &[Link], items: &[u32]) -> Result<(), Memory>
        requires { AreItems (length links.now) items.now }
        ensures { IfOk result (λ _. HasSameEntries self.old self.new) }
    {
        for item in items {
            let index = item / 2;
            let link = &links[index as usize];
            if is_live_at(link, slot) {
                self.note_pair(slot, other_end(link, slot), index)?;
            }
        }
        Ok(())
    }

    /// Takes note of a link that joins two slots, of which the first is a hub, if the other is one.
    fn note_pair(&mut self, slot: u32, partner: u32, index: u32) -> Result<(), Memory>
        ensures { IfOk result (λ _. HasSameEntries self.old self.new) }
    {
        if self.is_hub(partner) {
            let _ = self.pairs.insert(key_of(slot, partner), index)?;
        }
        Ok(())
    }

    /// Gives a slot an entry of this link, if it is a hub.
    fn add(&mut self, slot: u32, index: u32, link: &Link) -> Result<(), Memory>
        ensures { IfOk result (λ _. HasGained slot index link.now self.old self.new) }
    {
        if let Some(number) = self.find(slot) {
            self.hubs[number].push(entry_of(index, link))?;
            self.note_pair(slot, other_end(link, slot), index)?;
        }
        Ok(())
    }
}
