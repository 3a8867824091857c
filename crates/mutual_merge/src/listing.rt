ghost use Rattle.std.specs.Prelude.{◌≡◌, ◌<◌, ◌≤◌, ◌^◌, All, IfOk, None, length};
ghost use Rattle.mutual_merge.specs.Linked.{IsLink, link_edges};
ghost use Rattle.agglo_model.specs.PairOrder.{most_edges};
ghost use Rattle.index_lists.specs.LinkedLists.{AreLists, list_at};
ghost use Rattle.mutual_merge.specs.Slots.{AreItems, AreListed, Covers};

use crate::links::Link;
use agglo_model::Memory;
use index_lists::Lists;
use std::alloc::Global;

/// For each slot the list of its links. A link i has the item 2 * i in the list of its slot a and 2 * i + 1 in that of b.
pub fn list_links(alloc: Global, links: &[Link], slots: u32) -> Result<Lists, Memory>
    requires links { All (IsLink slots) links.now }
    requires within { link_edges links.now ≤ most_edges }
    ensures { IfOk result (λ lists. AreListed slots links.now lists) }
{
    let mut lists = Lists::open(alloc, slots, 2 * links.len() as u32)?;
    for (index, link) in links.iter().enumerate() {
        let item = 2 * index as u32;
        lists.push_front(link.a, item);
        lists.push_front(link.b, item + 1);
    }
    Ok(lists)
}

/// The items of the links at one slot, as they were when they were gathered; of none before that.
#[derive(Drop)]
pub struct SlotItems {
    pub slot: Option<u32>,
    pub items: Vec<u32>,
}

impl SlotItems {
    /// Those of no slot.
    pub fn new(alloc: Global) -> SlotItems
        ensures { result.slot ≡ None }
    {
        SlotItems {
            slot: None,
            items: Vec::new(alloc),
        }
    }

    /// Gives them up, as links may have changed.
    pub fn forget(&mut self)
        ensures { self.new.slot ≡ None }
    {
        self.slot = None;
    }
}

/// Copies the items of a slot's links into a vector, in the place of what it had. Items of links that are gone leave
/// the slot's list.
pub fn copy_items(
    lists: &mut Lists,
    links: &[Link],
    slot: u32,
    items: &mut Vec<u32>,
) -> Result<(), Memory>
    requires listed { AreListed (length lists.old.lists) links.now lists.old }
    requires inside { slot < length lists.old.lists }
    ensures listed { IfOk result (λ _. AreListed (length lists.old.lists) links.now lists.new) }
    ensures covers { IfOk result (λ _. Covers items.new.items links.now slot) }
    ensures items { IfOk result (λ _. AreItems (length links.now) items.new.items) }
{
    items.clear();
    lists.copy_into(slot, items)?;
    unlink_gone(lists, links, slot, items);
    Ok(())
}

/// Takes the items of links that are gone out of a slot's list, which has just these items.
fn unlink_gone(lists: &mut Lists, links: &[Link], slot: u32, items: &[u32])
    requires listed { AreListed (length lists.old.lists) links.now lists.old }
    requires lawful { AreLists lists.old }
    requires items { items.now ≡ list_at lists.old slot }
    ensures { AreListed (length lists.old.lists) links.now lists.new }
{
    for item in items {
        let link = &links[(item / 2) as usize];
        if link.a == link.b {
            lists.unlink(slot, *item);
        }
    }
}
