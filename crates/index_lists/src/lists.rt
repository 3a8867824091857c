ghost use Rattle.std.specs.Prelude.{◌≡◌, ◌≢◌, ◌↔◌, ◌<◌, ◌++◌, [], ◌∷◌, Contains, IfOk, IsTrue, if◌then◌else◌, length, replicate, slice_get, ◌==◌, None, Some};
ghost use Rattle.index_lists.specs.LinkedLists.{LinkedLists, AreLists, IsLinked, IsNext, list_at, with_list, without};

use crate::nodes::{Ends, NONE, Node, join};
use agglo_model::Memory;
use std::alloc::Global;
use std::marker::Model;

/// Lists of numbered items, of which none stands in two places. They are linked in both directions, after
/// Knuth, The Art of Computer Programming, volume 1, 2.2.5: each item has the one after it and the one before
/// it, and each list its first and its last, so no call goes along a list. The items and lists are so many as
/// `open` was told, and no other call takes memory.
#[derive(Drop)]
pub struct Lists {
    nodes: Vec<Node>,
    ends: Vec<Ends>,
}

impl Model for Lists {
    ghost use Rattle.index_lists.specs.LinkedLists.{LinkedLists};
    ghost use Rattle.index_lists.specs.Links.{linked_lists, AreLinks};

    ghost Value = { LinkedLists };

    ghost view = { λ lists. linked_lists lists.nodes.items lists.ends.items };

    ghost invariant = { λ lists. AreLinks lists.nodes.items lists.ends.items };
}

/// The ends of a list with no item.
const EMPTY: Ends = Ends {
    first: NONE,
    last: NONE,
};

impl Lists {
    /// So many empty lists, and so many items in none of them.
    pub fn open(alloc: Global, lists: u32, items: u32) -> Result<Lists, Memory>
        ensures { IfOk result (λ made. made ≡ record { items = items; lists = replicate lists [] }) }
    {
        let mut nodes = Vec::with_capacity(alloc, items as usize)?;
        for item in 0..items {
            nodes.push(Node {
                next: item,
                previous: item,
            })?;
        }
        let ends = Vec::from_elem(alloc, EMPTY, lists as usize)?;
        Ok(Lists { nodes, ends })
    }

    /// Adds an item before all others of a list.
    pub fn push_front(&mut self, list: u32, item: u32)
        requires list { list < length self.old.lists }
        requires item { item < self.old.items }
        requires free { ¬ IsLinked self.old item }
        ensures { self.new ≡ with_list self.old list (item ∷ list_at self.old list) }
    {
        let ends = self.ends[list as usize];
        let ends = join(&mut self.nodes, ends, item, ends.first);
        self.ends[list as usize] = join(&mut self.nodes, ends, NONE, item);
    }

    /// Takes an item out of its list. The others keep their order.
    pub fn unlink(&mut self, list: u32, item: u32)
        requires { Contains (list_at self.old list) item }
        ensures { self.new ≡ with_list self.old list (without item (list_at self.old list)) }
    {
        let node = self.nodes[item as usize];
        let ends = self.ends[list as usize];
        self.ends[list as usize] = join(&mut self.nodes, ends, node.previous, node.next);
        self.nodes[item as usize].next = item;
    }

    /// Appends all items of one list to another, in their order. The one that they were in is empty then.
    pub fn splice(&mut self, from: u32, to: u32)
        requires from { from < length self.old.lists }
        requires to { to < length self.old.lists }
        requires apart { from ≢ to }
        ensures { self.new ≡ with_list (with_list self.old from []) to (list_at self.old to ++ list_at self.old from) }
    {
        let moved = self.ends[from as usize];
        if moved.first == NONE {
            return;
        }
        let ends = self.ends[to as usize];
        let joined = join(&mut self.nodes, ends, ends.last, moved.first);
        self.ends[from as usize] = EMPTY;
        self.ends[to as usize] = Ends {
            first: joined.first,
            last: moved.last,
        };
    }

    /// Appends the items of a list to a vector, in their order. Where memory is short, some were appended.
    pub fn copy_into(&self, list: u32, items: &mut Vec<u32>) -> Result<(), Memory>
        requires { list < length self.now.lists }
        ensures copied { IfOk result (λ _. items.new.items ≡ items.old.items ++ list_at self.now list) }
        ensures lawful { AreLists self.now }
    {
        let mut item = self.ends[list as usize].first;
        for _ in 0..self.nodes.len() {
            if item == NONE {
                break;
            }
            items.push(item)?;
            item = self.nodes[item as usize].next;
        }
        Ok(())
    }

    /// The first item of a list: None exactly where the list is empty.
    pub fn first(&self, list: u32) -> Option<u32>
        requires { list < length self.now.lists }
        ensures head { result ≡ slice_get (list_at self.now list) 0 }
        ensures lawful { AreLists self.now }
    {
        item_or_none(self.ends[list as usize].first)
    }

    /// The item after this one in its list: None exactly where it is the last. The number of the list is for the
    /// contract alone.
    pub fn next(&self, list: u32, item: u32) -> Option<u32>
        requires { Contains (list_at self.now list) item }
        ensures after { IsNext (list_at self.now list) item result }
        ensures lawful { AreLists self.now }
    {
        item_or_none(self.nodes[item as usize].next)
    }

    /// Whether an item stands in some list.
    pub fn linked(&self, item: u32) -> bool
        requires { item < self.now.items }
        ensures linked { IsTrue result ↔ IsLinked self.now item }
        ensures lawful { AreLists self.now }
    {
        self.nodes[item as usize].next != item
    }
}

/// The item of this number, or None where it is NONE.
fn item_or_none(number: u32) -> Option<u32>
    ensures { result ≡ (if number == NONE then None else Some number) }
{
    if number == NONE { None } else { Some(number) }
}
