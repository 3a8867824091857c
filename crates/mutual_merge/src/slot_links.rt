ghost use Rattle.std.specs.Prelude.{◌≡◌, ◌≢◌, ℕ, ◌<◌, ◌≤◌, ◌↔◌, ◌++◌, ◌/◌, [], ◌∷◌, All, Contains, IfOk, IfSome, IsTrue, List, length};
ghost use Rattle.mutual_merge.specs.Hubs.{AreReady, AreReadyBut, links_of};
ghost use Rattle.mutual_merge.specs.Slots.{
  AreGathered,
  AreItems,
  AreSlotLinks,
  AreTouching,
  HaveMovedEndsOf,
  IsFirstOf,
  IsKeptOf,
  IsLiveAt,
  IsSlotLink,
  Joins,
  live_edges,
  moved_link,
  nth_link,
  other_end,
  slot_after,
};
ghost use Rattle.agglo_model.specs.PairOrder.{most_edges};

use crate::hubs::Hubs;
use crate::links::Link;
use agglo_model::Memory;
use mean_fraction::rank;
use std::cmp::Ordering;

/// Of the links that these items are ends of, the first one at a slot, by the number of the link: the one that no
/// other comes before. An item of the number 2 * i or 2 * i + 1 is an end of the link i.
pub fn first_link(links: &[Link], items: &[u32], slot: u32) -> Option<u32>
    requires touching { AreTouching links.now }
    requires items { AreItems (length links.now) items.now }
    ensures { IsFirstOf links.now items.now slot result }
{
    let mut first = None;
    for item in items {
        first = earlier(links, first, item / 2, slot);
    }
    first
}

/// The first one so far, or this link where that comes before it.
fn earlier(links: &[Link], first: Option<u32>, index: u32, slot: u32) -> Option<u32>
    requires touching { AreTouching links.now }
    requires inside { index < length links.now }
    requires first_inside { IfSome first (λ i. i < length links.now) }
    ensures { (seen : List ℕ) (item : ℕ) → item / 2 ≡ index → IsFirstOf links.now seen slot first
        → IsFirstOf links.now (seen ++ item ∷ []) slot result }
{
    let link = &links[index as usize];
    if !is_live_at(link, slot) {
        return first;
    }
    match first {
        Some(other) if rank(&link.contact, &links[other as usize].contact) != Ordering::Greater => {
            Some(other)
        }
        _ => Some(index),
    }
}

/// Whether a link joins the slot to another one.
pub fn is_live_at(link: &Link, slot: u32) -> bool
    ensures { IsTrue result ↔ IsLiveAt slot link.now }
{
    link.a != link.b && (link.a == slot || link.b == slot)
}

/// Whether no two of the links that these items are ends of join the slots of this one.
pub fn is_single(links: &[Link], items: &[u32], index: u32) -> bool
    requires inside { index < length links.now }
    requires items { AreItems (length links.now) items.now }
    ensures { IsTrue result → (j : ℕ) → Contains items.now j
        → Joins (nth_link links.now index).a (nth_link links.now index).b (nth_link links.now (j / 2)) → j / 2 ≡ index }
{
    for item in items {
        if is_double(links, item / 2, index) {
            return false;
        }
    }
    true
}

/// Whether one link joins the same two slots as another.
fn is_double(links: &[Link], index: u32, other: u32) -> bool
    requires inside { index < length links.now }
    requires other_inside { other < length links.now }
    ensures { IsTrue result ↔ ((index ≢ other)
        × Joins (nth_link links.now other).a (nth_link links.now other).b (nth_link links.now index)) }
{
    let link = &links[other as usize];
    index != other && joins(&links[index as usize], link.a, link.b)
}

/// Whether a link joins these two slots.
fn joins(link: &Link, one: u32, other: u32) -> bool
    ensures { IsTrue result ↔ Joins one other link.now }
{
    link.a == one && link.b == other || link.a == other && link.b == one
}

/// Lets the links of these items that end at one slot end at another.
pub fn move_ends(links: &mut [Link], items: &[u32], from: u32, to: u32)
    requires { AreItems (length links.old) items.now }
    ensures { HaveMovedEndsOf items.now from to links.old links.new }
{
    for item in items {
        let index = (item / 2) as usize;
        links[index] = moved(links[index], from, to);
    }
}

/// A link that ends at one slot, with its end at another. One that is gone stays as it is.
fn moved(link: Link, from: u32, to: u32) -> Link
    ensures { result ≡ moved_link from to link }
{
    if link.a == link.b {
        return link;
    }
    Link {
        a: slot_after(from, to, link.a),
        b: slot_after(from, to, link.b),
        contact: link.contact,
    }
}

fn slot_after(from: u32, to: u32, slot: u32) -> u32
    ensures { result ≡ slot_after from to slot }
{
    if slot == from { to } else { slot }
}

/// Marks each slot that one of these links joins to this slot with the number of the link.
pub fn mark_partners(marks: &mut [u32], links: &[Link], items: &[u32], slot: u32)
    requires inside { All (IsSlotLink (length marks.old)) links.now }
    requires items { AreItems (length links.now) items.now }
{
    for item in items {
        let link = &links[(item / 2) as usize];
        if is_live_at(link, slot) {
            marks[other_end(link, slot) as usize] = item / 2;
        }
    }
}

/// Of the links that these items are ends of, one that joins these two slots.
pub fn find_joining(links: &[Link], items: &[u32], one: u32, other: u32) -> Option<u32>
    requires { AreItems (length links.now) items.now }
{
    for item in items {
        if joins(&links[(item / 2) as usize], one, other) {
            return Some(item / 2);
        }
    }
    None
}

/// The other slot of a link at this one.
pub fn other_end(link: &Link, slot: u32) -> u32
    ensures { result ≡ other_end slot link.now }
{
    if link.a == slot { link.b } else { link.a }
}

/// Adds up the links of these items and those that join the same two slots by the marks, and notes at hubs what these
/// items are links of then. A mark is only a guess.
pub fn add_up(
    links: &mut [Link],
    items: &[u32],
    marks: &[u32],
    slot: u32,
    hubs: &mut Hubs,
) -> Result<(), Memory>
    requires links { AreSlotLinks (length marks.now) links.old }
    requires items { AreItems (length links.old) items.now }
    ensures gathered { AreGathered links.old links.new }
    ensures ready { IfOk result (λ _. AreReadyBut links.old hubs.old (links_of items.now) → AreReady links.new hubs.new) }
{
    for item in items {
        let index = item / 2;
        let partner = other_end(&links[index as usize], slot);
        let kept = add_double(links, marks[partner as usize], index);
        hubs.note(links, kept)?;
    }
    Ok(())
}

/// Where two different links join the same two slots, adds the contact of the second to the first; it is gone then.
/// The one that is left of the two; the second, where they do not join the same two slots.
fn add_double(links: &mut [Link], into: u32, index: u32) -> u32
    requires inside { index < length links.old }
    requires within { live_edges links.old ≤ most_edges }
    ensures gathered { AreGathered links.old links.new }
    ensures kept { IsKeptOf index result links.old links.new }
{
    let link = links[index as usize];
    if into == index || into as usize >= links.len() || link.a == link.b {
        return index;
    }
    let other = links[into as usize];
    if !joins(&other, link.a, link.b) {
        return index;
    }
    let contact = other.contact.add(link.contact);
    links[into as usize] = Link { contact, ..other };
    links[index as usize] = Link { b: link.a, ..link };
    into
}
