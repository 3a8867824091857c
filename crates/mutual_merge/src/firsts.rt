ghost use Rattle.std.specs.Prelude.{◌↔◌, All, IfOk, IsTrue};
ghost use Rattle.mutual_merge.specs.Firsts.{AreFirsts, IsEarlier, IsNotEarlier};
ghost use Rattle.mutual_merge.specs.Linked.{IsLink};

use crate::links::Link;
use agglo_model::Memory;
use mean_fraction::{Contact, rank};
use std::alloc::Global;
use std::cmp::Ordering;

/// The first contact at each of so many regions.
pub fn first_contacts(
    alloc: Global,
    links: &[Link],
    count: usize,
) -> Result<Vec<Option<Contact>>, Memory>
    requires { All (IsLink count) links.now }
    ensures { IfOk result (λ firsts. AreFirsts links.now count firsts.items) }
{
    let mut firsts = Vec::from_elem(alloc, None, count)?;
    for link in links {
        let a = link.a as usize;
        let b = link.b as usize;
        firsts[a] = earlier(firsts[a], link.contact);
        firsts[b] = earlier(firsts[b], link.contact);
    }
    Ok(firsts)
}

/// The contact, where it comes before the first one, and else the first one.
fn earlier(first: Option<Contact>, contact: Contact) -> Option<Contact>
    ensures { IsEarlier first contact result }
{
    match first {
        Some(other) if rank(&contact, &other) != Ordering::Greater => Some(other),
        _ => Some(contact),
    }
}

/// Whether the first contact, if there is one, doesn't come before this one.
pub fn is_not_earlier(first: &Option<Contact>, contact: &Contact) -> bool
    ensures { IsTrue result ↔ IsNotEarlier first.now contact.now }
{
    match first {
        Some(other) => rank(other, contact) != Ordering::Greater,
        None => true,
    }
}
