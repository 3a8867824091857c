ghost use Rattle.std.specs.Prelude.{◌≡◌, ◌≤◌, ◌^◌, ◌↔◌, ◌++◌, All, IfOk, IsTrue, bit_and, length, map, slice_set};
ghost use Rattle.std.specs.List.{range_with_len};
ghost use Rattle.mutual_merge.specs.Firsts.{AreFirsts};
ghost use Rattle.mutual_merge.specs.Linked.{AreLinked, IsLink};
ghost use Rattle.mutual_merge.specs.Pairs.{AreSingle, IsPairing, IsReciprocalBy, merge_of};

use crate::firsts::is_not_earlier;
use crate::links::{Link, name_of};
use crate::merging::LinkedGraph;
use agglo_model::Memory;
use mean_fraction::{Contact, Threshold};
use merge_tree::Merge;
use region_graph::Region;
use std::alloc::Global;

/// Reciprocal pairs that share no region, and for each region its mate in the pairs, or itself.
#[derive(Drop)]
pub struct Pairing {
    pub mates: Vec<u32>,
    pub pairs: Vec<Link>,
}

/// Pairs up regions that are reciprocal, by the first contact at each. Where some pair is reciprocal, there is one.
pub fn pair_up(
    alloc: Global,
    graph: &LinkedGraph,
    firsts: &[Option<Contact>],
    threshold: &Threshold,
    frozen: u8,
) -> Result<Pairing, Memory>
    requires linked { AreLinked graph.now.regions.items graph.now.links.items }
    requires firsts { AreFirsts graph.now.links.items (length graph.now.regions.items) firsts.now }
    ensures { IfOk result (λ pairing. IsPairing threshold.now frozen graph.now.regions.items graph.now.links.items
        pairing.mates.items pairing.pairs.items) }
{
    let regions = &graph.regions;
    let mut mates = places(alloc, regions.len())?;
    let mut pairs = Vec::new(alloc);
    for link in &graph.links {
        if can_pair(link, &mates, regions, firsts, threshold, frozen) {
            pairs.push(*link)?;
            mate(&mut mates, link);
        }
    }
    Ok(Pairing { mates, pairs })
}

/// So many places, in order.
pub fn places(alloc: Global, count: usize) -> Result<Vec<u32>, Memory>
    requires { count ≤ 2 ^ 32 }
    ensures { IfOk result (λ places. places.items ≡ range_with_len 0 count) }
{
    let places = (0..count).map(|place| place as u32).collect(alloc)?;
    Ok(places)
}

/// Makes the two regions of a link mates.
fn mate(mates: &mut [u32], link: &Link)
    requires { IsLink (length mates.old) link.now }
    ensures { mates.new ≡ slice_set (slice_set mates.old link.now.a link.now.b) link.now.b link.now.a }
{
    mates[link.a as usize] = link.b;
    mates[link.b as usize] = link.a;
}

/// Whether the pair of a link is reciprocal, and neither of its regions has a mate.
fn can_pair(
    link: &Link,
    mates: &[u32],
    regions: &[Region],
    firsts: &[Option<Contact>],
    threshold: &Threshold,
    frozen: u8,
) -> bool
    requires link { IsLink (length regions.now) link.now }
    requires mates { length mates.now ≡ length regions.now }
    requires firsts { length firsts.now ≡ length regions.now }
    ensures { IsTrue result ↔ (AreSingle mates.now link.now
        × IsReciprocalBy threshold.now frozen regions.now firsts.now link.now) }
{
    is_reciprocal(link, regions, firsts, threshold, frozen) && are_single(mates, link)
}

/// Whether neither region of a link has a mate.
fn are_single(mates: &[u32], link: &Link) -> bool
    requires { IsLink (length mates.now) link.now }
    ensures { IsTrue result ↔ AreSingle mates.now link.now }
{
    mates[link.a as usize] == link.a && mates[link.b as usize] == link.b
}

/// Whether the pair of a link is reciprocal, by the first contacts at each region.
fn is_reciprocal(
    link: &Link,
    regions: &[Region],
    firsts: &[Option<Contact>],
    threshold: &Threshold,
    frozen: u8,
) -> bool
    requires link { IsLink (length regions.now) link.now }
    requires firsts { length firsts.now ≡ length regions.now }
    ensures { IsTrue result ↔ IsReciprocalBy threshold.now frozen regions.now firsts.now link.now }
{
    let a = link.a as usize;
    let b = link.b as usize;
    threshold.reaches(&link.contact)
        && is_free(&regions[a], frozen)
        && is_free(&regions[b], frozen)
        && is_not_earlier(&firsts[a], &link.contact)
        && is_not_earlier(&firsts[b], &link.contact)
}

/// Whether the region touches none of these faces.
pub fn is_free(region: &Region, frozen: u8) -> bool
    ensures { IsTrue result ↔ (bit_and region.now.faces frozen ≡ 0) }
{
    region.faces & frozen == 0
}

/// Appends the merges of these pairs.
pub fn note_merges(
    merges: &mut Vec<Merge>,
    regions: &[Region],
    pairs: &[Link],
) -> Result<(), Memory>
    requires { All (IsLink (length regions.now)) pairs.now }
    ensures { IfOk result (λ _. merges.new.items ≡ merges.old.items ++ map (merge_of regions.now) pairs.now) }
{
    for pair in pairs {
        merges.push(Merge {
            survivor: name_of(regions, pair.a as usize),
            absorbed: name_of(regions, pair.b as usize),
            contact: pair.contact,
        })?;
    }
    Ok(())
}
