ghost use Rattle.std.specs.Prelude.{◌≡◌, ◌<◌, ◌≤◌, ◌^◌, [], IfOk, IfSome, length};
ghost use Rattle.agglo_model.specs.RegionGraph.{HasRegion, IsGraph, IsWithinEdges};
ghost use Rattle.mutual_merge.specs.Linked.{AreLinked, Ascend, IsLink, edge_by, edges_by, name_at};

use agglo_model::Memory;
use mean_fraction::Contact;
use region_graph::{Edge, Region};
use std::alloc::Global;

/// An edge between two regions by their places in the list of regions, the smaller place first.
#[derive(Clone, Copy)]
pub struct Link {
    pub a: u32,
    pub b: u32,
    pub contact: Contact,
}

/// The edges of a graph by the places of their regions.
pub fn link_all(alloc: Global, regions: &[Region], edges: &[Edge]) -> Result<Vec<Link>, Memory>
    requires graph { IsGraph (record { regions = regions.now; edges = edges.now }) }
    requires within { IsWithinEdges (record { regions = regions.now; edges = edges.now }) }
    ensures linked { IfOk result (λ links. AreLinked regions.now links.items) }
    ensures same_edges { IfOk result (λ links. edges_by (name_at regions.now) links.items ≡ edges.now) }
{
    see_fit(regions);
    let guesses = guess_places(alloc, regions)?;
    let mut links = Vec::with_capacity(alloc, edges.len())?;
    for edge in edges {
        links.push(Link {
            a: place_by(regions, &guesses, edge.a),
            b: place_by(regions, &guesses, edge.b),
            contact: edge.contact,
        })?;
    }
    Ok(links)
}

/// A table of the places of regions, by how far their names are above the first one: for each 2^`shift` names
/// the place of a first region. Nothing is known of what stands there, so a place is looked at before it is relied on.
#[derive(Drop)]
struct Guesses {
    first: u32,
    shift: u32,
    places: Vec<u32>,
}

/// The table has at most so many entries for each region.
const ENTRIES_OF_REGION: usize = 16;

/// So many places are looked at from a guess on.
const NEAR: usize = 8;

/// The table of the places of these regions.
fn guess_places(alloc: Global, regions: &[Region]) -> Result<Guesses, Memory>
    requires { length regions.now ≤ 2 ^ 32 }
{
    let count = regions.len();
    if count == 0 {
        let places = Vec::new(alloc);
        return Ok(Guesses {
            first: 0,
            shift: 0,
            places,
        });
    }
    let first = name_of(regions, 0);
    let span = name_of(regions, count - 1).saturating_sub(first);
    let shift = shift_for(span, count);
    let mut places = Vec::from_elem(alloc, 0, (span >> shift) as usize + 1)?;
    for (place, region) in regions.iter().enumerate().rev() {
        let entry = (region.name.saturating_sub(first) >> shift) as usize;
        if entry < places.len() {
            places[entry] = place as u32;
        }
    }
    Ok(Guesses {
        first,
        shift,
        places,
    })
}

/// By how many bits names that span so much are shifted, so that a table for so many regions is not too long.
fn shift_for(span: u32, count: usize) -> u32
    ensures { result < 32 }
{
    let mut shift = 0;
    while shift < 31 && (span >> shift) as usize / ENTRIES_OF_REGION >= count {
        shift += 1;
    }
    shift
}

impl Guesses {
    /// The place that the table has for a name.
    fn guess(&self, name: u32) -> u32 {
        let above = name.saturating_sub(self.first);
        let entry = (above >> self.shift.min(31)) as usize;
        if entry < self.places.len() {
            self.places[entry]
        } else {
            0
        }
    }
}

/// The place of the region of this name. It is looked for at the guess and a few places after it first.
fn place_by(regions: &[Region], guesses: &Guesses, name: u32) -> u32
    requires ascend { Ascend regions.now }
    requires fit { length regions.now ≤ 2 ^ 32 }
    requires there { HasRegion (record { regions = regions.now; edges = [] }) name }
    ensures within { result < length regions.now }
    ensures named { name_at regions.now result ≡ name }
{
    let guess = guesses.guess(name) as usize;
    match near(regions, guess, name) {
        Some(place) => place,
        None => place_of(regions, name),
    }
}

/// The place of the region of this name, where it is the one from which it is looked for, or a few places after it.
fn near(regions: &[Region], from: usize, name: u32) -> Option<u32>
    requires { length regions.now ≤ 2 ^ 32 }
    ensures { IfSome result (λ place. (place < length regions.now) × (name_at regions.now place ≡ name)) }
{
    let end = regions.len().min(from.saturating_add(NEAR));
    for place in from..end {
        if name_of(regions, place) == name {
            return Some(place as u32);
        }
    }
    None
}

/// The place of the region of this name.
pub fn place_of(regions: &[Region], name: u32) -> u32
    requires ascend { Ascend regions.now }
    requires there { HasRegion (record { regions = regions.now; edges = [] }) name }
    ensures within { result < length regions.now }
    ensures named { name_at regions.now result ≡ name }
{
    regions.partition_point(|region| region.name < name) as u32
}

/// Says that places of regions fit 32 bits, since their names do. It does nothing.
fn see_fit(regions: &[Region])
    requires { Ascend regions.now }
    ensures { length regions.now ≤ 2 ^ 32 }
{
    let count = regions.len();
    if count > 0 {
        let _greatest = name_of(regions, count - 1);
    }
}

/// The name of the region at a place.
pub fn name_of(regions: &[Region], place: usize) -> u32
    requires { place < length regions.now }
    ensures { result ≡ name_at regions.now place }
{
    let region = &regions[place];
    region.name
}

/// The edge that a link is, by the names of its two regions.
pub fn edge_of(regions: &[Region], link: &Link) -> Edge
    requires { IsLink (length regions.now) link.now }
    ensures { result ≡ edge_by (name_at regions.now) link.now }
{
    Edge {
        a: name_of(regions, link.a as usize),
        b: name_of(regions, link.b as usize),
        contact: link.contact,
    }
}
