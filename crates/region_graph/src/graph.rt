ghost use Rattle.std.specs.Prelude.{◌≡◌};
ghost use Rattle.agglo_model.specs.RegionGraph.{IsGraph, IsWithinEdges, RegionGraph};

use crate::keys::pair_key;
use mean_fraction::Contact;
use std::marker::Model;

/// A name in a cell.
#[derive(Clone, Copy)]
pub struct Region {
    /// The label of its voxels.
    pub name: u32,
    /// The artificial faces of the cell that it touches: 1 and 2 for the low and the high one on x, 4 and 8 on y,
    /// 16 and 32 on z, added up.
    pub faces: u8,
}

impl Model for Region {
    ghost use Rattle.agglo_model.specs.RegionGraph.{Region as NameWithFaces};

    ghost Value = { NameWithFaces };

    ghost view = { λ r. record { name = r.name; faces = r.faces } };

    ghost inverse = { λ r. record { name = r.name; faces = r.faces } };
}

/// Two names in contact.
#[derive(Clone, Copy)]
pub struct Edge {
    /// The smaller name.
    pub a: u32,
    /// The greater name.
    pub b: u32,
    /// What the edges of the grid between their voxels make together.
    pub contact: Contact,
}

impl Model for Edge {
    ghost use Rattle.agglo_model.specs.RegionGraph.{GraphEdge};

    ghost Value = { GraphEdge };

    ghost view = { λ e. record { a = e.a; b = e.b; contact = e.contact } };

    ghost inverse = { λ e. record { a = e.a; b = e.b; contact = e.contact } };
}

impl Edge {
    ghost use Rattle.std.specs.Prelude.{◌≡◌, ◌<◌, min, max};
    ghost use Rattle.agglo_model.specs.PairOrder.{most_edges};
    ghost use Rattle.region_graph.specs.Lists.{IsFit, order_of};

    /// The edge between two names that one edge of the grid makes, of this affinity and this number.
    pub(crate) fn one(x: u32, y: u32, byte: u8, number: u32) -> Edge
        requires { number < most_edges }
        ensures { result ≡ record {
          a = min x y;
          b = max x y;
          contact = record { sum = byte; count = 1; tie = number };
        } }
    {
        Edge {
            a: x.min(y),
            b: x.max(y),
            contact: Contact::one(byte, number),
        }
    }

    /// A number that is smaller, the earlier the edge stands in a graph, and the same between the same two names.
    pub(crate) fn order(&self) -> u64
        ensures value { result ≡ order_of self.now }
        ensures fits { IsFit self.now }
    {
        // what a contact knows of its count
        let _ = self.contact.count();
        pair_key(self.a, self.b)
    }
}

/// Regions by ascending name, and edges between them by ascending names of both ends, each once. All
/// contacts together have at most as many edges of the grid as the largest volume.
#[derive(Drop)]
pub struct Graph {
    regions: Vec<Region>,
    edges: Vec<Edge>,
}

impl Model for Graph {
    ghost use Rattle.agglo_model.specs.RegionGraph.{IsGraph, IsWithinEdges, RegionGraph};

    ghost Value = { RegionGraph };

    ghost view = { λ g. record { regions = g.regions.items; edges = g.edges.items } };

    ghost invariant = { λ g. IsGraph (record { regions = g.regions.items; edges = g.edges.items })
        × IsWithinEdges (record { regions = g.regions.items; edges = g.edges.items }) };
}

/// The two lists of a graph.
#[derive(Drop)]
pub struct Parts {
    /// The regions, by ascending name.
    pub regions: Vec<Region>,
    /// The edges, by ascending names of their ends.
    pub edges: Vec<Edge>,
}

impl Graph {
    /// The graph of these regions and edges.
    pub fn of(regions: Vec<Region>, edges: Vec<Edge>) -> Graph
        requires graph { IsGraph (record { regions = regions.items; edges = edges.items }) }
        requires within { IsWithinEdges (record { regions = regions.items; edges = edges.items }) }
        ensures { result ≡ record { regions = regions.items; edges = edges.items } }
    {
        Graph { regions, edges }
    }

    /// The regions, by ascending name.
    pub fn regions(&self) -> &[Region]
        ensures value { result.now ≡ self.now.regions }
        ensures graph { IsGraph self.now }
        ensures within { IsWithinEdges self.now }
    {
        &self.regions
    }

    /// The edges, by ascending names of their ends.
    pub fn edges(&self) -> &[Edge]
        ensures value { result.now ≡ self.now.edges }
        ensures graph { IsGraph self.now }
        ensures within { IsWithinEdges self.now }
    {
        &self.edges
    }

    /// Both lists, to be changed.
    pub fn into_parts(self) -> Parts
        ensures regions { result.regions.items ≡ self.regions }
        ensures edges { result.edges.items ≡ self.edges }
        ensures graph { IsGraph self }
        ensures within { IsWithinEdges self }
    {
        Parts {
            regions: self.regions,
            edges: self.edges,
        }
    }
}

/// The graph of the names that a node passes to its parent.
#[derive(Drop)]
pub struct Residue {
    /// The number of the node.
    pub node: u32,
    /// The names, and the contacts among them that the edges inside its cell make.
    pub graph: Graph,
}
