ghost use Rattle.std.specs.Prelude.{◌≡◌, ◌<◌, IfOk, length};
ghost use Rattle.agglo_model.specs.Cutting.{child_count, node_count};
ghost use Rattle.parent_join.specs.Kids.{FitsInto, KidsFit, graphs_of};

use super::sheets::{ARMS, FOUR_PAIRS, Sheet, volume_of};
use super::telling::{expect_text, told_graph};
use agglo_model::laws_of_nodes::basins_are_connected;
use chunk_tree::{Cutting, Kids};
use mean_fraction::Threshold;
use mutual_merge::settle;
use parent_join::join;
use region_graph::{Graph, Residue, Site, of_leaf};
use std::alloc::Global;
use std::test::Fail;
use steepest_ascent::whole_basins;

/// What the leaves below a node pass to it.
#[derive(Clone, Copy)]
enum Passing {
    /// Their graphs.
    Graphs,
    /// The same, but nothing from this leaf.
    AllBut(u32),
    /// What is left of their graphs when these are settled.
    Residues,
}

/// A node of a sheet that is cut into leaves, and its graph. Either the node is a leaf, or its children are.
struct Case {
    shows: &'static str,
    sheet: Sheet,
    leaf: [u32; 2],
    node: u32,
    passing: Passing,
    graph: &'static str,
}

const CASES: &[Case] = &[
    Case {
        shows: "names inside a leaf and at its face",
        sheet: FOUR_PAIRS,
        leaf: [6, 1],
        node: 0,
        passing: Passing::Graphs,
        graph: "region 1 0;region 3 0;region 5 2;edge 1 3 100/1 6;edge 3 5 90/1 12;",
    },
    Case {
        shows: "a leaf without an edge between names",
        sheet: FOUR_PAIRS,
        leaf: [6, 1],
        node: 1,
        passing: Passing::Graphs,
        graph: "region 7 1;",
    },
    Case {
        shows: "contacts of several edges in a flat leaf",
        sheet: ARMS,
        leaf: [2, 3],
        node: 0,
        passing: Passing::Graphs,
        graph: "region 1 2;region 6 2;edge 1 6 120/3 15;",
    },
    Case {
        shows: "the leaf on the other side",
        sheet: ARMS,
        leaf: [2, 3],
        node: 1,
        passing: Passing::Graphs,
        graph: "region 1 1;region 6 1;edge 1 6 160/4 19;",
    },
    Case {
        shows: "a contact across a face",
        sheet: FOUR_PAIRS,
        leaf: [6, 1],
        node: 2,
        passing: Passing::Graphs,
        graph: "region 1 0;region 3 0;region 5 0;region 7 0;edge 1 3 100/1 6;edge 3 5 90/1 12;edge 5 7 100/1 18;",
    },
    Case {
        shows: "no contact with a name that is not kept",
        sheet: FOUR_PAIRS,
        leaf: [6, 1],
        node: 2,
        passing: Passing::AllBut(1),
        graph: "region 1 0;region 3 0;region 5 0;edge 1 3 100/1 6;edge 3 5 90/1 12;",
    },
    Case {
        shows: "residues of children that were settled",
        sheet: FOUR_PAIRS,
        leaf: [6, 1],
        node: 2,
        passing: Passing::Residues,
        graph: "region 1 0;region 5 0;region 7 0;edge 1 5 90/1 12;edge 5 7 100/1 18;",
    },
    Case {
        shows: "the high face of a node is kept",
        sheet: FOUR_PAIRS,
        leaf: [2, 1],
        node: 4,
        passing: Passing::Graphs,
        graph: "region 1 0;region 3 2;edge 1 3 100/1 6;",
    },
    Case {
        shows: "the low face of a node is kept",
        sheet: FOUR_PAIRS,
        leaf: [2, 1],
        node: 5,
        passing: Passing::Graphs,
        graph: "region 5 1;region 7 0;edge 5 7 100/1 18;",
    },
    Case {
        shows: "contacts across two axes",
        sheet: ARMS,
        leaf: [2, 2],
        node: 4,
        passing: Passing::Graphs,
        graph: "region 1 0;region 6 0;edge 1 6 280/7 15;",
    },
];

/// The graph that a leaf passes on.
fn passed(alloc: Global, site: &Site, leaf: u32, passing: Passing) -> Result<Graph, Fail>
    ensures { IfOk result (λ graph. FitsInto site.now.grid site.now.cutting leaf graph) }
{
    let cutting = site.cutting();
    if leaf >= cutting.leaves() {
        return Err("the node is no leaf".into());
    }
    if let Passing::AllBut(left_out) = passing
        && left_out == leaf
    {
        return Ok(Graph::of(Vec::new(alloc), Vec::new(alloc)));
    }
    let graph = of_leaf(alloc, site, leaf)?;
    if let Passing::Residues = passing {
        let frozen = cutting.artificial(leaf);
        return Ok(settle(alloc, graph, site.threshold(), frozen)?.residue);
    }
    Ok(graph)
}

/// What the children of node `m`, which are leaves, pass to it.
fn passed_to(alloc: Global, site: &Site, m: u32, passing: Passing) -> Result<Kids<Residue>, Fail>
    requires { m < node_count site.now.cutting }
    ensures one_each { IfOk result (λ kids. length kids ≡ child_count site.now.cutting m) }
    ensures fit { IfOk result (λ kids. KidsFit site.now.grid site.now.cutting m (graphs_of kids)) }
{
    let cutting = site.cutting();
    let mut kids = Kids::none();
    for i in 0..cutting.child_count(m) {
        let node = cutting.child(m, i);
        let graph = passed(alloc, site, node, passing)?;
        kids.push(Residue { node, graph });
    }
    Ok(kids)
}

/// The graph of the node of a case, where two regions are merged from a mean of 90 on.
fn graph_of(alloc: Global, case: &Case) -> Result<String, Fail> {
    let Ok(threshold) = Threshold::new(90, 1) else {
        return Err("no threshold".into());
    };
    let [x, y] = case.leaf;
    let vol = volume_of(alloc, &case.sheet)?;
    let Ok(cutting) = Cutting::new(vol.dims(), [x, y, 1]) else {
        return Err("no cutting".into());
    };
    if case.node >= cutting.nodes() {
        return Err("no such node".into());
    }
    let labels = whole_basins(alloc, &vol, 1)?;
    basins_are_connected();
    let site = Site::new(&vol, &labels, &cutting, threshold);
    let graph = if case.node < cutting.leaves() {
        of_leaf(alloc, &site, case.node)?
    } else {
        let kids = passed_to(alloc, &site, case.node, case.passing)?;
        join(alloc, &site, case.node, kids)?
    };
    told_graph(alloc, &[], &graph)
}

#[test]
fn graphs_of_leaves_and_of_their_parents(rt: HostRuntime) -> Result<(), Fail> {
    for case in CASES {
        let graph = graph_of(rt.alloc(), case)?;
        expect_text(&rt, &graph, case.graph, case.shows);
    }
    Ok(())
}
