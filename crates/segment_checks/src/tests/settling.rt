ghost use Rattle.std.specs.Prelude.{◌≡◌, IfOk, IsTrue, map};
ghost use Rattle.segment_checks.specs.Samples.{graph_test, sample_edge, sample_region};

use super::telling::{expect_text, told_graph};
use mean_fraction::{Contact, Threshold};
use mutual_merge::settle;
use region_graph::{Edge, Graph, Region};
use std::alloc::Global;
use std::test::Fail;

/// A region in plain numbers: its name and its faces.
type RegionNumbers = (u32, u8);

/// An edge in plain numbers: two names, and the sum, the count and the tie of a contact.
type EdgeNumbers = (u32, u32, u64, u64, u32);

fn regions_of(alloc: Global, numbers: &[RegionNumbers]) -> Result<Vec<Region>, Fail>
    ensures { IfOk result (λ regions. regions.items ≡ map sample_region numbers.now) }
{
    let mut regions = Vec::new(alloc);
    for (name, faces) in numbers {
        regions.push(Region {
            name: *name,
            faces: *faces,
        })?;
    }
    Ok(regions)
}

fn edges_of(alloc: Global, numbers: &[EdgeNumbers]) -> Result<Vec<Edge>, Fail>
    ensures { IfOk result (λ edges. edges.items ≡ map sample_edge numbers.now) }
{
    let mut edges = Vec::new(alloc);
    for (a, b, sum, count, tie) in numbers {
        let Some(contact) = Contact::of(*sum, *count, *tie) else {
            return Err(Fail::new("no contact"));
        };
        edges.push(Edge {
            a: *a,
            b: *b,
            contact,
        })?;
    }
    Ok(edges)
}

/// What comes of the graph of these numbers, where it is settled with this threshold: each merge, and the regions
/// and edges that are left.
fn settled(
    alloc: Global,
    regions: &[RegionNumbers],
    edges: &[EdgeNumbers],
    threshold: u32,
    frozen: u8,
) -> Result<String, Fail>
    requires { IsTrue (graph_test regions.now edges.now) }
{
    let Ok(threshold) = Threshold::new(threshold, 1) else {
        return Err("no threshold".into());
    };
    let graph = Graph::of(regions_of(alloc, regions)?, edges_of(alloc, edges)?);
    let done = settle(alloc, graph, &threshold, frozen)?;
    told_graph(alloc, &done.merges, &done.residue)
}

/// The graphs of two leaves and of the root above them.
#[test]
fn a_frozen_region_waits_for_the_root(rt: HostRuntime) -> Result<(), Fail> {
    let regions = [(1, 0), (3, 0), (5, 2)];
    let edges = [(1, 3, 100, 1, 6), (3, 5, 90, 1, 12)];
    let first = settled(rt.alloc(), &regions, &edges, 90, 2)?;
    let wanted = "merge 1 3 100/1 6;region 1 0;region 5 2;edge 1 5 90/1 12;";
    expect_text(&rt, &first, wanted, "the first leaf");
    let second = settled(rt.alloc(), &[(7, 1)], &[], 90, 1)?;
    expect_text(
        &rt,
        &second,
        "region 7 1;",
        "the second leaf, without an edge",
    );
    let regions = [(1, 0), (5, 0), (7, 0)];
    let edges = [(1, 5, 90, 1, 12), (5, 7, 100, 1, 18)];
    let root = settled(rt.alloc(), &regions, &edges, 90, 0)?;
    let wanted = "merge 5 7 100/1 18;merge 1 5 90/1 12;";
    expect_text(&rt, &root, wanted, "the stronger pair merges first");
    Ok(())
}

#[test]
fn contacts_with_one_partner_are_added_up(rt: HostRuntime) -> Result<(), Fail> {
    let edges = [(1, 3, 100, 1, 6), (1, 5, 30, 3, 9), (3, 5, 50, 1, 12)];
    let free = settled(rt.alloc(), &[(1, 0), (3, 0), (5, 0)], &edges, 20, 0)?;
    let wanted = "merge 1 3 100/1 6;merge 1 5 80/4 9;";
    expect_text(&rt, &free, wanted, "they reach the threshold");
    let held = settled(rt.alloc(), &[(1, 0), (3, 0), (5, 1)], &edges, 20, 1)?;
    let wanted = "merge 1 3 100/1 6;region 1 0;region 5 1;edge 1 5 80/4 9;";
    expect_text(&rt, &held, wanted, "the partner is frozen");
    Ok(())
}

/// Either pair may be the first.
#[test]
fn pairs_of_equal_rank_merge_one_after_another(rt: HostRuntime) -> Result<(), Fail> {
    let regions = [(1, 0), (3, 0), (5, 0)];
    let edges = [(1, 3, 10, 1, 0), (3, 5, 20, 2, 0)];
    let told = settled(rt.alloc(), &regions, &edges, 5, 0)?;
    let lower_first = told.as_str() == "merge 1 3 10/1 0;merge 1 5 20/2 0;";
    let upper_first = told.as_str() == "merge 3 5 20/2 0;merge 1 3 10/1 0;";
    assert!(rt; lower_first || upper_first, "{told}");
    Ok(())
}
