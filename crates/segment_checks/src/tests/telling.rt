use mean_fraction::Contact;
use merge_tree::Merge;
use region_graph::Graph;
use std::alloc::Global;
use std::process::Abort;
use std::test::Fail;

/// Stops the test unless a text is the wanted one of a case.
pub(crate) fn expect_text<R: Abort>(rt: &R, told: &str, wanted: &str, case: &str) {
    assert_eq!(rt; told, wanted, "{case}");
}

/// A part for each merge: the name that stays, the name that goes, and the contact.
pub(crate) fn told_merges(alloc: Global, merges: &[Merge]) -> Result<String, Fail> {
    let mut told = String::new(alloc);
    for merge in merges {
        tell_pair(
            &mut told,
            "merge",
            merge.survivor,
            merge.absorbed,
            &merge.contact,
        )?;
    }
    Ok(told)
}

/// After the merges a part for each region, its name and its faces, and for each edge, its two names and the contact.
pub(crate) fn told_graph(alloc: Global, merges: &[Merge], graph: &Graph) -> Result<String, Fail> {
    let mut told = told_merges(alloc, merges)?;
    for region in graph.regions() {
        write!(told, "region {} {};", region.name, region.faces)?;
    }
    for edge in graph.edges() {
        tell_pair(&mut told, "edge", edge.a, edge.b, &edge.contact)?;
    }
    Ok(told)
}

/// Adds two names, and the sum, the count and the tie of their contact.
fn tell_pair(told: &mut String, what: &str, a: u32, b: u32, contact: &Contact) -> Result<(), Fail> {
    let (sum, count, tie) = (contact.sum(), contact.count(), contact.tie());
    write!(told, "{what} {a} {b} {sum}/{count} {tie};")?;
    Ok(())
}
