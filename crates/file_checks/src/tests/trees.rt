ghost use Rattle.std.specs.Prelude.{IfOk, All};
ghost use Rattle.merge_tree.specs.Renaming.{HasSmallNames};

use crate::tests::{file, opened};
use mean_fraction::Contact;
use merge_tree::{Merge, apply, in_order, read_tree};
use seg_base::{Dims, Labels};
use std::alloc::Global;
use std::test::Fail;

/// The words of files, and what comes of each: the names of its merges, or the fault. The third claims 200 million
/// records, and is not refused for want of memory.
const FILES: &[(&str, &str)] = &[
    ("AFFTRE01 4 1 1 50 1 1 1 3 50 0 1 0 6 0", "1<3 "),
    ("AFFTRE01 4 1 1 50 1 1 1 3 50 0 1 0 6", "Truncated(28)"),
    (
        "AFFTRE01 16384 16384 1 50 1 200000000 1 3 50 0 1 0 6",
        "Truncated(28)",
    ),
    (
        "AFFTRE01 8 1 1 50 1 2 1 3 50 0 1 0 6 0 5 7 50 0 1 0 18 0",
        "1<3 5<7 ",
    ),
    (
        "AFFTRE01 8 1 1 50 1 2 1 3 50 0 1 0 18 0 5 7 50 0 1 0 18 0",
        "Order(1)",
    ),
    (
        "AFFTRE01 8 1 1 50 1 2 1 3 50 0 1 0 19 0 5 7 50 0 1 0 18 0",
        "Order(1)",
    ),
];

/// What comes of a file of these words.
fn told(alloc: Global, words: &str) -> Result<String, Fail> {
    let bytes = file(alloc, words)?;
    let mut desk = opened(alloc, &bytes, 0)?;
    match read_tree(alloc, &mut *desk) {
        Ok(tree) => names(alloc, tree.merges()),
        Err(fault) => Ok(format!(in alloc; "{fault:?}")?),
    }
}

/// The names of each merge, and a space after each.
fn names(alloc: Global, merges: &[Merge]) -> Result<String, Fail> {
    let mut names = String::new(alloc);
    for merge in merges {
        write!(names, "{}<{} ", merge.survivor, merge.absorbed)?;
    }
    Ok(names)
}

#[test]
fn tree_files_are_read(rt: HostRuntime) -> Result<(), Fail> {
    for &(words, wanted) in FILES {
        let told = told(rt.alloc(), words)?;
        assert_eq!(rt; (words, told.as_str()), (words, wanted));
    }
    Ok(())
}

/// Three merges in pair order. They are given in another: the mean of the second is the least.
#[tactic(auto, using(crate::proofs::Small::names_stay_small))]
fn sorted(alloc: Global) -> Result<Vec<Merge>, Fail>
    ensures { IfOk result (λ merges. All HasSmallNames merges.items) }
{
    let merges = [
        Merge {
            survivor: 1,
            absorbed: 3,
            contact: Contact::one(100, 6),
        },
        Merge {
            survivor: 1,
            absorbed: 5,
            contact: Contact::one(90, 12),
        },
        Merge {
            survivor: 5,
            absorbed: 7,
            contact: Contact::one(100, 18),
        },
    ]
    .to_vec(alloc)?;
    Ok(in_order(alloc, merges)?)
}

/// The names of a merge, and the sum, count and tie of its contact.
fn numbers(merge: &Merge) -> (u32, u32, u64, u64, u32) {
    let contact = &merge.contact;
    (
        merge.survivor,
        merge.absorbed,
        contact.sum(),
        contact.count(),
        contact.tie(),
    )
}

#[test]
fn merges_come_in_pair_order(rt: HostRuntime) -> Result<(), Fail> {
    let sorted = sorted(rt.alloc())?;
    let [first, second, third] = sorted.as_slice() else {
        return Err(Fail::from("another number of merges"));
    };
    assert_eq!(rt;
        [numbers(first), numbers(second), numbers(third)],
        [(1, 3, 100, 1, 6), (5, 7, 100, 1, 18), (1, 5, 90, 1, 12)]
    );
    Ok(())
}

/// Eight voxels in a row, each pair of them with the number of its first, counted from 1, as its label.
fn pairs(alloc: Global) -> Result<Labels, Fail> {
    let mut labels = Labels::filled(alloc, &Dims::new(8, 1, 1)?, 1)?;
    for voxel in 2..8 {
        if voxel < labels.dims().voxels() {
            labels.set(voxel, 1 + voxel / 2 * 2);
        }
    }
    Ok(labels)
}

#[test]
fn merged_names_are_followed(rt: HostRuntime) -> Result<(), Fail> {
    let alloc = rt.alloc();
    let mut labels = pairs(alloc)?;
    assert!(rt; labels.list() == [1, 1, 3, 3, 5, 5, 7, 7].as_slice());
    apply(alloc, &mut labels, &sorted(alloc)?)?;
    assert!(rt; labels.list() == [1; 8].as_slice());
    Ok(())
}
