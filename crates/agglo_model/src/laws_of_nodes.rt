//! Why work on chunks gives the answer of the whole volume. Each function has no body: its contract
//! is the law, over the definitions alone. That chunks are worked by themselves, and a decision on a region at a
//! chunk's border is delayed, is after Lu, Zlateski and Seung, arXiv 2106.10795 (2021).

ghost use Rattle.agglo_model.specs.NodeLaws.{BasinsAreConnected, CellsAreBoxes, CellsWait, DroppedNamesStay, FreeNamesLieInside, FrozenNamesAreWhole, LeavesStartFresh, MergesKeepConnected, NodeDiamond, OneOrderedWork, OrderedWorkIsWork, OrderedWorksExist, RootHasAllPairs, WorksAgree, WorksAreGreedy, WorksAreRun, WorksExist};
ghost use Rattle.agglo_model.specs.SegmentationLaws.{CuttingsAgree, LevelsAgree};

/// Any two voxels of a basin are joined by a path of edges inside the basin.
pub fn basins_are_connected()
    ensures { BasinsAreConnected }
{}

/// Where all names are connected, they still are after a merge of two names in contact.
#[tactic(auto, using(crate::proofs::ConnectedMerges::merges_keep_connected))]
pub fn merges_keep_names_connected()
    ensures { MergesKeepConnected }
{}

/// The cell of a node is a box: it holds the voxels whose coordinates are in the ranges from the low
/// corner up to the high one.
#[tactic(auto, using(crate::proofs::CellBoxes::cells_are_boxes))]
pub fn cells_are_boxes()
    ensures { CellsAreBoxes }
{}

/// Where names are connected, one that occurs in the cell of a node, and isn't frozen there, lies in the cell
/// with all its voxels, and so do both ends of each of its contact edges.
#[tactic(auto, using(crate::proofs::FreeNames::free_names_lie_inside))]
pub fn free_names_lie_inside()
    ensures { FreeNamesLieInside }
{}

/// Two different reciprocal pairs of a node have no name in common, so merging one of them leaves the other
/// reciprocal in the node, with the contact that it had, and the labels do not tell which was merged first.
pub fn reciprocal_merges_of_a_node_commute()
    ensures { NodeDiamond }
{}

/// Merging the reciprocal pairs of a node in whatever order, until none is left, ends in the same
/// labels, by the same merges in some order.
#[tactic(auto, using(crate::proofs::NodeRuns::works_agree))]
pub fn works_of_a_node_agree()
    ensures { WorksAgree }
{}

/// Merging the first reciprocal pair of a node each time is one of these orders.
#[tactic(auto, using(crate::proofs::NodeRuns::ordered_work_is_work))]
pub fn ordered_work_is_work()
    ensures { OrderedWorkIsWork }
{}

/// From any labels a node has a work that merges its first reciprocal pair each time.
pub fn ordered_works_exist()
    ensures { OrderedWorksExist }
{}

/// And it has one such work alone: two of them are the same list of merges.
#[tactic(auto, using(crate::proofs::OrderedWorks::one_ordered_work))]
pub fn one_ordered_work()
    ensures { OneOrderedWork }
{}

/// From any labels there are works of all nodes of a cutting, in ascending number.
pub fn works_exist()
    ensures { WorksExist }
{}

/// Before the work of a leaf, the labels in its cell are those from the start.
#[tactic(auto, using(crate::proofs::WaitingCells::leaves_start_fresh))]
pub fn leaves_start_fresh()
    ensures { LeavesStartFresh }
{}

/// From the work of a node to that of its parent, the labels in the node's cell stay as they are.
#[tactic(auto, using(crate::proofs::WaitingCells::cells_wait))]
pub fn cells_wait_for_the_parent()
    ensures { CellsWait }
{}

/// A name that is frozen in a node after its work has just the voxels that it had at the start.
pub fn frozen_names_are_whole()
    ensures { FrozenNamesAreWhole }
{}

/// A name of a cell that a node doesn't pass to its parent is in no later merge, and is never one of the
/// two of a first pair that reaches the threshold, before a later work or between two merges of it.
#[tactic(auto, using(crate::proofs::DroppedNames::dropped_names_stay))]
pub fn dropped_names_stay()
    ensures { DroppedNamesStay }
{}

/// A reciprocal pair of the whole volume is one of the root.
pub fn root_has_all_pairs()
    ensures { RootHasAllPairs }
{}

/// The works of all nodes, one after another, are a run of reciprocal merges of the whole volume.
#[tactic(auto, using(crate::proofs::WorksRun::works_are_run))]
pub fn works_are_a_run()
    ensures { WorksAreRun }
{}

/// The merges of all nodes are those of greedy agglomeration in some order, and after the work of the root the
/// labels are those that greedy agglomeration ends in.
pub fn works_of_all_nodes_are_greedy()
    ensures { WorksAreGreedy }
{}

/// From given labels a cutting has one list of levels at most: works of all its nodes, in whatever order each
/// merges, count the same at each level.
pub fn levels_agree()
    ensures { LevelsAgree }
{}

/// With the same two thresholds a volume has one answer, whatever the cutting: by any two of them the labels, the
/// number of basins and the merges are the same.
pub fn cuttings_agree()
    ensures { CuttingsAgree }
{}
