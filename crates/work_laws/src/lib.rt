//! Why each node starts from the right region graph. Each function has no body: its contract is the law,
//! over the definitions alone.
//!
//! It stands on `agglo_model`, whose laws say why work on chunks gives the answer of the whole volume. What joins
//! the graphs of children and the run over all nodes stand on it.
#![tactic(auto)]

ghost use Rattle.agglo_model.specs.JoiningLaws.{JoinedStart, LeavesStart};
ghost use Rattle.work_laws.specs.FinerLaws.{FinerLevelsCoarsen};
ghost use Rattle.work_laws.specs.SettlingLaws.{SettlingCellIsWork, SettlingIsWork, SettlingJoinedIsWork};
ghost use Rattle.work_laws.specs.Turns.{LeavesTakeTurns, NodesTakeTurns, ParentsTakeTurns, ResiduesStay};

/// The graph of a leaf's cell under the labels from the start is that under the labels before its work.
pub fn leaves_start()
    ensures { LeavesStart }
{}

/// Joined from the residues of its children with the labels from the start, the graph of a node has all
/// names of its cell that may still be merged, with their faces and contacts before the node's work.
pub fn joined_start()
    ensures { JoinedStart }
{}

/// Settling the graph of a node's names is the work of the node, where a test tells the names that are kept.
pub fn settling_is_the_work()
    ensures { SettlingIsWork }
{}

/// So it is where all names of the cell are kept.
pub fn settling_a_cell_is_the_work()
    ensures { SettlingCellIsWork }
{}

/// And where the names of several graphs are kept.
pub fn settling_residues_is_the_work()
    ensures { SettlingJoinedIsWork }
{}

/// Settling a graph that the next node starts from adds that node's work to those before it, and leaves its
/// residue.
pub fn nodes_take_turns()
    ensures { NodesTakeTurns }
{}

/// So it is for a leaf, from the graph of its cell under the labels from the start.
pub fn leaves_take_turns()
    ensures { LeavesTakeTurns }
{}

/// And for a node that is no leaf, from the graph joined from the residues of its children.
pub fn parents_take_turns()
    ensures { ParentsTakeTurns }
{}

/// The residue of a node stays its residue when the works go on.
pub fn residues_stay()
    ensures { ResiduesStay }
{}

/// The levels of a cutting are those of a finer one, where the first of these are one: so it does not show whether a
/// leaf is worked as a whole, or cut inside.
pub fn finer_levels_coarsen()
    ensures { FinerLevelsCoarsen }
{}
