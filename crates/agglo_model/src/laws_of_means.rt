//! Laws of contacts and their order. Each function has no body: its contract is the law, over the
//! definitions alone.

ghost use Rattle.std.specs.Prelude.{◌≢◌, ℕ, ◌<◌, List};
ghost use Rattle.agglo_model.specs.Grid.{Grid};
ghost use Rattle.agglo_model.specs.PairOrder.{Contact, added};
ghost use Rattle.agglo_model.specs.MeanLaws.{
  AddsUp,
  IsLeastEdge,
  IsReducible,
  IsStrictOrder,
  MergesContacts,
  TiesDiffer,
};

/// Pair order is strict on contacts that have an edge, and of two contacts with different ties one comes first.
#[tactic(auto, using(crate::proofs::Means::strict_order))]
pub fn pair_order_is_strict()
    ensures { IsStrictOrder }
{}

/// The mean of two contacts that are added up lies strictly between theirs, or is theirs where they have the same;
/// and the sum doesn't come before the earlier of the two.
#[tactic(auto, using(crate::proofs::Means::added_means))]
pub fn joined_mean_lies_between()
    ensures { (c d : Contact) → 0 < c.count → 0 < d.count → AddsUp c d (added c d) }
{}

/// Two names are in contact exactly where a contact edge joins them, and the least such is the tie.
#[tactic(auto, using(crate::proofs::Reducible::least_edge))]
pub fn tie_is_least_edge()
    ensures { (g : Grid) (labels : List ℕ) (a b : ℕ) → IsLeastEdge g labels a b }
{}

/// Different pairs of names in contact have different ties, so that no two pairs rank equal.
#[tactic(auto, using(crate::proofs::ContactEdges::same_tie))]
pub fn ties_differ()
    ensures { TiesDiffer }
{}

/// A merge adds up the contacts of the two names with each third name, and leaves the contacts of other names with
/// each other as they are.
#[tactic(auto, using(crate::proofs::Renames::merges_contacts))]
pub fn merge_adds_contacts()
    ensures { (g : Grid) (labels : List ℕ) (a b : ℕ) → a ≢ b → a ≢ 0 → b ≢ 0
        → MergesContacts g labels a b }
{}

/// Reducibility: where a third name touches both names of a merge, its new contact doesn't come before the earlier
/// of the two that it had; where it touches one of them alone, it keeps that contact.
#[tactic(auto, using(crate::proofs::Reducible::reducible))]
pub fn merging_is_reducible()
    ensures { (g : Grid) (labels : List ℕ) (a b c : ℕ) → a ≢ b → a ≢ 0 → b ≢ 0 → c ≢ a → c ≢ b
        → IsReducible g labels a b c }
{}
