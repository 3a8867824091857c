//! Worked lists: each function has no body, its contract is the claim, and the proof computes it.
ghost use Rattle.std.specs.Prelude.{◌≡◌, ◌++◌, [], ◌∷◌, None, Some};
ghost use Rattle.index_lists.specs.Examples.{lists_of, three_ends, three_nodes, two_lists};
ghost use Rattle.index_lists.specs.LinkedLists.{AreLists, IsNext, list_at, with_list, without};
ghost use Rattle.index_lists.specs.Links.{walks};

/// Two lists of three items: one is appended to the other, and then an item is taken out.
pub fn lists_of_three_items()
    ensures appended { with_list (with_list two_lists 1 []) 0 (list_at two_lists 0 ++ list_at two_lists 1) ≡ lists_of ((0 ∷ 1 ∷ 2 ∷ []) ∷ [] ∷ []) }
    ensures taken_out { without 1 (0 ∷ 1 ∷ 2 ∷ []) ≡ 0 ∷ 2 ∷ [] }
    ensures walked { walks three_nodes three_ends ≡ (0 ∷ 1 ∷ []) ∷ [] ∷ (2 ∷ []) ∷ [] }
{}

/// An item twice in a list, one in two lists, and one that there is not.
pub fn items_out_of_place()
    ensures twice { AreLists (lists_of ((0 ∷ 1 ∷ 0 ∷ []) ∷ [])) → ⊥ }
    ensures shared { AreLists (lists_of ((0 ∷ 1 ∷ []) ∷ (1 ∷ []) ∷ [])) → ⊥ }
    ensures beyond { AreLists (lists_of ((3 ∷ []) ∷ [])) → ⊥ }
{}

/// What does not come after an item: one further on, and nothing where it is not the last.
pub fn items_after_others()
    ensures skipped { IsNext (0 ∷ 1 ∷ 2 ∷ []) 0 (Some 2) → ⊥ }
    ensures cut { IsNext (0 ∷ 1 ∷ 2 ∷ []) 1 None → ⊥ }
    ensures past { IsNext (0 ∷ 1 ∷ 2 ∷ []) 2 (Some 2) → ⊥ }
{}
