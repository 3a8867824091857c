use mean_fraction::Contact;
use std::marker::Model;

/// One merge of two regions.
#[derive(Clone, Copy)]
pub struct Merge {
    /// The name that stays. In a tree it is the smaller one.
    pub survivor: u32,
    /// The name that is given up.
    pub absorbed: u32,
    /// The contact that the two had.
    pub contact: Contact,
}

impl Model for Merge {
    ghost use Rattle.agglo_model.specs.Greedy.{Merge as MergeNumbers};

    ghost Value = { MergeNumbers };

    ghost view = { λ m. record { survivor = m.survivor; absorbed = m.absorbed; contact = m.contact } };

    ghost inverse = { λ m. record { survivor = m.survivor; absorbed = m.absorbed; contact = m.contact } };
}
