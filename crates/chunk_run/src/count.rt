use std::marker::Model;

/// What the nodes of one level of a cutting did: how many they are, how many merges they made, and how many
/// names they passed on, a name once for each node that passes it.
#[derive(Clone, Copy)]
pub struct LevelCount {
    pub nodes: u32,
    pub merges: u32,
    pub passed: u32,
}

impl Model for LevelCount {
    ghost use Rattle.agglo_model.specs.Report.{Level};

    ghost Value = { Level };

    ghost view = { λ l. record { nodes = l.nodes; merges = l.merges; passed = l.passed } };

    ghost inverse = { λ l. record { nodes = l.nodes; merges = l.merges; passed = l.passed } };
}
