ghost use Rattle.parent_join.specs.Kids.{ResiduesFit};

/// The residue of a node fits into the node's cell: its contacts have at most as many edges of the grid as lie
/// inside the cell. So the residues of a node's children can be joined.
pub fn residues_fit()
    ensures { ResiduesFit }
{}
