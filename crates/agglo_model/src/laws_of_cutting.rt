//! Laws of the cutting of a volume into chunks, each a function that does nothing and whose contract is
//! the law.
ghost use Rattle.agglo_model.specs.CuttingLaws.{CellsDouble};

/// From level to level each axis has half as many cells, rounded up.
pub fn cells_double()
    ensures { CellsDouble }
{}
