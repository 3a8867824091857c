ghost use Rattle.std.specs.Prelude.{◌≡◌};
ghost use Rattle.merge_tree.specs.declared.tree_fault.TreeFault.TheVariants.{Dims as OfDims, Read, Memory as WantOfMemory};
ghost use Rattle.merge_tree.specs.declared.tree_fault.InputFault.TheVariants.{Read as InputRead, Memory as InputMemory};
ghost use Rattle.merge_tree.specs.TreeFault.{told};

use seg_base::DimFault;
use seg_io::Failed;
use std::alloc::{AllocError, AllocFailed};
use thiserror::Error;

/// Why no tree was read: the first that holds, in this order. The last four that name a record tell
/// its number.
#[derive(Clone, Copy, Debug, Error)]
pub enum TreeFault {
    /// There are so many bytes, fewer than a header has.
    #[error("the header has {0} bytes of 32")]
    ShortHeader(u32),
    /// The first eight bytes are not the text of a tree file.
    #[error("this is no tree file")]
    Magic,
    /// The axes are none of a volume.
    #[error("the axes are none of a volume: {0:?}")]
    Dims(DimFault),
    /// The denominator of the threshold is 0.
    #[error("the denominator of the threshold is 0")]
    Denominator,
    /// There are so many records, as many as voxels or more.
    #[error("{0} merges are too many")]
    Count(u32),
    /// So many bytes follow the header, fewer than 32 for each record.
    #[error("the records have only {0} bytes")]
    Truncated(u64),
    /// More bytes follow the header than 32 for each record.
    #[error("there are bytes after the records")]
    Trailing,
    /// The names of this record are not two of voxels, the smaller first, or one was absorbed before.
    #[error("the names of record {0} cannot merge")]
    Names(u32),
    /// The numbers of this record are those of no contact in a volume of these axes.
    #[error("the numbers of record {0} are of no contact")]
    Contact(u32),
    /// This record does not come strictly after the one before it in pair order.
    #[error("record {0} is out of order")]
    Order(u32),
    /// The mean of this record is below the threshold.
    #[error("record {0} is below the threshold")]
    Below(u32),
    /// The input failed.
    #[error("the input failed")]
    Read,
    /// There was no memory for the records.
    #[error("there is no memory for the records")]
    Memory,
}

/// Why bytes could not be read, whatever they are.
#[derive(Clone, Copy)]
pub enum InputFault {
    /// The input failed.
    Read,
    /// There was no memory for them.
    Memory,
}

impl From<DimFault> for TreeFault {
    ghost from_gives = { λ fault made. made ≡ OfDims fault };

    fn from(fault: DimFault) -> TreeFault {
        TreeFault::Dims(fault)
    }
}

impl From<Failed> for TreeFault {
    ghost from_gives = { λ _ made. made ≡ Read };

    fn from(_failed: Failed) -> TreeFault {
        TreeFault::Read
    }
}

impl From<AllocError> for TreeFault {
    ghost from_gives = { λ _ made. made ≡ WantOfMemory };

    fn from(_error: AllocError) -> TreeFault {
        TreeFault::Memory
    }
}

impl<T: Drop> From<AllocFailed<T>> for TreeFault {
    ghost from_gives = { λ _ made. made ≡ WantOfMemory };

    fn from(_error: AllocFailed<T>) -> TreeFault {
        TreeFault::Memory
    }
}

impl From<InputFault> for TreeFault {
    ghost from_gives = { λ fault made. made ≡ told fault };

    fn from(fault: InputFault) -> TreeFault {
        match fault {
            InputFault::Read => TreeFault::Read,
            InputFault::Memory => TreeFault::Memory,
        }
    }
}

impl From<Failed> for InputFault {
    ghost from_gives = { λ _ made. made ≡ InputRead };

    fn from(_failed: Failed) -> InputFault {
        InputFault::Read
    }
}

impl From<AllocError> for InputFault {
    ghost from_gives = { λ _ made. made ≡ InputMemory };

    fn from(_error: AllocError) -> InputFault {
        InputFault::Memory
    }
}
