ghost use Rattle.std.specs.Prelude.{◌≡◌};
ghost use Rattle.seg_base.specs.Flaw.{flaw_of};
ghost use Rattle.volume_file.specs.Fault.{axes_fault};
ghost use Rattle.volume_file.specs.declared.fault.VolumeFault.TheVariants.{Read, Memory as WantOfMemory};

use seg_base::DimFault;
use seg_io::Failed;
use std::alloc::AllocError;
use thiserror::Error;

/// Why no volume was read: the first that holds, in this order.
#[derive(Clone, Copy, Debug, Error)]
pub enum VolumeFault {
    /// There are so many bytes, fewer than a header has.
    #[error("the header has {0} bytes of 32")]
    ShortHeader(u32),
    /// The first eight bytes are not the text of a volume file.
    #[error("this is no volume file")]
    Magic,
    /// There are so many channels, and not three.
    #[error("there are {0} channels, not 3")]
    Channels(u32),
    /// One of the last eight bytes of the header is not zero.
    #[error("the reserved bytes are not zero")]
    Reserved,
    /// This axis (0 is x, 1 is y, 2 is z) is the first of length 0.
    #[error("axis {0} has no voxel")]
    AxisZero(u8),
    /// No axis has length 0, and this one is the first that is longer than 65,535.
    #[error("axis {0} has more than 65535 voxels")]
    AxisLarge(u8),
    /// Each axis is in range, and there are more than 2^28 voxels.
    #[error("there are more than 268435456 voxels")]
    TooMany,
    /// So many bytes follow the header, fewer than three for each voxel.
    #[error("the body has only {0} bytes")]
    Truncated(u32),
    /// More bytes follow the header than three for each voxel.
    #[error("there are bytes after the body")]
    Trailing,
    /// The input failed.
    #[error("the input failed")]
    Read,
    /// There was no memory for the body.
    #[error("there is no memory for the body")]
    Memory,
}

impl From<DimFault> for VolumeFault {
    ghost from_gives = { λ fault made. made ≡ axes_fault (flaw_of fault) };

    fn from(fault: DimFault) -> VolumeFault {
        match fault {
            DimFault::AxisZero(axis) => VolumeFault::AxisZero(axis),
            DimFault::AxisLarge(axis) => VolumeFault::AxisLarge(axis),
            DimFault::TooMany => VolumeFault::TooMany,
        }
    }
}

impl From<Failed> for VolumeFault {
    ghost from_gives = { λ _ made. made ≡ Read };

    fn from(_failed: Failed) -> VolumeFault {
        VolumeFault::Read
    }
}

impl From<AllocError> for VolumeFault {
    ghost from_gives = { λ _ made. made ≡ WantOfMemory };

    fn from(_error: AllocError) -> VolumeFault {
        VolumeFault::Memory
    }
}
