//! Laws over the bytes of files, each a function that does nothing and whose contract is the law.
ghost use Rattle.agglo_model.specs.Numbers.{BytesWriteBack, NumbersReadBack};
ghost use Rattle.agglo_model.specs.VolumeLaws.{SoundFilesHoldVolumes, VolumesReadBack};

/// A number below 2^32 reads back from the four bytes that it is written as, and one below 2^64 from its eight.
pub fn numbers_read_back()
    ensures { NumbersReadBack }
{}

/// Four or eight bytes are written back from the number that they read as.
pub fn bytes_write_back()
    ensures { BytesWriteBack }
{}

/// The file of a whole volume has no flaw, and holds that volume.
#[tactic(auto, using(crate::proofs::VolumesBack::volumes_read_back))]
pub fn volumes_read_back()
    ensures { VolumesReadBack }
{}

/// Bytes without a flaw hold a whole volume, and are the file of that volume.
#[tactic(auto, using(crate::proofs::VolumesBack::sound_volume))]
pub fn sound_files_hold_volumes()
    ensures { SoundFilesHoldVolumes }
{}
