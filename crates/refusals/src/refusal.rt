ghost use Rattle.std.specs.Prelude.{◌≡◌};
ghost use Rattle.refusals.specs.declared.refusal.Refusal.TheVariants as refusals;
ghost use Rattle.refusals.specs.Refusal.{words_refusal, volume_refusal, tree_refusal};

use agglo_model::Memory;
use command_words::WordsFault;
use merge_tree::TreeFault;
use volume_file::VolumeFault;

/// Why a run of the program ended without its answer being written.
#[derive(Clone, Copy)]
pub enum Refusal {
    /// There was not enough memory.
    Memory,
    /// The words are no settings of any command.
    Words,
    /// The input is no whole volume file. It is never a fault of reading or of memory.
    Volume(VolumeFault),
    /// The chunks make so many leaves, and those are too many.
    Leaves(u64),
    /// The input is missing or failed.
    Input,
    /// An output could not be opened, or failed.
    Output,
    /// The input is no whole tree file. It is never a fault of reading or of memory.
    Tree(TreeFault),
}

impl Refusal {
    ghost use Rattle.std.specs.Prelude.{◌≡◌};
    ghost use Rattle.refusals.specs.Refusal.{status_of};

    /// The status that the program ends with.
    pub fn status(&self) -> u8
        ensures { result ≡ status_of self.now }
    {
        match self {
            Refusal::Memory => 1,
            Refusal::Words => 2,
            Refusal::Volume(_) => 3,
            Refusal::Leaves(_) => 4,
            Refusal::Input => 5,
            Refusal::Output => 6,
            Refusal::Tree(_) => 7,
        }
    }
}

impl From<Memory> for Refusal {
    ghost from_gives = { λ _ made. made ≡ refusals.Memory };

    fn from(_memory: Memory) -> Refusal {
        Refusal::Memory
    }
}

impl From<WordsFault> for Refusal {
    ghost from_gives = { λ fault made. made ≡ words_refusal fault };

    fn from(fault: WordsFault) -> Refusal {
        match fault {
            WordsFault::NoSettings => Refusal::Words,
            WordsFault::Memory => Refusal::Memory,
        }
    }
}

impl From<VolumeFault> for Refusal {
    ghost from_gives = { λ fault made. made ≡ volume_refusal fault };

    fn from(fault: VolumeFault) -> Refusal {
        match fault {
            VolumeFault::Read => Refusal::Input,
            VolumeFault::Memory => Refusal::Memory,
            _ => Refusal::Volume(fault),
        }
    }
}

impl From<TreeFault> for Refusal {
    ghost from_gives = { λ fault made. made ≡ tree_refusal fault };

    fn from(fault: TreeFault) -> Refusal {
        match fault {
            TreeFault::Read => Refusal::Input,
            TreeFault::Memory => Refusal::Memory,
            _ => Refusal::Tree(fault),
        }
    }
}
