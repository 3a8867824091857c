ghost use Rattle.std.specs.Prelude.{◌≡◌, None, Some, MatchResult};
ghost use Rattle.agglo_model.specs.Cutting.{chunking};
ghost use Rattle.command_words.specs.Words.{AreSomeSizes};
ghost use Rattle.agglo_program.specs.Answers.{IsVolumeFile, IsTreeFile, ReadsCutVolume};
ghost use Rattle.agglo_program.specs.Flaws.{basins_refusal, segment_refusal, show_refusal, basins_judged, segment_judged, show_judged, leaves_refusal, RefusesInput};
ghost use Rattle.agglo_program.specs.Reading.{ReadsFile};

use chunk_tree::{CutFault, Cutting};
use merge_tree::{Tree, read_tree};
use refusals::Refusal;
use seg_base::Dims;
use seg_io::Desk;
use std::alloc::Global;
use volume_file::{Volume, read_body, read_head, read_volume};

/// A volume, and how it is cut.
#[derive(Drop)]
pub struct CutVolume {
    pub volume: Volume,
    pub cutting: Cutting,
}

/// Reads the volume in the file of this name, to its end.
pub fn read_volume_file<D: Desk>(alloc: Global, desk: &mut D, name: &str) -> Result<Volume, Refusal>
    ensures { MatchResult result
        (λ volume. ReadsFile name.now (IsVolumeFile volume) (D.state desk.old) (D.state desk.new))
        (λ refusal. RefusesInput basins_refusal basins_judged name.now refusal (D.state desk.old) (D.state desk.new)) }
{
    desk.open_in(name).map_err(|_| Refusal::Input)?;
    let volume = read_volume(alloc, desk)?;
    Ok(volume)
}

/// Reads the volume in the file of this name, to its end, where it is cut into leaves of these sizes. The
/// leaves are counted once the axes are known, before the body is read.
pub fn read_cut_volume<D: Desk>(
    alloc: Global,
    desk: &mut D,
    name: &str,
    chunk: [u32; 3],
) -> Result<CutVolume, Refusal>
    requires { AreSomeSizes chunk }
    ensures { MatchResult result
        (λ read. ReadsCutVolume name.now chunk read.volume read.cutting (D.state desk.old) (D.state desk.new))
        (λ refusal. RefusesInput (segment_refusal chunk) (segment_judged chunk) name.now refusal
        (D.state desk.old) (D.state desk.new)) }
{
    desk.open_in(name).map_err(|_| Refusal::Input)?;
    let head = read_head(desk)?;
    let cutting = cut(&head.dims, chunk)?;
    let volume = read_body(alloc, desk, head)?;
    Ok(CutVolume { volume, cutting })
}

/// The cutting into leaves of these sizes, unless there are too many.
pub fn cut(dims: &Dims, chunk: [u32; 3]) -> Result<Cutting, Refusal>
    requires { AreSomeSizes chunk }
    ensures { MatchResult result
        (λ cutting. (leaves_refusal dims.now chunk ≡ None) × (cutting ≡ chunking dims.now chunk))
        (λ refusal. leaves_refusal dims.now chunk ≡ Some refusal) }
{
    match Cutting::new(dims, chunk) {
        Ok(cutting) => Ok(cutting),
        Err(CutFault::TooManyLeaves(leaves)) => Err(Refusal::Leaves(leaves)),
        Err(CutFault::ChunkZero(_)) => unreachable!(),
    }
}

/// Reads the merge tree in the file of this name, to its end.
pub fn read_tree_file<D: Desk>(alloc: Global, desk: &mut D, name: &str) -> Result<Tree, Refusal>
    ensures { MatchResult result
        (λ tree. ReadsFile name.now (IsTreeFile tree) (D.state desk.old) (D.state desk.new))
        (λ refusal. RefusesInput show_refusal show_judged name.now refusal (D.state desk.old) (D.state desk.new)) }
{
    desk.open_in(name).map_err(|_| Refusal::Input)?;
    let tree = read_tree(alloc, desk)?;
    Ok(tree)
}
