ghost use Rattle.std.specs.Prelude.{◌∷◌, []};
ghost use Rattle.seg_io.specs.Desk.{CanOpen};
ghost use Rattle.seg_io.specs.declared.port.Port.TheVariants.{Labels as LabelsPort, Tree as TreePort, Volume as VolumePort};
ghost use Rattle.agglo_program.specs.Writing.{labels_output, tree_output, generated_output, WriteFileEnds, WriteFilesEnds};

use merge_tree::{Tree, put_labels, put_tree};
use seg_base::{Dims, Labels};
use seg_io::{Desk, Failed, Port, put_all};
use volume_file::write_generated;

/// Opens the port Labels under this name and writes the label file on it.
fn write_labels<D: Desk>(desk: &mut D, name: &str, labels: &Labels) -> Result<(), Failed>
    requires { CanOpen LabelsPort (D.state desk.old) }
    ensures { let output = labels_output name.now labels.now.axes labels.now.labels in
        WriteFileEnds output result (D.state desk.old) (D.state desk.new) }
{
    desk.open_out(Port::Labels, name)?;
    put_labels(desk, labels)
}

/// Opens the port Tree under this name and writes the tree file on it.
fn write_tree<D: Desk>(desk: &mut D, name: &str, tree: &Tree) -> Result<(), Failed>
    requires { CanOpen TreePort (D.state desk.old) }
    ensures { WriteFileEnds (tree_output name.now tree.now) result (D.state desk.old) (D.state desk.new) }
{
    desk.open_out(Port::Tree, name)?;
    put_tree(desk, tree)
}

/// Opens the port Volume under this name, and writes the file of a generated volume on it as it is made.
fn write_volume_file<D: Desk>(
    desk: &mut D,
    name: &str,
    start: u32,
    dims: &Dims,
) -> Result<(), Failed>
    requires { CanOpen VolumePort (D.state desk.old) }
    ensures { WriteFileEnds (generated_output name.now start dims.now) result (D.state desk.old) (D.state desk.new) }
{
    desk.open_out(Port::Volume, name)?;
    write_generated(desk, Port::Volume, start, dims)
}

/// Writes the label file under this name, and then the note.
pub fn write_basins<D: Desk>(
    desk: &mut D,
    name: &str,
    labels: &Labels,
    note: &str,
) -> Result<(), Failed>
    requires { CanOpen LabelsPort (D.state desk.old) }
    ensures { let outputs = labels_output name.now labels.now.axes labels.now.labels ∷ [] in
        WriteFilesEnds outputs note.now result (D.state desk.old) (D.state desk.new) }
{
    write_labels(desk, name, labels)?;
    put_all(desk, Port::Note, note.as_bytes())
}

/// The names of the two files of a segmentation.
#[derive(Clone, Copy)]
pub struct Names<'a> {
    pub labels: &'a str,
    pub tree: &'a str,
}

/// Writes the label file and then the tree file, each under its name, and then the note.
pub fn write_segmentation<D: Desk>(
    desk: &mut D,
    names: Names<'_>,
    labels: &Labels,
    tree: &Tree,
    note: &str,
) -> Result<(), Failed>
    requires labels { CanOpen LabelsPort (D.state desk.old) }
    requires tree { CanOpen TreePort (D.state desk.old) }
    ensures { let outputs = labels_output names.entry.labels.now labels.now.axes labels.now.labels
        ∷ tree_output names.entry.tree.now tree.now ∷ [] in
        WriteFilesEnds outputs note.now result (D.state desk.old) (D.state desk.new) }
{
    write_labels(desk, names.labels, labels)?;
    write_tree(desk, names.tree, tree)?;
    put_all(desk, Port::Note, note.as_bytes())
}

/// Writes the file of a generated volume under this name, and then the note.
pub fn write_made<D: Desk>(
    desk: &mut D,
    name: &str,
    start: u32,
    dims: &Dims,
    note: &str,
) -> Result<(), Failed>
    requires { CanOpen VolumePort (D.state desk.old) }
    ensures { let outputs = generated_output name.now start dims.now ∷ [] in
        WriteFilesEnds outputs note.now result (D.state desk.old) (D.state desk.new) }
{
    write_volume_file(desk, name, start, dims)?;
    put_all(desk, Port::Note, note.as_bytes())
}
