/// Where the program writes.
#[derive(Clone, Copy, PartialEq)]
pub enum Port {
    /// The file of labels.
    Labels,
    /// The file of a merge tree.
    Tree,
    /// The file of a generated volume.
    Volume,
    /// Standard output.
    Note,
    /// Standard error.
    Trouble,
}
