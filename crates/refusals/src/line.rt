ghost use Rattle.std.specs.Prelude.{◌≡◌, ◌∷◌, ◌++◌, []};
ghost use Rattle.std.specs.Fmt.{decimal};
ghost use Rattle.refusals.specs.Line.{line_bytes};
ghost use Rattle.refusals.specs.Refusal.{line_of, volume_line as line_of_volume, tree_line as line_of_tree};

use crate::refusal::Refusal;
use merge_tree::TreeFault;
use volume_file::VolumeFault;

/// A line but for its line feed: a text, or a number between two texts.
#[derive(Clone, Copy)]
pub struct Line {
    pub before: &'static str,
    pub number: Option<u64>,
    pub after: &'static str,
}

impl Line {
    /// The line of this text.
    fn text(before: &'static str) -> Line
        ensures { line_bytes result ≡ before.now ++ 10 ∷ [] }
    {
        Line {
            before,
            number: None,
            after: "",
        }
    }

    /// The line of this number between two texts.
    fn number(before: &'static str, number: u64, after: &'static str) -> Line
        ensures { line_bytes result ≡ before.now ++ (decimal number ++ (after.now ++ 10 ∷ [])) }
    {
        Line {
            before,
            number: Some(number),
            after,
        }
    }

    /// The line that tells of a refusal.
    pub fn of(refusal: &Refusal) -> Line
        ensures { line_bytes result ≡ line_of refusal.now }
    {
        match *refusal {
            Refusal::Memory => Line::text("agglo: out of memory"),
            Refusal::Words => Line::text("agglo: words not understood"),
            Refusal::Volume(fault) => volume_line(fault),
            Refusal::Leaves(n) => Line::number("agglo: ", n, " leaves are too many"),
            Refusal::Input => Line::text("agglo: input failed"),
            Refusal::Output => Line::text("agglo: output failed"),
            Refusal::Tree(fault) => tree_line(fault),
        }
    }
}

/// The line that tells of a fault of a volume file.
fn volume_line(fault: VolumeFault) -> Line
    ensures { line_bytes result ≡ line_of_volume fault }
{
    match fault {
        VolumeFault::ShortHeader(n) => {
            Line::number("agglo: volume fault 1: header of ", u64::from(n), " bytes")
        }
        VolumeFault::Magic => Line::text("agglo: volume fault 2: magic"),
        VolumeFault::Channels(n) => {
            Line::number("agglo: volume fault 3: ", u64::from(n), " channels")
        }
        VolumeFault::Reserved => Line::text("agglo: volume fault 4: reserved bytes"),
        VolumeFault::AxisZero(axis) => {
            Line::number("agglo: volume fault 5: axis ", u64::from(axis), " is zero")
        }
        VolumeFault::AxisLarge(axis) => {
            Line::number(
                "agglo: volume fault 6: axis ",
                u64::from(axis),
                " is above 65535",
            )
        }
        VolumeFault::TooMany => Line::text("agglo: volume fault 7: too many voxels"),
        VolumeFault::Truncated(n) => {
            Line::number("agglo: volume fault 8: body of ", u64::from(n), " bytes")
        }
        VolumeFault::Trailing => Line::text("agglo: volume fault 9: bytes after the body"),
        VolumeFault::Read => Line::text("agglo: input failed"),
        VolumeFault::Memory => Line::text("agglo: out of memory"),
    }
}

/// The line that tells of a fault of a tree file.
fn tree_line(fault: TreeFault) -> Line
    ensures { line_bytes result ≡ line_of_tree fault }
{
    match fault {
        TreeFault::ShortHeader(n) => {
            Line::number("agglo: tree fault 1: header of ", u64::from(n), " bytes")
        }
        TreeFault::Magic => Line::text("agglo: tree fault 2: magic"),
        TreeFault::Dims(_) => Line::text("agglo: tree fault 3: dims"),
        TreeFault::Denominator => Line::text("agglo: tree fault 4: denominator"),
        TreeFault::Count(n) => Line::number("agglo: tree fault 5: ", u64::from(n), " records"),
        TreeFault::Truncated(n) => Line::number("agglo: tree fault 6: body of ", n, " bytes"),
        TreeFault::Trailing => Line::text("agglo: tree fault 7: bytes after the body"),
        TreeFault::Names(i) => Line::number("agglo: tree fault 8: record ", u64::from(i), ""),
        TreeFault::Contact(i) => Line::number("agglo: tree fault 9: record ", u64::from(i), ""),
        TreeFault::Order(i) => Line::number("agglo: tree fault 10: record ", u64::from(i), ""),
        TreeFault::Below(i) => Line::number("agglo: tree fault 11: record ", u64::from(i), ""),
        TreeFault::Read => Line::text("agglo: input failed"),
        TreeFault::Memory => Line::text("agglo: out of memory"),
    }
}
