ghost use Rattle.std.specs.Prelude.{◌≢◌, ◌<◌, length};
ghost use Rattle.index_lists.specs.Links.{JoinsItems};

/// No item. It stands before the first item of a list and after the last.
pub const NONE: u32 = u32::MAX;

/// The items after and before an item in its list. An item in no list comes after itself.
#[derive(Clone, Copy)]
pub struct Node {
    pub next: u32,
    pub previous: u32,
}

/// The first and the last item of a list.
#[derive(Clone, Copy)]
pub struct Ends {
    pub first: u32,
    pub last: u32,
}

/// Makes one item follow another in a list with these ends, and answers its ends then. NONE in the place of
/// an item is the border of the list.
#[inline]
pub fn join(nodes: &mut [Node], ends: Ends, before: u32, after: u32) -> Ends
    requires before { before ≢ NONE → before < length nodes.old }
    requires after { after ≢ NONE → after < length nodes.old }
    ensures { JoinsItems before after nodes.old ends nodes.new result }
{
    let mut joined = ends;
    if before == NONE {
        joined.first = after;
    } else {
        nodes[before as usize].next = after;
    }
    if after == NONE {
        joined.last = before;
    } else {
        nodes[after as usize].previous = before;
    }
    joined
}
