ghost use Rattle.std.specs.Prelude.{◌≡◌, ◌<◌, ◌∷◌, IsTrue, length};
ghost use Rattle.index_lists.specs.LinkedLists.{list_at, with_list};

use index_lists::Lists;
use std::process::Abort;
use std::test::Fail;

/// Whether a list has just these items, in this order.
fn has(lists: &Lists, list: u32, items: &[u32]) -> bool
    requires { list < length lists.now.lists }
    ensures { IsTrue result → list_at lists.now list ≡ items.now }
{
    let mut next = lists.first(list);
    for item in items {
        match next {
            Some(there) if there == *item => next = lists.next(list, there),
            _ => return false,
        }
    }
    next.is_none()
}

/// Adds an item that is in no list, as is asserted, at the front of a list.
fn add(rt: &impl Abort, lists: &mut Lists, list: u32, item: u32)
    requires list { list < length lists.old.lists }
    requires item { item < lists.old.items }
    ensures { lists.new ≡ with_list lists.old list (item ∷ list_at lists.old list) }
{
    assert!(rt; !lists.linked(item));
    lists.push_front(list, item);
    assert!(rt; lists.linked(item));
}

#[test]
fn splices_and_unlinks(rt: HostRuntime) -> Result<(), Fail> {
    let mut lists = Lists::open(rt.alloc(), 2, 3).ok().ok_or("memory")?;
    add(&rt, &mut lists, 0, 1);
    add(&rt, &mut lists, 0, 0);
    add(&rt, &mut lists, 1, 2);
    assert!(rt; has(&lists, 0, &[0, 1]) && has(&lists, 1, &[2]));
    lists.splice(1, 0);
    assert!(rt; has(&lists, 1, &[]));
    assert!(rt; has(&lists, 0, &[0, 1, 2]));
    lists.unlink(0, 1);
    assert!(rt; has(&lists, 0, &[0, 2]) && has(&lists, 1, &[]));
    assert!(rt; !lists.linked(1));
    Ok(())
}
