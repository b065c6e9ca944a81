ghost use Rattle.std.specs.Prelude.{◌≡◌, ◌≢◌, ◌<◌, ◌∷◌, [], length, IfOk};
ghost use Rattle.sat_watch.specs.Watching.{list_at};

use super::*;
use std::alloc::Global;
use std::test::Fail;

/// The watchers of a list, from the front.
fn walked(alloc: Global, watches: &Watches, list: u32) -> Result<Vec<u64>, Memory>
    requires { list < length watches.now.lists }
    ensures { IfOk result (λ found. found.items ≡ list_at watches.now.lists list) }
{
    let mut found = Vec::new(alloc);
    let mut at = watches.first(list);
    while let Some(watcher) = at {
        watches.each_stands_once();
        found.push(watcher)?;
        at = watches.next(watcher);
    }
    Ok(found)
}

/// The lists 1 0, 2 and none, for the clauses 7, 8 and 9.
fn three_lists(alloc: Global) -> Result<Watches, Memory>
    ensures { IfOk result (λ watches. watches ≡ record {
      lists = (1 ∷ 0 ∷ []) ∷ (2 ∷ []) ∷ [] ∷ [];
      clauses = 7 ∷ 8 ∷ 9 ∷ [];
    }) }
{
    let mut watches = Watches::new(alloc, 3)?;
    watches.attach(0, 7)?;
    watches.attach(0, 8)?;
    watches.attach(1, 9)?;
    Ok(watches)
}

#[test]
fn watchers_are_attached_at_the_front(rt: HostRuntime) -> Result<(), Fail> {
    let mut watches = Watches::new(rt.alloc(), 3)?;
    assert_eq!(rt; watches.attach(0, 7)?, 0);
    assert_eq!(rt; watches.attach(0, 8)?, 1);
    assert_eq!(rt; watches.attach(1, 9)?, 2);
    assert_eq!(rt;
        walked(rt.alloc(), &watches, 0)?.as_slice(),
        [1, 0].as_slice()
    );
    assert_eq!(rt; walked(rt.alloc(), &watches, 1)?.as_slice(), [2].as_slice());
    assert_eq!(rt; walked(rt.alloc(), &watches, 2)?.as_slice(), [].as_slice());
    assert_eq!(rt; watches.clause(0), 7);
    assert_eq!(rt; watches.clause(1), 8);
    assert_eq!(rt; watches.clause(2), 9);
    Ok(())
}

#[test]
fn a_watcher_moves_to_an_empty_list(rt: HostRuntime) -> Result<(), Fail> {
    let mut watches = three_lists(rt.alloc())?;
    watches.move_to(0, Some(1), 0, 2);
    assert_eq!(rt; watches.first(0), Some(1));
    assert_eq!(rt; watches.next(1), None);
    assert_eq!(rt; watches.first(1), Some(2));
    assert_eq!(rt; watches.next(2), None);
    assert_eq!(rt; watches.first(2), Some(0));
    assert_eq!(rt; watches.next(0), None);
    assert_eq!(rt; watches.clause(0), 7);
    Ok(())
}

/// So many watchers in the first of three lists, each for the clause of its own index.
fn one_list(alloc: Global, count: u64) -> Result<Watches, Memory>
    ensures { IfOk result (λ watches. length watches.lists ≡ 3) }
{
    let mut watches = Watches::new(alloc, 3)?;
    for clause in 0..count {
        watches.attach(0, clause)?;
    }
    Ok(watches)
}

/// Moves the watcher at a place of a list to the front of another, or none where the list ends before.
fn move_nth(watches: &mut Watches, list: u32, place: u64, to: u32)
    requires list { list < length watches.old.lists }
    requires to { to < length watches.old.lists }
    requires other { list ≢ to }
    ensures { length watches.new.lists ≡ length watches.old.lists }
{
    let mut before = None;
    let mut at = watches.first(list);
    for _ in 0..place {
        if let Some(watcher) = at {
            before = Some(watcher);
            at = watches.next(watcher);
        }
    }
    if let Some(watcher) = at {
        watches.move_to(list, before, watcher, to);
    }
}

#[test]
fn the_first_the_middle_and_the_last_move(rt: HostRuntime) -> Result<(), Fail> {
    for (place, left) in [
        (0, [2, 1, 0]),
        (1, [3, 1, 0]),
        (2, [3, 2, 0]),
        (3, [3, 2, 1]),
    ] {
        let mut watches = one_list(rt.alloc(), 4)?;
        move_nth(&mut watches, 0, place, 1);
        let moved = [3 - place];
        assert_eq!(rt;
            walked(rt.alloc(), &watches, 0)?.as_slice(),
            left.as_slice()
        );
        assert_eq!(rt;
            walked(rt.alloc(), &watches, 1)?.as_slice(),
            moved.as_slice()
        );
        move_nth(&mut watches, 0, 0, 1);
        let both = [left[0], 3 - place];
        assert_eq!(rt; walked(rt.alloc(), &watches, 0)?.as_slice(), &left[1..]);
        assert_eq!(rt;
            walked(rt.alloc(), &watches, 1)?.as_slice(),
            both.as_slice()
        );
    }
    Ok(())
}

/// Walks a list, and moves each watcher of an odd clause to another.
fn move_odd(watches: &mut Watches, list: u32, to: u32)
    requires list { list < length watches.old.lists }
    requires to { to < length watches.old.lists }
    requires other { list ≢ to }
    ensures { length watches.new.lists ≡ length watches.old.lists }
{
    let mut before = None;
    let mut at = watches.first(list);
    while let Some(watcher) = at {
        watches.each_stands_once();
        at = watches.next(watcher);
        if watches.clause(watcher) % 2 == 1 {
            watches.move_to(list, before, watcher, to);
        } else {
            before = Some(watcher);
        }
        watches.each_stands_once();
    }
}

#[test]
fn ten_thousand_watchers_are_sorted_while_they_are_walked(rt: HostRuntime) -> Result<(), Fail> {
    let mut watches = one_list(rt.alloc(), 10_000)?;
    move_odd(&mut watches, 0, 2);
    let even = walked(rt.alloc(), &watches, 0)?;
    let odd = walked(rt.alloc(), &watches, 2)?;
    assert_eq!(rt; even.len(), 5_000);
    assert_eq!(rt; odd.len(), 5_000);
    for (place, watcher) in even.as_slice().iter().enumerate() {
        assert_eq!(rt; *watcher, 9_998 - 2 * (place as u64));
    }
    for (place, watcher) in odd.as_slice().iter().enumerate() {
        assert_eq!(rt; *watcher, 2 * (place as u64) + 1);
    }
    Ok(())
}
