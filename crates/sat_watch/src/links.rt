//! The links between watchers, and how a watcher is taken out of a list and put into one.
ghost use Rattle.std.specs.Prelude.{◌≡◌, ◌<◌, length, slice_set, slice_index_or, Some, None, IfSome};
ghost use Rattle.sat_watch.specs.Linking.{heads_behind, links_behind, next_at, relinked};

/// A watcher: the number of its clause, and the watcher that comes behind it in its list.
#[derive(Clone, Copy)]
pub(crate) struct Link {
    pub(crate) clause: u64,
    pub(crate) next: Option<u64>,
}

/// Takes a watcher out of a list, where it stands behind another, or first where there is no other.
pub(crate) fn unlink(
    heads: &mut Vec<Option<u64>>,
    links: &mut Vec<Link>,
    list: u32,
    before: Option<u64>,
    watcher: u64,
)
    requires list { list < length heads.old.items }
    requires before { IfSome before (λ before. before < length links.old.items) }
    requires watcher { watcher < length links.old.items }
    ensures heads { heads.new.items ≡ heads_behind heads.old.items list before (next_at links.old.items watcher) }
    ensures links { links.new.items ≡ links_behind links.old.items before (next_at links.old.items watcher) }
{
    let rest = links[watcher as usize].next;
    match before {
        None => heads[list as usize] = rest,
        Some(before) => set_next(links, before, rest),
    }
}

/// Puts a watcher that stands in no list at the front of one.
pub(crate) fn put_front(
    heads: &mut Vec<Option<u64>>,
    links: &mut Vec<Link>,
    list: u32,
    watcher: u64,
)
    requires list { list < length heads.old.items }
    requires watcher { watcher < length links.old.items }
    ensures heads { heads.new.items ≡ slice_set heads.old.items list (Some watcher) }
    ensures links { links.new.items ≡ relinked links.old.items watcher (slice_index_or heads.old.items list None) }
{
    set_next(links, watcher, heads[list as usize]);
    heads[list as usize] = Some(watcher);
}

/// Lets another watcher come behind a watcher.
fn set_next(links: &mut Vec<Link>, watcher: u64, next: Option<u64>)
    requires { watcher < length links.old.items }
    ensures { links.new.items ≡ relinked links.old.items watcher next }
{
    links[watcher as usize].next = next;
}
