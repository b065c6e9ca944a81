ghost use Rattle.std.specs.Prelude.{◌≡◌, ◌≢◌, ℕ, ◌<◌, List, [], ◌∷◌, ◌++◌, length, replicate, slice_index_or, slice_set, IfOk, IfSome, OnErr, Some};
ghost use Rattle.sat_watch.specs.Watching.{list_at, StandsAt, StandsBehind, StandsOnce, BeginsWith, rest_from};

use crate::links::{Link, put_front, unlink};
use std::alloc::Global;
use std::marker::Model;
use vkb_bytes::Memory;

/// Lists of watchers. A watcher has an index, from 0 in the order in which they were attached, and the number of its clause.
/// It is in exactly one list, once.
///
/// `heads` has for each list its first watcher, and each link the watcher that comes behind.
#[derive(Drop)]
pub struct Watches {
    heads: Vec<Option<u64>>,
    links: Vec<Link>,
}

impl Model for Watches {
    ghost use Rattle.sat_watch.specs.Watching.{Watched};
    ghost use Rattle.sat_watch.specs.Linking.{AreLinked, lists_of, clauses_of};

    ghost Value = { Watched };

    ghost view = { λ w. record { lists = lists_of w.heads.items w.links.items; clauses = clauses_of w.links.items } };

    ghost invariant = { λ w. AreLinked w.heads.items w.links.items (lists_of w.heads.items w.links.items) };
}

impl Watches {
    /// So many lists, with no watcher.
    pub fn new(alloc: Global, lists: u32) -> Result<Watches, Memory>
        ensures { IfOk result (λ watches. watches ≡ record { lists = replicate lists []; clauses = [] }) }
    {
        Ok(Watches {
            heads: vec![in alloc; None; lists as usize]?,
            links: Vec::new(alloc),
        })
    }

    /// Puts a new watcher for a clause at the front of a list, and gives its index, the number of the watchers before. An `Err`
    /// leaves all as it was.
    pub fn attach(&mut self, list: u32, clause: u64) -> Result<u64, Memory>
        requires { list < length self.old.lists }
        ensures index { IfOk result (λ watcher. watcher ≡ length self.old.clauses) }
        ensures ok { IfOk result (λ watcher. self.new ≡ record {
          lists = slice_set self.old.lists list (watcher ∷ list_at self.old.lists list);
          clauses = self.old.clauses ++ clause ∷ [];
        }) }
        ensures err { OnErr result (self.new ≡ self.old) }
    {
        let watcher = self.links.len() as u64;
        let next = self.heads[list as usize];
        self.links.push(Link { clause, next })?;
        self.heads[list as usize] = Some(watcher);
        Ok(watcher)
    }

    /// The first watcher of a list, and `None` where it is empty. It takes no memory.
    pub fn first(&self, list: u32) -> Option<u64>
        requires { list < length self.now.lists }
        ensures first { BeginsWith (list_at self.now.lists list) result }
        ensures known { IfSome result (λ watcher. watcher < length self.now.clauses) }
    {
        self.heads[list as usize]
    }

    /// The watcher that comes behind another in its list, and `None` where that is the last. It takes no memory.
    pub fn next(&self, watcher: u64) -> Option<u64>
        requires { watcher < length self.now.clauses }
        ensures next { (list : ℕ) (passed rest : List ℕ) → StandsAt self.now.lists list passed watcher rest → BeginsWith rest result }
        ensures known { IfSome result (λ next. next < length self.now.clauses) }
    {
        self.links[watcher as usize].next
    }

    /// The number of a watcher's clause. It takes no memory.
    pub fn clause(&self, watcher: u64) -> u64
        requires { watcher < length self.now.clauses }
        ensures { result ≡ slice_index_or self.now.clauses watcher 0 }
    {
        self.links[watcher as usize].clause
    }

    /// A law: each watcher is in exactly one list, once, and the lists have no others. So what is left of a list from a watcher on
    /// is found by the watcher alone. The call does nothing.
    pub fn each_stands_once(&self)
        ensures once { StandsOnce self.now }
        ensures ahead { (list watcher : ℕ) (passed rest : List ℕ) → StandsAt self.now.lists list passed watcher rest
            → rest_from (list_at self.now.lists list) (Some watcher) ≡ watcher ∷ rest }
    {
        let _links = &self.links;
    }

    /// Moves a watcher to the front of another list. It stands directly behind `before` in its own, or first where that is
    /// `None`. All else keeps its order. It takes no memory.
    pub fn move_to(&mut self, list: u32, before: Option<u64>, watcher: u64, to: u32)
        requires place { StandsBehind (list_at self.old.lists list) before watcher }
        requires to { to < length self.old.lists }
        requires other { list ≢ to }
        ensures moved { (passed rest : List ℕ) → StandsAt self.old.lists list passed watcher rest → self.new ≡ record self.old {
          lists = slice_set (slice_set self.old.lists list (passed ++ rest)) to (watcher ∷ list_at self.old.lists to);
        } }
        ensures from { (passed rest : List ℕ) → StandsAt self.old.lists list passed watcher rest
            → list_at self.new.lists list ≡ passed ++ rest }
        ensures to { list_at self.new.lists to ≡ watcher ∷ list_at self.old.lists to }
        ensures clauses { self.new.clauses ≡ self.old.clauses }
        ensures count { length self.new.lists ≡ length self.old.lists }
        ensures others { (other : ℕ) → list ≢ other → to ≢ other → list_at self.new.lists other ≡ list_at self.old.lists other }
    {
        unlink(&mut self.heads, &mut self.links, list, before, watcher);
        put_front(&mut self.heads, &mut self.links, to, watcher);
    }
}
