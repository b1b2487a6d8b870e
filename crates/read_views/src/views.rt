//! Open read views.
ghost use Rattle.std.specs.Prelude.{◌≡◌, ◌≢◌, ◌+◌, ◌≤◌, ◌<◌, ◌==◌, ℕ, List, length, None, Some, IfOk, IfSome};
ghost use Rattle.std.specs.List.{list_any};
ghost use Rattle.read_views.specs.Views.{ReadView, view_of, view_in, sees_of, open_count, ids_of, IsLesser};

use arrayvec::ArrayVec;
use engine_base::{CommitNo, SessionNo};
use lob_pages::TrxId;
use slab::Slab;
use std::alloc::{AllocError, Global};
use std::marker::Model;

/// How many views may be open at a time: one a session.
pub const MAX_VIEWS: usize = 64;

// A view as it was opened.
#[derive(Drop)]
struct View {
    commits: CommitNo,
    creator: SessionNo,
    next: TrxId,
    // By number: an `ArrayVec` fills its free places with a default, and no transaction is one.
    active: ArrayVec<u64, 64>,
}

/// The open read views, at most 64, each under a key that stays its own until it is closed. They
/// are seen as a slab.
#[derive(Drop)]
pub struct Views {
    views: Slab<View>,
}

impl Model for Views {
    ghost use Rattle.std.specs.Prelude.{◌≤◌};
    ghost use Rattle.slab.specs.Slab.{Slab};
    ghost use Rattle.read_views.specs.declared.views.View.{View};

    ghost Value = { Slab View };

    ghost view = { λ v. v.views };

    ghost invariant = { λ v. 64 ≤ v.views.capacity };
}

impl Views {
    /// No view is open. All the memory for 64 is taken here.
    pub fn new(alloc: Global) -> Result<Views, AllocError>
        ensures none { IfOk result (λ views. (key : ℕ) → view_in views key ≡ None) }
        ensures count { IfOk result (λ views. open_count views ≡ 0) }
    {
        Ok(Views {
            views: Slab::with_capacity(alloc, MAX_VIEWS)?,
        })
    }

    /// Opens a view of the first `commits` commits, for the session `creator`, while `next` is the
    /// next transaction id and `active` are the transactions at work. It takes no memory.
    pub fn open(
        &mut self,
        commits: CommitNo,
        creator: SessionNo,
        next: TrxId,
        active: &[TrxId],
    ) -> usize
        requires few { open_count self.old < 64 }
        requires ids { length active.now ≤ 64 }
        ensures fresh { view_in self.old result ≡ None }
        ensures opened { view_in self.new result ≡ Some (record {
          commits = commits.0;
          creator = creator.0;
          next = next.0;
          active = ids_of active.now;
        }) }
        ensures others { (key : ℕ) → key ≢ result → view_in self.new key ≡ view_in self.old key }
        ensures count { open_count self.new ≡ open_count self.old + 1 }
    {
        let view = View {
            commits,
            creator,
            next,
            active: numbers(active),
        };
        self.views.insert_reserved(view)
    }

    /// Closes a view.
    pub fn close(&mut self, key: usize)
        requires open { view_in self.old key ≢ None }
        ensures closed { view_in self.new key ≡ None }
        ensures others { (k : ℕ) → k ≢ key → view_in self.new k ≡ view_in self.old k }
        ensures count { open_count self.new + 1 ≡ open_count self.old }
    {
        let _ = self.views.try_remove(key);
    }

    /// Whether the view sees what a transaction did: exactly where its id is below the next one at
    /// the opening, and it was not at work then.
    pub fn sees(&self, key: usize, trx: TrxId) -> bool
        requires open { view_in self.now key ≢ None }
        ensures value { (v : ReadView) → view_in self.now key ≡ Some v
            → result ≡ sees_of v trx.0 }
    {
        match self.views.get(key) {
            Some(view) => view_sees(view, trx),
            None => false,
        }
    }

    /// The least count of commits of an open view, and `commits` where none is open. Purge keeps
    /// what it shows.
    pub fn limit(&self, commits: CommitNo) -> CommitNo
        ensures none { open_count self.now ≡ 0 → result ≡ commits }
        ensures least { (key : ℕ) (v : ReadView) → view_in self.now key ≡ Some v
            → result.0 ≤ v.commits }
        ensures some { open_count self.now ≢ 0 → (key : ℕ) × (v : ReadView)
            × (view_in self.now key ≡ Some v) × (result.0 ≡ v.commits) }
    {
        least(&self.views, commits)
    }

    /// How many views are open.
    pub fn len(&self) -> usize
        ensures { result ≡ open_count self.now }
    {
        self.views.len()
    }
}

// The ids by number.
fn numbers(ids: &[TrxId]) -> ArrayVec<u64, 64>
    requires { length ids.now ≤ 64 }
    ensures { result.items ≡ ids_of ids.now }
{
    let mut numbers = ArrayVec::new();
    for id in ids {
        numbers.push(id.0);
    }
    numbers
}

fn view_sees(view: &View, trx: TrxId) -> bool
    ensures { result ≡ sees_of (view_of view.now) trx.0 }
{
    trx < view.next && !view.active.as_slice().contains(&trx.0)
}

// The least count of an open view, else `commits`.
fn least(views: &Slab<View>, commits: CommitNo) -> CommitNo
    ensures none { open_count views.now ≡ 0 → result ≡ commits }
    ensures least { (key : ℕ) (v : ReadView) → view_in views.now key ≡ Some v
        → result.0 ≤ v.commits }
    ensures some { open_count views.now ≢ 0 → (key : ℕ) × (v : ReadView)
        × (view_in views.now key ≡ Some v) × (result.0 ≡ v.commits) }
{
    let mut least = None;
    for (_key, view) in views.iter() {
        least = Some(lesser(least, view.commits));
    }
    least.unwrap_or(commits)
}

fn lesser(least: Option<CommitNo>, commits: CommitNo) -> CommitNo
    ensures { IsLesser least commits result }
{
    match least {
        Some(other) => if other < commits { other } else { commits },
        None => commits,
    }
}
