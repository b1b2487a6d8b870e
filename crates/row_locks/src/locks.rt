//! The table of held documents and of waits.
ghost use Rattle.std.specs.Prelude.{◌≡◌, ◌≢◌, ◌⊎◌, ◌↔◌, IsTrue, ◌+◌, ◌≤◌, ◌<◌, ℕ, None, Some, IfOk, nat_eq, slice_index_or};
ghost use Rattle.std.specs.List.{IsDistinct};
ghost use Rattle.std.specs.Map.{keys_of};
ghost use Rattle.row_locks.specs.Locks.{Table, holder, held_count, asked, other_than};
ghost use Rattle.row_locks.specs.Answers.{Answers, holder_then, asked_then, taken};

use crate::Asked;
use crate::chain::{chain_to, holder_of};
use crate::others::copy_others;
use engine_base::{DocId, SessionNo};
use indexmap::IndexMap;
use std::alloc::{AllocError, Global};
use std::marker::Model;
use std::mem;

/// Which session holds which document, and for which document each session asks. It is seen as a
/// `Table`.
#[derive(Drop)]
pub struct Locks {
    // by a document's number
    holders: IndexMap<u32, SessionNo>,
    // Empty, with as much room: what stays held is moved here when a session gives back its own,
    // since a map from which entries are taken one by one doesn't get their room back.
    vacant: IndexMap<u32, SessionNo>,
    // by a session's number
    asks: [Option<DocId>; 65],
    docs: u32,
}

impl Model for Locks {
    ghost use Rattle.std.specs.Prelude.{◌≡◌, ◌+◌, ◌≤◌, []};
    ghost use Rattle.indexmap.specs.IndexMap.{index_map_len, spare};
    ghost use Rattle.row_locks.specs.Locks.{Table};

    ghost Value = { Table };

    ghost view = { λ l. record { held = l.holders.entries; asks = l.asks; room = l.docs } };

    ghost invariant = { λ l. (l.docs ≤ index_map_len l.holders + spare l.holders)
        × (index_map_len l.holders ≤ l.docs) × (l.docs ≤ spare l.vacant)
        × (l.vacant.entries ≡ []) };
}

impl Locks {
    /// No document is held, and there is room for so many.
    pub fn new(alloc: Global, docs: u32) -> Result<Locks, AllocError>
        ensures free { IfOk result (λ t. (d : ℕ) → holder t d ≡ None) }
        ensures asks { IfOk result (λ t. (s : ℕ) → asked t s ≡ None) }
        ensures room { IfOk result (λ t. (t.room ≡ docs) × (held_count t ≡ 0)) }
    {
        Ok(Locks {
            holders: IndexMap::with_capacity(alloc, docs as usize)?,
            vacant: IndexMap::with_capacity(alloc, docs as usize)?,
            asks: no_asks(),
            docs,
        })
    }

    /// Asks for a document on behalf of a session, from 1 to 64, and takes no memory. A session
    /// that is answered `Held` asks for the document from then on, until it is granted, is a victim
    /// or gives back what it holds.
    pub fn ask(&mut self, s: SessionNo, d: DocId) -> Asked
        requires session { (1 ≤ s.0) × (s.0 ≤ 64) }
        requires room { (holder self.old d.0 ≢ None) ⊎ (held_count self.old < self.old.room) }
        ensures value { Answers self.old s.0 d.0 result }
        ensures holder { holder self.new d.0 ≡ holder_then self.old s.0 d.0 result }
        ensures held { (x : ℕ) → x ≢ d.0 → holder self.new x ≡ holder self.old x }
        ensures asks { asked self.new s.0 ≡ asked_then d.0 result }
        ensures asked { (t : ℕ) → t ≢ s.0 → asked self.new t ≡ asked self.old t }
        ensures count { held_count self.new ≡ held_count self.old + taken self.old d.0 result }
        ensures room { self.new.room ≡ self.old.room }
    {
        match holder_of(&self.holders, d) {
            None => self.take(s, d),
            Some(h) => {
                if h == s {
                    self.stay(s, d)
                } else {
                    self.wait(s, d, h)
                }
            }
        }
    }

    // Nobody holds the document.
    fn take(&mut self, s: SessionNo, d: DocId) -> Asked
        requires session { s.0 ≤ 64 }
        requires free { holder self.old d.0 ≡ None }
        requires room { held_count self.old < self.old.room }
        ensures value { Answers self.old s.0 d.0 result }
        ensures holder { holder self.new d.0 ≡ holder_then self.old s.0 d.0 result }
        ensures held { (x : ℕ) → x ≢ d.0 → holder self.new x ≡ holder self.old x }
        ensures asks { asked self.new s.0 ≡ asked_then d.0 result }
        ensures asked { (t : ℕ) → t ≢ s.0 → asked self.new t ≡ asked self.old t }
        ensures count { held_count self.new ≡ held_count self.old + taken self.old d.0 result }
        ensures room { self.new.room ≡ self.old.room }
    {
        self.holders.insert(d.0, s).unwrap();
        self.asks[usize::from(s.0)] = None;
        Asked::Granted
    }

    // The session holds it already.
    fn stay(&mut self, s: SessionNo, d: DocId) -> Asked
        requires session { s.0 ≤ 64 }
        requires own { holder self.old d.0 ≡ Some s.0 }
        ensures value { Answers self.old s.0 d.0 result }
        ensures holder { holder self.new d.0 ≡ holder_then self.old s.0 d.0 result }
        ensures held { (x : ℕ) → x ≢ d.0 → holder self.new x ≡ holder self.old x }
        ensures asks { asked self.new s.0 ≡ asked_then d.0 result }
        ensures asked { (t : ℕ) → t ≢ s.0 → asked self.new t ≡ asked self.old t }
        ensures count { held_count self.new ≡ held_count self.old + taken self.old d.0 result }
        ensures room { self.new.room ≡ self.old.room }
    {
        self.asks[usize::from(s.0)] = None;
        Asked::Granted
    }

    // Session h holds it, which is another.
    fn wait(&mut self, s: SessionNo, d: DocId, h: SessionNo) -> Asked
        requires session { s.0 ≤ 64 }
        requires held { holder self.old d.0 ≡ Some h.0 }
        requires other { h.0 ≢ s.0 }
        ensures value { Answers self.old s.0 d.0 result }
        ensures holder { holder self.new d.0 ≡ holder_then self.old s.0 d.0 result }
        ensures held { (x : ℕ) → x ≢ d.0 → holder self.new x ≡ holder self.old x }
        ensures asks { asked self.new s.0 ≡ asked_then d.0 result }
        ensures asked { (t : ℕ) → t ≢ s.0 → asked self.new t ≡ asked self.old t }
        ensures count { held_count self.new ≡ held_count self.old + taken self.old d.0 result }
        ensures room { self.new.room ≡ self.old.room }
    {
        match chain_to(&self.holders, &self.asks, h, s) {
            Some(sessions) => {
                self.asks[usize::from(s.0)] = None;
                Asked::Circle(sessions)
            }
            None => {
                self.asks[usize::from(s.0)] = Some(d);
                Asked::Held(h)
            }
        }
    }

    /// Gives back all that a session holds. It asks for nothing any more.
    pub fn release_all(&mut self, s: SessionNo)
        requires session { s.0 ≤ 64 }
        ensures held { (d : ℕ) → holder self.new d ≡ other_than s.0 (holder self.old d) }
        ensures asks { asked self.new s.0 ≡ None }
        ensures asked { (t : ℕ) → t ≢ s.0 → asked self.new t ≡ asked self.old t }
        ensures count { held_count self.new ≤ held_count self.old }
        ensures room { self.new.room ≡ self.old.room }
    {
        copy_others(&self.holders, &mut self.vacant, s);
        mem::swap(&mut self.holders, &mut self.vacant);
        self.vacant.clear();
        self.asks[usize::from(s.0)] = None;
    }

    /// Whether as many documents are held as there is room for.
    pub fn is_full(&self) -> bool
        ensures { IsTrue result ↔ (self.now.room ≤ held_count self.now) }
    {
        self.holders.len() >= self.docs as usize
    }

    /// How many documents are held.
    pub fn len(&self) -> usize
        ensures value { result ≡ held_count self.now }
        ensures distinct { IsDistinct nat_eq (keys_of self.now.held) }
    {
        self.holders.len()
    }
}

// No session asks for a document.
fn no_asks() -> [Option<DocId>; 65]
    ensures { (s : ℕ) → slice_index_or result s None ≡ None }
{
    [None; 65]
}
