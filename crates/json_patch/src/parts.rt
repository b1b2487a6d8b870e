//! Runs of places at which two versions of a document differ, made and taken back.
ghost use Rattle.std.specs.Prelude.{◌≡◌, ◌<◌, ◌≤◌, ◌+◌, ◌∷◌, ◌++◌, ◌==◌, ℕ, List, [], length, map, IfOk, OnOk};
ghost use Rattle.binary_model.specs.Change.{put_all, put_back, runs, written, differing};
ghost use Rattle.binary_model.specs.Canonical.{max_document_bytes};
ghost use Rattle.json_patch.specs.View.{run_of, runs_of, AreWithin};

use smallvec::SmallVec;
use std::alloc::{AllocError, Global};

/// Bytes from a place of the document on: those before the change, and as many behind it.
#[derive(Drop)]
pub struct Patch {
    pub at: u32,
    pub before: SmallVec<u8, 16>,
    pub after: SmallVec<u8, 16>,
}

/// The maximal runs of differing places, in rising order.
#[derive(Drop)]
pub struct Parts {
    patches: Vec<Patch>,
}

impl Patch {
    /// One differing place.
    pub(crate) fn of_place(
        alloc: Global,
        at: usize,
        before: u8,
        after: u8,
    ) -> Result<Self, AllocError>
        requires small { at ≤ max_document_bytes }
        ensures { IfOk result (λ p. run_of p
            ≡ record { at = at; before = before ∷ []; after = after ∷ [] }) }
    {
        Ok(Patch {
            at: at as u32,
            before: SmallVec::from_slice(alloc, &[before])?,
            after: SmallVec::from_slice(alloc, &[after])?,
        })
    }

    /// Whether its bytes before the change end at a place.
    #[tactic(auto, using(crate::proofs::TouchLemmas::ends_capped))]
    pub(crate) fn ends_at(&self, place: usize) -> bool
        requires small { place ≤ max_document_bytes }
        ensures { result ≡ (self.now.at + length self.now.before.items == place) }
    {
        (self.at as usize).saturating_add(self.before.len()) == place
    }

    /// Adds the differing place right behind it. At `Err` its bytes before and after may be of
    /// two lengths.
    pub(crate) fn grow(&mut self, before: u8, after: u8) -> Result<(), AllocError>
        ensures { OnOk result (run_of self.new ≡ record {
          at = self.old.at;
          before = self.old.before.items ++ before ∷ [];
          after = self.old.after.items ++ after ∷ [];
        }) }
    {
        self.before.push(before)?;
        self.after.push(after)?;
        Ok(())
    }
}

impl Parts {
    /// Of patches in rising order.
    pub(crate) fn from_patches(patches: Vec<Patch>) -> Self
        ensures { runs_of result ≡ map run_of patches.items }
    {
        Parts { patches }
    }

    /// The patches, in rising order of their places.
    pub fn patches(&self) -> &[Patch]
        ensures { map run_of result.now ≡ runs_of self.now }
    {
        self.patches.as_slice()
    }

    /// How many places differ.
    pub fn places(&self) -> u32
        requires { differing (runs_of self.now) ≤ max_document_bytes }
        ensures { result ≡ differing (runs_of self.now) }
    {
        let mut places = 0u32;
        for patch in &self.patches {
            places += patch.before.len() as u32;
        }
        places
    }
}

/// Makes a change in the bytes that it was planned for.
pub fn apply(bytes: &mut [u8], parts: &Parts)
    requires within { AreWithin (length bytes.old) (runs_of parts.now) }
    ensures put { bytes.new ≡ put_all (runs_of parts.now) bytes.old }
    ensures new { (new : List ℕ) → length bytes.old ≡ length new →
        runs_of parts.now ≡ runs bytes.old new → bytes.new ≡ new }
{
    for patch in &parts.patches {
        put(bytes, patch.at as usize, patch.after.as_slice());
    }
}

/// Takes a change back, where its new bytes stand.
pub fn unapply(bytes: &mut [u8], parts: &Parts)
    requires within { AreWithin (length bytes.old) (runs_of parts.now) }
    ensures put { bytes.new ≡ put_back (runs_of parts.now) bytes.old }
    ensures old { (old : List ℕ) → length old ≡ length bytes.old →
        runs_of parts.now ≡ runs old bytes.old → bytes.new ≡ old }
{
    for patch in &parts.patches {
        put(bytes, patch.at as usize, patch.before.as_slice());
    }
}

/// Writes bytes at a place.
#[tactic(auto, unfolding(binary_model::specs::Change::written))]
pub fn put(bytes: &mut [u8], at: usize, new: &[u8])
    requires { at + length new.now ≤ length bytes.old }
    ensures { bytes.new ≡ written bytes.old at new.now }
{
    bytes[at..at + new.len()].copy_from_slice(new);
}
