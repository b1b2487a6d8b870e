//! The pages in use and the ceiling that the journal gives.
ghost use Rattle.std.specs.Prelude.{◌≡◌, ◌≤◌, ◌+◌, ◌-◌, ℕ, true, length, List, Some};
ghost use Rattle.journal_model.specs.Journal.{Script, Opening, new_store};
ghost use Rattle.journal_model.specs.Held.{is_in, versions_in};
ghost use Rattle.journal_model.specs.Locks.{sessions};
ghost use Rattle.journal_model.specs.Ceiling.{ceiling};
ghost use Rattle.read_model.specs.Flight.{Flight};
ghost use Rattle.store_data.specs.Store.{Lob};
ghost use Rattle.store_model.specs.Owned.{rest_of};
ghost use Rattle.kept_model.specs.Held.{held_lob};
ghost use Rattle.kept_model.specs.Engine.{fetching, Engine};
ghost use Rattle.kept_model.specs.First.{new_engine};
ghost use Rattle.kept_model.specs.Room.{IsRoomy, free_pages};

/// Where pages in use, reserved ones and those that unplanned statements need are within the
/// ceiling, a session that may plan its change can be told the free pages: there are at least as
/// many as a refusal of it has to tell (`IsRefusedBy`).
#[tactic(auto, using(crate::proofs::RoomLemmas::free_is_told))]
pub fn free_is_told()
    ensures { (o : Opening) (script : Script) (e : Engine) → IsRoomy o script e
        → (s d : ℕ) (read : Flight) → (e.sessions s).task ≡ fetching d read
        → 1 ≤ s → s ≤ 64 → is_in s sessions ≡ true
        → o.pages - ceiling o script (Some s) e.journal ≤ free_pages o e }
{}

/// A new store has its system page in use, and nothing is asked for.
#[tactic(auto, using(crate::proofs::RoomLemmas::room_new))]
pub fn first_is_roomy()
    ensures { (pages : ℕ) (script : Script) → IsRoomy (new_store pages) script new_engine }
{}

/// Behind its first page a LOB has at most a page for each version that is held of it, and its
/// index pages: what the ceiling counts for it.
#[tactic(auto, using(crate::proofs::RoomLemmas::lob_pages_are_few))]
pub fn lob_pages_are_few()
    ensures { (l : Lob) → length (rest_of (Some l)) ≤ length l.index + versions_in (held_lob l) }
{}
