//! Worked reads.
ghost use Rattle.std.specs.Prelude.{◌≡◌, [], ◌∷◌, Some};
ghost use Rattle.read_model.specs.Events.{AllMove};
ghost use Rattle.read_model.specs.Document.{IsVisible};
ghost use Rattle.read_model.specs.Flight.{Seek, Pieces, Ready};
ghost use Rattle.read_model.specs.Rows.{changed_between, undone_behind, done_and_undone, two_pieces, sees_to, two_row, undone_between, reused_read, read_at, read_through, looking, looked_on, seeking, sought_on, deep_row, place, bytes_of};

/// A change of both pieces comes when the first is copied.
pub fn changed_between_copies()
    ensures ready { changed_between.phase ≡ Ready }
    ensures bytes { bytes_of changed_between ≡ (7 ∷ 97 ∷ []) ∷ (98 ∷ 98 ∷ 98 ∷ 98 ∷ []) ∷ [] }
{}

/// Both pieces are copied with the change, which then is undone.
pub fn undone_behind_copies()
    ensures ready { undone_behind.phase ≡ Ready }
    ensures bytes { bytes_of undone_behind ≡ (7 ∷ 97 ∷ []) ∷ (98 ∷ 98 ∷ 98 ∷ 98 ∷ []) ∷ [] }
{}

/// It is undone between the copies.
pub fn undone_between_copies()
    ensures ready { undone_between.phase ≡ Ready }
    ensures bytes { bytes_of undone_between ≡ (7 ∷ 97 ∷ []) ∷ (98 ∷ 98 ∷ 98 ∷ 98 ∷ []) ∷ [] }
{}

/// A new record stands at the address of the visible row's purged one.
pub fn purged_address_taken_again()
    ensures ready { reused_read.phase ≡ Ready }
    ensures bytes { bytes_of reused_read ≡ (7 ∷ 97 ∷ []) ∷ (98 ∷ 98 ∷ 98 ∷ 98 ∷ []) ∷ [] }
{}

/// Changed in place, by a new version, and in place again: each view has its own bytes.
pub fn small_large_small()
    ensures first { bytes_of (read_at 1) ≡ (97 ∷ 97 ∷ 97 ∷ 97 ∷ []) ∷ [] }
    ensures second { bytes_of (read_at 2) ≡ (98 ∷ 97 ∷ 97 ∷ 97 ∷ []) ∷ [] }
    ensures third { bytes_of (read_at 3) ≡ (99 ∷ 99 ∷ 99 ∷ 97 ∷ []) ∷ [] }
    ensures fourth { bytes_of (read_at 4) ≡ (100 ∷ 99 ∷ 99 ∷ 97 ∷ []) ∷ [] }
    ensures ready { (read_at 1).phase ≡ Ready }
{}

/// A new version comes and goes under a read of an older one.
pub fn version_comes_and_goes()
    ensures first { bytes_of (read_through 1) ≡ (97 ∷ 97 ∷ 97 ∷ 97 ∷ []) ∷ [] }
    ensures second { bytes_of (read_through 2) ≡ (98 ∷ 97 ∷ 97 ∷ 97 ∷ []) ∷ [] }
    ensures ready { (read_through 1).phase ≡ Ready }
{}

/// A search stands at the ninth of ten versions. It goes on there, also when newer ones are popped,
/// and from the head when its node is freed.
pub fn search_is_moved()
    ensures stands { (looking 0).node ≡ Some (place 6 2) }
    ensures stays { (looking 7).node ≡ Some (place 6 2) }
    ensures moved { (looking 8).node ≡ Some (place 3 96) }
    ensures first { bytes_of (looked_on 0) ≡ (1 ∷ []) ∷ [] }
    ensures second { bytes_of (looked_on 7) ≡ (1 ∷ []) ∷ [] }
    ensures third { bytes_of (looked_on 8) ≡ (1 ∷ []) ∷ [] }
{}

/// A read seeks through eight of ten records. It stays there while newer ones are undone, is handed
/// on from then on, and copies in either case.
pub fn seek_is_handed_on()
    ensures seeks { (seeking 0).phase ≡ Seek }
    ensures judges { (seeking 0).row ≡ deep_row 2 }
    ensures stays { (seeking 8).row ≡ deep_row 2 }
    ensures handed { (seeking 9).row ≡ deep_row 1 }
    ensures down { (seeking 10).row ≡ deep_row 0 }
    ensures first { (sought_on 0).phase ≡ Pieces }
    ensures second { (sought_on 10).phase ≡ Pieces }
    ensures same { (sought_on 10).row ≡ (sought_on 0).row }
{}

/// The events of an example are events as the laws take them.
pub fn examples_are_events()
    ensures events { AllMove (sees_to 1) two_pieces done_and_undone }
    ensures visible { IsVisible (sees_to 1) two_pieces [] [] two_row }
{}
