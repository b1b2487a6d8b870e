//! The room of a value in its container: from its own place, or behind what stands before it, up to
//! what stands behind it.
ghost use Rattle.std.specs.Prelude.{◌≡◌, ◌≤◌, ◌<◌, ◌+◌, length};
ghost use Rattle.binary_model.specs.Layout as layout;
ghost use Rattle.binary_model.specs.Change as change;
ghost use Rattle.json_binary.specs.Place.{container_of, spot_of, IsFramed, IsInside};
ghost use Rattle.json_patch.specs.Stand.{HasValue, HasValues};

use json_binary::{Container, Kind, Spot, container_in, text_range};

/// Where the k-th value may begin.
pub fn room_start(bytes: &[u8], container: Container, k: usize) -> usize
    requires stands { HasValues bytes.now container }
    requires inside { k < layout.count bytes.now (container_of container) }
    ensures { result ≡ change.room_start bytes.now (container_of container) k }
{
    let spot = container.child(bytes, k);
    if container.inlines(bytes, spot.type_at) {
        end_before(bytes, container, k)
    } else {
        spot.at
    }
}

/// The place that the k-th value may not pass.
pub fn room_end(bytes: &[u8], container: Container, k: usize) -> usize
    requires stands { HasValues bytes.now container }
    requires inside { k < layout.count bytes.now (container_of container) }
    ensures { result ≡ change.room_end bytes.now (container_of container) k }
{
    let count = container.count(bytes);
    let mut next = k + 1;
    while next < count {
        let spot = container.child(bytes, next);
        if !container.inlines(bytes, spot.type_at) {
            return spot.at;
        }
        next += 1;
    }
    container.end(bytes)
}

// The end of the nearest of the first k values that has an offset, else of the keys, or of the
// entries.
fn end_before(bytes: &[u8], container: Container, k: usize) -> usize
    requires stands { HasValues bytes.now container }
    requires inside { k ≤ layout.count bytes.now (container_of container) }
    ensures { result ≡ change.end_before bytes.now (container_of container) k }
{
    let mut before = k;
    while before > 0 {
        let spot = container.child(bytes, before - 1);
        if !container.inlines(bytes, spot.type_at) {
            return value_end(bytes, spot);
        }
        before -= 1;
    }
    container.values_floor(bytes)
}

// The place behind a value.
fn value_end(bytes: &[u8], spot: Spot) -> usize
    requires stands { HasValue bytes.now (spot_of spot) }
    requires inside { IsInside bytes.now spot }
    ensures { result ≡ layout.value_end bytes.now (spot_of spot) }
{
    match Kind::of(bytes[spot.type_at]) {
        Some(Kind::Literal) => spot.at + 1,
        Some(Kind::Signed(width)) => spot.at + width.bytes(),
        Some(Kind::Unsigned(width)) => spot.at + width.bytes(),
        Some(Kind::Text) => match text_range(bytes, spot) {
            Some((_, end)) => end,
            None => spot.at,
        },
        _ => match container_in(bytes, spot) {
            Some(container) => container.end(bytes),
            None => spot.at,
        },
    }
}
