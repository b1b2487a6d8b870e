//! Whether a container's keys stand canonically.
ghost use Rattle.std.specs.Prelude.{◌≡◌, ◌≤◌, ◌<◌, ◌+◌, ℕ, List, true, IfSome};
ghost use Rattle.binary_model.specs.Layout.{end};
ghost use Rattle.json_binary.specs.Place.{container_of, IsFramed};
ghost use Rattle.json_splice.specs.Spelled.{NamesKeys, AreKeysAt};

use json_binary::Container;

/// How many bytes a container's keys take, where they stand one behind another from this offset on.
pub fn keys_size(bytes: &[u8], container: Container, offset: usize) -> Option<usize>
    requires framed { IsFramed bytes.now container }
    requires begins { container.at + offset ≤ end bytes.now (container_of container) }
    ensures { IfSome result (λ n. (ks : List (List ℕ))
        → NamesKeys bytes.now (container_of container) ks →
        AreKeysAt bytes.now (container_of container) offset ks n) }
{
    if container.is_object {
        object_keys_size(bytes, container, offset)
    } else {
        Some(0)
    }
}

fn object_keys_size(bytes: &[u8], container: Container, offset: usize) -> Option<usize>
    requires framed { IsFramed bytes.now container }
    requires begins { container.at + offset ≤ end bytes.now (container_of container) }
    requires object { container.is_object ≡ true }
    ensures { IfSome result (λ n. (ks : List (List ℕ))
        → NamesKeys bytes.now (container_of container) ks →
        AreKeysAt bytes.now (container_of container) offset ks n) }
{
    let mut at = offset;
    for k in 0..container.count(bytes) {
        let (start, end) = container.key_range(bytes, k);
        if start - container.at != at {
            return None;
        }
        at = end - container.at;
    }
    Some(at - offset)
}
