//! The check of a container's header.
ghost use Rattle.std.specs.Prelude.{◌≡◌, ◌≤◌, length, OnOk, IsOk};
ghost use Rattle.binary_model.specs.Stands.{IsFrame};
ghost use Rattle.binary_model.specs.FirstFault as reading;
ghost use Rattle.json_binary.specs.Place.{container_of, IsFramed};
ghost use Rattle.json_binary.specs.Decoding.{Gives};

use crate::DecodeError;
use crate::cursor::place::Container;

/// Header and size lie within the limit, and the entries within the size.
pub fn check_frame(bytes: &[u8], container: Container, limit: usize) -> Result<(), DecodeError>
    requires begins { container.at ≤ limit }
    requires ends { limit ≤ length bytes.now }
    ensures gives { Gives (λ u. u) result (reading.frame bytes.now (container_of container) limit) }
    ensures framed { OnOk result (IsFramed bytes.now container) }
    ensures only { IsFrame bytes.now (container_of container) limit → IsOk result }
{
    let (form, at) = (container.form, container.at);
    let header_end = at + 2 * form.word();
    if limit < header_end {
        return Err(DecodeError::Truncated(at));
    }
    let end = at + form.word_at(bytes, at + form.word());
    let keys = if container.is_object {
        form.key_width()
    } else {
        0
    };
    let entries_end = header_end + form.word_at(bytes, at) * (keys + form.value_width());
    if limit < end || end < entries_end {
        return Err(DecodeError::Truncated(at));
    }
    Ok(())
}
