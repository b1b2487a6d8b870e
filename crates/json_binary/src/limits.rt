// The limits of stored documents, which are those of the definitions.
ghost use Rattle.std.specs.Prelude.{◌≡◌};
ghost use Rattle.binary_model.specs.Canonical.{max_document_bytes, max_small_bytes};

/// The most bytes of a document.
pub const MAX_DOCUMENT_BYTES: usize = 16_777_216;

/// The most bytes of a container whose counts, sizes and offsets have two.
pub const MAX_SMALL_BYTES: usize = 65_535;

/// They are the limits that the definitions have.
pub fn limits_are_defined()
    ensures document { MAX_DOCUMENT_BYTES ≡ max_document_bytes }
    ensures small { MAX_SMALL_BYTES ≡ max_small_bytes }
{}
