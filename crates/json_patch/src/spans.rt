//! The runs of places that differ between two versions of a document, found in the spans that were
//! written alone.
ghost use Rattle.std.specs.Prelude.{◌≡◌, ◌≤◌, length, IfOk};
ghost use Rattle.std.specs.List.Sorted.{IsNonDecreasingBy};
ghost use Rattle.binary_model.specs.Change.{runs};
ghost use Rattle.binary_model.specs.Canonical.{max_document_bytes};
ghost use Rattle.json_patch.specs.View.{runs_of};
ghost use Rattle.json_patch.specs.Spans.{DifferInSpans};

use crate::parts::Parts;
use crate::touched::add_bytes;
use std::alloc::{AllocError, Global};

/// From where to where bytes were written.
#[derive(Clone, Copy)]
pub struct Span {
    pub at: usize,
    pub end: usize,
}

/// The maximal runs of places at which two versions of a document differ that differ within some
/// spans at most: nothing but these is read, and each place of them once.
pub fn runs_in_spans(
    alloc: Global,
    old: &[u8],
    new: &[u8],
    spans: Vec<Span>,
) -> Result<Parts, AllocError>
    requires small { length old.now ≤ max_document_bytes }
    requires within { DifferInSpans old.now new.now spans.items }
    ensures { IfOk result (λ parts. runs_of parts ≡ runs old.now new.now) }
{
    let mut rising = spans;
    rising.sort_unstable_by_key(|span| span.at);
    runs_in_order(alloc, old, new, &rising)
}

// The same, where the spans rise.
fn runs_in_order(alloc: Global, old: &[u8], new: &[u8], spans: &[Span]) -> Result<Parts, AllocError>
    requires small { length old.now ≤ max_document_bytes }
    requires rising { IsNonDecreasingBy (λ s. s.at) spans.now }
    requires within { DifferInSpans old.now new.now spans.now }
    ensures { IfOk result (λ parts. runs_of parts ≡ runs old.now new.now) }
{
    let mut patches = Vec::new(alloc);
    let mut done = 0;
    for span in spans {
        let start = span.at.max(done);
        if start < span.end {
            add_bytes(alloc, old, start, &new[start..span.end], &mut patches)?;
            done = span.end;
        }
    }
    Ok(Parts::from_patches(patches))
}
