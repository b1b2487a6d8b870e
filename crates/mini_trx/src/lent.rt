// The pages that a mini-transaction has pinned.
ghost use Rattle.std.specs.Prelude.{◌≡◌, ◌+◌, ◌≤◌, ◌<◌, ◌++◌, [], ◌∷◌, length, map, false, All, IsSome, IfSome, IfNone, slice_index_or, slice_set, MatchOption};
ghost use Rattle.page_model.specs.Pages.{page_bytes, patched};
ghost use Rattle.page_model.specs.Steps.{max_pins, among};
ghost use Rattle.mini_trx.specs.Pins.{IsPlace};
ghost use Rattle.mini_trx.specs.Copies.{copy_of, page_copy, page_of};

use arrayvec::ArrayVec;
use engine_base::{MAX_PINS, PageBuf, PageNo};
use std::marker::Model;

/// A page that is lent: its number, and the frame with the copy.
#[derive(Drop)]
pub(crate) struct Lent {
    page: PageNo,
    frame: PageBuf,
}

/// The lent pages in the order of pinning, at most 16.
#[derive(Drop)]
pub(crate) struct LentPages {
    places: ArrayVec<Option<Lent>, MAX_PINS>,
}

impl Model for LentPages {
    ghost use Rattle.std.specs.Prelude.{List, map, All, IsSome};
    ghost use Rattle.mini_trx.specs.Copies.{PageCopy, copy_of};

    ghost Value = { List PageCopy };

    ghost view = { λ lent. map copy_of lent.places.items };

    ghost invariant = { λ lent. All IsSome lent.places.items };
}

impl LentPages {
    pub(crate) fn new() -> LentPages
        ensures { result ≡ [] }
    {
        LentPages {
            places: ArrayVec::new(),
        }
    }

    pub(crate) fn len(&self) -> usize
        ensures value { result ≡ length self.now }
        ensures most { result ≤ max_pins }
    {
        self.places.len()
    }

    /// Where the page stands among the lent ones.
    pub(crate) fn find(&self, page: PageNo) -> Option<usize>
        ensures found { IfSome result (λ i. IsPlace i page.0 self.now) }
        ensures none { IfNone result (among (map page_of self.now) page.0 ≡ false) }
    {
        find(self.places.as_slice(), page)
    }

    /// The bytes of copy i.
    pub(crate) fn bytes(&self, i: usize) -> &[u8]
        requires { i < length self.now }
        ensures value { result.now ≡ (slice_index_or self.now i (page_copy 0 [])).bytes }
        ensures len { length result.now ≡ page_bytes }
    {
        match &self.places[i] {
            Some(lent) => lent.frame.bytes(),
            None => unreachable!(),
        }
    }

    /// Writes over a part of copy i: the one copy of these bytes there.
    pub(crate) fn patch(&mut self, i: usize, at: usize, bytes: &[u8])
        requires place { i < length self.old }
        requires within { at + length bytes.now ≤ page_bytes }
        ensures { let copy = slice_index_or self.old i (page_copy 0 []) in
            self.new ≡ slice_set self.old i
            (page_copy copy.page (patched copy.bytes at bytes.now)) }
    {
        patch(self.places.as_mut_slice(), i, at, bytes);
    }

    pub(crate) fn push(&mut self, page: PageNo, frame: PageBuf)
        requires { length self.old < max_pins }
        ensures { self.new ≡ self.old ++ page_copy page.0 frame ∷ [] }
    {
        self.places.push(Some(Lent { page, frame }));
    }

    /// Takes the frame of the page that was pinned last.
    pub(crate) fn pop(&mut self) -> Option<PageBuf>
        ensures { MatchOption result (self.old ≡ []) (λ _. length self.new + 1 ≡ length self.old) }
    {
        match self.places.pop() {
            Some(Some(lent)) => {
                let Lent { page: _, frame } = lent;
                Some(frame)
            }
            _ => None,
        }
    }
}

// Where the page stands among the places.
fn find(places: &[Option<Lent>], page: PageNo) -> Option<usize>
    requires { All IsSome places.now }
    ensures found { IfSome result (λ i. IsPlace i page.0 (map copy_of places.now)) }
    ensures none { IfNone result (among (map page_of (map copy_of places.now)) page.0 ≡ false) }
{
    for (i, place) in places.iter().enumerate() {
        if let Some(lent) = place {
            if lent.page == page {
                return Some(i);
            }
        }
    }
    None
}

// Writes over a part of the frame at place i.
fn patch(places: &mut [Option<Lent>], i: usize, at: usize, bytes: &[u8])
    requires all { All IsSome places.old }
    requires place { i < length places.old }
    requires within { at + length bytes.now ≤ page_bytes }
    ensures all { All IsSome places.new }
    ensures patched { let copy = slice_index_or (map copy_of places.old) i (page_copy 0 []) in
        map copy_of places.new ≡ slice_set (map copy_of places.old) i
        (page_copy copy.page (patched copy.bytes at bytes.now)) }
{
    if let Some(lent) = &mut places[i] {
        lent.frame.patch(at, bytes);
    }
}
