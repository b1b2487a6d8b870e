// What a statement was answered.
ghost use Rattle.std.specs.Prelude.{◌≡◌, ◌<◌, ◌++◌, ◌∷◌, [], length};

use arrayvec::ArrayVec;
use engine_base::SessionNo;
use std::marker::Model;

/// The printed text of a document.
#[derive(Drop)]
pub struct Text {
    bytes: Vec<u8>,
}

impl Model for Text {
    ghost use Rattle.std.specs.Prelude.{List, ℕ};

    ghost Value = { List ℕ };

    ghost view = { λ text. text.bytes.items };
}

impl Text {
    pub fn new(bytes: Vec<u8>) -> Text
        ensures { result ≡ bytes.items }
    {
        Text { bytes }
    }

    pub fn as_bytes(&self) -> &[u8]
        ensures { result.now ≡ self.now }
    {
        self.bytes.as_slice()
    }
}

/// The sessions of a circle of waits, from the one that holds the document to the one that asked
/// for it.
#[derive(Drop)]
pub struct Circle {
    // By number: an `ArrayVec` fills its free places with a default, and no session is one.
    numbers: ArrayVec<u8, 64>,
}

impl Model for Circle {
    ghost use Rattle.std.specs.Prelude.{List, ℕ};

    ghost Value = { List ℕ };

    ghost view = { λ circle. circle.numbers.items };
}

impl Circle {
    pub fn new() -> Circle
        ensures { result ≡ [] }
    {
        Circle {
            numbers: ArrayVec::new(),
        }
    }

    pub fn push(&mut self, session: SessionNo)
        requires { length self.old < 64 }
        ensures { self.new ≡ self.old ++ session.0 ∷ [] }
    {
        self.numbers.push(session.0);
    }

    /// The sessions by number.
    pub fn as_slice(&self) -> &[u8]
        ensures { result.now ≡ self.now }
    {
        self.numbers.as_slice()
    }
}

/// What a statement was answered.
#[derive(Drop)]
pub enum Reply {
    /// A change closes a circle of waits. The whole transaction is rolled back.
    Deadlock(Circle),
    /// A change of a document that isn't there.
    Missing,
    /// An insert where a document stands.
    Exists,
    /// The edited document equals the one that stands.
    Same,
    /// The document would nest more than 100 containers.
    Deep,
    /// Its encoding would have more than 16,777,216 bytes.
    Large,
    /// The change needs so many pages, and fewer are free.
    NoRoom { need: u32, free: u32 },
    /// Stored whole.
    Full,
    /// Stored by altering so many bytes in place.
    Part(u32),
    /// Taken out, or a transaction opened or ended.
    Done,
    /// A transaction is open.
    Inside,
    /// The document that a read shows, as its printed text.
    Doc(Text),
    /// The stored length of the document that a read shows, with its type byte, and what of it
    /// isn't used.
    Sized { size: u32, free: u32 },
    /// A read shows no document.
    Absent,
    /// The statement was begun and not answered when the store was opened again.
    Restart,
    /// Memory ran out. No document is altered, and the session goes on.
    Memory,
}
