//! What asking for a document is answered.
ghost use Rattle.std.specs.Prelude.{◌≡◌, ◌<◌, ◌++◌, ◌∷◌, [], length};

use arrayvec::ArrayVec;
use engine_base::SessionNo;
use std::marker::Model;

/// The sessions of a circle of waits, from the one that holds the document to the one that asked
/// for it, each of which waits for the next. They are seen as the list of their numbers.
#[derive(Drop)]
pub struct Circle {
    // By number: an `ArrayVec` fills its free places with a default, and no session is one.
    numbers: ArrayVec<u8, 64>,
}

impl Model for Circle {
    ghost use Rattle.std.specs.Prelude.{List, ℕ};

    ghost Value = { List ℕ };

    ghost view = { λ circle. circle.numbers.items };
}

impl Circle {
    pub(crate) fn new() -> Circle
        ensures { result ≡ [] }
    {
        Circle {
            numbers: ArrayVec::new(),
        }
    }

    pub(crate) fn push(&mut self, session: SessionNo)
        requires { length self.old < 64 }
        ensures { self.new ≡ self.old ++ session.0 ∷ [] }
    {
        self.numbers.push(session.0);
    }

    /// The sessions by number.
    pub fn as_slice(&self) -> &[u8]
        ensures { result.now ≡ self.now }
    {
        self.numbers.as_slice()
    }
}

/// What a session that asks for a document is answered.
#[derive(Drop)]
pub enum Asked {
    /// No other session holds it: the session holds it now, and waits for none.
    Granted,
    /// This session holds it, and the one that asked waits: it asks again in a later event.
    Held(SessionNo),
    /// Another session holds it, and waits, itself or by others, for the one that asked. That one
    /// doesn't wait: it is the victim.
    Circle(Circle),
}
