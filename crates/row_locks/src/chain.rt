//! Whom a session waits for, and the chain of it.
ghost use Rattle.std.specs.Prelude.{◌≡◌, ℕ, Option, option_map, option_and_then, None, IfSome, IfNone, Some, nat_eq};
ghost use Rattle.std.specs.Map.{lookup};
ghost use Rattle.indexmap.specs.IndexMap.{get};
ghost use Rattle.row_locks.specs.Locks.{Table, waits_on, circle};
ghost use Rattle.row_locks.specs.Tables.{number_of, table_of};

use crate::Circle;
use engine_base::{DocId, SessionNo};
use indexmap::IndexMap;

/// The session that holds a document.
pub(crate) fn holder_of(holders: &IndexMap<u32, SessionNo>, d: DocId) -> Option<SessionNo>
    ensures { result ≡ lookup (nat_eq d.0) holders.now.entries }
{
    holders.get(&d.0).copied()
}

// The session that one waits for.
fn next_of(
    holders: &IndexMap<u32, SessionNo>,
    asks: &[Option<DocId>],
    s: SessionNo,
) -> Option<SessionNo>
    ensures { number_of result ≡ waits_on (table_of holders.now.entries asks.now) s.0 }
{
    let Some(d) = asks.get(usize::from(s.0)).copied().flatten() else {
        return None;
    };
    let Some(h) = holder_of(holders, d) else {
        return None;
    };
    if h == s {
        return None;
    }
    Some(h)
}

/// The chain from a session back to the one that would wait for it, where there is one.
pub(crate) fn chain_to(
    holders: &IndexMap<u32, SessionNo>,
    asks: &[Option<DocId>],
    holder: SessionNo,
    s: SessionNo,
) -> Option<Circle>
    ensures { result ≡ circle (table_of holders.now.entries asks.now) s.0 holder.0 }
{
    let mut sessions = Circle::new();
    let mut at = holder;
    'chain: for _ in 0..64u32 {
        sessions.push(at);
        if at == s {
            return Some(sessions);
        }
        let Some(next) = next_of(holders, asks, at) else {
            return None;
        };
        at = next;
    }
    None
}
