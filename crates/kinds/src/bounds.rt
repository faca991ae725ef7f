// Bounds of a job, for any stamp kind.
ghost use Rattle.std.specs.Prelude.{◌≡◌, true};
ghost use Rattle.kinds.specs.Stamps.{Same};
ghost use Rattle.kinds.specs.Bounds.{later as later_of, earlier as earlier_of, same as same_as, LaterLaw, EarlierLaw};

use crate::stamp::Stamp;
use std::cmp::Ordering;

// Whether a stamp is before another.
pub fn before<S: Stamp>(a: S, b: S) -> bool
    ensures { result ≡ S.Stamp.kind.order.before a b }
{
    a.compare(b).is_lt()
}

// The later of two stamps; of two that are the same, the first.
pub fn later<S: Stamp>(a: S, b: S) -> S
    ensures value { result ≡ later_of S.Stamp.kind.order a b }
    ensures law { LaterLaw S.Stamp.kind.order a b result }
{
    if before(a, b) { b } else { a }
}

// The earlier of a bound that may be absent and a stamp; of two that are the same, the bound.
pub fn earlier<S: Stamp>(upper: Option<S>, s: S) -> S
    ensures value { result ≡ earlier_of S.Stamp.kind.order upper s }
    ensures law { EarlierLaw S.Stamp.kind.order upper s result }
{
    match upper {
        Some(bound) if !before(s, bound) => bound,
        _ => s,
    }
}

// Whether two stamps are the same: exactly where their written forms are.
pub fn same<S: Stamp>(a: S, b: S) -> bool
    ensures value { result ≡ same_as S.Stamp.kind.order a b }
    ensures told { result ≡ true → Same S.Stamp.kind.order a b }
    ensures law { Same S.Stamp.kind.order a b → result ≡ true }
{
    matches!(a.compare(b), Ordering::Equal)
}
