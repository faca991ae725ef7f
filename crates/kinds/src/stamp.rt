// What every stamp kind offers, and the four laws that it shows.
ghost use Rattle.std.specs.Prelude.{◌≡◌};
ghost use Rattle.kinds.specs.Stamps.{Kind, Lawful, compared};

use std::cmp::Ordering;

// A stamp is a job's place in the final order. The type is plain: every content counts as one
// lawful stamp, and two contents are the same stamp where their written forms are. By a rule of the project
// all that a kind owes stands in this one interface, the written form too, which `Record` has in another length.
pub trait Stamp: Copy {
    ghost kind: { Kind Self };

    // The number of the kind, as an archive's heading has it. Kinds are types, and users add more, so no enum
    // lists them.
    fn number() -> u8
        ensures { result ≡ kind.order.number };

    // Less: this stamp is before the other. Equal: they are the same. Greater: it is after. As `Ord` it would
    // want three impls more of each kind, with laws that say again what `lawful` says.
    fn compare(self, other: Self) -> Ordering
        ensures { result ≡ compared kind.order self other };

    // The stamp that no stamp is before.
    fn least() -> Self
        ensures { result ≡ kind.order.least };

    // A stamp after this one and before the upper bound, or none where the kind has no such stamp.
    fn pick(self, upper: Option<Self>) -> Option<Self>
        ensures { result ≡ kind.pick self upper };

    // The written form.
    fn to_bytes(self) -> [u8; 8]
        ensures { result ≡ kind.order.form.written self };

    // The stamp of a written form, or none where the bytes are no form of this kind.
    fn from_bytes(bytes: [u8; 8]) -> Option<Self>
        ensures { result ≡ kind.order.form.read bytes };

    ghost lawful: { Lawful kind };
}
