// What every record kind offers, and the law of its written form.
ghost use Rattle.std.specs.Prelude.{◌≡◌, true};
ghost use Rattle.kinds.specs.Values.{RecordKind, Written, SameValue};

// A record's value. The type is plain: every content counts as one lawful value, and two contents
// are the same value where their written forms are.
pub trait Record: Copy {
    ghost kind: { RecordKind Self };

    // The number of the kind, as an archive's heading has it. Kinds are types, and users add more, so no enum
    // lists them.
    fn number() -> u8
        ensures { result ≡ kind.number };

    // The written form.
    fn to_bytes(self) -> [u8; 12]
        ensures { result ≡ kind.form.written self };

    // The value of a written form, or none where the bytes are no form of this kind.
    fn from_bytes(bytes: [u8; 12]) -> Option<Self>
        ensures { result ≡ kind.form.read bytes };

    ghost written: { Written kind };
}

// Whether two contents are the same value. A derived `==` would tell contents apart that count alike.
pub fn same_value<R: Record>(a: R, b: R) -> bool
    ensures told { result ≡ true → SameValue R.Record.kind a b }
    ensures law { SameValue R.Record.kind a b → result ≡ true }
{
    a.to_bytes() == b.to_bytes()
}
