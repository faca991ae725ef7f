// Forms and rows of equally many bytes.
ghost use Rattle.std.specs.Prelude.{◌≡◌, ◌+◌, ◌*◌, ◌<◌, ◌≤◌, length, drop};
ghost use Rattle.std.specs.Simd.{first_chunks};
ghost use Rattle.kinds.specs.Bytes.{part};

// The N bytes at a place.
pub(crate) fn form<const N: usize>(bytes: &[u8], at: usize) -> [u8; N]
    requires { at + N ≤ length bytes.now }
    ensures { result ≡ part bytes.now at N }
{
    let mut form = [0; N];
    form.copy_from_slice(&bytes[at..at + N]);
    form
}

// So many rows of N bytes, from a place on.
#[inline(always)]
pub(crate) fn rows<const N: usize>(bytes: &[u8], at: usize, count: usize) -> &[[u8; N]]
    requires { (0 < N) × (at + N * count ≤ length bytes.now) }
    ensures rows { result.now ≡ first_chunks N count (drop at bytes.now) }
    ensures many { length result.now ≡ count }
{
    let (rows, _) = bytes[at..at + N * count].as_chunks::<N>();
    rows
}
