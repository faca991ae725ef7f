// Numbers in bytes, high byte first.
ghost use Rattle.std.specs.Prelude.{◌≡◌};
ghost use Rattle.kinds.specs.Bytes.{be2, be4};

// The low two bytes of a number.
pub(crate) fn two(n: usize) -> [u8; 2]
    ensures { result ≡ be2 n }
{
    let [.., high, low] = n.to_be_bytes();
    [high, low]
}

// The low four bytes.
pub(crate) fn four(n: usize) -> [u8; 4]
    ensures { result ≡ be4 n }
{
    let [.., a, b, c, d] = n.to_be_bytes();
    [a, b, c, d]
}
