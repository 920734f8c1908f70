// Page numbers as values: five bytes, the low one first.

ghost use Rattle.std.specs.Prelude.{◌≡◌, ◌^◌, ◌<◌};
ghost use Rattle.nodes.specs.Numbers.{number_bytes, number_of};

// The page number that a value says, whatever its length: bytes that are not there stand for 0.
pub fn number(bytes: &[u8]) -> u64
    ensures is { result ≡ number_of bytes.now }
    ensures small { result < 2 ^ 40 }
{
    let digit = |i: usize| bytes.get(i).copied().unwrap_or(0);
    u64::from_le_bytes([digit(0), digit(1), digit(2), digit(3), digit(4), 0, 0, 0])
}

// The value that says a page number. Numbers from 2 to the 40th on lose their high bits.
pub fn number_bytes(n: u64) -> [u8; 5]
    ensures { result ≡ number_bytes n }
{
    let [a, b, c, d, e, ..] = n.to_le_bytes();
    [a, b, c, d, e]
}
