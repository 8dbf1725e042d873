// The bytes of a line and the numbers in them, taken from its characters where they stand.
ghost use Rattle.std.specs.Prelude.{◌≡◌, true, ◌+◌, ◌*◌, ◌<◌, length, get_or};
ghost use Rattle.meaning.specs.Hexadecimal.{all_hex, bytes_of};
ghost use Rattle.meaning.specs.Frames.{digit_of, number_at};

// The byte at an index.
pub fn byte_at(line: &[u8], k: usize) -> u8
    requires { (all_hex line.now ≡ true) × (2 * k + 1 < length line.now) }
    ensures { result ≡ get_or (bytes_of line.now) k 0 }
{
    hexadecimal::byte(line[2 * k], line[2 * k + 1])
}

// The number in the two bytes at an index, the high one first.
pub fn number_at(line: &[u8], k: usize) -> u16
    requires { (all_hex line.now ≡ true) × (2 * k + 3 < length line.now) }
    ensures { result ≡ number_at (bytes_of line.now) k }
{
    u16::from_be_bytes([byte_at(line, k), byte_at(line, k + 1)])
}

// The digit of the byte at an index.
pub fn digit_at(line: &[u8], k: usize) -> i8
    requires { (all_hex line.now ≡ true) × (2 * k + 1 < length line.now) }
    ensures { result ≡ digit_of (get_or (bytes_of line.now) k 0) }
{
    hexadecimal::digit_of(byte_at(line, k))
}
