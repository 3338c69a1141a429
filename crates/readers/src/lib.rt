// Readers of bytes that answer what is read and the bytes after it: their meaning, the law that a reader
// reads just what is written, and the two smallest, for numbers of two and of four bytes.
#![tactic(auto)]

ghost use Rattle.std.specs.Prelude.{◌≡◌};
ghost use Rattle.readers.specs.Readers.{number};
ghost use Rattle.readers.specs.Seen.{seen};

// Two functions and no generic one: all that they do is `from_le_bytes`, which each number has as its own, and
// a trait for it would need an implementation beside each.

// A number of two bytes, lowest first, and the bytes after it.
pub fn take_u16(bytes: &[u8]) -> Option<(u16, &[u8])>
    ensures { seen result ≡ number 2 bytes.now }
{
    let [a, b, rest @ ..] = bytes else {
        return None;
    };
    Some((u16::from_le_bytes([*a, *b]), rest))
}

// A number of four bytes, lowest first, and the bytes after it.
pub fn take_u32(bytes: &[u8]) -> Option<(u32, &[u8])>
    ensures { seen result ≡ number 4 bytes.now }
{
    let [a, b, c, d, rest @ ..] = bytes else {
        return None;
    };
    Some((u32::from_le_bytes([*a, *b, *c, *d]), rest))
}
