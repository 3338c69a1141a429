// Eight bytes, lowest first, and the number that they hold.
ghost use Rattle.std.specs.Prelude.{◌≡◌};
ghost use Rattle.measures.specs.Bytes.{bytes_of, word_of};

pub(crate) fn word_bytes(word: u64) -> [u8; 8]
    ensures { result ≡ bytes_of 8 word }
{
    word.to_le_bytes()
}

pub(crate) fn word_from(bytes: &[u8; 8]) -> u64
    ensures { result ≡ word_of bytes.now }
{
    u64::from_le_bytes(*bytes)
}
