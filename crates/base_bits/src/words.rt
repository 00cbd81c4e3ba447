// Words: eight bytes of a list as one number, the first byte heaviest, and 64 bits that begin in one word and end in what follows it.
ghost use Rattle.std.specs.Prelude.{◌≡◌, [], ◌∷◌, ◌+◌, ◌-◌, ◌*◌, ◌/◌, ◌%◌, ◌^◌, ◌<◌, ◌≤◌, length};
ghost use Rattle.base_bits.specs.Bits.{field};

use crate::first_bits;

// The number of eight bytes. Summed two by two, where from_be_bytes of the library adds one after the other: so the compiler sees that no
// two of them share a bit, and loads all eight at once.
fn of_eight_bytes(
    first: u8,
    second: u8,
    third: u8,
    fourth: u8,
    fifth: u8,
    sixth: u8,
    seventh: u8,
    eighth: u8,
) -> u64
    ensures { result ≡ field (first ∷ second ∷ third ∷ fourth ∷ fifth ∷ sixth ∷ seventh ∷ eighth ∷ []) 0 64 }
{
    ((((first as u64) << 56) + ((second as u64) << 48))
        + (((third as u64) << 40) + ((fourth as u64) << 32)))
        + ((((fifth as u64) << 24) + ((sixth as u64) << 16))
            + (((seventh as u64) << 8) + (eighth as u64)))
}

// The word from byte `place` on. Not a public call: eight bytes from there on are required.
pub fn word_at(bytes: &[u8], place: usize) -> u64
    requires { place + 8 ≤ length bytes.now }
    ensures { result ≡ field bytes.now (8 * place) 64 }
{
    of_eight_bytes(
        bytes[place],
        bytes[place + 1],
        bytes[place + 2],
        bytes[place + 3],
        bytes[place + 4],
        bytes[place + 5],
        bytes[place + 6],
        bytes[place + 7],
    )
}

// A word without its first `shift` bits, and behind it as many of the next word. Not a public call: that some bits of each are taken is
// required. One instruction, as long as the caller shifts nothing else by 64 less `shift`.
pub fn across_words(word: u64, next: u64, shift: usize) -> u64
    requires { (0 < shift) × (shift < 64) }
    ensures { result ≡ word * 2 ^ shift % 18446744073709551616 + next / 2 ^ (64 - shift) }
{
    (word << shift) + (next >> (64 - shift))
}

// The same where what follows may be one byte alone. Not a public call: that fewer than all its bits are taken is required.
pub fn across_to_byte(word: u64, byte: u8, shift: usize) -> u64
    requires { shift < 8 }
    ensures { result ≡ word * 2 ^ shift % 18446744073709551616 + byte / 2 ^ (8 - shift) % 2 ^ shift }
{
    (word << shift) + first_bits(byte, shift)
}
