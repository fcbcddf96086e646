// Numbers of 16 bits and integers as bytes, the lowest byte first.
ghost use Rattle.std.specs.Prelude.{◌≡◌, ◌+◌, ◌<◌, ◌≤◌, length};
ghost use Rattle.std.proofs.lemmas.List.Edits.{sets};
ghost use Rattle.integers.specs.Bytes.{pair, integer_bytes, integer_at, IsWord};

// The 16 bits at a place.
pub fn read16(s: &[u8], at: usize) -> usize
    requires { at + 2 ≤ length s.now }
    ensures { IsWord s.now at result }
{
    s[at] as usize + 256 * (s[at + 1] as usize)
}

// Stores 16 bits at a place.
pub fn put16(s: &mut [u8], at: usize, n: usize)
    requires { (at + 2 ≤ length s.old) × (n < 65536) }
    ensures { s.new ≡ sets s.old at (pair n) }
{
    s[at] = (n % 256) as u8;
    s[at + 1] = (n / 256) as u8;
}

// The integer at a place.
pub fn read32(s: &[u8], at: usize) -> i32
    requires { at + 4 ≤ length s.now }
    ensures { result ≡ integer_at s.now at }
{
    let low = read16(s, at);
    let high = read16(s, at + 2);
    let bits = low + 65536 * high;
    (bits as u32).cast_signed()
}

// Stores an integer at a place.
pub fn put32(s: &mut [u8], at: usize, z: i32)
    requires { at + 4 ≤ length s.old }
    ensures { s.new ≡ sets s.old at (integer_bytes z) }
{
    let bits = z.cast_unsigned() as usize;
    put16(s, at, bits % 65536);
    put16(s, at + 2, bits / 65536);
}
