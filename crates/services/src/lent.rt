// What the services do with the bytes that they are lent: clearing the scratch, handing bytes out, and walks in lent entries and a length.
ghost use Rattle.std.specs.Prelude.{◌≡◌, ◌++◌, ◌≤◌, length, drop};
ghost use Rattle.choices.specs.Tree.{most_choices};
ghost use Rattle.meaning.specs.Lent.{zeroed};
ghost use Rattle.services.specs.Left.{Loaded, walk_of, stored};

use choices::list::Walk;

// Writes zeros over the first n bytes.
pub fn clear(bytes: &mut [u8], n: usize)
    requires { n ≤ length bytes.old }
    ensures { bytes.new ≡ zeroed n bytes.old }
{
    bytes[..n].fill(0);
}

// Overwrites the first bytes of a buffer.
pub fn put(bytes: &[u8], buffer: &mut [u8])
    requires { length bytes.now ≤ length buffer.old }
    ensures { buffer.new ≡ bytes.now ++ drop (length bytes.now) buffer.old }
{
    buffer[..bytes.len()].copy_from_slice(bytes);
}

// Reads a walk from lent entries, of which there are at least 64, and a length.
pub fn load(entries: &[u8], len: usize) -> Walk
    requires { most_choices ≤ length entries.now }
    ensures { Loaded entries.now len result }
{
    let mut own = [0u8; Walk::LIMIT];
    own.copy_from_slice(&entries[..Walk::LIMIT]);
    Walk { entries: own, len }
}

// Writes a walk into lent entries, of which there are at least 64, and a length.
pub fn store(walk: Walk, entries: &mut [u8], len: &mut usize)
    requires { (length walk.entries ≡ most_choices) × (most_choices ≤ length entries.old) }
    ensures { walk_of entries.new len.new ≡ stored walk entries.old }
{
    put(&walk.entries, entries);
    *len = walk.len;
}
