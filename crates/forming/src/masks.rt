// The names that have a value, a bit for each: so that those found since can be cleared.
ghost use Rattle.std.specs.Prelude.{◌≡◌, ◌<◌, length};
ghost use Rattle.patterns.specs.Binding.{names};
ghost use Rattle.forming.specs.Frames.{mask_of, Cleared};

use parts::words::Env;

// The names that have a value, name 0 as the lowest bit.
pub fn mask_of(found: &[u32; Env::NAMES]) -> usize
    requires { length found.now ≡ names }
    ensures { (result ≡ mask_of found.now) × (result < 65536) }
{
    let mut mask = 0;
    for x in (0..Env::NAMES).rev() {
        mask = 2 * mask + usize::from(found[x] != 0);
    }
    mask
}

// Clears the names that are not in the mask.
pub fn clear(found: &mut [u32; Env::NAMES], mask: usize)
    requires { length found.old ≡ names }
    ensures { Cleared found.old mask found.new }
{
    let mut left = mask;
    for x in 0..Env::NAMES {
        if left % 2 == 0 {
            found[x] = 0;
        }
        left /= 2;
    }
}
