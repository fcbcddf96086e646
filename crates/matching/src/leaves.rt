// A match in the making is a word for each name that has a value, and 0 for the others. Patterns without parts: a name, any, or a literal.
ghost use Rattle.std.specs.Prelude.{◌<◌};
ghost use Rattle.patterns.specs.Binding.{names};
ghost use Rattle.parts.specs.Part.{PartHeld};
ghost use Rattle.parts.specs.Word.{unpacked};
ghost use Rattle.matching.specs.Node.{LeafHeld};
ghost use Rattle.matching.specs.Leaf.{Standing, Grown, Named, LeafTold};

use crate::nodes;
use parts::words;
use parts::words::Env;
use std::cmp::Ordering;
use tables::kinds;
use tables::sheet::Sheet;

// Binds a name to a part, where it has no other value.
fn bind_name(s: &[u8], x: usize, word: u32, found: &mut [u32; Env::NAMES]) -> bool
    requires { (x < names) × PartHeld s.now (unpacked word) × Standing s.now found.old }
    ensures { Named s.now x word found.old found.new result × Grown found.old found.new }
{
    let old = found[x];
    if old == 0 {
        found[x] = word;
        return true;
    }
    words::order_words(s, old, word) == Ordering::Equal
}

// A pattern without parts, and what is found: whether it agrees, no name having two values.
pub fn match_leaf(
    sheet: &Sheet,
    p: usize,
    s: &[u8],
    word: u32,
    found: &mut [u32; Env::NAMES],
) -> bool
    requires leaf_held { LeafHeld sheet.now p }
    requires part_held { PartHeld s.now (unpacked word) × Standing s.now found.old }
    ensures { LeafTold sheet.now p s.now word found.old found.new result × Grown found.old found.new }
{
    let kind = sheet.kind(p);
    if kind == kinds::NAME_PATTERN {
        let x = sheet.field(p, 0);
        return bind_name(s, x, word, found);
    }
    if kind == kinds::ANY_PATTERN {
        return true;
    }
    let part = words::unpack(word);
    nodes::is_literal(sheet, p, s, part)
}
