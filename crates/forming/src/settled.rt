// Patterns that are only a test: every name in them has a value already, so they give no name one, and one way of matching is enough.
ghost use Rattle.std.specs.Prelude.{◌<◌};
ghost use Rattle.patterns.specs.Read.{Readable};
ghost use Rattle.forming.specs.Inner.{Composed};
ghost use Rattle.forming.specs.Settled.{TellsSettled, HasWord};

use crate::sizes;
use parts::words::Env;
use tables::kinds;
use tables::shape::is_composed;
use tables::sheet::Sheet;

// Every name of a pattern has a value.
pub fn is_settled(sheet: &Sheet, p: usize, found: &[u32; Env::NAMES]) -> bool
    requires { Readable sheet.now p }
    ensures { TellsSettled sheet.now p found.now result }
{
    let k = sheet.kind(p);
    if k == kinds::NAME_PATTERN {
        let x = sheet.field(p, 0);
        return has_word(found, x);
    }
    if !is_composed(k) {
        return true;
    }
    for i in 0..sheet.operand_count(p) {
        let q = sheet.operand(p, i);
        if !is_settled(sheet, q, found) {
            return false;
        }
    }
    true
}

// A name has a value.
fn has_word(found: &[u32; Env::NAMES], x: usize) -> bool
    ensures { HasWord found.now x result }
{
    x < Env::NAMES && found[x] != 0
}

// Which parts of a pattern of kind k are only a test, a bit for each, the first as the lowest. None where all are, and none of two halves.
pub fn tests_of(sheet: &Sheet, p: usize, k: usize, once: bool, found: &[u32; Env::NAMES]) -> usize
    requires { Composed sheet.now p }
    ensures { result < 256 }
{
    if once || sizes::splits(k) {
        return 0;
    }
    let mut tests = 0;
    for i in (0..sheet.operand_count(p)).rev() {
        let q = sheet.operand(p, i);
        tests = 2 * tests + usize::from(is_settled(sheet, q, found));
    }
    tests
}
