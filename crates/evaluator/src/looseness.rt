// Whether a let chooses among its bindings: by recursion on the record number of its pattern, which falls at each operand.
ghost use Rattle.std.specs.Prelude.{◌≡◌};
ghost use Rattle.tables.specs.Sheet.{loose};
ghost use Rattle.tables.specs.Accepted.{records, Fine};
ghost use Rattle.tables.specs.Reading.{Here};

use tables::shape::is_loose;
use tables::sheet::Sheet;

// Whether the pattern p, or one below it, is of a loose kind.
pub fn is_loose_pattern(sheet: &Sheet, p: usize) -> bool
    requires { Fine (records sheet.now) × Here sheet.now p }
    ensures { result ≡ loose (records sheet.now) p }
{
    let k = sheet.kind(p);
    if is_loose(k) {
        return true;
    }
    let n = sheet.operand_count(p);
    for i in 0..n {
        let a = sheet.operand(p, i);
        if is_loose_pattern(sheet, a) {
            return true;
        }
    }
    false
}
