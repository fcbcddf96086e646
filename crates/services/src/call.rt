// What every service does first: rules 1 to 9, and the answer where one of them is broken.
ghost use Rattle.std.specs.Prelude.{◌≡◌, false, cond, ◌≤◌, ◌<◌, length};
ghost use Rattle.tables.specs.Check.{most_records};
ghost use Rattle.meaning.specs.Answer.{weight, pack as packed};
ghost use Rattle.meaning.specs.Service.{scratch_bytes};
ghost use Rattle.meaning.specs.Lent.{zeroed, is_early};
ghost use Rattle.services.specs.Left.{Admits};

use crate::SCRATCH;
use crate::lent::clear;
use checking::check;
use tables::{Fault, Index, Rule};
use values::Value;
use walks::pack;

// Rules 1 to 9: enough scratch, a buffer that holds any value, and the check of the table, which fills the index. Where no value is due, the buffer
// counts as long enough, `Value::LIMIT`.
pub fn admitted(
    table: &[u8],
    scratch: usize,
    buffer: usize,
    index: &mut Index,
) -> Result<usize, Fault>
    requires { length index.old ≡ most_records }
    ensures { Admits scratch buffer table.now index.new result }
{
    if scratch < SCRATCH {
        return Err(Fault {
            rule: Rule::ScratchTooShort,
            place: 0,
        });
    }
    if buffer < Value::LIMIT {
        return Err(Fault {
            rule: Rule::ResultTooShort,
            place: 0,
        });
    }
    check(table, index)
}

// 1 and 2, which change nothing.
pub fn is_early(number: usize) -> bool
    ensures { result ≡ is_early number }
{
    number == Rule::ScratchTooShort.number() || number == Rule::ResultTooShort.number()
}

// The answer to a refusal by rules 1 to 9. The scratch is cleared, unless it is 1 or 2.
pub fn refuse(number: usize, place: usize, scratch: &mut [u8]) -> u64
    requires { (number < weight) × (place < weight) × (is_early number ≡ false → scratch_bytes ≤ length scratch.old) }
    ensures { (result ≡ packed number place 0) × (scratch.new ≡ cond (is_early number) scratch.old (zeroed scratch_bytes scratch.old)) }
{
    if !is_early(number) {
        clear(scratch, SCRATCH);
    }
    pack(number, place, 0)
}
