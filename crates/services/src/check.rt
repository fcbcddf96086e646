// The check of a table.
ghost use Rattle.std.specs.Prelude.{◌≡◌};
ghost use Rattle.meaning.specs.Lent.{check_call};

use crate::SCRATCH;
use crate::call::{admitted, refuse};
use crate::lent::clear;
use tables::MOST_RECORDS;
use values::Value;
use walks::pack;

// Checks a table.
pub fn dengwizo_check(table: &[u8], scratch: &mut [u8]) -> u64
    ensures { check_call table.now scratch.old ≡ record { answer = result; scratch = scratch.new } }
{
    let mut index = [0u32; MOST_RECORDS];
    match admitted(table, scratch.len(), Value::LIMIT, &mut index) {
        Err(fault) => refuse(fault.rule.number(), fault.place, scratch),
        Ok(count) => {
            clear(scratch, SCRATCH);
            pack(0, 0, count)
        }
    }
}
