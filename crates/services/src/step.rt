// The step from a choice list of a table to the next.
ghost use Rattle.std.specs.Prelude.{◌≡◌, length};
ghost use Rattle.meaning.specs.Service.{steps};
ghost use Rattle.meaning.specs.Lent.{step_call};
ghost use Rattle.services.specs.Left.{Accepts, walk_of, Left};

use crate::SCRATCH;
use crate::call::{admitted, refuse};
use crate::lent::{clear, load, store};
use choices::list::Walk;
use tables::sheet::Sheet;
use tables::{MOST_RECORDS, Rule};
use values::Value;
use walks::pack;

// Steps a lent walk to the next list of an accepted table.
fn step_accepted(
    sheet: &Sheet,
    count: usize,
    entries: &mut [u8],
    len: &mut usize,
    scratch: &mut [u8],
) -> u64
    requires { Accepts sheet.now count scratch.old }
    ensures { Left (steps (length scratch.old) sheet.now (walk_of entries.old len.old)) (walk_of entries.old len.old) scratch.old (record { answer = result; scratch = scratch.new; walk = walk_of entries.new len.new }) }
{
    let long = Walk::LIMIT < *len;
    if entries.len() < Walk::LIMIT || long {
        return pack(Rule::WrongListSize.number(), 0, 0);
    }
    let mut walk = load(entries, *len);
    let answer = walks::step(&mut walk, sheet, count, &mut scratch[..SCRATCH]);
    store(walk, entries, len);
    answer
}

// Steps to the next choice list of a table.
pub fn dengwizo_step(
    table: &[u8],
    entries: &mut [u8],
    length: &mut usize,
    scratch: &mut [u8],
) -> u64
    ensures { step_call table.now (walk_of entries.old length.old) scratch.old ≡ record { answer = result; scratch = scratch.new; walk = walk_of entries.new length.new } }
{
    let mut index = [0u32; MOST_RECORDS];
    match admitted(table, scratch.len(), Value::LIMIT, &mut index) {
        Err(fault) => refuse(fault.rule.number(), fault.place, scratch),
        Ok(count) => {
            let sheet = Sheet::new(table, &index);
            let answer = step_accepted(&sheet, count, entries, length, scratch);
            clear(scratch, SCRATCH);
            answer
        }
    }
}
