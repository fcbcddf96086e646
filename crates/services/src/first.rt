// The first choice list of a table.
ghost use Rattle.std.specs.Prelude.{◌≡◌, length};
ghost use Rattle.meaning.specs.Service.{firsts};
ghost use Rattle.meaning.specs.Lent.{first_call};
ghost use Rattle.services.specs.Left.{Accepts, walk_of, Left};

use crate::SCRATCH;
use crate::call::{admitted, refuse};
use crate::lent::{clear, store};
use choices::list::Walk;
use tables::sheet::Sheet;
use tables::{MOST_RECORDS, Rule};
use values::Value;
use walks::{first_walk, pack};

// Writes the first list of an accepted table into a lent walk.
fn first_accepted(
    sheet: &Sheet,
    count: usize,
    entries: &mut [u8],
    len: &mut usize,
    scratch: &mut [u8],
) -> u64
    requires { Accepts sheet.now count scratch.old }
    ensures { Left (firsts (length scratch.old) sheet.now (walk_of entries.old len.old)) (walk_of entries.old len.old) scratch.old (record { answer = result; scratch = scratch.new; walk = walk_of entries.new len.new }) }
{
    if entries.len() < Walk::LIMIT {
        return pack(Rule::WrongListSize.number(), 0, 0);
    }
    let walk = first_walk(sheet, count, &mut scratch[..SCRATCH]);
    store(walk, entries, len);
    pack(0, 0, 0)
}

// Gives the first choice list of a table.
pub fn dengwizo_first(
    table: &[u8],
    entries: &mut [u8],
    length: &mut usize,
    scratch: &mut [u8],
) -> u64
    ensures { first_call table.now (walk_of entries.old length.old) scratch.old ≡ record { answer = result; scratch = scratch.new; walk = walk_of entries.new length.new } }
{
    let mut index = [0u32; MOST_RECORDS];
    match admitted(table, scratch.len(), Value::LIMIT, &mut index) {
        Err(fault) => refuse(fault.rule.number(), fault.place, scratch),
        Ok(count) => {
            let sheet = Sheet::new(table, &index);
            let answer = first_accepted(&sheet, count, entries, length, scratch);
            clear(scratch, SCRATCH);
            answer
        }
    }
}
