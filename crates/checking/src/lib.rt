// The check of a table: document 01's rules 3 to 9. One pass tells whether rules 6 to 8 are kept, and passes rule by rule find the one that is broken;
// a recursion on the record number decides rule 9.
#![tactic(auto)]

ghost use Rattle.std.specs.Prelude.{◌≡◌, ◌<◌, length, Err};
ghost use Rattle.tables.specs.Check.{most_records, judged};
ghost use Rattle.tables.specs.Accepted.{records};
ghost use Rattle.checking.specs.Naming.{WholeTable};
ghost use Rattle.checking.specs.Sweeps.{Keeps};
ghost use Rattle.checking.specs.Answer.{Checks};

use height::lowest9;
use naming::lowest6;
use scope::scope_fault;
use sweep::sweep;
use tables::reading::cut;
use tables::sheet::Sheet;
use tables::{Fault, Index, MOST_BYTES, MOST_RECORDS, Rule};

pub mod height;
pub mod naming;
pub mod scope;
pub mod sweep;

// The first of rules 6 to 8 that is broken, and the lowest record at fault, where one of them is.
fn refuse(sheet: &Sheet, count: usize) -> Fault
    requires { WholeTable sheet.now count × (0 < count) × (Keeps (records sheet.now) → ⊥) }
    ensures { Err result ≡ judged (records sheet.now) }
{
    if let Some(place) = lowest6(sheet, count) {
        return Fault {
            rule: Rule::WrongNaming,
            place,
        };
    }
    scope_fault(sheet, count).unwrap()
}

// Rules 6 to 9 on the records that an index finds.
fn judge(sheet: &Sheet, count: usize) -> Result<usize, Fault>
    requires { WholeTable sheet.now count × (0 < count) }
    ensures { result ≡ judged (records sheet.now) }
{
    if !sweep(sheet, count) {
        return Err(refuse(sheet, count));
    }
    if let Some(place) = lowest9(sheet, count) {
        return Err(Fault {
            rule: Rule::TooHigh,
            place,
        });
    }
    Ok(count)
}

// The check of a table, whatever its bytes: the number of records, or the first rule broken and the lowest record at fault. It fills the index,
// which finds all records of a table that is accepted; of one that is refused, those that were cut.
pub fn check(table: &[u8], index: &mut Index) -> Result<usize, Fault>
    requires { length index.old ≡ most_records }
    ensures { Checks table.now index.old index.new result }
{
    if table.is_empty() || MOST_BYTES < table.len() {
        return Err(Fault {
            rule: Rule::WrongSize,
            place: 0,
        });
    }
    let count = cut(table, index)?;
    if MOST_RECORDS < count {
        return Err(Fault {
            rule: Rule::TooManyRecords,
            place: MOST_RECORDS,
        });
    }
    judge(&Sheet::new(table, index), count)
}
