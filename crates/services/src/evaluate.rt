// Evaluating a table under a choice list.
ghost use Rattle.std.specs.Prelude.{◌≡◌, false, cond, ℕ, ◌≤◌, length};
ghost use Rattle.values.specs.Value.{value_limit as largest};
ghost use Rattle.meaning.specs.Service.{evaluates};
ghost use Rattle.meaning.specs.Lent.{zeroed, is_early, evaluate_call};
ghost use Rattle.services.specs.Left.{Accepts, Evaluated, answer_of, buffer_of};

use crate::SCRATCH;
use crate::call::{admitted, is_early, refuse};
use crate::lent::{clear, put};
use choices::list::Walk;
use tables::sheet::Sheet;
use tables::{MOST_RECORDS, Rule};
use values::Value;
use walks::{pack, pack_refused, run_list};

// The value of an accepted table under a list, or the answer where there is none: rule 10, or the refusal that the run comes to.
fn evaluated(sheet: &Sheet, count: usize, list: &[u8], scratch: &mut [u8]) -> Result<Value, u64>
    requires { Accepts sheet.now count scratch.old }
    ensures { (buffer : ℕ) → largest ≤ buffer → Evaluated (evaluates (length scratch.old) buffer sheet.now list.now) scratch.old scratch.new result }
{
    if Walk::LIMIT < list.len() {
        return Err(pack(Rule::WrongListSize.number(), 0, 0));
    }
    match run_list(list, sheet, count, &mut scratch[..SCRATCH]) {
        Ok(()) => Ok(Value::read(scratch, 0)),
        Err(e) => Err(pack_refused(e)),
    }
}

// Hands the value out, or zeros where there is none, and gives the answer.
fn handed(outcome: Result<Value, u64>, res: &mut [u8]) -> u64
    requires { largest ≤ length res.old }
    ensures { (result ≡ answer_of outcome) × (res.new ≡ buffer_of outcome res.old) }
{
    match outcome {
        Ok(value) => {
            put(&value.bytes, res);
            pack(0, 0, 0)
        }
        Err(answer) => {
            clear(res, Value::LIMIT);
            answer
        }
    }
}

// The result buffer after a refusal by rules 1 to 9: zeros, unless it is 1 or 2.
fn hand_none(number: usize, res: &mut [u8])
    requires { is_early number ≡ false → largest ≤ length res.old }
    ensures { res.new ≡ cond (is_early number) res.old (zeroed largest res.old) }
{
    if !is_early(number) {
        clear(res, Value::LIMIT);
    }
}

// Evaluates a table under a choice list.
pub fn dengwizo_evaluate(table: &[u8], list: &[u8], scratch: &mut [u8], res: &mut [u8]) -> u64
    ensures { evaluate_call table.now list.now scratch.old res.old ≡ record { answer = result; scratch = scratch.new; buffer = res.new } }
{
    let mut index = [0u32; MOST_RECORDS];
    match admitted(table, scratch.len(), res.len(), &mut index) {
        Err(fault) => {
            let number = fault.rule.number();
            hand_none(number, res);
            refuse(number, fault.place, scratch)
        }
        Ok(count) => {
            let sheet = Sheet::new(table, &index);
            let outcome = evaluated(&sheet, count, list, scratch);
            let answer = handed(outcome, res);
            clear(scratch, SCRATCH);
            answer
        }
    }
}
