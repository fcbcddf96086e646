// What the crates below answer, with the record that is refused.
ghost use Rattle.std.specs.Prelude.{◌≡◌, ◌<◌};
ghost use Rattle.evaluator.specs.Contract.{at_record};
ghost use Rattle.evaluator.specs.Binding.{chosen};

use crate::Refused;
use prelude::Refusal;

// An answer, its refusal that of the record r.
pub fn at_record<T>(answer: Result<T, Refusal>, r: usize) -> Result<T, Refused>
    requires { r < 256 }
    ensures { result ≡ at_record answer r }
{
    match answer {
        Ok(x) => Ok(x),
        Err(refusal) => Err(Refused::at(refusal, r)),
    }
}

// The way that a choice takes among n bindings of the record r. The refusals of a list that does not fit tell their number.
pub fn chosen(answer: Result<usize, Refusal>, r: usize, n: usize) -> Result<usize, Refused>
    requires { (r < 256) × (n < 256) }
    ensures { result ≡ chosen answer r n }
{
    match answer {
        Ok(i) => Ok(i),
        Err(refusal @ (Refusal::ListTooShort | Refusal::EntryTooHigh)) => Err(Refused {
            refusal,
            place: r as u8,
            count: n as u8,
        }),
        Err(refusal) => Err(Refused::at(refusal, r)),
    }
}
