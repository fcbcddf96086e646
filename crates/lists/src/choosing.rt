// The choices that a run takes from its list.
ghost use Rattle.std.specs.Prelude.{◌≡◌, ◌<◌};
ghost use Rattle.choices.specs.State.{Invariant, Chosen};
ghost use Rattle.lists.specs.Lent.{lent};
ghost use Rattle.lists.specs.Choosing.{due_for, Picks};

use crate::{ENTRIES, GROW, LEN, Run, USED, WAYS};
use choices::list::Walk;
use prelude::Refusal;
use tables::kinds;

// Which of the satisfying bindings is wanted: by a let-be the one that it will choose, by other binders the first.
pub fn wanted(run: &Run, k: usize) -> usize
    requires { Invariant (lent run.now) }
    ensures { result ≡ due_for k (lent run.now) }
{
    if k != kinds::LET_BE {
        return 0;
    }
    let used = usize::from(run[USED]);
    let len = usize::from(run[LEN]);
    if used < len {
        return usize::from(run[ENTRIES + used]);
    }
    0
}

// A choice among n ways takes the next entry.
pub fn choose(run: &mut Run, n: usize) -> Result<usize, Refusal>
    requires { Invariant (lent run.old) × (0 < n) × (n < 256) }
    ensures { Chosen (lent run.old) n (record { answer = result; state = lent run.new }) }
{
    let used = usize::from(run[USED]);
    if Walk::LIMIT <= used {
        return Err(Refusal::TooManyChoices);
    }
    let len = usize::from(run[LEN]);
    if used < len {
        let entry = usize::from(run[ENTRIES + used]);
        if n <= entry {
            return Err(Refusal::EntryTooHigh);
        }
        run[WAYS + used] = n as u8;
        run[USED] = (used + 1) as u8;
        return Ok(entry);
    }
    if run[GROW] == 1 {
        run[WAYS + used] = n as u8;
        run[LEN] = (used + 1) as u8;
        run[USED] = (used + 1) as u8;
        return Ok(0);
    }
    Err(Refusal::ListTooShort)
}

// A loose let chooses among its n bindings, another takes its only one.
pub fn decide(run: &mut Run, n: usize, loose: bool) -> Result<usize, Refusal>
    requires { Invariant (lent run.old) × (0 < n) × (n < 256) }
    ensures { Picks loose (lent run.old) n result (lent run.new) }
{
    if loose {
        return choose(run, n);
    }
    Ok(0)
}
