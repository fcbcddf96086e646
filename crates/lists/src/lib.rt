// The choices of a run as lent bytes: made from a list, taken one by one, moved on to the next list, and read as a walk.
#![tactic(auto)]

pub mod choosing;

ghost use Rattle.std.specs.Prelude.{◌≡◌, ℕ, ◌+◌, ◌≤◌, ◌<◌, length, set};
ghost use Rattle.choices.specs.Tree.{most_choices};
ghost use Rattle.choices.specs.State.{Made, Invariant, Moved};
ghost use Rattle.choices.specs.Listing.{Runnable, list_held};
ghost use Rattle.lists.specs.Lent.{run_bytes, lent};
ghost use Rattle.lists.specs.Runs.{UsedWhole, SameList, restarted};

use choices::list::Walk;

// Where the length of the list stands, the number of entries that are used, and 1 where a list that is used up grows.
pub const LEN: usize = 0;

pub const USED: usize = 1;

const GROW: usize = 2;

// Where the entries stand, and behind them the number of ways at each.
const ENTRIES: usize = 3;

const WAYS: usize = ENTRIES + Walk::LIMIT;

// The bytes of a run's choices.
pub const RUN: usize = WAYS + Walk::LIMIT;

pub type Run = [u8; RUN];

// The start of a run under a list.
pub fn start(list: &[u8], grow: bool) -> Run
    requires { length list.now ≤ most_choices }
    ensures { Made list.now grow (lent result) }
{
    let mut run = [0u8; RUN];
    run[ENTRIES..ENTRIES + list.len()].copy_from_slice(list);
    run[LEN] = list.len() as u8;
    run[GROW] = u8::from(grow);
    run
}

// The start of a run under the list of a walk.
pub fn start_walk(walk: Walk, grow: bool) -> Run
    requires { Runnable walk }
    ensures { Made (list_held walk) grow (lent result) }
{
    start(&walk.entries[..walk.len], grow)
}

// The start of a run that grows, under the first `len` entries that are there.
fn restart(run: &mut Run, len: usize)
    requires { (len < 256) × (run_bytes ≤ length run.old) }
    ensures { run.new ≡ restarted run.old len }
{
    run[LEN] = len as u8;
    run[USED] = 0;
    run[GROW] = 1;
}

// After a run that used the whole list: the last entry that can go up goes up, and what follows it is cut. False where none can.
pub fn advance(run: &mut Run) -> bool
    requires { UsedWhole run.old }
    ensures { Moved (lent run.old) (record { more = result; state = lent run.new }) }
{
    for i in (0..usize::from(run[USED])).rev() {
        let next = usize::from(run[ENTRIES + i]) + 1;
        if next < usize::from(run[WAYS + i]) {
            run[ENTRIES + i] = next as u8;
            restart(run, i + 1);
            return true;
        }
        run[ENTRIES + i] = 0;
    }
    restart(run, 0);
    false
}

// The list of a run, as a walk.
pub fn list_of(run: &Run) -> Walk
    requires { Invariant (lent run.now) }
    ensures { SameList run.now result }
{
    let mut entries = [0u8; Walk::LIMIT];
    entries.copy_from_slice(&run[ENTRIES..WAYS]);
    Walk {
        entries,
        len: usize::from(run[LEN]),
    }
}
