// The services as C calls them: each is the service of that name, with its promise.
#![tactic(auto)]

ghost use Rattle.std.specs.Prelude.{◌≡◌};
ghost use Rattle.meaning.specs.Lent.{check_call, evaluate_call, first_call, step_call};
ghost use Rattle.services.specs.Left.{walk_of};

// Checks a table.
#[unsafe(no_mangle)]
pub extern "C" fn dengwizo_check(table: &[u8], scratch: &mut [u8]) -> u64
    ensures { check_call table.now scratch.old ≡ record { answer = result; scratch = scratch.new } }
{
    services::check::dengwizo_check(table, scratch)
}

// Evaluates a table under a choice list.
#[unsafe(no_mangle)]
pub extern "C" fn dengwizo_evaluate(
    table: &[u8],
    list: &[u8],
    scratch: &mut [u8],
    res: &mut [u8],
) -> u64
    ensures { evaluate_call table.now list.now scratch.old res.old ≡ record { answer = result; scratch = scratch.new; buffer = res.new } }
{
    services::evaluate::dengwizo_evaluate(table, list, scratch, res)
}

// Gives the first choice list of a table.
#[unsafe(no_mangle)]
pub extern "C" fn dengwizo_first(
    table: &[u8],
    entries: &mut [u8],
    length: &mut usize,
    scratch: &mut [u8],
) -> u64
    ensures { first_call table.now (walk_of entries.old length.old) scratch.old ≡ record { answer = result; scratch = scratch.new; walk = walk_of entries.new length.new } }
{
    services::first::dengwizo_first(table, entries, length, scratch)
}

// Steps to the next choice list of a table.
#[unsafe(no_mangle)]
pub extern "C" fn dengwizo_step(
    table: &[u8],
    entries: &mut [u8],
    length: &mut usize,
    scratch: &mut [u8],
) -> u64
    ensures { step_call table.now (walk_of entries.old length.old) scratch.old ≡ record { answer = result; scratch = scratch.new; walk = walk_of entries.new length.new } }
{
    services::step::dengwizo_step(table, entries, length, scratch)
}
