// The bindings of a binder as rows, formed in one pass over the one value or over all members.
ghost use Rattle.std.specs.Prelude.{◌≡◌, ◌+◌, ◌≤◌, ◌<◌, length, cond};
ghost use Rattle.values.specs.Place.{HoldsItems};
ghost use Rattle.patterns.specs.Read.{Readable};
ghost use Rattle.patterns.specs.Binder.{most_bindings};
ghost use Rattle.forming.specs.Rows.{rows_words};
ghost use Rattle.bindings.specs.Forming.{Bindable, TellsWide, TellsWideIn, OneHeld, OneFormed, AllHeld, AllFormed, RowsFormed};

use forming::{Agenda, RowOrder, Rows};
use parts::words::Env;
use prelude::Refusal;
use tables::sheet::Sheet;
use values::Value;

// Where the values of a binder begin: at a place, or with the first member of the set there.
pub fn first_at(at: usize, whole: bool) -> usize
    requires { at ≤ 65536 }
    ensures { result ≡ cond whole at (at + 4) }
{
    if whole { at } else { at + Value::HEAD }
}

// Some member from a place up to another has a set or map too large to split.
fn any_large(sheet: &Sheet, p: usize, s: &[u8], from: usize, to: usize) -> bool
    requires readable { Readable sheet.now p }
    requires holds_items { HoldsItems s.now from to × (length s.now ≤ 65536) }
    ensures { TellsWideIn sheet.now p s.now from to result }
{
    let mut at = from;
    while at < to {
        let n = values::length_of(s, at);
        let member = parts::whole_at(at);
        if splitting::too_large(sheet, p, s, member) {
            return true;
        }
        at += n;
    }
    false
}

// A union or munion pattern is met by a set or map of over seven members or entries somewhere: number 29.
pub fn is_wide(sheet: &Sheet, p: usize, s: &[u8], at: usize, whole: bool) -> bool
    requires readable { Readable sheet.now p }
    requires bindable { Bindable s.now at whole × (length s.now ≤ 65536) }
    ensures { TellsWide sheet.now p s.now at whole result }
{
    if whole {
        let value = parts::whole_at(at);
        return splitting::too_large(sheet, p, s, value);
    }
    let n = values::length_of(s, at);
    any_large(sheet, p, s, at + Value::HEAD, at + n)
}

// The matches of the value at a place, inserted among n rows.
fn form_one(
    sheet: &Sheet,
    p: usize,
    s: &[u8],
    at: usize,
    agenda: &mut Agenda,
    rows: &mut Rows,
    order: &mut RowOrder,
    n: usize,
) -> Result<usize, Refusal>
    requires { OneHeld sheet.now p s.now at agenda.old rows.old order.old n }
    ensures { OneFormed sheet.now p s.now at agenda.old agenda.new rows.old order.old n rows.new order.new result }
{
    agenda[3] = p as u32;
    agenda[4] = (1 + 4 * at) as u32;
    agenda[5] = 0;
    let mut found = [0u32; Env::NAMES];
    forming::solve_over(sheet, s, agenda, 1, 2, &mut found, rows, order, n)
}

// The matches of all members from a place up to another.
fn form_all(
    sheet: &Sheet,
    p: usize,
    s: &[u8],
    from: usize,
    to: usize,
    agenda: &mut Agenda,
    rows: &mut Rows,
    order: &mut RowOrder,
) -> Result<usize, Refusal>
    requires { AllHeld sheet.now p s.now from to agenda.old rows.old order.old }
    ensures { AllFormed sheet.now p s.now from to rows.new order.new result }
{
    let mut at = from;
    let mut n = 0;
    while at < to {
        let k = values::length_of(s, at);
        n = form_one(sheet, p, s, at, agenda, rows, order, n)?;
        at += k;
    }
    Ok(n)
}

// All bindings of a pattern over the members of the set at a place, or over the one value there, as rows in order; or too large to split, or too many.
pub fn form_rows(
    sheet: &Sheet,
    p: usize,
    s: &[u8],
    at: usize,
    whole: bool,
    rows: &mut Rows,
    order: &mut RowOrder,
) -> Result<usize, Refusal>
    requires readable { Readable sheet.now p }
    requires bindable { Bindable s.now at whole × (length s.now ≤ 65536) × (length rows.old ≡ rows_words) × (length order.old ≡ most_bindings) }
    ensures { RowsFormed sheet.now p s.now at whole rows.new order.new result }
{
    if is_wide(sheet, p, s, at, whole) {
        return Err(Refusal::TooLargeToSplit);
    }
    let mut agenda = [0u32; forming::AGENDA_WORDS];
    if whole {
        return form_one(sheet, p, s, at, &mut agenda, rows, order, 0);
    }
    let n = values::length_of(s, at);
    form_all(
        sheet,
        p,
        s,
        at + Value::HEAD,
        at + n,
        &mut agenda,
        rows,
        order,
    )
}
