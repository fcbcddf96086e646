// The operators on sequences, on values in scratch.
#![tactic(auto)]

ghost use Rattle.std.specs.Prelude.{◌≤◌, pos, cond};
ghost use Rattle.values.specs.Value.{sequence, integer, collection, count};
ghost use Rattle.values.specs.Items.{join};
ghost use Rattle.operators.specs.Answer.{is, refused, wrong_kind, sized};
ghost use Rattle.operators.specs.Gather.{every_item, is_kind, flatten, backwards};
ghost use Rattle.operators.specs.Sets.{consecutive};
ghost use Rattle.operators.specs.Sequences.{first_item, tail_of};
ghost use Rattle.operators.specs.Operators.{unary, binary};
ghost use Rattle.calling.specs.Applied.{One, Two, OnOne, OnTwo};
ghost use Rattle.calling.specs.Operands.{Has, HasTwo, OnItems, OnBoth};

use prelude::Refusal;
use values::Value;

// ---- one sequence

// 7 len
fn len(s: &mut [u8], base: usize) -> Result<(), Refusal>
    requires { Has sequence s.old base }
    ensures { OnItems sequence (λ vs. is (integer (pos (count vs)))) s.old s.new base result }
{
    let n = collections::finding::count_of(s, base);
    values::put_integer(s, base, n as i32);
    Ok(())
}

// 8 hd
fn head(s: &mut [u8], base: usize) -> Result<(), Refusal>
    requires { Has sequence s.old base }
    ensures { OnItems sequence first_item s.old s.new base result }
{
    let n = values::length_of(s, base);
    if n == Value::HEAD {
        return Err(Refusal::NotThere);
    }
    values::copy_value(s, base + Value::HEAD, base);
    Ok(())
}

// 9 tl: what follows the first item moves down over it.
fn tail(s: &mut [u8], base: usize) -> Result<(), Refusal>
    requires { Has sequence s.old base }
    ensures { OnItems sequence tail_of s.old s.new base result }
{
    let n = values::length_of(s, base);
    if n == Value::HEAD {
        return Err(Refusal::NotThere);
    }
    let first = values::length_of(s, base + Value::HEAD);
    values::copy_bytes(
        s,
        base + Value::HEAD + first,
        base + Value::HEAD,
        n - Value::HEAD - first,
    );
    values::put_head(s, base, n - first, Value::SEQUENCE);
    Ok(())
}

// 11 inds: the integers from 1 up to the number of items.
fn indexes(s: &mut [u8], base: usize) -> Result<(), Refusal>
    requires { Has sequence s.old base }
    ensures { OnItems sequence (λ vs. consecutive (pos 1) (count vs)) s.old s.new base result }
{
    let n = collections::finding::count_of(s, base);
    gathering::counting(s, base, 1, n)
}

// 12 conc: the items of each sequence move down over the headings.
fn flatten(s: &mut [u8], base: usize) -> Result<(), Refusal>
    requires { Has sequence s.old base }
    ensures { OnItems sequence (λ vs. cond (every_item (is_kind sequence) vs) (sized sequence (flatten vs)) (refused wrong_kind)) s.old s.new base result }
{
    let end = base + values::length_of(s, base);
    let mut p = base + Value::HEAD;
    let mut q = base + Value::HEAD;
    while p < end {
        if values::kind_of(s, p) != Value::SEQUENCE {
            return Err(Refusal::WrongKind);
        }
        let n = values::length_of(s, p);
        values::copy_bytes(s, p + Value::HEAD, q, n - Value::HEAD);
        q += n - Value::HEAD;
        p += n;
    }
    values::put_head(s, base, q - base, Value::SEQUENCE);
    Ok(())
}

// 13 reverse: a copy's items are put back from the end down.
fn reverse(s: &mut [u8], base: usize) -> Result<(), Refusal>
    requires { Has sequence s.old base }
    ensures { OnItems sequence (λ vs. is (collection sequence (backwards vs))) s.old s.new base result }
{
    let n = values::length_of(s, base);
    values::copy_value(s, base, base + calling::SECOND);
    let end = base + calling::SECOND + n;
    let mut p = base + calling::SECOND + Value::HEAD;
    let mut q = base + n;
    while p < end {
        let m = values::length_of(s, p);
        q -= m;
        values::copy_value(s, p, q);
        p += m;
    }
    Ok(())
}

// The unary operators 7 to 13.
pub fn unary_sequence(s: &mut [u8], base: usize, operator: usize) -> Result<(), Refusal>
    requires { One s.old base × (7 ≤ operator) × (operator ≤ 13) }
    ensures { OnOne (unary operator) s.old s.new base result }
{
    let kind = values::kind_of(s, base);
    if kind != Value::SEQUENCE {
        return Err(Refusal::WrongKind);
    }
    match operator {
        tables::unary::LEN => len(s, base),
        tables::unary::HD => head(s, base),
        tables::unary::TL => tail(s, base),
        tables::unary::ELEMS => gathering::elements(s, base),
        tables::unary::INDS => indexes(s, base),
        tables::unary::CONC => flatten(s, base),
        _ => reverse(s, base),
    }
}

// ---- two sequences

// The items of the second sequence move up to those of the first, which has them then; 28 where that is over 512 bytes.
fn join(s: &mut [u8], base: usize) -> Result<(), Refusal>
    requires { HasTwo sequence sequence s.old base }
    ensures { OnBoth sequence sequence (λ vs ws. sized sequence (join vs ws)) s.old s.new base result }
{
    let n = values::length_of(s, base);
    let m = values::length_of(s, base + calling::SECOND);
    let whole = n + m - Value::HEAD;
    if Value::LIMIT < whole {
        return Err(Refusal::TooLarge);
    }
    values::copy_bytes(
        s,
        base + calling::SECOND + Value::HEAD,
        base + n,
        m - Value::HEAD,
    );
    values::put_head(s, base, whole, Value::SEQUENCE);
    Ok(())
}

// 24 ^
pub fn concatenate(s: &mut [u8], base: usize) -> Result<(), Refusal>
    requires { Two s.old base }
    ensures { OnTwo (binary 24) s.old s.new base result }
{
    if calling::kinds_are(s, base, Value::SEQUENCE, Value::SEQUENCE) {
        return join(s, base);
    }
    Err(Refusal::WrongKind)
}
