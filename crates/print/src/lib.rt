// The print of a walk: numbers, values, lists, outcomes and lines as text, written into a lent buffer. Each function gives the place past its text.
#![tactic(auto)]

ghost use Rattle.std.specs.Prelude.{◌≡◌, ◌∷◌, [], ◌++◌, ◌+◌, ◌≤◌, ◌<◌, length};
ghost use Rattle.prelude.specs.Refusals.{number_of};
ghost use Rattle.print.specs.Ascii.{newline};
ghost use Rattle.print.specs.Text.{decimal, integer_text, truth_text, quote_text, refusal_word, list_text};
ghost use Rattle.print.specs.Print.{first_line, end_line, cut_line, refused_line};
ghost use Rattle.print.specs.Contract.{Room, Wrote, short_line, ValueRoom, ValueWritten, separator_text, following, ItemsRoom, ItemsWritten, Opened, Closed, OutcomeRoom, OutcomeWritten, LineRoom, LineWritten};

use choices::list::Walk;
use prelude::Refusal;
use values::Value;

// The longest line of a list: 64 entries of up to three digits, each with a comma or a space after it; `=` and a value's text, which has 3 bytes less
// than twice its record; the line's end. Room for it is room for every line.
pub const LONGEST_LINE: usize = 4 * Walk::LIMIT + 2 * Value::LIMIT - 1;

// Room for the first line, the last line and the line of a refused table.
pub const SHORT_LINE: usize = 64;

// The most lines of lists. If a list would follow, the print is cut.
pub const MOST_LINES: usize = 10000;

const NEWLINE: u8 = b'\n';

const SPACE: u8 = b' ';

// A list without entries.
const NO_ENTRIES: u8 = b'-';

// The least refusal that has a word.
const FIRST_WORD: usize = 20;

// The words of the refusals 20 to 31.
const WORDS: [&[u8]; 12] = [
    b"kind",
    b"range",
    b"zero",
    b"no-match",
    b"no-binding",
    b"not-unique",
    b"absent",
    b"clash",
    b"large",
    b"split",
    b"bindings",
    b"choices",
];

// ---- bytes and numbers

// Writes bytes.
pub fn put_bytes(bytes: &[u8], out: &mut [u8], at: usize) -> usize
    requires { Room out.old at bytes.now }
    ensures { Wrote out.old out.new at bytes.now result }
{
    let end = at + bytes.len();
    out[at..end].copy_from_slice(bytes);
    end
}

// Writes a number in decimal.
pub fn put_number(n: usize, out: &mut [u8], at: usize) -> usize
    requires { Room out.old at (decimal n) }
    ensures { Wrote out.old out.new at (decimal n) result }
{
    if n < 10 {
        out[at] = b'0' + n as u8;
        return at + 1;
    }
    let last = put_number(n / 10, out, at);
    out[last] = b'0' + (n % 10) as u8;
    last + 1
}

// Writes an integer in decimal, with a minus sign where it is below 0.
pub fn put_integer(z: i32, out: &mut [u8], at: usize) -> usize
    requires { Room out.old at (integer_text z) }
    ensures { Wrote out.old out.new at (integer_text z) result }
{
    if z < 0 {
        out[at] = b'-';
        return put_number((-1 - z) as usize + 1, out, at + 1);
    }
    put_number(z as usize, out, at)
}

// ---- values

// What stands before an item of a collection.
#[derive(Clone, Copy)]
enum Separator {
    Nothing,
    Comma,
    Arrow,
}

// Writes `true` or `false`.
fn put_boolean(b: bool, out: &mut [u8], at: usize) -> usize
    requires { Room out.old at (truth_text b) }
    ensures { Wrote out.old out.new at (truth_text b) result }
{
    if b {
        return put_bytes(b"true", out, at);
    }
    put_bytes(b"false", out, at)
}

// Writes a quote: its number between angle brackets.
fn put_quote(n: usize, out: &mut [u8], at: usize) -> usize
    requires { Room out.old at (quote_text n) }
    ensures { Wrote out.old out.new at (quote_text n) result }
{
    out[at] = b'<';
    let end = put_number(n, out, at + 1);
    out[end] = b'>';
    end + 1
}

// Writes what stands before an item.
fn put_separator(separator: Separator, out: &mut [u8], at: usize) -> usize
    requires { Room out.old at (separator_text separator) }
    ensures { Wrote out.old out.new at (separator_text separator) result }
{
    match separator {
        Separator::Nothing => at,
        Separator::Comma => put_bytes(b",", out, at),
        Separator::Arrow => put_bytes(b"|->", out, at),
    }
}

// What stands before the next item.
fn following(is_map: bool, separator: Separator) -> Separator
    ensures { result ≡ following is_map separator }
{
    if !is_map {
        return Separator::Comma;
    }
    match separator {
        Separator::Nothing | Separator::Comma => Separator::Arrow,
        Separator::Arrow => Separator::Comma,
    }
}

// Writes what the text of a collection of a kind begins with.
fn put_opening(kind: usize, is_empty: bool, out: &mut [u8], at: usize) -> usize
    requires { at + 4 ≤ length out.old }
    ensures { Opened kind is_empty out.old out.new at result }
{
    if kind == Value::SET {
        return put_bytes(b"{", out, at);
    }
    if kind == Value::SEQUENCE {
        return put_bytes(b"[", out, at);
    }
    if kind == Value::TUPLE {
        return put_bytes(b"mk_(", out, at);
    }
    if is_empty {
        return put_bytes(b"{|->", out, at);
    }
    put_bytes(b"{", out, at)
}

// Writes what the text of a collection of a kind ends with.
fn put_closing(kind: usize, out: &mut [u8], at: usize) -> usize
    requires { at < length out.old }
    ensures { Closed kind out.old out.new at result }
{
    if kind == Value::TUPLE {
        return put_bytes(b")", out, at);
    }
    if kind == Value::SEQUENCE {
        return put_bytes(b"]", out, at);
    }
    put_bytes(b"}", out, at)
}

// Writes the value at a place.
#[cycle(put_items_put_value)]
pub fn put_value(s: &[u8], from: usize, out: &mut [u8], at: usize) -> usize
    requires { ValueRoom s.now from out.old at }
    ensures { ValueWritten s.now from out.old out.new at result }
{
    let kind = values::kind_of(s, from);
    if kind == Value::BOOLEAN {
        return put_boolean(values::boolean_at(s, from), out, at);
    }
    if kind == Value::INTEGER {
        return put_integer(values::integer_at(s, from), out, at);
    }
    if kind == Value::QUOTE {
        return put_quote(values::quote_at(s, from), out, at);
    }
    let n = values::length_of(s, from);
    let first = put_opening(kind, n == Value::HEAD, out, at);
    let end = put_items(
        s,
        from + Value::HEAD,
        from + n,
        kind == Value::MAP,
        Separator::Nothing,
        out,
        first,
    );
    put_closing(kind, out, end)
}

// Writes the items between two places, each after what stands before it.
#[cycle(put_items_put_value)]
fn put_items(
    s: &[u8],
    from: usize,
    to: usize,
    is_map: bool,
    separator: Separator,
    out: &mut [u8],
    at: usize,
) -> usize
    requires { ItemsRoom s.now from to out.old at }
    ensures { ItemsWritten s.now from to is_map separator out.old out.new at result }
{
    if from == to {
        return at;
    }
    let first = put_separator(separator, out, at);
    let next = put_value(s, from, out, first);
    let n = values::length_of(s, from);
    let then = following(is_map, separator);
    put_items(s, from + n, to, is_map, then, out, next)
}

// ---- lists, outcomes and lines

// Writes a list: entries joined by commas, `-` if there are none.
pub fn put_list(list: &[u8], out: &mut [u8], at: usize) -> usize
    requires { Room out.old at (list_text list.now) }
    ensures { Wrote out.old out.new at (list_text list.now) result }
{
    if list.len() == 0 {
        out[at] = NO_ENTRIES;
        return at + 1;
    }
    let mut end = put_number(usize::from(list[0]), out, at);
    for i in 1..list.len() {
        out[end] = b',';
        end = put_number(usize::from(list[i]), out, end + 1);
    }
    end
}

// The word of a refusal. No complete list comes to the last three, which have none.
fn word(refusal: Refusal) -> &'static [u8]
    ensures { result.now ≡ refusal_word (number_of refusal) }
{
    let row = refusal.number() - FIRST_WORD;
    if row < WORDS.len() {
        return WORDS[row];
    }
    b""
}

// Writes the word of a refusal.
pub fn put_word(refusal: Refusal, out: &mut [u8], at: usize) -> usize
    requires { Room out.old at (refusal_word (number_of refusal)) }
    ensures { Wrote out.old out.new at (refusal_word (number_of refusal)) result }
{
    put_bytes(word(refusal), out, at)
}

// Writes what evaluating answered: a refusal, or the value at the start of the scratch.
pub fn put_outcome(refusal: Option<Refusal>, s: &[u8], out: &mut [u8], at: usize) -> usize
    requires { OutcomeRoom s.now refusal out.old at }
    ensures { OutcomeWritten s.now refusal out.old out.new at result }
{
    let Some(refusal) = refusal else {
        out[at] = b'=';
        return put_value(s, 0, out, at + 1);
    };
    out[at] = b'!';
    let end = put_number(refusal.number(), out, at + 1);
    out[end] = SPACE;
    put_word(refusal, out, end + 1)
}

// Writes the line of a list.
pub fn put_line(list: &[u8], refusal: Option<Refusal>, s: &[u8], out: &mut [u8], at: usize) -> usize
    requires { LineRoom list.now refusal s.now out.old at }
    ensures { LineWritten list.now refusal s.now out.old out.new at result }
{
    let end = put_list(list, out, at);
    out[end] = SPACE;
    let last = put_outcome(refusal, s, out, end + 1);
    out[last] = NEWLINE;
    last + 1
}

// ---- the first line, the last, and that of a refused table

// Writes a number and the end of its line.
fn put_count(n: usize, out: &mut [u8], at: usize) -> usize
    requires { at + 21 ≤ length out.old }
    ensures { Wrote out.old out.new at (decimal n ++ newline ∷ []) result }
{
    let end = put_number(n, out, at);
    out[end] = NEWLINE;
    end + 1
}

// Writes the first line of the print of an accepted table: `table` and the record count.
pub fn put_first(count: usize, out: &mut [u8], at: usize) -> usize
    requires { at + short_line ≤ length out.old }
    ensures { Wrote out.old out.new at (first_line count) result }
{
    let start = put_bytes(b"table ", out, at);
    put_count(count, out, start)
}

// Writes the last line where all lists are printed: `end` and their number.
pub fn put_end(count: usize, out: &mut [u8], at: usize) -> usize
    requires { at + short_line ≤ length out.old }
    ensures { Wrote out.old out.new at (end_line count) result }
{
    let start = put_bytes(b"end ", out, at);
    put_count(count, out, start)
}

// Writes the last line where a list would follow the 10,000th.
pub fn put_cut(out: &mut [u8], at: usize) -> usize
    requires { at + short_line ≤ length out.old }
    ensures { Wrote out.old out.new at cut_line result }
{
    let start = put_bytes(b"cut ", out, at);
    put_count(MOST_LINES, out, start)
}

// Writes the print of a refused table: `refused`, number and place, parted by single spaces.
pub fn put_refused(number: usize, place: usize, out: &mut [u8], at: usize) -> usize
    requires { at + short_line ≤ length out.old }
    ensures { Wrote out.old out.new at (refused_line number place) result }
{
    let start = put_bytes(b"refused ", out, at);
    let end = put_number(number, out, start);
    out[end] = SPACE;
    put_count(place, out, end + 1)
}
