// The print of a walk, piece by piece: one run of the sheet for each line, which also learns what the next list needs.
#![tactic(auto)]

ghost use Rattle.std.specs.Prelude.{◌≡◌, true, false, ◌+◌, ◌≤◌, ◌<◌, length};
ghost use Rattle.print.specs.Print.{most_lines};
ghost use Rattle.print.specs.Contract.{short_line};
ghost use Rattle.printing.specs.Contract.{Begun, refusal_of, Worded, due, Ready, Lined, Closed, Filled};

use evaluator::{Refused, run_sheet};
use lists::{Run, advance, list_of};
use prelude::Refusal;
use print::{LONGEST_LINE, MOST_LINES, SHORT_LINE, put_cut, put_end, put_first, put_line};
use tables::sheet::Sheet;

// How far a print has come: how many lists' lines are written, whether a list follows them, whether the last line is written, and how long the piece in
// the buffer is.
#[derive(Clone, Copy)]
pub struct Progress {
    pub lists: usize,
    pub more: bool,
    pub over: bool,
    pub at: usize,
}

impl Progress {
    // The progress once the piece is handed on: the buffer is empty.
    pub fn emptied(self) -> Progress
        ensures { result ≡ record { lists = self.lists; more = self.more; over = self.over; at = 0 } }
    {
        Progress { at: 0, ..self }
    }

    // Whether a line of a list comes next.
    fn is_due(self) -> bool
        ensures { result ≡ due self }
    {
        self.more && self.lists < MOST_LINES
    }
}

// Writes the first line of the print of an accepted table at the start of the buffer.
pub fn begin(count: usize, out: &mut [u8]) -> Progress
    requires { short_line ≤ length out.old }
    ensures { Begun count out.new out.old result }
{
    let at = put_first(count, out, 0);
    Progress {
        lists: 0,
        more: true,
        over: false,
        at,
    }
}

// The refusal of a list's outcome, if it is one: one of 20 to 31.
fn refusal_of(o: Result<(), Refused>) -> Option<Refusal>
    requires { Worded (refusal_of o) }
    ensures { result ≡ refusal_of o }
{
    match o {
        Ok(()) => None,
        Err(e) => Some(e.refusal),
    }
}

// Writes the line of the list that is due, from one run, and moves on to the next list.
fn put_next(
    sheet: &Sheet,
    count: usize,
    s: &mut [u8],
    run: &mut Run,
    out: &mut [u8],
    p: Progress,
) -> Progress
    requires { Ready sheet.now count s.old run.old out.old p × (due p ≡ true) }
    ensures { Lined sheet.now count s.new run.new out.new out.old p result }
{
    let o = run_sheet(sheet, count, s, run);
    let list = list_of(run);
    let at = put_line(&list.entries[..list.len], refusal_of(o), s, out, p.at);
    Progress {
        lists: p.lists + 1,
        more: advance(run),
        over: false,
        at,
    }
}

// Writes the last line, where there is room for it.
fn put_last(out: &mut [u8], p: Progress) -> Progress
    requires { (p.at ≤ length out.old) × (p.lists ≤ most_lines) }
    ensures { Closed out.new out.old p result }
{
    if out.len() - p.at < SHORT_LINE {
        return Progress { over: false, ..p };
    }
    let at = if p.more {
        put_cut(out, p.at)
    } else {
        put_end(p.lists, out, p.at)
    };
    Progress {
        over: true,
        at,
        ..p
    }
}

// Writes as many lines as fit, the last line among them.
pub fn fill(
    sheet: &Sheet,
    count: usize,
    s: &mut [u8],
    run: &mut Run,
    out: &mut [u8],
    p: Progress,
) -> Progress
    requires { Ready sheet.now count s.old run.old out.old p }
    ensures { Filled sheet.now count s.new run.new out.new out.old p result }
{
    let mut q = p;
    while q.is_due() {
        if out.len() - q.at < LONGEST_LINE {
            return q;
        }
        q = put_next(sheet, count, s, run, out, q);
    }
    put_last(out, q)
}
