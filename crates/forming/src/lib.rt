// The bindings of a pattern formed once: all ways are gone through with an agenda of what is still to be matched and a stack of the patterns
// whose ways are not all gone through. Each match found is inserted in order, once, among rows.
#![tactic(auto)]

mod frames;
mod masks;
mod needs;
mod reduced;
mod repeats;
mod rows;
mod settled;
mod sizes;
mod taking;

ghost use Rattle.std.specs.Prelude.{◌≡◌, true, ◌≤◌, ◌<◌};
ghost use Rattle.tables.specs.Table.{kind_at};
ghost use Rattle.tables.specs.Accepted.{records};
ghost use Rattle.tables.specs.Reading.{Indexed};
ghost use Rattle.matching.specs.Node.{is_split};
ghost use Rattle.forming.specs.Rows.{EntryHeld};
ghost use Rattle.forming.specs.Whole.{WordMet, SameValue};
ghost use Rattle.parts.specs.Word.{unpacked};
ghost use Rattle.forming.specs.Inner.{count_of};
ghost use Rattle.forming.specs.Pending.{Pushable, PartPushable, PartPushed, PiecePushable, PiecePushed, how_many, PushedWhere, Pushed};
ghost use Rattle.forming.specs.Stack.{OpenHeld, Opened, MatchEntered, DownHeld, WentDown, BackHeld, WentBack, FinishHeld, Finished, Solvable, Solved};

use crate::frames::{Frame, Frames};
use matching::nodes;
use parts::words::Env;
use parts::{How, Part, words};
use prelude::Refusal;
use tables::sheet::Sheet;
use tables::{Index, MOST_RECORDS};
use values::Value;

// An agenda is what is still to be matched. An entry is the record of a pattern, the part that it meets, and the entry that follows. Entry 0 is none, one
// is for the whole pattern, and one for each of its parts, which are other records of the table.
pub const AGENDA_WORDS: usize = 3 * (MOST_RECORDS + 1);

pub type Agenda = [u32; AGENDA_WORDS];

// Bindings are rows of words, a word for each name; and their order is the numbers of the rows, the lowest binding first.
pub const ROWS_WORDS: usize = Value::BINDINGS * Env::NAMES;

pub type Rows = [u32; ROWS_WORDS];

pub type RowOrder = [u8; Value::BINDINGS];

// How many bindings there are so far; how many frames are on the stack; and how many of these, from the first on, have a match.
#[derive(Clone, Copy)]
pub struct Step {
    pub n: usize,
    pub depth: usize,
    pub hit: usize,
}

// The first entry of an agenda, and the first that is free.
#[derive(Clone, Copy)]
pub struct Queue {
    pub head: usize,
    pub top: usize,
}

// Puts part i of a pattern, with what it meets, before the rest of the agenda.
fn push_piece(
    sheet: &Sheet,
    p: usize,
    i: usize,
    s: &[u8],
    piece: Part,
    agenda: &mut Agenda,
    next: usize,
    top: usize,
)
    requires { PiecePushable sheet.now p i s.now piece agenda.old next top }
    ensures { PiecePushed sheet.now p i s.now piece agenda.old next top agenda.new }
{
    let q = sheet.operand(p, i);
    let b = words::word_of(s, piece);
    agenda[3 * top] = q as u32;
    agenda[3 * top + 1] = b;
    agenda[3 * top + 2] = next as u32;
}

// Puts part i of a pattern of kind k with n parts, with what it meets in the way d, before the rest of the agenda.
fn push_part(
    sheet: &Sheet,
    p: usize,
    k: usize,
    n: usize,
    s: &[u8],
    part: Part,
    d: usize,
    i: usize,
    agenda: &mut Agenda,
    next: usize,
    top: usize,
)
    requires { PartPushable sheet.now p k n s.now part d i agenda.old next top }
    ensures { PartPushed sheet.now p s.now part d i agenda.old next top agenda.new }
{
    let a = nodes::piece(k, n, s, part, d, i);
    push_piece(sheet, p, i, s, a, agenda, next, top);
}

// Puts the two parts of a union or munion of kind k, with the halves of its split d + 1, before the rest of the agenda: the split is made once for both.
fn push_halves(
    sheet: &Sheet,
    p: usize,
    k: usize,
    s: &[u8],
    part: Part,
    d: usize,
    agenda: &mut Agenda,
    next: usize,
    top: usize,
) -> usize
    requires { Pushable sheet.now p s.now part d agenda.old next top (count_of sheet.now p) × (k ≡ kind_at (records sheet.now) p) × (is_split k ≡ true) }
    ensures { Pushed sheet.now p s.now part d agenda.old next top 0 agenda.new result }
{
    let mask = parts::mask_of(s, part);
    let left = parts::masks::spread(mask, d + 1);
    let h = parts::halves_by(part.at, mask, left);
    push_piece(sheet, p, 1, s, h.right, agenda, next, top);
    push_piece(sheet, p, 0, s, h.left, agenda, top, top + 1);
    top + 1
}

// Puts the parts of a pattern, each with what it meets in the way d, before the rest of the agenda.
fn push_all(
    sheet: &Sheet,
    p: usize,
    s: &[u8],
    word: u32,
    d: usize,
    agenda: &mut Agenda,
    next: usize,
    top: usize,
) -> usize
    requires { Pushable sheet.now p s.now (unpacked word) d agenda.old next top (count_of sheet.now p) }
    ensures { Pushed sheet.now p s.now (unpacked word) d agenda.old next top 0 agenda.new result }
{
    let k = sheet.kind(p);
    let n = sheet.operand_count(p);
    let part = words::unpack(word);
    if nodes::is_split(k) {
        return push_halves(sheet, p, k, s, part, d, agenda, next, top);
    }
    let mut head = next;
    let mut to = top;
    for i in (0..n).rev() {
        push_part(sheet, p, k, n, s, part, d, i, agenda, head, to);
        head = to;
        to += 1;
    }
    head
}

// Puts those parts before the rest of the agenda whose bit is this one.
fn push_where(
    sheet: &Sheet,
    p: usize,
    s: &[u8],
    word: u32,
    d: usize,
    agenda: &mut Agenda,
    next: usize,
    top: usize,
    bits: usize,
    bit: usize,
) -> Queue
    requires { Pushable sheet.now p s.now (unpacked word) d agenda.old next top (how_many sheet.now p bits bit) }
    ensures { PushedWhere sheet.now p s.now (unpacked word) d agenda.old next top bits bit agenda.new result }
{
    let k = sheet.kind(p);
    let n = sheet.operand_count(p);
    let part = words::unpack(word);
    let mut head = next;
    let mut to = top;
    for i in (0..n).rev() {
        if (bits >> i) % 2 == bit {
            push_part(sheet, p, k, n, s, part, d, i, agenda, head, to);
            head = to;
            to += 1;
        }
    }
    Queue { head, top: to }
}

// Puts the parts before the rest of the agenda, those first that are only tests: one that fails ends the way.
fn push(
    sheet: &Sheet,
    p: usize,
    s: &[u8],
    word: u32,
    d: usize,
    agenda: &mut Agenda,
    next: usize,
    top: usize,
    tests: usize,
) -> usize
    requires { Pushable sheet.now p s.now (unpacked word) d agenda.old next top (count_of sheet.now p) }
    ensures { Pushed sheet.now p s.now (unpacked word) d agenda.old next top tests agenda.new result }
{
    if tests == 0 {
        return push_all(sheet, p, s, word, d, agenda, next, top);
    }
    let others = push_where(sheet, p, s, word, d, agenda, next, top, tests, 0);
    let head = others.head;
    let free = others.top;
    let all = push_where(sheet, p, s, word, d, agenda, head, free, tests, 1);
    all.head
}

// The word of what a pattern of kind k meets in so many ways: of a whole set or map that is to be split, the word of its members or entries.
fn split_word(s: &[u8], k: usize, word: u32, ways: usize) -> u32
    requires { WordMet s.now k word ways }
    ensures { SameValue s.now word result }
{
    if !nodes::is_split(k) {
        return word;
    }
    let p = words::unpack(word);
    let How::Whole = p.how else {
        return word;
    };
    let units = Part {
        at: p.at,
        extent: (ways + 1) as u16,
        how: How::Units,
    };
    words::word_of(s, units)
}

// Opens a frame for the entry at, where some way may have a match and there are n rows; how many frames there are.
fn open_frame(
    sheet: &Sheet,
    s: &[u8],
    agenda: &Agenda,
    at: usize,
    next: usize,
    top: usize,
    found: &[u32; Env::NAMES],
    frames: &mut Frames,
    depth: usize,
    n: usize,
) -> usize
    requires { OpenHeld sheet.now s.now agenda.now at next top found.now frames.old depth n }
    ensures { Opened sheet.now s.now agenda.now at next top found.now frames.old depth n frames.new result }
{
    let whole = agenda[3 * at] as usize;
    let word = agenda[3 * at + 1];
    let p = reduced::reduced(sheet, whole);
    let k = sheet.kind(p);
    let c = sheet.operand_count(p);
    let part = words::unpack(word);
    let Ok(ways) = nodes::meet(k, c, s, part) else {
        return depth;
    };
    let sizes = sizes::sizes_of(sheet, p, k, s, found);
    let way = sizes::way_from(k, ways, 0, sizes);
    let once = settled::is_settled(sheet, p, found);
    let mask = masks::mask_of(found);
    let tests = settled::tests_of(sheet, p, k, once, found);
    let Ok(asks) = needs::asked_by_union(sheet, p, k, s, part, found) else {
        return depth;
    };
    let f = Frame {
        p,
        at,
        next,
        top,
        way,
        ways,
        mask,
        once,
        sizes,
        tests,
        since: n,
        seen: n,
        asks,
    };
    frames::advance(frames, depth, f)
}

// Goes on with an agenda: leaves are taken off; a match is inserted, or a frame opened for the pattern with parts that waits, unless all that would
// follow is among the rows already. Where asks is true, patterns with parts ask for items first.
fn down(
    sheet: &Sheet,
    s: &[u8],
    agenda: &Agenda,
    head: usize,
    top: usize,
    found: &mut [u32; Env::NAMES],
    frames: &mut Frames,
    depth: usize,
    hit: usize,
    rows: &mut Rows,
    order: &mut RowOrder,
    n: usize,
    asks: bool,
) -> Result<Step, Refusal>
    requires { DownHeld sheet.now s.now agenda.now head top found.old frames.old depth hit rows.old order.old n }
    ensures { WentDown sheet.now s.now agenda.now head top found.old frames.old depth hit rows.old order.old n found.new frames.new rows.new order.new result }
{
    let Some(left) = taking::take_leaves(sheet, s, agenda, head, found, asks) else {
        return Ok(Step { n, depth, hit });
    };
    let at = left.wait;
    if at == 0 {
        return insert_match(s, found, depth, rows, order, n);
    }
    if repeats::is_repeat(sheet, agenda, at, found, frames, depth, rows) {
        return Ok(Step { n, depth, hit });
    }
    let opened = open_frame(
        sheet, s, agenda, at, left.head, top, found, frames, depth, n,
    );
    Ok(Step {
        n,
        depth: opened,
        hit,
    })
}

// Inserts a match among the rows: each pattern on the stack has one now.
fn insert_match(
    s: &[u8],
    found: &[u32; Env::NAMES],
    depth: usize,
    rows: &mut Rows,
    order: &mut RowOrder,
    n: usize,
) -> Result<Step, Refusal>
    requires { EntryHeld s.now found.now rows.old order.old n }
    ensures { MatchEntered s.now found.now depth rows.old order.old n rows.new order.new result }
{
    let k = rows::insert_row(s, found, rows, order, n)?;
    Ok(Step {
        n: k,
        depth,
        hit: depth,
    })
}

// Goes back to the last frame: its next way; or it is left, being only a test and having a match.
fn back(
    sheet: &Sheet,
    s: &[u8],
    agenda: &mut Agenda,
    found: &mut [u32; Env::NAMES],
    frames: &mut Frames,
    depth: usize,
    hit: usize,
    rows: &mut Rows,
    order: &mut RowOrder,
    n: usize,
) -> Result<Step, Refusal>
    requires { BackHeld sheet.now s.now agenda.old found.old frames.old depth hit rows.old order.old n }
    ensures { WentBack sheet.now s.now agenda.old found.old frames.old depth hit rows.old order.old n agenda.new found.new frames.new rows.new order.new result }
{
    let i = depth - 1;
    let f = frames::load(frames, i);
    if f.once && i < hit {
        return Ok(Step {
            n,
            depth: i,
            hit: i,
        });
    }
    let p = f.p;
    let at = f.at;
    let k = sheet.kind(p);
    let c = sheet.operand_count(p);
    let met = agenda[3 * at + 1];
    let w = split_word(s, k, met, f.ways);
    let way = sizes::way_from(k, f.ways, f.way + 1, f.sizes);
    let left = frames::go_on(frames, i, way, f.ways, n);
    masks::clear(found, f.mask);
    let head = push(sheet, p, s, w, f.way, agenda, f.next, f.top, f.tests);
    down(
        sheet,
        s,
        agenda,
        head,
        f.top + c,
        found,
        frames,
        left,
        hit.min(left),
        rows,
        order,
        n,
        f.asks,
    )
}

// Goes back until no frame is left.
fn finish(
    sheet: &Sheet,
    s: &[u8],
    agenda: &mut Agenda,
    found: &mut [u32; Env::NAMES],
    frames: &mut Frames,
    first: Step,
    rows: &mut Rows,
    order: &mut RowOrder,
) -> Result<usize, Refusal>
    requires { FinishHeld sheet.now s.now agenda.old found.old frames.old first rows.old order.old }
    ensures { Finished sheet.now s.now agenda.old found.old frames.old first rows.old order.old agenda.new rows.new order.new result }
{
    let mut r = first;
    while 0 < r.depth {
        r = back(
            sheet, s, agenda, found, frames, r.depth, r.hit, rows, order, r.n,
        )?;
    }
    Ok(r.n)
}

// All matches of an agenda that go on from what is found: each is inserted.
pub fn solve_over(
    sheet: &Sheet,
    s: &[u8],
    agenda: &mut Agenda,
    head: usize,
    top: usize,
    found: &mut [u32; Env::NAMES],
    rows: &mut Rows,
    order: &mut RowOrder,
    n: usize,
) -> Result<usize, Refusal>
    requires { Solvable sheet.now s.now agenda.old head top found.old rows.old order.old n }
    ensures { Solved sheet.now s.now agenda.old head top found.old rows.old order.old n agenda.new rows.new order.new result }
{
    let mut frames = [0u8; frames::FRAMES_BYTES];
    let first = down(
        sheet,
        s,
        agenda,
        head,
        top,
        found,
        &mut frames,
        0,
        0,
        rows,
        order,
        n,
        false,
    )?;
    finish(sheet, s, agenda, found, &mut frames, first, rows, order)
}

// All matches of an agenda in the same way. Of an agenda without entries, which has the one match that is found, no record is read, whatever the table.
pub fn solve(
    table: &[u8],
    index: &Index,
    s: &[u8],
    agenda: &mut Agenda,
    head: usize,
    top: usize,
    found: &mut [u32; Env::NAMES],
    rows: &mut Rows,
    order: &mut RowOrder,
    n: usize,
) -> Result<usize, Refusal>
    requires { Solvable table.now s.now agenda.old head top found.old rows.old order.old n × (0 < head → Indexed table.now index.now) }
    ensures { Solved table.now s.now agenda.old head top found.old rows.old order.old n agenda.new rows.new order.new result }
{
    if head == 0 {
        return rows::insert_row(s, found, rows, order, n);
    }
    let sheet = Sheet::new(table, index);
    solve_over(&sheet, s, agenda, head, top, found, rows, order, n)
}
