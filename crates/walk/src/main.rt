// The walk program: reads a table from standard input and writes its print to standard output.
#![tactic(auto)]

ghost use Rattle.std.specs.Prelude.{◌≡◌, length, Ok, Err};
ghost use Rattle.tables.specs.Check.{check as check_of};
ghost use Rattle.printing.specs.Contract.{Printing};
ghost use Rattle.print.specs.Print.{print_of};
ghost use Rattle.walk.specs.Input.{Within, Taken};
ghost use Rattle.walk.specs.Output.{Next, HandedOn, Printed, Arrived};

use checking::check;
use choices::list::Walk;
use lists::{Run, start_walk};
use print::{SHORT_LINE, put_refused};
use printing::{Progress, begin, fill};
use std::io::{ErrorKind, Read, Write};
use std::process::ExitCode;
use tables::sheet::Sheet;
use tables::{Fault, MOST_BYTES, MOST_RECORDS};

// One byte more than a table may have tells that there are too many.
const MOST_READ: usize = MOST_BYTES + 1;

// The bytes of a run's scratch, and the most of a piece of the print.
const LARGE: usize = 65536;

// ---- reading

// Reads until the buffer is full or the input ends, and tells how many bytes were read.
fn read_input<R: Read>(input: &mut R, buffer: &mut [u8]) -> std::io::Result<usize>
    ensures within { Within result buffer.new }
    ensures bytes { Taken (R.remaining input.old) (R.remaining input.new) result buffer.new }
{
    let mut n = 0;
    while n < buffer.len() {
        match input.read(&mut buffer[n..])? {
            0 => return Ok(n),
            more => n += more,
        }
    }
    Ok(n)
}

// ---- writing

// A write that failed when so many bytes of the print were out.
#[derive(Clone, Copy)]
struct Failure {
    sent: usize,
    kind: ErrorKind,
}

// Hands a piece of the print to the output, when so many bytes of it are out, and tells how many are then: the piece must be the print's bytes from there
// on. Nothing else here writes to the output. Whether a write fails is free. That standard output takes the bytes of a write that does not fail rests on
// std, whose contract does not say so.
fn hand_on<W: Write>(
    output: &mut W,
    table: &[u8],
    sent: usize,
    piece: &[u8],
) -> Result<usize, Failure>
    requires { Next table.now sent piece.now }
    ensures count { HandedOn sent piece.now result }
    ensures bytes { Arrived (W.contents output.old) (W.contents output.new) piece.now result }
{
    match output.write_all(piece) {
        Ok(()) => Ok(sent + piece.len()),
        Err(e) => Err(Failure {
            sent,
            kind: e.kind(),
        }),
    }
}

// Prints a refused table: one line.
fn print_refused<W: Write>(output: &mut W, table: &[u8], fault: Fault) -> Result<usize, Failure>
    requires { check_of table.now ≡ Err fault }
    ensures count { Printed table.now result }
    ensures bytes { Arrived (W.contents output.old) (W.contents output.new) (print_of table.now) result }
{
    let mut out = [0u8; SHORT_LINE];
    let end = put_refused(fault.rule.number(), fault.place, &mut out, 0);
    hand_on(output, table, 0, &out[..end])
}

// Prints an accepted table piece after piece, from the one that is begun in the buffer, until the last line is out or a write fails. The sheet is of the
// table, by which what is handed on is told.
fn print_pieces<W: Write>(
    output: &mut W,
    table: &[u8],
    sheet: &Sheet,
    count: usize,
    s: &mut [u8],
    run: &mut Run,
    out: &mut [u8],
    begun: Progress,
) -> Result<usize, Failure>
    requires { Printing table.now count s.old run.old out.old 0 begun × (sheet.now ≡ table.now) }
    ensures count { Printed table.now result }
    ensures bytes { Arrived (W.contents output.old) (W.contents output.new) (print_of table.now) result }
{
    let mut sent = 0;
    let mut p = begun;
    loop {
        let q = fill(sheet, count, s, run, out, p);
        sent = hand_on(output, table, sent, &out[..q.at])?;
        if q.over {
            return Ok(sent);
        }
        p = q.emptied();
    }
}

fn large_buffer() -> [u8; LARGE]
    ensures { length result ≡ 65536 }
{
    [0; LARGE]
}

// Prints an accepted table.
fn print_accepted<W: Write>(
    output: &mut W,
    table: &[u8],
    sheet: &Sheet,
    count: usize,
) -> Result<usize, Failure>
    requires { (check_of table.now ≡ Ok count) × (sheet.now ≡ table.now) }
    ensures count { Printed table.now result }
    ensures bytes { Arrived (W.contents output.old) (W.contents output.new) (print_of table.now) result }
{
    let mut s = large_buffer();
    let mut out = large_buffer();
    let mut run = start_walk(Walk::empty(), true);
    let begun = begin(count, &mut out);
    print_pieces(
        output, table, sheet, count, &mut s, &mut run, &mut out, begun,
    )
}

// Prints a table: the whole print is handed on, from its first byte to its last, each byte once and in order, unless a write fails.
fn print_table<W: Write>(output: &mut W, table: &[u8]) -> Result<usize, Failure>
    ensures count { Printed table.now result }
    ensures bytes { Arrived (W.contents output.old) (W.contents output.new) (print_of table.now) result }
{
    let mut index = [0u32; MOST_RECORDS];
    match check(table, &mut index) {
        Err(fault) => print_refused(output, table, fault),
        Ok(count) => print_accepted(output, table, &Sheet::new(table, &index), count),
    }
}

// ---- the program

// The status where whoever reads the print has closed it: that of the signal, which std holds back.
const CLOSED: u8 = 141;

// Says on standard error what failed.
fn complain<W: Write>(errors: &mut W, what: &[u8]) {
    let _ = errors.write_all(what);
}

// Prints the table on standard input, and says what failed. A contract can say nothing of what these streams give and take: see `read_input` and
// `print_table`.
fn main(rt: HostRuntime) -> ExitCode {
    let mut buffer = [0u8; MOST_READ];
    let Ok(n) = read_input(&mut rt.stdin(), &mut buffer) else {
        complain(&mut rt.stderr(), b"walk: standard input cannot be read\n");
        return ExitCode::SUCCESS;
    };
    if let Err(failure) = print_table(&mut rt.stdout(), &buffer[..n]) {
        if failure.kind == ErrorKind::BrokenPipe {
            return ExitCode::from(CLOSED);
        }
        complain(
            &mut rt.stderr(),
            b"walk: standard output cannot be written\n",
        );
    }
    ExitCode::SUCCESS
}
