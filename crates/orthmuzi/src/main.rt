// The program: a job read from standard input, planned, and the answer printed on standard output.
// Only `read_some`, `tell` and `complain` touch the outside. What is read goes through `Scanner::take`, and what is written is what `tell` asks for.
// They take any reader and any writers, so that `run` can say what becomes of the bytes of those whose bytes are known; `main` lends the three standard ones, whose are not.
#![tactic(auto)]

ghost use Rattle.std.specs.Prelude.{◌≤◌, length, OnOk};
ghost use Rattle.std.specs.Io.KnownBytes.{Appends};
ghost use Rattle.model.specs.Text.{parsed};
ghost use Rattle.model.specs.Print.{printed};
ghost use Rattle.model.specs.Program.{answered, Told};
ghost use Rattle.propagator.specs.Plans.{reply_of};
ghost use Rattle.scanner.specs.Scanning.{state_of, finished};
ghost use Rattle.scanner.specs.Layout.{job_in, Room};
ghost use Rattle.printer.specs.Buffer.{HoldsReply, Printed};
ghost use Rattle.orthmuzi.specs.Hearing.{TookNext, HeardAll, Wrote};

use propagator::Answer;
use propagator::plans::plan;
use questions::{Question, Refusal};
use scanner::{MOST_NUMBERS, Scan, Scanner, Sizes};
use std::io;
use std::io::{Read, Write};
use std::ops::ControlFlow;

// A reply as text.
fn report(reply: Result<Answer, Refusal>, windows: &[i32], out: &mut [u8]) -> usize
    requires { (length windows.now ≤ 320) × HoldsReply out.old }
    ensures { Printed out.new result (printed (reply_of reply) windows.now) }
{
    match reply {
        Ok(a) => {
            let name = a.verdict.name().as_bytes();
            printer::print_done(out, name, a.slips, a.rounds, windows)
        }
        Err(r) => printer::print_refused(out, r.question.number(), r.place),
    }
}

// The job of these sizes at the start of the table planned, its windows in `space`, with its round limit and a slip room of 16,000 words.
fn table_planned(s: Sizes, table: &[i32], space: &mut [i32], out: &mut [u8]) -> usize
    requires { Room s table.now × (320 ≤ length space.old) × HoldsReply out.old }
    ensures { Printed out.new result (answered (parsed (job_in table.now s, s.limit))) }
{
    let windows_at = 4 + 4 * s.cages;
    let lags_at = windows_at + 5 * s.events;
    let sets_at = lags_at + 3 * s.lags + 1;
    let windows = &mut space[..5 * s.events];
    windows.copy_from_slice(&table[windows_at..lags_at]);
    let mut room = [0i32; 16000];
    let reply = plan(
        table[0],
        &table[2..][..4 * s.cages],
        windows,
        &table[lags_at..][..3 * s.lags],
        &table[sets_at..][..s.words],
        s.limit,
        &mut room,
    );
    report(reply, windows, out)
}

// The end of the text: what the program prints, put into `out`.
fn answer(mut scanner: Scanner<'_>, out: &mut [u8]) -> usize
    requires { HoldsReply out.old }
    ensures { Printed out.new result (answered (finished (state_of scanner.entry))) }
{
    let Some(sizes) = scanner.finish() else {
        return printer::print_refused(out, Question::Text.number(), 0);
    };
    let mut space = [0i32; 320];
    table_planned(sizes, scanner.table, &mut space, out)
}

// A line on standard error. Where it cannot be written either, nobody is left to be told.
fn complain(errors: &mut impl Write, line: &[u8]) {
    let _ = errors.write_all(line);
}

// Reads once, and takes what came, all of it.
// It rules out a program that loses the rest of a piece (piece_cut_short).
fn read_some<R: Read>(
    input: &mut R,
    errors: &mut impl Write,
    scanner: &mut Scanner<'_>,
) -> ControlFlow<()>
    ensures { TookNext (R.remaining input.old) (R.remaining input.new) (state_of scanner.old) result (state_of scanner.new) }
{
    let mut piece = [0u8; 65536];
    let Ok(n) = input.read(&mut piece) else {
        complain(
            errors,
            b"orthmuzi: standard input could not be read to its end\n",
        );
        return scanner.take(None);
    };
    scanner.take(Some(&piece[..n]))
}

// Reads to the end of the input. A proved loop has to end, and nothing says that the input does: it takes no more turns than a number that no run uses up.
fn read_all<'a, R: Read>(
    input: &mut R,
    errors: &mut impl Write,
    table: &'a mut [i32],
) -> Scanner<'a>
    requires { 2198 ≤ length table.old }
    ensures { HeardAll (R.remaining input.old) (state_of result) }
{
    let mut scanner = Scanner::new(table);
    for _ in 0..u64::MAX {
        if read_some(input, errors, &mut scanner).is_break() {
            return scanner;
        }
    }
    scanner.scan = Scan::Malformed;
    scanner
}

// Writes the answer, which has to be that of the text read; it is Ok where all of it was written.
// It rules out a program that writes nothing (nothing_told), one that calls a part the whole (part_told) and one that writes another answer (conflict_as_settled, refused_as_21, room_too_small).
fn tell<W: Write>(output: &mut W, answer: &[u8]) -> io::Result<()>
    requires { Told answer.now }
    ensures { OnOk result (Appends (W.contents output.old) (W.contents output.new) answer.now) }
{
    output.write_all(answer)
}

// Reads, plans and writes; it is Ok where the answer was written. That is then the answer of the whole text, where the reader's bytes are known and no read failed.
fn run<R: Read, W: Write>(input: &mut R, output: &mut W, errors: &mut impl Write) -> io::Result<()>
    ensures { OnOk result (Wrote (R.remaining input.old) (W.contents output.old) (W.contents output.new)) }
{
    let mut table = [0i32; MOST_NUMBERS];
    let mut out = [0u8; 8192];
    let scanner = read_all(input, errors, &mut table);
    let n = answer(scanner, &mut out);
    tell(output, &out[..n])
}

fn main(rt: HostRuntime) {
    let mut errors = rt.stderr();
    if run(&mut rt.stdin(), &mut rt.stdout(), &mut errors).is_err() {
        complain(&mut errors, b"orthmuzi: the answer could not be written\n");
    }
}
