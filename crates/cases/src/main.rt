// Runs the cases that standard input holds, one after the other, and prints each with its words.
// A case is a line that names it, with a number sign in front, then numbers in the layout of a stream's record (`second/README.md`):
// 1 planner or 2 reader, H, the round limit (0 for the reader), the words of the cage table, of the window table, of the lag table, of the set table, of the buffer or list; then these words.
#![tactic(auto)]

ghost use Rattle.std.specs.Prelude.{◌≤◌, length};

use checker::{Judgement, check};
use propagator::Answer;
use questions::Refusal;
use reservoir::plan_and_read;
use scanner::{Scan, Scanner};
use std::fmt;
use std::fmt::Display;
use std::io::Read;

// The program reads no more bytes.
const MOST_BYTES: usize = 65536;

// A case has no more numbers.
const MOST_NUMBERS: usize = 1030;

// Who is called: the planner by 1, else the reader. `sweep` has its own, which refuses another number: a crate under both for an enum of two is no plainer.
#[derive(Clone, Copy)]
enum Called {
    Planner,
    Reader,
}

impl From<i32> for Called {
    fn from(kind: i32) -> Called {
        if kind == 1 {
            Called::Planner
        } else {
            Called::Reader
        }
    }
}

// A case: who is called, and with which numbers and tables.
#[derive(Drop)]
struct Case<'a> {
    called: Called,
    horizon: i32,
    limit: i32,
    cages: &'a [i32],
    windows: &'a mut [i32],
    lags: &'a [i32],
    sets: &'a [i32],
    list: &'a mut [i32],
}

// ---- read

// Reads until the space is full, the input ends or a read fails, and returns how many bytes it put at the start of the space.
fn read_full(input: &mut impl Read, space: &mut [u8]) -> usize
    ensures { result ≤ length space.new }
{
    let mut done = 0;
    while done < space.len() {
        let got = input.read(&mut space[done..]).unwrap_or(0);
        if got == 0 {
            break;
        }
        done += got;
    }
    done
}

// The bytes before the first b, and those from it on.
fn before(s: &[u8], b: u8) -> (&[u8], &[u8])
    ensures { length result.1.now ≤ length s.now }
{
    let end = s.iter().position(|x| *x == b).unwrap_or(s.len());
    s.split_at(end)
}

// As many words as a number says, at most so many, and those behind them.
fn table(words: &mut [i32], size: i32, most: usize) -> Option<(&mut [i32], &mut [i32])> {
    let n = usize::try_from(size).ok().filter(|n| *n <= most)?;
    words.split_at_mut_checked(n)
}

// The case that the numbers are: a header and five tables.
fn case_of(numbers: &mut [i32]) -> Option<Case<'_>> {
    let (head, words) = numbers.split_first_chunk_mut::<8>()?;
    let [kind, horizon, limit, cages, windows, lags, sets, list] = *head;
    let (cages, words) = table(words, cages, 40)?;
    let (windows, words) = table(words, windows, 360)?;
    let (lags, words) = table(words, lags, 800)?;
    let (sets, words) = table(words, sets, 1200)?;
    let (list, words) = table(words, list, 1000)?;
    words.is_empty().then_some(Case {
        called: Called::from(kind),
        horizon,
        limit,
        cages,
        windows,
        lags,
        sets,
        list,
    })
}

// ---- print
// Whoever runs the program compares what it printed, so a write that fails is passed over.

// A text.
fn say(rt: &impl Print, text: impl Display + Drop) {
    let _ = rt.print(text);
}

// A word and two numbers, on a line.
fn counted(rt: &impl Print, title: &str, numbers: [usize; 2]) {
    say(rt, title);
    for n in numbers {
        say(rt, format_args!(" {n}"));
    }
    say(rt, "\n");
}

fn refused(rt: &impl Print, r: Refusal) {
    counted(rt, "refused", [r.question.number(), r.place]);
}

// The planner's reply.
fn planned(rt: &impl Print, reply: Result<Answer, Refusal>) {
    match reply {
        Ok(a) => counted(rt, a.verdict.name(), [a.slips, a.rounds]),
        Err(r) => refused(rt, r),
    }
}

// The reader's reply.
fn judged(rt: &impl Print, reply: Result<Judgement, Refusal>) {
    match reply {
        Ok(judgement) => say(rt, format_args!("{judgement}\n")),
        Err(r) => refused(rt, r),
    }
}

// A title and words, on one line.
fn line(rt: &impl Print, title: &str, words: &[i32]) {
    say(rt, title);
    for word in words {
        say(rt, format_args!(" {word}"));
    }
    say(rt, "\n");
}

// Each event's number and five words, a line each.
fn windows(rt: &impl Print, table: &[i32]) {
    for (y, event) in table.chunks_exact(5).enumerate() {
        say(rt, y);
        line(rt, "", event);
    }
}

// ---- call

// What the planner writes is printed as the list, then what it leaves as it was, then what the reader says of that list.
fn plan_case(rt: &impl Print, case: Case<'_>) {
    let Case {
        called: _,
        horizon,
        limit,
        cages,
        windows: table,
        lags,
        sets,
        list: buffer,
    } = case;
    let reply = plan_and_read(horizon, cages, table, lags, sets, limit, buffer);
    planned(rt, reply.map(|checked| checked.answer));
    windows(rt, table);
    let length = reply.map_or(0, |checked| checked.answer.length);
    if let Some((list, kept)) = buffer.split_at_checked(length) {
        line(rt, "list", list);
        line(rt, "kept", kept);
    }
    say(rt, "read ");
    judged(rt, reply.map(|checked| checked.judgement));
}

// The reader's answer, then the windows and the list.
fn read_case(rt: &impl Print, case: Case<'_>) {
    let Case {
        called: _,
        horizon,
        limit: _,
        cages,
        windows: table,
        lags,
        sets,
        list,
    } = case;
    judged(rt, check(horizon, cages, table, lags, sets, list));
    windows(rt, table);
    line(rt, "list", list);
}

// One case.
fn run_case(rt: &impl Print, text: &[u8]) {
    let mut table = [0i32; MOST_NUMBERS];
    let mut scanner = Scanner::new(&mut table);
    scanner.feed(text);
    let Scan::Between(n) = scanner.scan else {
        say(rt, "not a case\n");
        return;
    };
    let Some(case) = table.get_mut(..n).and_then(case_of) else {
        say(rt, "not a case\n");
        return;
    };
    match case.called {
        Called::Planner => plan_case(rt, case),
        Called::Reader => read_case(rt, case),
    }
}

// All cases. What stands before the first number sign is no case.
fn run_all(rt: &impl Print, text: &[u8]) {
    let (_, mut rest) = before(text, b'#');
    while let Some((_, case)) = rest.split_first() {
        let (name, numbers) = before(case, b'\n');
        let (numbers, next) = before(numbers, b'#');
        let _ = rt.write_all(rest.get(..name.len().saturating_add(1)).unwrap_or(name));
        say(rt, "\n");
        run_case(rt, numbers);
        rest = next;
    }
}

fn main(rt: HostRuntime) {
    let mut space = [0u8; MOST_BYTES];
    let n = read_full(&mut rt.stdin(), &mut space);
    run_all(&rt, &space[..n]);
}
