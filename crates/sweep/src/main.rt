// Answers a stream of records, a line each, just as the second program's `answers` does. `.ci/run` compares the two on a large stream;
// the stored `stdin` is `second stream 896 40 160`, in which the planner refuses by 28 and the reader by every other number that there is.
// A record beyond the limits, an unknown one, or a stream cut short ends the program with a line that says so.
#![tactic(auto)]

mod answers; // answers.rt: the line of a record
mod input; // input.rt: standard input, word by word
mod output; // output.rt: standard output, in pieces
mod records; // records.rt: the records of a stream
mod words; // words.rt: words of 32 bits and their checksum

use answers::answer;
use input::Input;
use output::Output;
use records::Tables;
use std::fmt::Write;
use std::io::Read;

// Answers records until the one that ends the stream. No answer fails: the output passes over a write that does.
fn answer_all(
    tables: &mut Tables,
    input: &mut Input<impl Read>,
    output: &mut impl Write,
) -> Result<(), &'static str> {
    for _ in 0..u64::MAX {
        let Some(record) = tables.next_record(input)? else {
            break;
        };
        let _ = answer(output, record);
    }
    Ok(())
}

fn main(rt: HostRuntime) {
    let mut tables = Tables::blank();
    let mut input = Input::new(rt.stdin());
    let mut output = Output::new(&rt);
    if let Err(why) = answer_all(&mut tables, &mut input, &mut output) {
        let _ = writeln!(output, "{why}");
    }
    output.flush();
}
