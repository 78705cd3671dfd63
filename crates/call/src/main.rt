// Makes the calls that standard input has, one a line, and prints their answers (docs/CALL.md).
// Here the input is cut into lines; `line` runs one of them.
//
// The last thing that it does is to write a mark to descriptor 3, from which tools/run-proved makes
// a status; `Ending` has the marks. Where descriptor 3 is no pipe, nothing is written to it.
#![tactic(auto)]

ghost use Rattle.std.specs.Prelude.{◌≤◌, length};

mod arguments;
mod calls;
mod elements;
mod faults;
mod line;
mod list;
mod print;
mod table;
mod text;

use print::{Ending, Printer};
use std::io;
use std::io::Read;

// Twice what is kept of a line, so that there is always room to read to.
const INPUT_ROOM: usize = 2 * (line::LONGEST + 1);

fn main(rt: HostRuntime) {
    let mut input = [0; INPUT_ROOM];
    let mut printer = Printer::new(&rt);
    let ending = match read_all(&rt, &mut input, &mut printer) {
        Ok(()) => printer.ending(),
        Err(_) => Ending::InputFailed,
    };
    print::mark(&rt, ending);
}

// Reads to the end of the input, or until nothing more is printed, and runs each line once it is
// whole: the first `kept` bytes of the input are a line that is not. A proved loop has to end, and
// nothing says that the input does: the reads are counted.
fn read_all(rt: &HostRuntime, input: &mut [u8], printer: &mut Printer) -> io::Result<()> {
    let mut lines = 0;
    let mut kept = 0;
    for _ in 0..u64::MAX {
        if printer.has_failed() {
            break;
        }
        let came = rt.stdin().read(&mut input[kept..])?;
        let filled = kept + came;
        if came == 0 {
            run_last(&input[..filled], lines, printer);
            break;
        }
        let unfinished = run_lines(&input[..filled], &mut lines, printer);
        kept = keep(&mut input[..filled], unfinished);
    }
    Ok(())
}

// Runs the lines that have their line feed, and answers how many bytes come after them.
fn run_lines(input: &[u8], lines: &mut u64, printer: &mut Printer) -> usize
    ensures { result ≤ length input.now }
{
    let mut rest = input;
    // no `for`: the pieces of `split_inclusive` would have their line feed taken off again
    while let Some((line, after)) = text::split_once(rest, b'\n') {
        *lines = lines.wrapping_add(1);
        line::run(line, *lines, printer);
        rest = after;
    }
    rest.len()
}

// A last line without its line feed, if there is one.
fn run_last(line: &[u8], lines: u64, printer: &mut Printer) {
    if !line.is_empty() {
        line::run(line, lines.wrapping_add(1), printer);
    }
}

// Moves the unfinished line to the front of the buffer, and answers how much of it is kept: so much
// that a line which is too long stays too long, and what follows in such a line is not needed.
fn keep(input: &mut [u8], unfinished: usize) -> usize
    requires { unfinished ≤ length input.old }
    ensures { result ≤ length input.old }
{
    let start = input.len() - unfinished;
    let count = unfinished.min(line::LONGEST + 1);
    input.copy_within(start..start + count, 0);
    count
}
