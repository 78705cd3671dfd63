// The capture program (document 02, Q-12): reads a capture from standard input and prints a line
// for each frame to standard output; with the argument `--hex` one column more. What it prints is
// the report of the crate `capture_text`; this crate has the buffers and the system calls.
//
// The last thing that it does is to write a mark to descriptor 3, from which tools/run-proved makes
// a status; `Ending` has the marks. Where descriptor 3 is no pipe, nothing is written to it.
#![tactic(auto)]

ghost use Rattle.std.specs.Prelude.{◌≤◌, IfOk, length};

use std::fs::OpenOptions;
use std::io::{ErrorKind, Read, Write};
use std::os::unix::fs::FileTypeExt;
use std::{env, fs, io};

// How the program ended.
#[derive(Clone, Copy, Debug, PartialEq, Eq)]
enum Ending {
    // The whole file was read, the file opened and all was printed.
    Done,
    // The file was refused, and that was printed.
    Refused,
    // A read failed.
    InputFailed,
    // Nobody reads the report any more.
    ReaderLeft,
    // Another write failed.
    OutputFailed,
}

impl Ending {
    fn mark(self) -> &'static [u8] {
        match self {
            Ending::Done => b"done\n",
            Ending::Refused => b"refused\n",
            Ending::InputFailed => b"input\n",
            Ending::ReaderLeft => b"left\n",
            Ending::OutputFailed => b"output\n",
        }
    }
}

// The buffer has one byte more than the largest file, so that a longer one is seen to be longer.
fn main(rt: HostRuntime) {
    let mut file = [0u8; 83981];
    let mut out = [0u8; 65536];
    let ending = match read_all(&rt, &mut file) {
        Ok((n, hex)) => show(&rt, &file[..n], hex, &mut out),
        Err(_) => Ending::InputFailed,
    };
    mark(&rt, ending);
}

// Reads until the buffer is full or the input has ended, and then the arguments. Returns how many
// bytes were read, and whether the column is asked for.
fn read_all(rt: &HostRuntime, file: &mut [u8]) -> io::Result<(usize, bool)>
    ensures { IfOk result (λ read. read.0 ≤ length file.old) }
{
    let mut n = 0;
    // no `for`: a read says how many bytes came
    while n < file.len() {
        let came = rt.stdin().read(&mut file[n..])?;
        if came == 0 {
            break;
        }
        n += came;
    }
    let hex = hex_asked(rt)?;
    Ok((n, hex))
}

// Prints the report of the file.
fn show(rt: &HostRuntime, file: &[u8], hex: bool, out: &mut [u8]) -> Ending {
    let report = capture_text::write_report(file, hex, out);
    if let Err(why) = rt.write_all(&out[..report.written]) {
        return match why.kind() {
            ErrorKind::BrokenPipe => Ending::ReaderLeft,
            _ => Ending::OutputFailed,
        };
    }
    match report.file {
        Ok(()) => Ending::Done,
        Err(_) => Ending::Refused,
    }
}

// Whether the first argument is `--hex`; or why the arguments cannot be read.
fn hex_asked(rt: &HostRuntime) -> io::Result<bool> {
    let mut words = env::args(rt)?;
    let _name = words.next();
    match words.next() {
        Some(word) => Ok(word.as_str() == "--hex"),
        None => Ok(false),
    }
}

// Writes an ending's mark, if descriptor 3 is a pipe. It is opened anew by its name, which would
// write over a file: so nothing else is opened. Each program has its own: a public function of a
// library promises its whole answer, and nothing can be promised of what a file takes.
fn mark(rt: &HostRuntime, ending: Ending) {
    if let Ok(found) = fs::metadata(rt, "/dev/fd/3")
        && found.file_type().is_fifo()
        && let Ok(mut file) = OpenOptions::new().write(true).open(rt, "/dev/fd/3")
    {
        let _ = file.write_all(ending.mark());
    }
}
