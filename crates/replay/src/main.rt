// The replay program (document 01, "The replay program"): reads a script of resequencer events from
// standard input and prints its report to standard output. The work is done by the crate
// `replay_script`; this crate has the buffers and the system calls.
//
// The last thing that it does is to write a mark to descriptor 3, from which tools/run-proved makes
// a status: `done` if the whole script was read and the whole report written, `done crlf` if
// besides a carriage return was seen before a line end, `input` if a read failed, `left` if nobody
// reads the report any more, `output` if another write failed. Where descriptor 3 is no pipe,
// nothing is written to it.
#![tactic(auto)]

ghost use Rattle.std.specs.Prelude.{◌≡◌, ◌≤◌, length, IfOk};
ghost use Rattle.replay_script.specs.Feeding.{feed_next};

use replay_script::Replay;
use std::fs::OpenOptions;
use std::io::{ErrorKind, Read, Write};
use std::os::unix::fs::FileTypeExt;
use std::{fs, io};

// How the program ended.
#[derive(Clone, Copy, Debug, PartialEq, Eq)]
enum Mark {
    Done,
    DoneCrlf,
    Input,
    Left,
    Output,
}

// What is kept of the whole script, and whether a carriage return was seen before a line end.
#[derive(Clone, Copy)]
struct Script {
    kept: Replay,
    crlf: bool,
}

fn main(rt: HostRuntime) {
    let mut input = [0u8; 65536];
    let mut out = [0u8; 65536];
    let mark = match replay(&rt, &mut input, &mut out) {
        Ok(mark) => mark,
        Err(mark) => mark,
    };
    let _ = mark.write(&rt);
}

// Prints the header, the report of the input, and that of a last line without its line end.
// (The room of `out`, which three functions require, was tried as a `[u8; 65536]`: the proofs of the
// parts of it that are printed did not close.)
fn replay(rt: &HostRuntime, input: &mut [u8], out: &mut [u8]) -> Result<Mark, Mark>
    requires { 65536 ≤ length out.old }
{
    print(rt, &replay_script::header())?;
    let script = read_all(rt, input, out)?;
    let last = script.kept.finish(out);
    let written = last.written;
    print(rt, &out[..written])?;
    Ok(if script.crlf {
        Mark::DoneCrlf
    } else {
        Mark::Done
    })
}

// Reads to the end of the input, or until a read or a write fails, and runs what is read. A proved
// loop has to end, and the input may be endless: so the reads are counted up to 2^64 - 1.
fn read_all(rt: &HostRuntime, input: &mut [u8], out: &mut [u8]) -> Result<Script, Mark>
    requires { 65536 ≤ length out.old }
{
    let mut kept = Replay::fresh();
    let mut crlf = false;
    for _ in 0..u64::MAX {
        match rt.stdin().read(input) {
            Ok(0) => return Ok(Script { kept, crlf }),
            Ok(count) => {
                crlf = crlf || sees_crlf(&input[..count]);
                kept = run(rt, kept, &input[..count], out)?;
            }
            Err(_) => return Err(Mark::Input),
        }
    }
    Ok(Script { kept, crlf })
}

// Whether a carriage return is in front of the first line end of these bytes that is not their
// first byte. Not every line is looked at, as this serves for a hint only.
fn sees_crlf(bytes: &[u8]) -> bool {
    for i in 1..bytes.len() {
        if bytes[i] == b'\n' {
            return bytes[i - 1] == b'\r';
        }
    }
    false
}

// Runs the bytes in parts of at most 64, for whose report 16,384 bytes of the output are enough.
// Prints the output when fewer are left, and at the end.
fn run(rt: &HostRuntime, kept: Replay, bytes: &[u8], out: &mut [u8]) -> Result<Replay, Mark>
    requires { 65536 ≤ length out.old }
    ensures { IfOk result (λ next. next ≡ feed_next kept bytes.now) }
{
    let mut replay = kept;
    let mut end = 0;
    for part in 0..bytes.len().div_ceil(64) {
        let at = 64 * part;
        let to = bytes.len().min(at + 64);
        let fed = replay.feed(&bytes[at..to], &mut out[end..]);
        replay = fed.next;
        end += fed.written;
        if 49152 < end {
            print(rt, &out[..end])?;
            end = 0;
        }
    }
    print(rt, &out[..end])?;
    Ok(replay)
}

// ---- what is written

// Prints bytes. If they cannot be written, the mark says whether anybody still reads the report.
fn print(rt: &HostRuntime, bytes: &[u8]) -> Result<(), Mark> {
    match rt.write_all(bytes) {
        Ok(()) => Ok(()),
        Err(why) => match why.kind() {
            ErrorKind::BrokenPipe => Err(Mark::Left),
            _ => Err(Mark::Output),
        },
    }
}

impl Mark {
    fn text(self) -> &'static [u8] {
        match self {
            Mark::Done => b"done\n",
            Mark::DoneCrlf => b"done crlf\n",
            Mark::Input => b"input\n",
            Mark::Left => b"left\n",
            Mark::Output => b"output\n",
        }
    }

    // Writes the mark, if descriptor 3 is a pipe. It is opened anew by its name, which would write
    // over a file: so nothing else is opened. Each program has its own: a public function of a
    // library promises its whole answer, and nothing can be promised of what a file takes.
    fn write(self, rt: &HostRuntime) -> io::Result<()> {
        let found = fs::metadata(rt, "/dev/fd/3")?;
        if found.file_type().is_fifo() {
            let mut file = OpenOptions::new().write(true).open(rt, "/dev/fd/3")?;
            file.write_all(self.text())?;
        }
        Ok(())
    }
}
