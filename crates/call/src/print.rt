// Printing, and the mark that says how the program ended.
ghost use Rattle.std.specs.Prelude.{◌≤◌, length};

use crate::calls::Answer;
use crate::faults::Fault;
use std::fs::OpenOptions;
use std::io::{ErrorKind, Write};
use std::os::unix::fs::FileTypeExt;
use std::{fs, io};

// How the program ended.
#[derive(Clone, Copy, Debug, PartialEq, Eq)]
pub enum Ending {
    // The whole input was read and all was printed.
    Done,
    // Besides, a line could not be read.
    Unread,
    // A read failed.
    InputFailed,
    // Nobody reads the report any more.
    ReaderLeft,
    // Another write failed.
    OutputFailed,
}

impl Ending {
    fn mark(self) -> &'static [u8] {
        match self {
            Ending::Done => b"done\n",
            Ending::Unread => b"done unread\n",
            Ending::InputFailed => b"input\n",
            Ending::ReaderLeft => b"left\n",
            Ending::OutputFailed => b"output\n",
        }
    }
}

// Writes an ending's mark to descriptor 3, if that is a pipe (main.rt). It is opened anew by its
// name, which would write over a file: so nothing else is opened. Each program has its own: a public
// function of a library promises its whole answer, and nothing can be promised of what a file takes.
// Not inlined: no line has need of the stack for it.
#[inline(never)]
pub fn mark(rt: &HostRuntime, ending: Ending) {
    if let Ok(found) = fs::metadata(rt, "/dev/fd/3")
        && found.file_type().is_fifo()
        && let Ok(mut file) = OpenOptions::new().write(true).open(rt, "/dev/fd/3")
    {
        let _ = file.write_all(ending.mark());
    }
}

// Prints the report. Once a write failed nothing more is printed.
#[derive(Drop)]
pub struct Printer<'a> {
    rt: &'a HostRuntime,
    ending: Ending,
}

impl<'a> Printer<'a> {
    pub fn new(rt: &'a HostRuntime) -> Printer<'a> {
        Printer {
            rt,
            ending: Ending::Done,
        }
    }

    pub fn ending(&self) -> Ending {
        self.ending
    }

    pub fn has_failed(&self) -> bool {
        !matches!(self.ending, Ending::Done | Ending::Unread)
    }

    // Notes that a write failed, if it did.
    fn note(&mut self, written: io::Result<()>) {
        if let Err(why) = written {
            self.ending = match why.kind() {
                ErrorKind::BrokenPipe => Ending::ReaderLeft,
                _ => Ending::OutputFailed,
            };
        }
    }

    pub fn bytes(&mut self, text: &[u8]) {
        if !self.has_failed() {
            let written = self.rt.write_all(text);
            self.note(written);
        }
    }

    pub fn line_feed(&mut self) {
        self.bytes(b"\n");
    }

    // Not inlined, as `list`: its room for digits is needed here alone.
    #[inline(never)]
    pub fn answer(&mut self, answer: Answer) {
        if !self.has_failed() {
            let written = self.rt.print(answer);
            self.note(written);
        }
    }

    // A blank and a list, by one call of the system. Not inlined: a line that prints no list has no
    // need of the stack for one.
    #[inline(never)]
    pub fn list(&mut self, list: &[u8])
        requires { length list.now ≤ 8192 }
    {
        if list.is_empty() {
            self.bytes(b" -");
            return;
        }
        let mut out = [b' '; 16385];
        let (pairs, _) = out[1..].as_chunks_mut::<2>();
        for (pair, byte) in pairs.iter_mut().zip(list) {
            *pair = [hex_digit(*byte >> 4), hex_digit(*byte & 0xf)];
        }
        self.bytes(&out[..1 + 2 * list.len()]);
    }

    // Prints what is wrong with a line, and notes that it could not be read. Not inlined, as
    // `answer`.
    #[inline(never)]
    pub fn complain(&mut self, line: u64, fault: Fault) {
        if !self.has_failed() {
            self.ending = Ending::Unread;
            let written = println!(self.rt; "line {line}: {fault}");
            self.note(written);
        }
    }
}

// The hex digit of the lowest four bits.
fn hex_digit(value: u8) -> u8 {
    b"0123456789ABCDEF"[usize::from(value & 0xf)]
}
