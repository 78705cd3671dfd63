// What is read and printed, and the mark at the end. Once a read or a write has failed, nothing more
// is read or printed.
ghost use Rattle.std.specs.Prelude.{◌≤◌, length};

use refusal::Refusal;
use std::fs::OpenOptions;
use std::io::{ErrorKind, Read, Write};
use std::os::unix::fs::FileTypeExt;
use std::{fs, io};

// How the program ended.
#[derive(Clone, Copy, Debug, PartialEq, Eq)]
pub enum Ending {
    // The whole message was read and all was printed.
    Done,
    // Besides, the message was too long.
    Refused,
    // A read failed.
    InputFailed,
    // Nobody reads the report any more.
    ReaderLeft,
    // Another write failed.
    OutputFailed,
}

impl Ending {
    fn mark(self) -> &'static [u8] {
        match self {
            Ending::Done => b"done\n",
            Ending::Refused => b"refused\n",
            Ending::InputFailed => b"input\n",
            Ending::ReaderLeft => b"left\n",
            Ending::OutputFailed => b"output\n",
        }
    }
}

// Writes an ending's mark to descriptor 3, if that is a pipe (main.rt). It is opened anew by its
// name, which would write over a file: so nothing else is opened. Each program has its own: a public
// function of a library promises its whole answer, and nothing can be promised of what a file takes.
pub fn mark(rt: &HostRuntime, ending: Ending) {
    if let Ok(found) = fs::metadata(rt, "/dev/fd/3")
        && found.file_type().is_fifo()
        && let Ok(mut file) = OpenOptions::new().write(true).open(rt, "/dev/fd/3")
    {
        let _ = file.write_all(ending.mark());
    }
}

// Reads and prints, until a read or a write fails.
#[derive(Drop)]
pub struct Printer<'a> {
    rt: &'a HostRuntime,
    ending: Ending,
}

impl<'a> Printer<'a> {
    pub fn new(rt: &'a HostRuntime) -> Printer<'a> {
        Printer {
            rt,
            ending: Ending::Done,
        }
    }

    pub fn ending(&self) -> Ending {
        self.ending
    }

    // Whether no read and no write has failed so far.
    fn is_good(&self) -> bool {
        matches!(self.ending, Ending::Done | Ending::Refused)
    }

    // Reads until the buffer is full or the input has ended, and returns how many bytes were read.
    pub fn read_all(&mut self, buffer: &mut [u8]) -> usize
        ensures { result ≤ length buffer.old }
    {
        let mut n = 0;
        // no `for`: a read says how many bytes came
        while n < buffer.len() {
            match self.rt.stdin().read(&mut buffer[n..]) {
                Ok(0) => return n,
                Ok(came) => n += came,
                Err(_) => {
                    self.ending = Ending::InputFailed;
                    return n;
                }
            }
        }
        n
    }

    // Prints bytes.
    pub fn text(&mut self, bytes: &[u8]) {
        if self.is_good() {
            let written = self.rt.write_all(bytes);
            self.note(written);
        }
    }

    // Prints a number in decimal.
    pub fn number(&mut self, n: usize) {
        if self.is_good() {
            let written = self.rt.print(n);
            self.note(written);
        }
    }

    // Prints one number of a list.
    pub fn listed(&mut self, n: usize) {
        self.text(b" ");
        self.number(n);
    }

    // Tells that the message was refused.
    pub fn refuse(&mut self, why: Refusal) {
        self.text(b"refused ");
        self.number(usize::from(why.number()));
        self.text(b": a message has 4,096 bytes at most\n");
        if self.is_good() {
            self.ending = Ending::Refused;
        }
    }

    // Notes that a write failed, if it did.
    fn note(&mut self, written: io::Result<()>) {
        if let Err(why) = written {
            self.ending = match why.kind() {
                ErrorKind::BrokenPipe => Ending::ReaderLeft,
                _ => Ending::OutputFailed,
            };
        }
    }
}
