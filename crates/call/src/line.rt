// One line: what it asks for, and what is printed of it.
ghost use Rattle.std.specs.Iterator.{IsFinite};

use crate::arguments::Arguments;
use crate::calls;
use crate::faults::Fault;
use crate::print::Printer;
use crate::table::{self, Argument, Call};

// The most bytes that a line has, without its end.
pub const LONGEST: usize = 65535;

// Runs a line, which may be one that cannot be read.
pub fn run(line: &[u8], number: u64, printer: &mut Printer) {
    if let Err(fault) = try_run(line, printer) {
        printer.complain(number, fault);
    }
}

// A comment and an empty line are printed as they are.
fn try_run(line: &[u8], printer: &mut Printer) -> Result<(), Fault> {
    if LONGEST < line.len() {
        return Err(Fault::LineTooLong);
    }
    if line.is_empty() || line.starts_with(b"#") {
        printer.bytes(line);
        printer.line_feed();
        return Ok(());
    }
    make_call(line, printer)
}

// Makes the call that the line names.
fn make_call(line: &[u8], printer: &mut Printer) -> Result<(), Fault> {
    let mut words = line.split(|b| *b == b' ');
    let name = words.next().unwrap_or(line);
    let (call, takes) = table::find(name).ok_or(Fault::NoSuchCall)?;
    make_with(call, takes, words, printer)
}

// Makes a call with these arguments, and prints its answer and the lists that it may have written.
// Not inlined: a line that names no call has no need of the stack for its arguments.
#[inline(never)]
fn make_with<'a, W: Iterator<Item = &'a [u8]>>(
    call: Call,
    takes: &[Argument],
    words: W,
    printer: &mut Printer,
) -> Result<(), Fault>
    requires can { W.can_next words }
    requires ends { IsFinite (W.remaining words) }
{
    let mut arguments = Arguments::new();
    arguments.read(takes, words)?;
    printer.answer(calls::make(call, &mut arguments));
    for argument in takes {
        if let Argument::Written(place, _) = argument {
            printer.list(arguments.list(*place).bytes());
        }
    }
    printer.line_feed();
    Ok(())
}
