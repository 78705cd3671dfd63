// What is wrong with a line that cannot be read, and its words in the report.
use std::error::Error;
use std::fmt;

// What is wrong with one argument.
#[derive(Clone, Copy, Debug, PartialEq, Eq)]
pub enum BadArgument {
    Missing,
    NotANumber,
    NumberTooLarge,
    NotAList,
    ListTooLong,
}

// What is wrong with a line. Arguments count from 1.
#[derive(Clone, Copy, Debug, PartialEq, Eq)]
pub enum Fault {
    NoSuchCall,
    Argument(usize, BadArgument),
    TooManyArguments,
    LineTooLong,
}

impl fmt::Display for BadArgument {
    fn fmt<W: fmt::Write>(&self, f: &mut fmt::Formatter<W>) -> fmt::Result {
        f.write_str(match self {
            BadArgument::Missing => "missing",
            BadArgument::NotANumber => "not a number",
            BadArgument::NumberTooLarge => "number too large",
            BadArgument::NotAList => "not a list",
            BadArgument::ListTooLong => "list too long",
        })
    }
}

impl fmt::Display for Fault {
    fn fmt<W: fmt::Write>(&self, f: &mut fmt::Formatter<W>) -> fmt::Result {
        match self {
            Fault::NoSuchCall => write!(f, "no such call"),
            Fault::Argument(argument, why) => write!(f, "argument {argument}: {why}"),
            Fault::TooManyArguments => write!(f, "too many arguments"),
            Fault::LineTooLong => write!(f, "longer than 65,535 bytes"),
        }
    }
}

impl Error for BadArgument {}

impl Error for Fault {}
