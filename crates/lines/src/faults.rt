ghost use Rattle.std.specs.Prelude.{◌≡◌, Some};
ghost use Rattle.lines.specs.Faults.{fault_text, error_text};
ghost use Rattle.lines.specs.declared.faults.ParseError.TheVariants.{Wrong, Memory};

use std::alloc::{AllocError, AllocFailed};
use std::error::Error;
use std::fmt;
use std::fmt::Display;

// Why a line asks for nothing.
#[derive(Clone, Copy, Debug, PartialEq, Eq)]
pub enum Fault {
    UnknownWord,
    TooFewWords,
    TooManyWords,
    NoNumber,
    NumberTooLarge,
    BadWay,
    BadAccess,
    BadEscape,
    BadHex,
}

impl Fault {
    // What was expected.
    pub fn text(self) -> &'static str
        ensures { result.now ≡ fault_text self }
    {
        match self {
            Fault::UnknownWord => "no such command: help lists them",
            Fault::TooFewWords => "too few words: help shows those of each command",
            Fault::TooManyWords =>
                "too many words: help shows those of each command, and a space in a path is \\20",
            Fault::NoNumber => "a number is decimal digits",
            Fault::NumberTooLarge => "a number is at most 18446744073709551615",
            Fault::BadWay => "the way to open is old, may or new",
            Fault::BadAccess => "the access is read or write",
            Fault::BadEscape =>
                "in a path, a byte below 33 and the backslash are \\ and two hexadecimal digits, and the empty path is \\.",
            Fault::BadHex => "bytes are pairs of hexadecimal digits",
        }
    }
}

impl fmt::Display for Fault {
    ghost output = { λ f. Some (fault_text f) };

    fn fmt<W: fmt::Write>(&self, f: &mut fmt::Formatter<W>) -> fmt::Result {
        f.write_str(self.text())
    }
}

// Why a line could not be read to its end.
#[derive(Debug, PartialEq, Eq, Drop)]
pub enum ParseError {
    Wrong(Fault),
    Memory,
}

impl fmt::Display for ParseError {
    ghost output = { λ e. Some (error_text e) };

    fn fmt<W: fmt::Write>(&self, f: &mut fmt::Formatter<W>) -> fmt::Result {
        match self {
            ParseError::Wrong(fault) => fault.fmt(f),
            ParseError::Memory => f.write_str("memory allocation failed"),
        }
    }
}

impl Error for ParseError {}

impl From<Fault> for ParseError {
    ghost from_gives = { λ f r. r ≡ Wrong f };

    fn from(fault: Fault) -> ParseError {
        ParseError::Wrong(fault)
    }
}

impl From<AllocError> for ParseError {
    ghost from_gives = { λ _ r. r ≡ Memory };

    fn from(_e: AllocError) -> ParseError {
        ParseError::Memory
    }
}

impl<T: Drop> From<AllocFailed<T>> for ParseError {
    ghost from_gives = { λ _ r. r ≡ Memory };

    fn from(_e: AllocFailed<T>) -> ParseError {
        ParseError::Memory
    }
}
