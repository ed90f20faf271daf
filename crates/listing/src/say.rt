// What the program prints: the first difference, or the counts.
use crate::judge::{Difference, Place};
use std::io::Write;
use std::{fmt, io};

impl fmt::Display for Place {
    fn fmt<W: fmt::Write>(&self, f: &mut fmt::Formatter<W>) -> fmt::Result {
        match *self {
            Place::Number => write!(f, "the answer"),
            Place::First => write!(f, "the answer's first value"),
            Place::Second => write!(f, "the answer's second value"),
            Place::Count => write!(f, "the count"),
            Place::Word(word) => write!(f, "word {word}"),
            Place::Byte(at) => write!(f, "the byte at {at:08x}"),
        }
    }
}

impl fmt::Display for Difference {
    fn fmt<W: fmt::Write>(&self, f: &mut fmt::Formatter<W>) -> fmt::Result {
        match *self {
            Difference::Unread => write!(f, "no case"),
            Difference::Value {
                place,
                found,
                listed,
            } => write!(f, "{place} is {found:08x}, listed {listed:08x}"),
        }
    }
}

pub fn print_difference<W: Write>(
    out: &mut W,
    line: u32,
    difference: Difference,
) -> io::Result<()> {
    writeln!(out, "line {line}: {difference}")
}

// The cases of each answer, and all of them.
pub fn print_counts<W: Write>(out: &mut W, counts: &[u32; 12]) -> io::Result<()> {
    let mut all: u32 = 0;
    for (answer, count) in counts.iter().enumerate() {
        writeln!(out, "answer {answer}: {count}")?;
        all = all.wrapping_add(*count);
    }
    writeln!(out, "{all} cases, all as listed")
}
