// What the demonstration shows, in words: a declaration, a time of day, and registers in lines.
use crate::antenna::Declaration;
use rule::Sort;
use std::fmt;
use wording::SignedWords;

// What a name is declared as: a constant by its value, a variable by its cell, an array by its first cell.
#[derive(Clone, Copy)]
pub(crate) enum Declared {
    Constant(u32),
    Variable(u32),
    Array(u32),
}

impl Declared {
    // The declaration, with the base that the layout has at its row.
    pub(crate) fn new(declaration: Declaration, base: u32) -> Declared {
        match declaration.sort {
            Sort::Constant => Declared::Constant(declaration.value),
            Sort::Variable => Declared::Variable(base),
            Sort::Array => Declared::Array(base),
        }
    }
}

impl fmt::Display for Declared {
    fn fmt<W: fmt::Write>(&self, f: &mut fmt::Formatter<W>) -> fmt::Result {
        match *self {
            Declared::Constant(value) => write!(f, "constant {}", value.cast_signed()),
            Declared::Variable(cell) => write!(f, "variable, cell {cell}"),
            Declared::Array(cell) => write!(f, "array from cell {cell}"),
        }
    }
}

// Seconds after midnight as hours, minutes and seconds.
#[derive(Clone, Copy)]
pub(crate) struct Clock(pub(crate) u32);

impl fmt::Display for Clock {
    fn fmt<W: fmt::Write>(&self, f: &mut fmt::Formatter<W>) -> fmt::Result {
        let minutes = self.0 / 60;
        write!(
            f,
            "{:02}:{:02}:{:02}",
            minutes / 60,
            minutes % 60,
            self.0 % 60
        )
    }
}

// Registers, eight to a line, with the number of the first in front.
#[derive(Clone, Copy)]
pub(crate) struct Registers<'a>(pub(crate) &'a [u32]);

impl fmt::Display for Registers<'_> {
    fn fmt<W: fmt::Write>(&self, f: &mut fmt::Formatter<W>) -> fmt::Result {
        for (line, words) in self.0.chunks_exact(8).enumerate() {
            let first = line * 8;
            let indent = if first < 10 { 5 } else { 4 };
            writeln!(f, "{:indent$}${first} {}", "", SignedWords(words))?;
        }
        Ok(())
    }
}
