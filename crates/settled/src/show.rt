// What the examples come to, in words: a refusal, a compilation, a run or a step, the cell of x, and code.
use crate::INSTRUCTION_WORDS;
use compiler::Accepted;
use machine::{Ended, Ending, Left, Taken};
use refusal::Refusal;
use std::fmt;
use wording::{Counted, EndingWords, RunWords};

// A refusal by its number, and what the number returned with it stands for.
#[derive(Clone, Copy)]
struct Refused(Refusal);

impl fmt::Display for Refused {
    fn fmt<W: fmt::Write>(&self, f: &mut fmt::Formatter<W>) -> fmt::Result {
        let stands_for = match self.0 {
            Refusal::Declaration(_)
            | Refusal::Cells(_)
            | Refusal::Word(_)
            | Refusal::Sort(_)
            | Refusal::Name(_)
            | Refusal::NamedKind(_)
            | Refusal::Uses(_) => "row",
            Refusal::Registers(_) => "need",
            Refusal::Room(_) => "instructions",
            _ => "returned",
        };
        let (number, value) = (self.0.number(), self.0.value());
        write!(f, "refusal {number}, {stands_for} {value}")
    }
}

// What a compilation came to.
#[derive(Clone, Copy)]
pub(crate) struct Compiled(pub(crate) Result<Accepted, Refusal>);

impl fmt::Display for Compiled {
    fn fmt<W: fmt::Write>(&self, f: &mut fmt::Formatter<W>) -> fmt::Result {
        match self.0 {
            Ok(accepted) => write!(
                f,
                "accepted, {}, {}, need {}",
                Counted(accepted.instructions, "instruction"),
                Counted(accepted.cells, "cell"),
                accepted.need,
            ),
            Err(refusal) => write!(f, "{}", Refused(refusal)),
        }
    }
}

// What a run came to.
#[derive(Clone, Copy)]
pub(crate) struct Ran(pub(crate) Result<Ended, Refusal>);

impl fmt::Display for Ran {
    fn fmt<W: fmt::Write>(&self, f: &mut fmt::Formatter<W>) -> fmt::Result {
        match self.0 {
            Ok(ended) => write!(f, "{}", RunWords(ended)),
            Err(refusal) => write!(f, "{}", Refused(refusal)),
        }
    }
}

// What a step came to, with the place that it left.
#[derive(Clone, Copy)]
pub(crate) struct Stepped<'a>(pub(crate) &'a Left<Result<Taken, Refusal>>);

impl fmt::Display for Stepped<'_> {
    fn fmt<W: fmt::Write>(&self, f: &mut fmt::Formatter<W>) -> fmt::Result {
        match self.0.answer {
            Ok(Taken::Went) => write!(f, "went on to {}", self.0.state.place),
            Ok(Taken::Halted) => write!(f, "{}", EndingWords(Ending::Halted)),
            Ok(Taken::Faulted(fault)) => write!(f, "{}", EndingWords(Ending::Faulted(fault))),
            Err(refusal) => write!(f, "{}", Refused(refusal)),
        }
    }
}

// Cell 0, which is x, where there is one.
#[derive(Clone, Copy)]
pub(crate) struct X<'a>(pub(crate) &'a [u32]);

impl fmt::Display for X<'_> {
    fn fmt<W: fmt::Write>(&self, f: &mut fmt::Formatter<W>) -> fmt::Result {
        match self.0.first() {
            None => write!(f, "no cells"),
            Some(x) => write!(f, "x = {}", x.cast_signed()),
        }
    }
}

// The code's words, an instruction after the other: " (3,1,2,0) (0,0,0,0)".
#[derive(Clone, Copy)]
pub(crate) struct Code<'a>(pub(crate) &'a [u32]);

impl fmt::Display for Code<'_> {
    fn fmt<W: fmt::Write>(&self, f: &mut fmt::Formatter<W>) -> fmt::Result {
        let (instructions, _) = self.0.as_chunks::<INSTRUCTION_WORDS>();
        for [operation, a, b, c] in instructions {
            write!(
                f,
                " ({operation},{},{},{})",
                a.cast_signed(),
                b.cast_signed(),
                c.cast_signed(),
            )?;
        }
        Ok(())
    }
}
