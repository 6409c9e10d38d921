// A refusal with its reason in words, and what a compilation and a run came to.
use compiler::Accepted;
use machine::Ended;
use refusal::Refusal;
use std::fmt;
use wording::{Counted, RunWords};

// A refusal, and the pool that was lent, where one was.
#[derive(Clone, Copy)]
pub(crate) struct Refused {
    refusal: Refusal,
    pool: Option<u64>,
}

// A refusal where no pool was lent.
impl From<Refusal> for Refused {
    fn from(refusal: Refusal) -> Refused {
        Refused {
            refusal,
            pool: None,
        }
    }
}

// Its number, what the number returned with it stands for, and its reason.
impl fmt::Display for Refused {
    fn fmt<W: fmt::Write>(&self, f: &mut fmt::Formatter<W>) -> fmt::Result {
        let Refused { refusal, pool } = *self;
        write!(f, "refusal {}", refusal.number())?;
        match refusal {
            Refusal::Declaration(row)
            | Refusal::Cells(row)
            | Refusal::Word(row)
            | Refusal::Sort(row)
            | Refusal::Name(row)
            | Refusal::NamedKind(row)
            | Refusal::Uses(row) => write!(f, ", row {row}")?,
            Refusal::Registers(need) => {
                write!(f, ", needed {need}")?;
                if let Some(pool) = pool {
                    write!(f, ", in the pool {}", pool.count_ones())?
                }
            }
            Refusal::Room(instructions) => {
                write!(f, ", needed {}", Counted(instructions, "instruction"))?
            }
            Refusal::Instruction(place) => write!(f, ", instruction {place}")?,
            Refusal::TextRoom(bytes) => write!(f, ", needed {}", Counted(bytes, "byte"))?,
            _ => (),
        }
        write!(f, ": {refusal}")
    }
}

// What a compilation came to, for a pool.
#[derive(Clone, Copy)]
pub(crate) struct Compiled {
    pub(crate) answer: Result<Accepted, Refusal>,
    pub(crate) pool: u64,
}

impl fmt::Display for Compiled {
    fn fmt<W: fmt::Write>(&self, f: &mut fmt::Formatter<W>) -> fmt::Result {
        match self.answer {
            Ok(accepted) => write!(
                f,
                "accepted with {}, {} and {} needed",
                Counted(accepted.instructions, "instruction"),
                Counted(accepted.cells, "cell"),
                Counted(accepted.need, "register"),
            ),
            Err(refusal) => {
                let pool = Some(self.pool);
                write!(f, "{}", Refused { refusal, pool })
            }
        }
    }
}

// What a run came to, with the place that it left.
#[derive(Clone, Copy)]
pub(crate) struct Ran {
    pub(crate) answer: Result<Ended, Refusal>,
    pub(crate) place: u32,
}

impl fmt::Display for Ran {
    fn fmt<W: fmt::Write>(&self, f: &mut fmt::Formatter<W>) -> fmt::Result {
        match self.answer {
            Ok(ended) => write!(f, "{}, at place {}", RunWords(ended), self.place),
            Err(refusal) => write!(f, "{}", Refused::from(refusal)),
        }
    }
}
