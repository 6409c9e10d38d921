// How the programs word what they show: so many of a thing, what a run came to, words as signed numbers, and a pool's registers.
#![tactic(auto)]

ghost use Rattle.std.specs.Prelude.{Some};
ghost use Rattle.wording.specs.Words.{counted, ending_words, run_words, signed_words, pool_words};

use machine::{Ended, Ending};
use std::fmt;

// So many of a thing, by its name for one: "1 cell", "2 cells".
#[derive(Clone, Copy)]
pub struct Counted(pub u32, pub &'static str);

impl fmt::Display for Counted {
    ghost output = { λ c. Some (counted c.0 c.1.now) };

    fn fmt<W: fmt::Write>(&self, f: &mut fmt::Formatter<W>) -> fmt::Result {
        let Counted(count, thing) = *self;
        let plural = if count == 1 { "" } else { "s" };
        write!(f, "{count} {thing}{plural}")
    }
}

// An ending: "halted", "fault 4", "unfinished".
#[derive(Clone, Copy)]
pub struct EndingWords(pub Ending);

impl fmt::Display for EndingWords {
    ghost output = { λ e. Some (ending_words e.0) };

    fn fmt<W: fmt::Write>(&self, f: &mut fmt::Formatter<W>) -> fmt::Result {
        match self.0 {
            Ending::Halted => write!(f, "halted"),
            Ending::Faulted(fault) => write!(f, "fault {fault}"),
            Ending::Unfinished => write!(f, "unfinished"),
        }
    }
}

// What a run came to: "halted after 4 steps".
#[derive(Clone, Copy)]
pub struct RunWords(pub Ended);

impl fmt::Display for RunWords {
    ghost output = { λ r. Some (run_words r.0.ending r.0.steps) };

    fn fmt<W: fmt::Write>(&self, f: &mut fmt::Formatter<W>) -> fmt::Result {
        let Ended { ending, steps } = self.0;
        let counted = Counted(steps, "step");
        write!(f, "{} after {counted}", EndingWords(ending))
    }
}

// Words as the signed numbers that they stand for, a blank before each.
#[derive(Clone, Copy)]
pub struct SignedWords<'a>(pub &'a [u32]);

impl fmt::Display for SignedWords<'_> {
    ghost output = { λ w. Some (signed_words w.0.now) };

    fn fmt<W: fmt::Write>(&self, f: &mut fmt::Formatter<W>) -> fmt::Result {
        for word in self.0 {
            write!(f, " {}", word.cast_signed())?;
        }
        Ok(())
    }
}

// The registers whose bits a pool has set, a blank before each: " $40 $41".
#[derive(Clone, Copy)]
pub struct PoolWords(pub u64);

impl fmt::Display for PoolWords {
    ghost output = { λ p. Some (pool_words p.0 64) };

    fn fmt<W: fmt::Write>(&self, f: &mut fmt::Formatter<W>) -> fmt::Result {
        for register in 0..u64::BITS {
            if (self.0 >> register) % 2 == 1 {
                write!(f, " ${register}")?;
            }
        }
        Ok(())
    }
}
