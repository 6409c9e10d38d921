// The numbered refusals: why a check refuses, and what every entry point and every check answers by where it does.
#![tactic(auto)]

ghost use Rattle.std.specs.Prelude.{◌≡◌, Some};
ghost use Rattle.refusal.specs.Refusal.{number_of, value_of};
ghost use Rattle.refusal.specs.Words.{refusal_words};

use std::error::Error;
use std::fmt;

// A refusal, in the order of the numbers, with what is returned with it: a row, a need, a count or a place.
#[derive(Clone, Copy, Debug, PartialEq, Eq)]
pub enum Refusal {
    NodeWords,
    DeclarationWords,
    Pool,
    Declaration(u32),
    Cells(u32),
    Word(u32),
    Sort(u32),
    Name(u32),
    NamedKind(u32),
    Uses(u32),
    Registers(u32),
    Room(u32),
    CodeWords,
    MemoryCells,
    Instruction(u32),
    TextRoom(u32),
}

impl Refusal {
    // The refusal's number.
    pub fn number(self) -> u32
        ensures { result ≡ number_of self }
    {
        match self {
            Refusal::NodeWords => 1,
            Refusal::DeclarationWords => 2,
            Refusal::Pool => 3,
            Refusal::Declaration(_) => 4,
            Refusal::Cells(_) => 5,
            Refusal::Word(_) => 6,
            Refusal::Sort(_) => 7,
            Refusal::Name(_) => 8,
            Refusal::NamedKind(_) => 9,
            Refusal::Uses(_) => 10,
            Refusal::Registers(_) => 11,
            Refusal::Room(_) => 12,
            Refusal::CodeWords => 13,
            Refusal::MemoryCells => 14,
            Refusal::Instruction(_) => 21,
            Refusal::TextRoom(_) => 22,
        }
    }

    // The number returned with it.
    pub fn value(self) -> u32
        ensures { result ≡ value_of self }
    {
        match self {
            Refusal::NodeWords
            | Refusal::DeclarationWords
            | Refusal::Pool
            | Refusal::CodeWords
            | Refusal::MemoryCells => 0,
            Refusal::Declaration(row) | Refusal::Cells(row) => row,
            Refusal::Word(row)
            | Refusal::Sort(row)
            | Refusal::Name(row)
            | Refusal::NamedKind(row)
            | Refusal::Uses(row) => row,
            Refusal::Registers(need) => need,
            Refusal::Room(instructions) => instructions,
            Refusal::Instruction(place) => place,
            Refusal::TextRoom(bytes) => bytes,
        }
    }
}

// What is wrong, in words. What is returned with a refusal is not among them: the programs tell it beside them.
impl fmt::Display for Refusal {
    ghost output = { λ refusal. Some (refusal_words refusal) };

    fn fmt<W: fmt::Write>(&self, f: &mut fmt::Formatter<W>) -> fmt::Result {
        f.write_str(match self {
            Refusal::NodeWords => "the table of nodes is empty, too long, or ends within a row",
            Refusal::DeclarationWords => {
                "the table of declarations is too long, or ends within a row"
            }
            Refusal::Pool => "the pool holds $0",
            Refusal::Declaration(_) => "this row is no declaration",
            Refusal::Cells(_) => "with this row the cells pass 65,536",
            Refusal::Word(_) => "this row's kind, an unused word or a child's number is wrong",
            Refusal::Sort(_) => {
                "an expression stands for a command here, or a command for an expression"
            }
            Refusal::Name(_) => "this row names no declaration",
            Refusal::NamedKind(_) => "what this row names is declared as another kind",
            Refusal::Uses(_) => "this row is not used exactly once",
            Refusal::Registers(_) => "too few registers",
            Refusal::Room(_) => "the code buffer is too small",
            Refusal::CodeWords => "the code is too long, or ends within an instruction",
            Refusal::MemoryCells => "the memory is too large",
            Refusal::Instruction(_) => "this is no instruction, or its label is outside the code",
            Refusal::TextRoom(_) => "the text is too short",
        })
    }
}

impl Error for Refusal {}
