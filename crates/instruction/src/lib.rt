// Instructions: the twelve operations by number, and which four words are an instruction.
#![tactic(auto)]

ghost use Rattle.std.specs.Prelude.{◌≡◌, true, ◌&&◌};
ghost use Rattle.instruction.specs.Instruction.{is_of, register as register_class, unused as unused_class, operation_of, operation_number, Numbered, form_of, ins, formed as formed_of, taken as taken_of};

mod decoding;

pub use decoding::decode;

// The most words of a code.
pub const MOST_WORDS: usize = 262144;

// How many registers there are.
const REGISTERS: u32 = 64;

// The operations, in the order of their numbers: halt is 0, slt is 11.
#[derive(Clone, Copy, Debug, PartialEq, Eq)]
pub enum Operation {
    Halt,
    Nop,
    Add,
    Addi,
    Sub,
    Mul,
    Load,
    Store,
    Jmp,
    Bne,
    Beq,
    Slt,
}

// A number that no operation has.
#[derive(Clone, Copy, Debug, PartialEq, Eq)]
pub struct UnknownOperation(pub u32);

// The operation of a number.
impl TryFrom<u32> for Operation {
    type Error = UnknownOperation;

    ghost try_from_gives = { Numbered };

    fn try_from(number: u32) -> Result<Self, UnknownOperation> {
        match number {
            0 => Ok(Operation::Halt),
            1 => Ok(Operation::Nop),
            2 => Ok(Operation::Add),
            3 => Ok(Operation::Addi),
            4 => Ok(Operation::Sub),
            5 => Ok(Operation::Mul),
            6 => Ok(Operation::Load),
            7 => Ok(Operation::Store),
            8 => Ok(Operation::Jmp),
            9 => Ok(Operation::Bne),
            10 => Ok(Operation::Beq),
            11 => Ok(Operation::Slt),
            _ => Err(UnknownOperation(number)),
        }
    }
}

// The number of an operation.
impl From<Operation> for u32 {
    ghost from_gives = { λ operation number. number ≡ operation_number operation };

    fn from(operation: Operation) -> u32 {
        operation as u32
    }
}

// How an operation's three words are written: none of them; three registers; a register, a number and a register; a register and
// the address of a load; the address of a store and a register; a label; two registers and a label.
// Unknown stays, for a number that no operation has: `form_of` cannot fail, and the definitions `operation_of` and `operands_of` rest on it.
#[derive(Clone, Copy, Debug, PartialEq, Eq)]
pub enum Form {
    Unknown,
    Bare,
    Registers,
    Immediate,
    Load,
    Store,
    Jump,
    Branch,
}

impl Operation {
    // How the operation's three words are written.
    #[tactic(auto, unfolding(crate::specs::Instruction::operation_of, crate::specs::Instruction::operations))]
    pub fn form(self) -> Form
        ensures { result ≡ form_of (operation_of (operation_number self)) }
    {
        match self {
            Operation::Halt | Operation::Nop => Form::Bare,
            Operation::Add | Operation::Sub | Operation::Mul | Operation::Slt => Form::Registers,
            Operation::Addi => Form::Immediate,
            Operation::Load => Form::Load,
            Operation::Store => Form::Store,
            Operation::Jmp => Form::Jump,
            Operation::Bne | Operation::Beq => Form::Branch,
        }
    }

    // Whether the three words fit the operation. A word that may hold anything is passed on as 0.
    // Each operation has its arm: where arms are joined, a step of the machine branches on the operation twice.
    #[tactic(auto, unfolding(crate::specs::Instruction::formed, crate::specs::Instruction::operation_of, crate::specs::Instruction::operations))]
    pub fn takes(self, a: u32, b: u32, c: u32) -> bool
        ensures { result ≡ formed_of (ins (operation_number self) a b c) }
    {
        match self {
            Operation::Halt => unused(a, b, c),
            Operation::Nop => unused(a, b, c),
            Operation::Add => registers(a, b, c),
            Operation::Addi => registers(a, 0, c),
            Operation::Sub => registers(a, b, c),
            Operation::Mul => registers(a, b, c),
            Operation::Load => registers(a, b, c),
            Operation::Store => registers(a, b, c),
            Operation::Jmp => unused(0, b, c),
            Operation::Bne => registers(a, b, 0),
            Operation::Beq => registers(a, b, 0),
            Operation::Slt => registers(a, b, c),
        }
    }
}

// Four words that are an instruction: its operation, and the three words that fit it.
#[derive(Clone, Copy)]
pub struct Instruction {
    pub operation: Operation,
    pub a: u32,
    pub b: u32,
    pub c: u32,
    pub ghost formed: { formed_of (ins (operation_number operation) a b c) ≡ true },
}

// The form of an operation's number.
#[tactic(auto, using(crate::proofs::Forms::no_operation))]
pub fn form_of(op: u32) -> Form
    ensures { result ≡ form_of (operation_of op) }
{
    match Operation::try_from(op) {
        Ok(operation) => operation.form(),
        Err(_) => Form::Unknown,
    }
}

// Whether code of so many words is taken.
#[tactic(auto, unfolding(crate::specs::Instruction::taken))]
pub fn taken(words: usize) -> bool
    ensures { result ≡ taken_of words }
{
    words % 4 == 0 && words <= MOST_WORDS
}

// Whether the three words are all 0.
fn unused(a: u32, b: u32, c: u32) -> bool
    ensures { result ≡ is_of unused_class a && (is_of unused_class b && is_of unused_class c) }
{
    a == 0 && b == 0 && c == 0
}

// Whether the three words are numbers of registers.
fn registers(a: u32, b: u32, c: u32) -> bool
    ensures { result ≡ is_of register_class a && (is_of register_class b && is_of register_class c) }
{
    a < REGISTERS && b < REGISTERS && c < REGISTERS
}

// Whether the four words are an instruction.
#[tactic(auto, using(crate::proofs::Forms::no_operation), unfolding(crate::specs::Instruction::formed))]
pub fn formed(op: u32, a: u32, b: u32, c: u32) -> bool
    ensures { result ≡ formed_of (ins op a b c) }
{
    match Operation::try_from(op) {
        Ok(operation) => operation.takes(a, b, c),
        Err(_) => false,
    }
}
