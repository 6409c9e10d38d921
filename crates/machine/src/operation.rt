// One instruction, done on the registers and the memory where they lie. Where it leads does not hang on its place: each contract is for every place p.
ghost use Rattle.std.specs.Prelude.{◌≡◌, ℕ, ◌≤◌, Bool, if◌then◌else◌, nat_eq};
ghost use Rattle.word.specs.Word.{sum_of, address_of, cell_of};
ghost use Rattle.instruction.specs.Instruction.{ins, operation_number};
ghost use Rattle.machine.specs.Step.{Fault as fault, did, read_of, cell_at, loads, stores, jumps_to, branches, perform as perform_of};
ghost use Rattle.machine.specs.Inside.{moved, Wrote, cell_said, ThreeRegisters, NumberBetween, TwoRegisters, Register, Cleared, Few};

use crate::Move;
use crate::fault::Fault;
use instruction::{Instruction, Operation};

// What a register reads as, where place 0 is cleared.
#[tactic(auto, using(crate::proofs::Cleared::read_cleared))]
fn read(registers: &[u32; 64], register: u32) -> u32
    requires { Register register × Cleared registers.now }
    ensures { result ≡ read_of registers.now register }
{
    registers[register as usize]
}

// Writes a value to a register, and goes on.
fn write(registers: &mut [u32; 64], register: u32, value: u32) -> Move
    requires { Register register }
    ensures { Wrote register value registers.old registers.new result }
{
    if register == 0 {
        return Move::Fault(Fault::ZeroWritten);
    }
    registers[register as usize] = value;
    Move::On
}

// A jump that is taken, in a code of count instructions.
fn jump(count: usize, label: u32) -> Move
    ensures { (p : ℕ) → moved p result ≡ jumps_to count label }
{
    let to = label as usize;
    if to < count {
        Move::To(to)
    } else {
        Move::Fault(Fault::LabelOutside)
    }
}

// A branch: a jump to c where the test of registers a and b says so.
#[tactic(auto, using(crate::proofs::Formed::two_registers))]
fn branch<F: Fn(u32, u32) -> bool>(
    registers: &[u32; 64],
    count: usize,
    instruction: Instruction,
    test: F,
) -> Move
    requires { TwoRegisters instruction × Cleared registers.now × F.IsAlwaysCallable test }
    ensures { (taken : Bool) × F.post test (read_of registers.now instruction.a) (read_of registers.now instruction.b) taken × ((p : ℕ) → moved p result ≡ branches taken count p instruction.c) }
{
    let x = read(registers, instruction.a);
    let y = read(registers, instruction.b);
    if test(x, y) {
        jump(count, instruction.c)
    } else {
        Move::On
    }
}

// Register a becomes what the rule makes of registers b and c.
#[tactic(auto, using(crate::proofs::Formed::three_registers))]
fn calculate<F: Fn(u32, u32) -> u32>(
    registers: &mut [u32; 64],
    instruction: Instruction,
    rule: F,
) -> Move
    requires { ThreeRegisters instruction × Cleared registers.old × F.IsAlwaysCallable rule }
    ensures { (value : ℕ) × F.post rule (read_of registers.old instruction.b) (read_of registers.old instruction.c) value × Wrote instruction.a value registers.old registers.new result }
{
    let x = read(registers, instruction.b);
    let y = read(registers, instruction.c);
    let value = rule(x, y);
    write(registers, instruction.a, value)
}

// Register a becomes the sum of the number b and register c.
#[tactic(auto, using(crate::proofs::Formed::number_between))]
fn add_number(registers: &mut [u32; 64], instruction: Instruction) -> Move
    requires { NumberBetween instruction × Cleared registers.old }
    ensures { Wrote instruction.a (sum_of instruction.b (read_of registers.old instruction.c)) registers.old registers.new result }
{
    let value = word::sum(instruction.b, read(registers, instruction.c));
    write(registers, instruction.a, value)
}

// A load to a register whose address is outside memory: the write to $0 is checked first.
fn missed(register: u32) -> Move
    ensures { (p : ℕ) → moved p result ≡ (if nat_eq register 0 then fault 3 else fault 4) }
{
    if register != 0 {
        Move::Fault(Fault::AddressOutside)
    } else {
        Move::Fault(Fault::ZeroWritten)
    }
}

// The cell that base plus index names, in a memory of size cells.
// In 64 bits the sum of two signed words is exact, and a negative one is, read without its sign, larger than any size.
fn cell_at(base: u32, index: u32, size: usize) -> Option<usize>
    requires { size ≤ 65536 }
    ensures { cell_said result ≡ cell_of (address_of base index) size }
{
    let exact = i64::from(base.cast_signed()) + i64::from(index.cast_signed());
    let at = exact.cast_unsigned() as usize;
    (at < size).then_some(at)
}

// Register a becomes the cell at the address of registers b and c.
#[tactic(auto, using(crate::proofs::Formed::three_registers, word::proofs::Cells::cell_within))]
fn load(registers: &mut [u32; 64], memory: &[u32], instruction: Instruction) -> Move
    requires { ThreeRegisters instruction × Cleared registers.old × Few memory.now }
    ensures { (p : ℕ) → did (moved p result) registers.new memory.now ≡ loads p instruction.a (cell_at registers.old memory.now instruction.b instruction.c) registers.old memory.now }
{
    let base = read(registers, instruction.b);
    let index = read(registers, instruction.c);
    match cell_at(base, index, memory.len()) {
        Some(cell) => write(registers, instruction.a, memory[cell]),
        None => missed(instruction.a),
    }
}

// The cell at the address of registers a and b becomes register c.
#[tactic(auto, using(crate::proofs::Formed::three_registers, word::proofs::Cells::cell_within))]
fn store(registers: &[u32; 64], memory: &mut [u32], instruction: Instruction) -> Move
    requires { ThreeRegisters instruction × Cleared registers.now × Few memory.old }
    ensures { (p : ℕ) → did (moved p result) registers.now memory.new ≡ stores p (read_of registers.now instruction.c) (cell_at registers.now memory.old instruction.a instruction.b) registers.now memory.old }
{
    let value = read(registers, instruction.c);
    let base = read(registers, instruction.a);
    let index = read(registers, instruction.b);
    match cell_at(base, index, memory.len()) {
        Some(cell) => {
            memory[cell] = value;
            Move::On
        }
        None => Move::Fault(Fault::AddressOutside),
    }
}

// An instruction of a code of count instructions.
// A match: a table of functions is no plainer, for their parameters differ (they take registers alone, memory too, or the number of instructions).
#[tactic(auto, unfolding(crate::specs::Step::perform, instruction::specs::Instruction::operation_of, instruction::specs::Instruction::operations))]
pub(crate) fn perform(
    count: usize,
    registers: &mut [u32; 64],
    memory: &mut [u32],
    instruction: Instruction,
) -> Move
    requires { Cleared registers.old × Few memory.old }
    ensures { (p : ℕ) → did (moved p result) registers.new memory.new ≡ perform_of count p registers.old memory.old (ins (operation_number instruction.operation) instruction.a instruction.b instruction.c) }
{
    match instruction.operation {
        Operation::Halt => Move::Halt,
        Operation::Nop => Move::On,
        Operation::Add => calculate(registers, instruction, word::sum),
        Operation::Addi => add_number(registers, instruction),
        Operation::Sub => calculate(registers, instruction, word::difference),
        Operation::Mul => calculate(registers, instruction, word::product),
        Operation::Load => load(registers, memory, instruction),
        Operation::Store => store(registers, memory, instruction),
        Operation::Jmp => jump(count, instruction.a),
        Operation::Bne => branch(registers, count, instruction, |x, y| x != y),
        Operation::Beq => branch(registers, count, instruction, |x, y| x == y),
        Operation::Slt => calculate(registers, instruction, |x, y| u32::from(word::less(x, y))),
    }
}
