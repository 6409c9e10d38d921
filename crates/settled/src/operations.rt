// The settled examples of the machine alone: results that wrap, signed order, exact addresses, and the label of a branch.
use crate::show::{Ran, Stepped};
use crate::{INSTRUCTION_WORDS, start_with};
use instruction::Operation;
use std::io;

// The words of an instruction.
fn words(operation: Operation, a: u32, b: u32, c: u32) -> [u32; INSTRUCTION_WORDS] {
    [u32::from(operation), a, b, c]
}

// Two words are put into $1 and $2, and the operation's result into $3, in four steps with no memory. The sign stands for the operation.
fn operate(rt: &impl Print, operation: Operation, sign: char, b: i32, c: i32) -> io::Result<()> {
    let code = [
        words(Operation::Addi, 1, b.cast_unsigned(), 0),
        words(Operation::Addi, 2, c.cast_unsigned(), 0),
        words(operation, 3, 1, 2),
        words(Operation::Halt, 0, 0, 0),
    ];
    let ran = machine::run(code.as_flattened(), &mut [], start_with(0, 0), 4);
    let gives = ran.state.registers[3].cast_signed();
    println!(rt; "{b} {sign} {c} = {gives}: {}", Ran(ran.answer))
}

// The three results that wrap.
pub(crate) fn wrapping(rt: &impl Print) -> io::Result<()> {
    operate(rt, Operation::Add, '+', i32::MAX, 1)?;
    operate(rt, Operation::Mul, '*', 46341, 46341)?;
    operate(rt, Operation::Mul, '*', i32::MIN, -1)
}

// An instruction that is tried alone: what it is called, and its words.
#[derive(Clone, Copy)]
struct Single {
    name: &'static str,
    words: [u32; INSTRUCTION_WORDS],
}

impl Single {
    // One step of it over cells that hold 70 and 71, with $1 and $2 as given. What it left in $3 is handed back.
    fn step(self, rt: &impl Print, one: i32, two: i32) -> io::Result<i32> {
        let code = [self.words, words(Operation::Halt, 0, 0, 0)];
        let from = start_with(one.cast_unsigned(), two.cast_unsigned());
        let stepped = machine::step(code.as_flattened(), &mut [70, 71], from);
        print!(rt;
            "{}, $1 = {one}, $2 = {two}: {}",
            self.name,
            Stepped(&stepped)
        )?;
        Ok(stepped.state.registers[3].cast_signed())
    }
}

// Signed order.
fn order(rt: &impl Print) -> io::Result<()> {
    let slt = Single {
        name: "slt $3 $1 $2",
        words: words(Operation::Slt, 3, 1, 2),
    };
    let less = slt.step(rt, -1, 0)?;
    println!(rt; ", $3 = {less}")
}

// Exact addresses: the sum of base and index is not wrapped.
fn addresses(rt: &impl Print) -> io::Result<()> {
    let load = Single {
        name: "load $3 $1[$2] of cells 70 71",
        words: words(Operation::Load, 3, 1, 2),
    };
    for (base, index) in [
        (i32::MAX, 1),
        (65535, -65535),
        (i32::MIN, i32::MIN),
        (i32::MIN, -i32::MAX),
    ] {
        let loaded = load.step(rt, base, index)?;
        println!(rt; ", $3 = {loaded}")?;
    }
    Ok(())
}

// The label of a branch outside the code: read only where the branch is taken.
fn branches(rt: &impl Print) -> io::Result<()> {
    let beq = Single {
        name: "beq $1 $2 99 in a code of 2",
        words: words(Operation::Beq, 1, 2, 99),
    };
    for a in [0, 1] {
        beq.step(rt, a, 1)?;
        println!(rt)?;
    }
    Ok(())
}

// Signed order, exact addresses, and the label of a branch outside the code.
pub(crate) fn steps(rt: &impl Print) -> io::Result<()> {
    order(rt)?;
    addresses(rt)?;
    branches(rt)
}
