// The settled examples of 01-scope.md, each compiled and run, and what came of it in a line.
#![tactic(auto)]

mod operations;
mod show;
mod table;

use machine::State;
use rule::{Command, DECLARATION_WORDS, Expression, Operator, Sort};
use show::{Code, Compiled, Ran, Stepped, X};
use std::io;
use table::{Nested, Row, command, expression};

// Pools by their registers: $1; $1 and $2; and so on, to all of them.
const POOL_1: u64 = 0b10;

const POOL_1_2: u64 = 0b110;

const POOL_1_4: u64 = 0b11110;

const POOL_1_5: u64 = 0b111110;

const POOL_1_63: u64 = u64::MAX - 1;

// The words of an instruction, and buffers with room for 2 instructions, for 16, and for the longest code.
const INSTRUCTION_WORDS: usize = 4;

const SMALL_ROOM: usize = 2 * INSTRUCTION_WORDS;

const ROOM: usize = 16 * INSTRUCTION_WORDS;

const DEEP_ROOM: usize = 1366 * INSTRUCTION_WORDS;

// An example: what it is called, its rule, and the pool that it is compiled for.
#[derive(Clone, Copy)]
struct Example<'a> {
    name: &'a str,
    nodes: &'a [Row],
    pool: u64,
}

impl<'a> Example<'a> {
    // The example of that name, rule and pool.
    fn new(name: &'a str, nodes: &'a [Row], pool: u64) -> Example<'a> {
        Example { name, nodes, pool }
    }

    // The rule is compiled and its line printed. The code is handed back, none of a refused rule.
    fn compiled_over<'b>(
        self,
        rt: &impl Print,
        declarations: &[[u32; DECLARATION_WORDS]],
        buffer: &'b mut [u32],
    ) -> io::Result<Option<&'b [u32]>> {
        let nodes = self.nodes.as_flattened();
        let answer = compiler::compile(declarations.as_flattened(), nodes, self.pool, buffer);
        println!(rt; "{}: {}", self.name, Compiled(answer))?;
        let Ok(accepted) = answer else {
            return Ok(None);
        };
        let words = accepted.instructions as usize * INSTRUCTION_WORDS;
        Ok(Some(&buffer[..words.min(buffer.len())]))
    }

    // The same over one variable, x.
    fn compiled<'b>(self, rt: &impl Print, buffer: &'b mut [u32]) -> io::Result<Option<&'b [u32]>> {
        self.compiled_over(rt, &[[u32::from(Sort::Variable), 0]], buffer)
    }
}

// Place 0, and registers of 0 but for $1 and $2.
pub(crate) fn start_with(one: u32, two: u32) -> State {
    let mut registers = [0; 64];
    registers[1] = one;
    registers[2] = two;
    State {
        place: 0,
        registers,
    }
}

// A run from place 0 with registers of 0, and its line.
fn run(rt: &impl Print, code: &[u32], memory: &mut [u32], budget: u32) -> io::Result<()> {
    print!(rt; "  {}, budget {budget}: ", X(memory))?;
    let ran = machine::run(code, memory, start_with(0, 0), budget);
    print!(rt; "{}", Ran(ran.answer))?;
    if !memory.is_empty() {
        print!(rt; ", {}", X(memory))?;
    }
    println!(rt)
}

// The same over one cell that holds x.
fn run_with(rt: &impl Print, code: &[u32], x: u32, budget: u32) -> io::Result<()> {
    run(rt, code, &mut [x], budget)
}

// Four single steps, in a line.
fn four_steps(rt: &impl Print, code: &[u32]) -> io::Result<()> {
    let mut memory = [0];
    let mut state = start_with(0, 0);
    print!(rt; "  {}, single steps: ", X(&memory))?;
    for _ in 0..4 {
        let stepped = machine::step(code, &mut memory, state);
        state = stepped.state;
        print!(rt; "{}, ", Stepped(&stepped))?;
    }
    println!(rt; "{}", X(&memory))
}

// x := 2.
fn assign(rt: &impl Print) -> io::Result<()> {
    let nodes = [
        expression(Expression::Value, 2, 0),
        command(Command::Assign, 0, 0, 0),
    ];
    let mut buffer = [0; ROOM];
    let example = Example::new("x := 2, pool 1-2", &nodes, POOL_1_2);
    let Some(code) = example.compiled(rt, &mut buffer)? else {
        return Ok(());
    };
    println!(rt; "  code:{}", Code(code))?;
    for budget in 2..5 {
        run_with(rt, code, 0, budget)?;
    }
    four_steps(rt, code)?;
    run(rt, code, &mut [], 3)?;
    run(rt, code, &mut [], 2)?;
    Example::new("x := 2, pool 1", &nodes, POOL_1).compiled(rt, &mut buffer)?;
    Ok(())
}

// x := 9 - (5 - 2).
fn nested(rt: &impl Print) -> io::Result<()> {
    let nodes = [
        expression(Expression::Value, 9, 0),
        expression(Expression::Value, 5, 0),
        expression(Expression::Value, 2, 0),
        expression(Expression::Binary(Operator::Minus), 1, 2),
        expression(Expression::Binary(Operator::Minus), 0, 3),
        command(Command::Assign, 0, 4, 0),
    ];
    let mut buffer = [0; ROOM];
    let example = Example::new("x := 9 - (5 - 2), pool 1-5", &nodes, POOL_1_5);
    let Some(code) = example.compiled(rt, &mut buffer)? else {
        return Ok(());
    };
    println!(rt; "  code:{}", Code(code))?;
    run_with(rt, code, 0, 8)?;
    let narrower = Example::new("x := 9 - (5 - 2), pool 1-4", &nodes, POOL_1_4);
    narrower.compiled(rt, &mut buffer)?;
    Ok(())
}

// x := not 0.
fn not(rt: &impl Print) -> io::Result<()> {
    let nodes = [
        expression(Expression::Value, 0, 0),
        expression(Expression::Not, 0, 0),
        command(Command::Assign, 0, 1, 0),
    ];
    let mut buffer = [0; ROOM];
    let example = Example::new("x := not 0, pool 1-2", &nodes, POOL_1_2);
    let Some(code) = example.compiled(rt, &mut buffer)? else {
        return Ok(());
    };
    run_with(rt, code, 0, 5)?;
    run_with(rt, code, 0, 6)
}

// skip, with no register at all.
fn skip(rt: &impl Print) -> io::Result<()> {
    let nodes = [command(Command::Skip, 0, 0, 0)];
    let mut buffer = [0; ROOM];
    let example = Example::new("skip, pool empty", &nodes, 0);
    let Some(code) = example.compiled(rt, &mut buffer)? else {
        return Ok(());
    };
    println!(rt; "  code:{}", Code(code))?;
    run_with(rt, code, 0, 2)
}

// while x do skip.
fn repeat(rt: &impl Print) -> io::Result<()> {
    let nodes = [
        expression(Expression::Identifier, 0, 0),
        command(Command::Skip, 0, 0, 0),
        command(Command::While, 0, 1, 0),
    ];
    let example = Example::new("while x do skip, pool 1-2", &nodes, POOL_1_2);
    let mut buffer = [0; ROOM];
    let Some(code) = example.compiled(rt, &mut buffer)? else {
        return Ok(());
    };
    run_with(rt, code, 0, 4)?;
    run_with(rt, code, 1, 5)?;
    run_with(rt, code, 1, 10)
}

// An array of 65,536 cells, alone and with a variable after it.
fn cells(rt: &impl Print) -> io::Result<()> {
    let nodes = [command(Command::Skip, 0, 0, 0)];
    let array = [u32::from(Sort::Array), rule::CELL_LIMIT];
    let mut buffer = [0; SMALL_ROOM];
    let alone = Example::new("array of 65,536 alone, skip", &nodes, 0);
    alone.compiled_over(rt, &[array], &mut buffer)?;
    let both = Example::new("array of 65,536 and a variable, skip", &nodes, 0);
    both.compiled_over(rt, &[array, [u32::from(Sort::Variable), 0]], &mut buffer)?;
    Ok(())
}

// A rule of 1,024 rows in sequences, as deep as these go, run to the end.
fn deep_sequences(rt: &impl Print, name: &str, nested: Nested) -> io::Result<()> {
    let nodes = table::sequences(nested);
    let mut buffer = [0; DEEP_ROOM];
    let example = Example::new(name, &nodes, POOL_1_2);
    let Some(code) = example.compiled(rt, &mut buffer)? else {
        return Ok(());
    };
    run_with(rt, code, 0, 2000)
}

// A rule of 1,024 rows in ifs, run to the end, and a row more than is taken.
fn deep_ifs(rt: &impl Print) -> io::Result<()> {
    let nodes = table::ifs();
    let (taken, _) = nodes.split_at(rule::ROW_LIMIT);
    let example = Example::new("341 ifs nested, 1,024 rows", taken, POOL_1);
    let mut buffer = [0; DEEP_ROOM];
    let Some(code) = example.compiled(rt, &mut buffer)? else {
        return Ok(());
    };
    run_with(rt, code, 0, 2000)?;
    Example::new("1,025 rows", &nodes, POOL_1).compiled(rt, &mut buffer)?;
    Ok(())
}

// A rule of 1,023 rows that wants more registers than there are.
fn deep_nots(rt: &impl Print) -> io::Result<()> {
    let nodes = table::nots();
    let name = "x := 1,021 nots of 0, 1,023 rows, pool 1-63";
    Example::new(name, &nodes, POOL_1_63).compiled(rt, &mut [0; SMALL_ROOM])?;
    Ok(())
}

// All the examples, in the order of their lines.
fn main(rt: HostRuntime) -> io::Result<()> {
    assign(&rt)?;
    nested(&rt)?;
    not(&rt)?;
    skip(&rt)?;
    repeat(&rt)?;
    operations::wrapping(&rt)?;
    operations::steps(&rt)?;
    cells(&rt)?;
    deep_sequences(
        &rt,
        "511 sequences nested as first, 1,024 rows",
        Nested::First,
    )?;
    deep_sequences(
        &rt,
        "511 sequences nested as second, 1,024 rows",
        Nested::Second,
    )?;
    deep_ifs(&rt)?;
    deep_nots(&rt)
}
