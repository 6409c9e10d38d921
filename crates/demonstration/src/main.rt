// The antenna-change rule, compiled and run on a host that keeps registers of its own.
#![tactic(auto)]

mod antenna;
mod reason;
mod show;

use antenna::{CUTOVER, DECLARATIONS, HOURS, declared, rule_of};
use machine::{Ending, State};
use reason::{Compiled, Ran, Refused};
use show::{Clock, Declared, Registers};
use std::io::Write;
use std::{array, io};
use wording::{PoolWords, SignedWords};

// The host lends $40 to $47, and once only $40 to $45.
const POOL: u64 = 0xff << 40;

const SMALL_POOL: u64 = 0x3f << 40;

// Room for so many instructions: for their words, and for their lines, each of which has at most so many bytes.
const ROOM: usize = 16;

const INSTRUCTION_WORDS: usize = 4;

const WORDS: usize = ROOM * INSTRUCTION_WORDS;

const LINE_BYTES: usize = 33;

const BYTES: usize = ROOM * LINE_BYTES;

// The budget of a whole run, and of each slice of one, of which there are at most so many.
const BUDGET: u32 = 100;

const SLICE: u32 = 5;

const MOST_SLICES: u32 = 10;

// The memory that a run starts with: noon in local, and cutover still to come.
const MEMORY: [u32; 2] = [43200, 0];

// The declarations, each with its row and its cell.
fn show_declarations(rt: &impl Print) -> io::Result<()> {
    let layout = match rule::lay_out(declared().as_flattened()) {
        Ok(layout) => layout,
        Err(refusal) => return println!(rt; "{}", Refused::from(refusal)),
    };
    println!(rt; "Declarations, where a variable has a cell of memory:")?;
    for (row, declaration) in DECLARATIONS.iter().enumerate() {
        let declared = Declared::new(*declaration, layout.bases[row]);
        println!(rt; "    {row:>2}  {:<7}  {declared}", declaration.name)?;
    }
    println!(rt)
}

// So many at the front of a slice, or all of it.
fn front<T>(items: &[T], count: usize) -> &[T] {
    &items[..count.min(items.len())]
}

// The rule that sets a name, compiled with a pool, and what came of it. The code is handed back, none of a refused rule.
fn compiled<'a>(
    rt: &impl Print,
    name: u32,
    pool: u64,
    buffer: &'a mut [u32; WORDS],
) -> io::Result<Option<&'a [u32]>> {
    let nodes = rule_of(name);
    let answer = compiler::compile(
        declared().as_flattened(),
        nodes.as_flattened(),
        pool,
        buffer,
    );
    println!(rt; "Pool{}: {}", PoolWords(pool), Compiled { answer, pool })?;
    let Ok(accepted) = answer else {
        return Ok(None);
    };
    let words = accepted.instructions as usize * INSTRUCTION_WORDS;
    Ok(Some(front(buffer, words)))
}

// The listing of a code that fits the buffer.
fn show_listing(rt: &impl Print, code: &[u32]) -> io::Result<()> {
    let mut lines = [0; BYTES];
    match listing::list(code, &mut lines) {
        Ok(bytes) => io::writer(rt).write_all(front(&lines, bytes as usize)),
        Err(refusal) => println!(rt; "{}", Refused::from(refusal)),
    }
}

// Registers that hold their own numbers.
fn numbered() -> [u32; 64] {
    array::from_fn(|register| register as u32)
}

// How many registers outside the pool hold their numbers.
fn unchanged(registers: &[u32; 64], pool: u64) -> usize {
    (0..64)
        .zip(registers)
        .filter(|(number, word)| (pool >> *number) % 2 == 0 && **word == *number)
        .count()
}

// The registers after a run, where each held its own number before.
fn show_registers(rt: &impl Print, registers: &[u32; 64]) -> io::Result<()> {
    println!(rt; "Registers after the run, where each held its own number before it:")?;
    print!(rt; "{}", Registers(registers))?;
    let kept = unchanged(registers, POOL);
    let others = POOL.count_zeros();
    println!(rt; "    unchanged outside the pool: {kept} of {others}")
}

// One run under a budget, with the memory before and after it, and what the memory means.
fn whole(rt: &impl Print, code: &[u32]) -> io::Result<()> {
    let mut memory = MEMORY;
    let start = State {
        place: 0,
        registers: numbered(),
    };
    println!(rt; "\nRun under a budget of {BUDGET} steps:")?;
    println!(rt; "    memory before:{}", SignedWords(&memory))?;
    let ran = machine::run(code, &mut memory, start, BUDGET);
    let State { place, registers } = ran.state;
    println!(rt;
        "    {}",
        Ran {
            answer: ran.answer,
            place
        }
    )?;
    println!(rt; "    memory after:{}", SignedWords(&memory))?;
    let [local, cutover] = memory.map(Clock);
    println!(rt; "    local time {local}, cut-over {cutover}")?;
    show_registers(rt, &registers)
}

// The same run in slices.
fn slices(rt: &impl Print, code: &[u32]) -> io::Result<()> {
    let mut memory = MEMORY;
    let mut registers = numbered();
    let mut place = 0;
    println!(rt;
        "\nThe same run in slices of {SLICE} steps, each from the state that the last one left:"
    )?;
    for _ in 0..MOST_SLICES {
        let answer = machine::run_in_place(code, &mut memory, &mut place, &mut registers, SLICE);
        println!(rt; "    {}", Ran { answer, place })?;
        if !answer.is_ok_and(|ended| ended.ending == Ending::Unfinished) {
            break;
        }
    }
    println!(rt; "    memory after:{}", SignedWords(&memory))
}

// The rule, its declarations, its code, and the runs.
fn accepted(rt: &impl Print) -> io::Result<()> {
    println!(rt; "cutover := local - (hours * 3600 + minutes * 60)\n")?;
    show_declarations(rt)?;
    let mut buffer = [0; WORDS];
    let Some(code) = compiled(rt, CUTOVER, POOL, &mut buffer)? else {
        return Ok(());
    };
    show_listing(rt, code)?;
    whole(rt, code)?;
    slices(rt, code)
}

// The rule with too few registers, and a rule that assigns a constant.
fn refused(rt: &impl Print) -> io::Result<()> {
    let mut buffer = [0; WORDS];
    print!(rt; "\nRefused, the same rule with two registers fewer:\n    ")?;
    compiled(rt, CUTOVER, SMALL_POOL, &mut buffer)?;
    print!(rt; "Refused, hours := local - (hours * 3600 + minutes * 60):\n    ")?;
    compiled(rt, HOURS, POOL, &mut buffer)?;
    Ok(())
}

// The accepted rule with its runs, then the refused ones.
fn main(rt: HostRuntime) -> io::Result<()> {
    accepted(&rt)?;
    refused(&rt)
}
