// The machine of source document 000: one step, and a run under a budget, over lent code and memory.
#![tactic(auto)]

mod fault;
mod operation;

ghost use Rattle.std.specs.Prelude.{◌≡◌, ◌<◌, ◌≤◌, length};
ghost use Rattle.refusal.specs.Refusal.{verdict_of};
ghost use Rattle.instruction.specs.Instruction.{count_of, code_limit};
ghost use Rattle.machine.specs.Step.{did, step_of};
ghost use Rattle.machine.specs.Inside.{moved, stepped_of, Cleared, Few};
ghost use Rattle.machine.specs.Run.{ran, run_of};
ghost use Rattle.machine.specs.Entry.{shown, state_of, sizes_of, run_said, step_said, run_entry, step_entry};

use fault::Fault;
use refusal::Refusal;

// The words of an instruction.
const INSTRUCTION_WORDS: usize = 4;

// The most cells of a memory.
const MOST_CELLS: usize = 65536;

// The place and the 64 registers.
#[derive(Clone, Copy, Debug, PartialEq, Eq)]
pub struct State {
    pub place: u32,
    pub registers: [u32; 64],
}

// What one instruction leads to: on to the next place, to another one, a halt or a fault. No `Option` or `Result` has four ways on.
#[derive(Clone, Copy, Debug, PartialEq, Eq)]
enum Move {
    On,
    To(usize),
    Halt,
    Fault(Fault),
}

// How a run ends.
// A fault is told by its number: `code_faults_with_4` (correctness/proofs/Headline.antt) and the C interface (`ending_answered`) say it so.
#[derive(Clone, Copy, Debug, PartialEq, Eq)]
pub enum Ending {
    Halted,
    Faulted(u32),
    Unfinished,
}

// How a run ended, and the steps that it took.
#[derive(Clone, Copy, Debug, PartialEq, Eq)]
pub struct Ended {
    pub ending: Ending,
    pub steps: u32,
}

// How a single step went.
// A fault is told by its number, as in `Ending`: the C interface (`answered`, sauskinna/specs/Words.antt) says it so.
#[derive(Clone, Copy, Debug, PartialEq, Eq)]
pub enum Taken {
    Went,
    Halted,
    Faulted(u32),
}

// What a call on a state answers, and the state that is left.
#[derive(Clone, Copy, Debug, PartialEq, Eq)]
pub struct Left<A> {
    pub answer: A,
    pub state: State,
}

// Where the loop stops: an ending, with the budget that is left and the place.
#[derive(Clone, Copy)]
struct Stop {
    ending: Ending,
    left: u32,
    place: usize,
}

// One step from a place of the code.
#[tactic(auto, unfolding(crate::specs::Step::step_of, crate::specs::Step::tried, instruction::specs::Instruction::fetch))]
fn advance(code: &[u32], place: usize, registers: &mut [u32; 64], memory: &mut [u32]) -> Move
    requires { (length code.now ≤ code_limit) × Cleared registers.old × Few memory.old × (place < count_of code.now) }
    ensures { did (moved place result) registers.new memory.new ≡ step_of code.now place registers.old memory.old }
{
    let count = code.len() / INSTRUCTION_WORDS;
    let at = place * INSTRUCTION_WORDS;
    match instruction::decode(code[at], code[at + 1], code[at + 2], code[at + 3]) {
        Some(instruction) => operation::perform(count, registers, memory, instruction),
        None => Move::Fault(Fault::NoInstruction),
    }
}

// The loop stopped with so much budget left, at a place.
fn stopped(ending: Ending, left: usize, place: usize) -> Stop
    requires { left < 4294967296 }
    ensures { result ≡ record { ending = ending; left = left; place = place } }
{
    Stop {
        ending,
        left: left as u32,
        place,
    }
}

// A run from a place under a budget: the one caller of `advance`, so that the step is part of the loop.
// The budget that is left is limit - place, so that a step on to the next place changes the place alone; a jump takes the limit along.
// The loop stops at the limit or at the end of the code, whichever comes first.
// Five parameters: code, registers and memory are lent apart, as the C interface lends them.
fn proceed(
    code: &[u32],
    from: usize,
    registers: &mut [u32; 64],
    memory: &mut [u32],
    budget: u32,
) -> Stop
    requires { (length code.now ≤ code_limit) × Cleared registers.old × Few memory.old × (from < 4294967296) }
    ensures { ran result.ending result.left result.place registers.new memory.new ≡ run_of code.now budget from registers.old memory.old }
{
    let count = code.len() / INSTRUCTION_WORDS;
    let mut place = from;
    let mut limit = from + budget as usize;
    let mut stop = count.min(limit);
    'turns: while place < stop {
        match advance(code, place, registers, memory) {
            Move::On => place += 1,
            Move::To(next) => {
                limit = next + (limit - place - 1);
                place = next;
                stop = count.min(limit);
            }
            Move::Halt => return stopped(Ending::Halted, limit - place - 1, place),
            Move::Fault(fault) => {
                return stopped(Ending::Faulted(u32::from(fault)), limit - place, place);
            }
        }
    }
    if place < limit {
        let fault = u32::from(Fault::PlaceOutside);
        return stopped(Ending::Faulted(fault), limit - place, place);
    }
    stopped(Ending::Unfinished, 0, place)
}

// Whether code of so many words and memory of so many cells are taken.
#[tactic(auto, unfolding(crate::specs::Entry::sizes_of))]
fn check_sizes(words: usize, cells: usize) -> Result<(), Refusal>
    ensures { verdict_of result ≡ sizes_of words cells }
{
    if !instruction::taken(words) {
        return Err(Refusal::CodeWords);
    }
    if MOST_CELLS < cells {
        return Err(Refusal::MemoryCells);
    }
    Ok(())
}

// A run from the place and the registers handed in, which are left where they lie.
// Their place 0 is cleared while the run works on them, so that a read needs no test for $0, and put back after it.
pub fn run_in_place(
    code: &[u32],
    memory: &mut [u32],
    place: &mut u32,
    registers: &mut [u32; 64],
    budget: u32,
) -> Result<Ended, Refusal>
    ensures { shown (run_said result) (state_of place.new registers.new) memory.new ≡ run_entry code.now memory.old (state_of place.old registers.old) budget }
{
    check_sizes(code.len(), memory.len())?;
    let kept = registers[0];
    registers[0] = 0;
    let stop = proceed(code, *place as usize, registers, memory, budget);
    registers[0] = kept;
    *place = stop.place as u32;
    let ending = stop.ending;
    let steps = budget - stop.left;
    Ok(Ended { ending, steps })
}

// How a single step went, by what a run under the budget 1 answers: it went on where the run is unfinished.
fn as_step(answer: Result<Ended, Refusal>) -> Result<Taken, Refusal>
    ensures { result ≡ stepped_of answer }
{
    Ok(match answer?.ending {
        Ending::Halted => Taken::Halted,
        Ending::Faulted(number) => Taken::Faulted(number),
        Ending::Unfinished => Taken::Went,
    })
}

// A single step from the place and the registers handed in: a run under the budget 1.
pub fn step_in_place(
    code: &[u32],
    memory: &mut [u32],
    place: &mut u32,
    registers: &mut [u32; 64],
) -> Result<Taken, Refusal>
    ensures { shown (step_said result) (state_of place.new registers.new) memory.new ≡ step_entry code.now memory.old (state_of place.old registers.old) }
{
    as_step(run_in_place(code, memory, place, registers, 1))
}

// A run of the code from the state handed in, under a budget.
pub fn run(
    code: &[u32],
    memory: &mut [u32],
    mut state: State,
    budget: u32,
) -> Left<Result<Ended, Refusal>>
    ensures { shown (run_said result.answer) result.state memory.new ≡ run_entry code.now memory.old state budget }
{
    let answer = run_in_place(code, memory, &mut state.place, &mut state.registers, budget);
    Left { answer, state }
}

// A single step of the code from the state handed in: a run under the budget 1.
pub fn step(code: &[u32], memory: &mut [u32], state: State) -> Left<Result<Taken, Refusal>>
    ensures { shown (step_said result.answer) result.state memory.new ≡ step_entry code.now memory.old state }
{
    let left = run(code, memory, state, 1);
    Left {
        answer: as_step(left.answer),
        state: left.state,
    }
}
