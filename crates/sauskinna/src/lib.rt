// The C library: compile, a single step, a run and a listing, over words and bytes that a program in C or Rust lends; and its version.
// include/sauskinna.h declares them.
#![tactic(auto)]

ghost use Rattle.std.specs.Prelude.{◌≡◌, [], ◌∷◌, length, MatchResult};
ghost use Rattle.refusal.specs.Refusal.{number_of, value_of};
ghost use Rattle.compiler.specs.Answer.{compiled, leaves};
ghost use Rattle.listing.specs.Listing.{answered, leaves as text_left};
ghost use Rattle.machine.specs.Entry.{state_of, step_entry, run_entry};
ghost use Rattle.sauskinna.specs.Words.{compile_returned, compile_answered, list_returned, list_answered, ending_answered, left, in_words, version};

use compiler::Accepted;
use machine::{Ended, Ending};
use refusal::Refusal;

// First number × 1,000 + second: the first is raised where an answer changes, the second where a function is added.
const VERSION: u32 = 1001;

// What is returned where nothing is refused.
const ACCEPTED: u32 = 0;

// How a step or a run ended, in the order of the numbers that are the first word of its answer.
#[derive(Clone, Copy)]
enum How {
    WentOn,
    Halted,
    Faulted,
    Unfinished,
}

// Tells what is said in an answer's words, or the value returned with a refusal, and gives the number to return.
fn tell<A, F: FnOnce(A) -> [u32; 3]>(
    answer: &mut [u32; 3],
    said: Result<A, Refusal>,
    words: F,
) -> u32
    requires { F.IsAlwaysCallable words }
    ensures { MatchResult said
        (λ x. (result ≡ 0) × F.post words x answer.new)
        (λ r. (result ≡ number_of r) × (answer.new ≡ value_of r ∷ 0 ∷ 0 ∷ [])) }
{
    match said {
        Ok(x) => {
            *answer = words(x);
            ACCEPTED
        }
        Err(refusal) => {
            *answer = [refusal.value(), 0, 0];
            refusal.number()
        }
    }
}

// The answer of an accepted rule: the instructions, the cells and the need.
fn words_of_rule(rule: Accepted) -> [u32; 3]
    ensures { result ≡ rule.instructions ∷ rule.cells ∷ rule.need ∷ [] }
{
    [rule.instructions, rule.cells, rule.need]
}

// The answer of a listing: the bytes written.
fn words_of_bytes(bytes: u32) -> [u32; 3]
    ensures { result ≡ bytes ∷ 0 ∷ 0 ∷ [] }
{
    [bytes, 0, 0]
}

// The answer of a run: its ending, the fault's number or 0, and the steps taken.
fn words_of_run(ended: Ended) -> [u32; 3]
    ensures { result ≡ ending_answered ended.ending ended.steps }
{
    match ended.ending {
        Ending::Halted => [How::Halted as u32, 0, ended.steps],
        Ending::Faulted(fault) => [How::Faulted as u32, fault, ended.steps],
        Ending::Unfinished => [How::Unfinished as u32, 0, ended.steps],
    }
}

// Compiles a rule into the code buffer. Answers the instructions, the cells and the need; at a refusal the value returned.
#[unsafe(no_mangle)]
pub extern "C" fn sauskinna_compile(
    declarations: &[u32],
    nodes: &[u32],
    pool: u64,
    code: &mut [u32],
    answer: &mut [u32; 3],
) -> u32
    ensures number { result ≡ compile_returned (compiled declarations.now nodes.now pool (length code.old)) }
    ensures answer { answer.new ≡ compile_answered (compiled declarations.now nodes.now pool (length code.old)) }
    ensures buffer { code.new ≡ leaves declarations.now nodes.now pool code.old }
{
    let said = compiler::compile(declarations, nodes, pool, code);
    tell(answer, said, words_of_rule)
}

// Runs from the place and the registers lent, under a budget. Answers the ending, the fault's number or 0, and the steps taken.
#[tactic(auto, using(crate::proofs::Told::run_told))]
#[unsafe(no_mangle)]
pub extern "C" fn sauskinna_run(
    code: &[u32],
    memory: &mut [u32],
    place: &mut u32,
    registers: &mut [u32; 64],
    budget: u32,
    answer: &mut [u32; 3],
) -> u32
    ensures { left result answer.new (state_of place.new registers.new) memory.new ≡ in_words (run_entry code.now memory.old (state_of place.old registers.old) budget) }
{
    let said = machine::run_in_place(code, memory, place, registers, budget);
    tell(answer, said, words_of_run)
}

// Writes the listing of the code over the front of the text. Answers the bytes written; at a refusal the value returned.
#[unsafe(no_mangle)]
pub extern "C" fn sauskinna_listing(code: &[u32], text: &mut [u8], answer: &mut [u32; 3]) -> u32
    ensures number { result ≡ list_returned (answered code.now (length text.old)) }
    ensures answer { answer.new ≡ list_answered (answered code.now (length text.old)) }
    ensures text { text.new ≡ text_left code.now text.old }
{
    let said = listing::list(code, text);
    tell(answer, said, words_of_bytes)
}

// Takes a single step from the place and the registers lent. Answers how it went, the fault's number or 0, and the steps taken.
// A step is a run under the budget 1, and went on where that is unfinished. The machine's run has one caller, so that it is part of `sauskinna_run`.
#[tactic(auto, using(crate::proofs::Single::step_words))]
#[unsafe(no_mangle)]
pub extern "C" fn sauskinna_step(
    code: &[u32],
    memory: &mut [u32],
    place: &mut u32,
    registers: &mut [u32; 64],
    answer: &mut [u32; 3],
) -> u32
    ensures { left result answer.new (state_of place.new registers.new) memory.new ≡ in_words (step_entry code.now memory.old (state_of place.old registers.old)) }
{
    let number = sauskinna_run(code, memory, place, registers, 1, answer);
    if answer[0] == How::Unfinished as u32 {
        answer[0] = How::WentOn as u32;
    }
    number
}

// The version of the library.
#[unsafe(no_mangle)]
pub extern "C" fn sauskinna_version() -> u32
    ensures { result ≡ version }
{
    VERSION
}
