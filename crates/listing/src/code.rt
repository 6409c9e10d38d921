// Code that can be listed: its words are taken, each four of them are an instruction, and every label is inside.
ghost use Rattle.std.specs.Prelude.{◌≡◌, true, ◌<◌, length, IfOk, Some};
ghost use Rattle.refusal.specs.Refusal.{verdict_of, ◌and_then◌};
ghost use Rattle.instruction.specs.Instruction.{found, decode, fetch, count_of, taken};
ghost use Rattle.instruction.specs.Decoded.{fetched_of};
ghost use Rattle.listing.specs.Listing.{target_of, inside, sound as sound_of, code_words, instructions};
ghost use Rattle.listing.specs.Inside.{ins_of, Sound};

use instruction::{Form, Instruction, Operation};
use refusal::Refusal;

// The words of an instruction.
pub(crate) const WORDS: usize = 4;

// Code that neither refusal 13 nor 21 is given.
#[derive(Clone, Copy)]
pub(crate) struct Code<'a> {
    pub(crate) words: &'a [u32],
    pub(crate) ghost sound: { Sound words.now },
}

impl<'a> Code<'a> {
    // Refusals 13 and 21, or the code.
    #[tactic(auto, unfolding(crate::specs::Listing::code_words))]
    pub(crate) fn checked(words: &'a [u32]) -> Result<Code<'a>, Refusal>
        ensures verdict { verdict_of result ≡ code_words (length words.now) and_then instructions words.now }
        ensures code { IfOk result (λ code. code.words.now ≡ words.now) }
    {
        if !instruction::taken(words.len()) {
            return Err(Refusal::CodeWords);
        }
        check_instructions(words)?;
        Ok(Code { words })
    }

    // How many instructions there are.
    pub(crate) fn count(&self) -> usize
        ensures { result ≡ count_of self.now.words.now }
    {
        self.words.len() / WORDS
    }

    // The instruction at a place: its words were tested once, when the code was checked.
    #[tactic(auto, using(crate::proofs::Marks::formed_at, crate::proofs::Marks::found_at))]
    pub(crate) fn instruction(&self, place: usize) -> Instruction
        requires { place < count_of self.now.words.now }
        ensures { found (ins_of result) ≡ fetch self.now.words.now place }
    {
        let (op, a, b, c) = words_at(self.words, place);
        let operation = Operation::try_from(op).unwrap();
        Instruction { operation, a, b, c }
    }
}

// The four words at a place.
#[tactic(auto, using(crate::proofs::Lines::fetch_words))]
fn words_at(words: &[u32], place: usize) -> (u32, u32, u32, u32)
    requires { place < count_of words.now }
    ensures { decode result.0 result.1 result.2 result.3 ≡ fetch words.now place }
{
    let at = place * WORDS;
    (words[at], words[at + 1], words[at + 2], words[at + 3])
}

// The label that an instruction names, if it is a jump.
pub(crate) fn named_by(instruction: Instruction) -> Option<u32>
    ensures { result ≡ target_of (ins_of instruction) }
{
    match instruction.operation.form() {
        Form::Jump => Some(instruction.a),
        Form::Branch => Some(instruction.c),
        Form::Unknown | Form::Bare | Form::Registers | Form::Immediate | Form::Load | Form::Store =>
            None,
    }
}

// Whether an instruction was read, and names no label outside a code of so many instructions.
fn sound(count: usize, read: Option<Instruction>) -> bool
    ensures { result ≡ sound_of count (fetched_of read) }
{
    let Some(instruction) = read else {
        return false;
    };
    match named_by(instruction) {
        Some(label) => (label as usize) < count,
        None => true,
    }
}

// Refusal 21.
fn check_instructions(words: &[u32]) -> Result<(), Refusal>
    requires { taken (length words.now) ≡ true }
    ensures { verdict_of result ≡ instructions words.now }
{
    let count = words.len() / WORDS;
    'instructions: for place in 0..count {
        let (op, a, b, c) = words_at(words, place);
        if !sound(count, instruction::decode(op, a, b, c)) {
            return Err(Refusal::Instruction(place as u32));
        }
    }
    Ok(())
}
