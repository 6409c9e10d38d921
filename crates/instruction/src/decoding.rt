// What four words are: an instruction, or none.
ghost use Rattle.std.specs.Prelude.{◌≡◌};
ghost use Rattle.instruction.specs.Instruction.{decode};
ghost use Rattle.instruction.specs.Decoded.{fetched_of};

use crate::{Instruction, Operation};

// The instruction that four words are, if they are one. Inlined, so that a step of the machine branches on the operation once.
#[tactic(auto, using(crate::proofs::Forms::no_operation), unfolding(crate::specs::Instruction::decode, crate::specs::Instruction::formed))]
#[inline]
pub fn decode(op: u32, a: u32, b: u32, c: u32) -> Option<Instruction>
    ensures { fetched_of result ≡ decode op a b c }
{
    let operation = Operation::try_from(op).ok()?;
    if operation.takes(a, b, c) {
        Some(Instruction { operation, a, b, c })
    } else {
        None
    }
}
