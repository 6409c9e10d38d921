// The code that is laid into a buffer, and the place of the next instruction.
ghost use Rattle.std.specs.Prelude.{◌≡◌, [], ◌∷◌, ◌+◌, ◌<◌, length};
ghost use Rattle.instruction.specs.Instruction.{operation_number, ins};
ghost use Rattle.compiler.specs.Compile.{after};
ghost use Rattle.compiler.specs.Inside.{Room, Emitted, HasRoom, Lays};

use instruction::Operation;

// Code in a buffer, up to the place where it goes on. A place is a number of instructions, as a label is.
#[derive(Drop)]
pub(crate) struct Code<'a> {
    pub(crate) words: &'a mut [u32],
    pub(crate) at: u32,
}

impl Code<'_> {
    // One instruction, at any place of the buffer.
    #[tactic(auto, using(crate::proofs::Emitting::one_laid))]
    pub(crate) fn put_at(&mut self, place: u32, operation: Operation, a: u32, b: u32, c: u32)
        requires { Room self.old.words.now place 1 }
        ensures emitted { Emitted self.old.words.now self.new.words.now place (place + 1) (ins (operation_number operation) a b c ∷ []) }
        ensures stays { self.new.at ≡ self.old.at }
        ensures same { self.new.words.ghost_name ≡ self.old.words.ghost_name }
    {
        let word = place as usize * 4;
        // Borrowed once and filled word by word: with `copy_from_slice` a compilation takes a twentieth more instructions.
        let words = &mut *self.words;
        words[word] = u32::from(operation);
        words[word + 1] = a;
        words[word + 2] = b;
        words[word + 3] = c;
    }

    // One instruction, at the next place.
    // Five parameters: an instruction's three words differ at each call. A struct of them would be made at the call and taken apart at once.
    pub(crate) fn put(&mut self, operation: Operation, a: u32, b: u32, c: u32)
        requires { HasRoom self.old 1 }
        ensures { Lays self.old self.new (ins (operation_number operation) a b c ∷ []) }
    {
        self.put_at(self.at, operation, a, b, c);
        self.at += 1;
    }

    // The next place, kept for an instruction that is written later.
    pub(crate) fn skip(&mut self) -> u32
        requires { self.old.at + 1 < 4294967296 }
        ensures place { result ≡ self.old.at }
        ensures next { self.new.at ≡ self.old.at + 1 }
        ensures kept { self.new.words.now ≡ self.old.words.now }
        ensures same { self.new.words.ghost_name ≡ self.old.words.ghost_name }
    {
        let place = self.at;
        self.at += 1;
        place
    }

    // The label of the instruction that stands `over` places after the next one.
    #[tactic(auto, using(crate::proofs::Emitting::after_add))]
    pub(crate) fn label(&self, over: u32) -> u32
        requires { self.now.at + over < 4294967296 }
        ensures { result ≡ after over self.now.at }
    {
        self.at + over
    }
}
