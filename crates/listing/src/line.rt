// One line of a listing, written into a text.
ghost use Rattle.std.specs.Prelude.{◌≡◌, [], ◌∷◌, ◌++◌, ◌≤◌, length};
ghost use Rattle.decimal.specs.Decimal.{numeral};
ghost use Rattle.decimal.specs.Bytes.{bytes as bytes_of};
ghost use Rattle.instruction.specs.Instruction.{operation_of, operation_number, mnemonic_of};
ghost use Rattle.listing.specs.Line.{register_word, address_word, label_word, label_part};
ghost use Rattle.listing.specs.Inside.{Room, Wrote, longest, operands_text, line_text};

use instruction::{Form, Instruction, Operation};

// The most bytes of a line: "L65535: addi $63 -2147483648 $63" and the newline.
pub(crate) const LONGEST: usize = 33;

// A line: an instruction, its place in the code, and whether some jump names it.
#[derive(Clone, Copy)]
pub(crate) struct Line {
    pub(crate) named: bool,
    pub(crate) place: u32,
    pub(crate) instruction: Instruction,
}

impl Line {
    // How long the line is: as long as what is written of it.
    pub(crate) fn width(self) -> usize
        requires { length (line_text self) ≤ longest }
        ensures { result ≡ length (line_text self) }
    {
        let mut bytes = [0u8; LONGEST];
        let mut text = Text {
            bytes: &mut bytes,
            at: 0,
        };
        text.line(self);
        text.at
    }
}

// A text that is written from its front, and the place after what is written of it. All that writes is inlined into the loop over the lines, so that
// the place stays in a register: read from memory again after each part, it makes a line of few bytes take 1.5 times as long.
#[derive(Drop)]
pub(crate) struct Text<'a> {
    pub(crate) bytes: &'a mut [u8],
    pub(crate) at: usize,
}

impl<'a> Text<'a> {
    // A run of bytes. One by one: `copy_from_slice` becomes a call of memmove, and the C library asks for memcpy and memset alone.
    #[inline(always)]
    fn put(&mut self, bytes: &[u8])
        requires { Room self.old bytes.now }
        ensures { Wrote self.old self.new bytes.now }
    {
        let at = self.at;
        let text = &mut *self.bytes;
        'bytes: for (i, byte) in bytes.iter().enumerate() {
            text[at + i] = *byte;
        }
        self.at = at + bytes.len();
    }

    // A number. By crate decimal: of `write!` a contract says what an Ok has written, and not that it is Ok where there is room.
    #[inline(always)]
    fn number(&mut self, word: u32)
        requires { Room self.old (numeral word) }
        ensures { Wrote self.old self.new (numeral word) }
    {
        self.at += decimal::write(self.bytes, self.at, word).unwrap();
    }

    // " $1"
    #[inline(always)]
    fn register(&mut self, k: u32)
        requires { Room self.old (bytes_of " " ++ register_word k) }
        ensures { Wrote self.old self.new (bytes_of " " ++ register_word k) }
    {
        self.put(b" $");
        self.number(k);
    }

    // " L3"
    #[inline(always)]
    fn target(&mut self, l: u32)
        requires { Room self.old (bytes_of " " ++ label_word l) }
        ensures { Wrote self.old self.new (bytes_of " " ++ label_word l) }
    {
        self.put(b" L");
        self.number(l);
    }

    // " $2[$0]"
    #[inline(always)]
    fn address(&mut self, b: u32, i: u32)
        requires { Room self.old (bytes_of " " ++ address_word b i) }
        ensures { Wrote self.old self.new (bytes_of " " ++ address_word b i) }
    {
        self.register(b);
        self.put(b"[$");
        self.number(i);
        self.put(b"]");
    }

    // The mnemonic of an operation, written in each arm, where its length is known: handed on as a text it makes a line take 1.1 times as long,
    // one with a label 1.2 times.
    #[inline(always)]
    fn mnemonic(&mut self, operation: Operation)
        requires { Room self.old (bytes_of (mnemonic_of (operation_of (operation_number operation)))) }
        ensures { Wrote self.old self.new (bytes_of (mnemonic_of (operation_of (operation_number operation)))) }
    {
        match operation {
            Operation::Halt => self.put(b"halt"),
            Operation::Nop => self.put(b"nop"),
            Operation::Add => self.put(b"add"),
            Operation::Addi => self.put(b"addi"),
            Operation::Sub => self.put(b"sub"),
            Operation::Mul => self.put(b"mul"),
            Operation::Load => self.put(b"load"),
            Operation::Store => self.put(b"store"),
            Operation::Jmp => self.put(b"jmp"),
            Operation::Bne => self.put(b"bne"),
            Operation::Beq => self.put(b"beq"),
            Operation::Slt => self.put(b"slt"),
        }
    }

    // The words after the mnemonic, each after a blank.
    #[inline(always)]
    fn operands(&mut self, instruction: Instruction)
        requires { Room self.old (operands_text instruction) }
        ensures { Wrote self.old self.new (operands_text instruction) }
    {
        let Instruction { operation, a, b, c } = instruction;
        match operation.form() {
            Form::Unknown | Form::Bare => {}
            Form::Registers => {
                self.register(a);
                self.register(b);
                self.register(c);
            }
            Form::Immediate => {
                self.register(a);
                self.put(b" ");
                self.number(b);
                self.register(c);
            }
            Form::Load => {
                self.register(a);
                self.address(b, c);
            }
            Form::Store => {
                self.address(a, b);
                self.register(c);
            }
            Form::Jump => self.target(a),
            Form::Branch => {
                self.register(a);
                self.register(b);
                self.target(c);
            }
        }
    }

    // "L7: ", of a line that is named.
    #[tactic(auto, using(crate::proofs::Writing::wrote_then))]
    #[inline(always)]
    fn label(&mut self, named: bool, place: u32)
        requires { Room self.old (label_part named place) }
        ensures { Wrote self.old self.new (label_part named place) }
    {
        if named {
            self.put(b"L");
            self.number(place);
            self.put(b": ");
        }
    }

    // A line.
    #[tactic(auto, unfolding(crate::specs::Line::instruction_line))]
    #[inline(always)]
    pub(crate) fn line(&mut self, line: Line)
        requires { Room self.old (line_text line) }
        ensures { Wrote self.old self.new (line_text line) }
    {
        self.label(line.named, line.place);
        self.mnemonic(line.instruction.operation);
        self.operands(line.instruction);
        self.put(b"\n");
    }
}
