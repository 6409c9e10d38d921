// The instructions of single constructs, laid where the code goes on. Source document 001's rules.
ghost use Rattle.std.specs.Prelude.{◌≡◌, ◌<◌, length};
ghost use Rattle.instruction.specs.Instruction.{operation_number};
ghost use Rattle.rule.specs.Tree.{equal};
ghost use Rattle.rule.specs.Kind.{op_said};
ghost use Rattle.compiler.specs.Pool.{registers_of};
ghost use Rattle.compiler.specs.Compile.{after, size_op, load_code, operator_code, not_code, store_code};
ghost use Rattle.compiler.specs.Inside.{HasRoom, Lays, either_way};

use crate::code::Code;
use crate::pool::Pool;
use instruction::Operation;
use rule::Operator;

impl Code<'_> {
    // Not, after its operand is in t.
    #[tactic(auto, using(crate::proofs::Emitting::put_append))]
    pub(crate) fn emit_not(&mut self, target: u32, t: u32)
        requires { HasRoom self.old 3 }
        ensures { Lays self.old self.new (not_code target t self.old.at) }
    {
        let end = self.label(3);
        self.put(Operation::Addi, target, 1, 0);
        self.put(Operation::Beq, t, 0, end);
        self.put(Operation::Addi, target, 0, 0);
    }

    // Equal, after the operands are in t and u, as in the two that follow.
    #[tactic(auto, using(crate::proofs::Emitting::put_append))]
    fn emit_equal(&mut self, target: u32, t: u32, u: u32)
        requires { HasRoom self.old 4 }
        ensures { Lays self.old self.new (operator_code equal target t u self.old.at) }
    {
        let equal = self.label(3);
        let end = self.label(4);
        self.put(Operation::Beq, t, u, equal);
        self.put(Operation::Addi, target, 0, 0);
        self.put(Operation::Jmp, end, 0, 0);
        self.put(Operation::Addi, target, 1, 0);
    }

    // And, or: `before`, unless neither operand's branch on $0 is taken, and then `last`.
    #[tactic(auto, using(crate::proofs::Emitting::put_append))]
    fn emit_either(
        &mut self,
        branch: Operation,
        target: u32,
        t: u32,
        u: u32,
        before: u32,
        last: u32,
    )
        requires { HasRoom self.old 4 }
        ensures { Lays self.old self.new (either_way (operation_number branch) target t u before last (after 4 self.old.at)) }
    {
        let end = self.label(4);
        self.put(Operation::Addi, target, before, 0);
        self.put(branch, t, 0, end);
        self.put(branch, u, 0, end);
        self.put(Operation::Addi, target, last, 0);
    }

    // The own instructions of a binary, by its operator.
    pub(crate) fn emit_operator(&mut self, operator: Operator, target: u32, t: u32, u: u32)
        requires { HasRoom self.old (size_op (op_said operator)) }
        ensures { Lays self.old self.new (operator_code (op_said operator) target t u self.old.at) }
    {
        match operator {
            Operator::Plus => self.put(Operation::Add, target, t, u),
            Operator::Minus => self.put(Operation::Sub, target, t, u),
            Operator::Times => self.put(Operation::Mul, target, t, u),
            Operator::Less => self.put(Operation::Slt, target, t, u),
            Operator::Equal => self.emit_equal(target, t, u),
            Operator::And => self.emit_either(Operation::Beq, target, t, u, 0, 1),
            Operator::Or => self.emit_either(Operation::Bne, target, t, u, 1, 0),
        }
    }

    // The value of a cell into the target: the first cell is given, and the index is in t.
    #[tactic(auto, using(crate::proofs::Emitting::put_append))]
    pub(crate) fn emit_load(&mut self, first: u32, target: u32, t: u32, pool: Pool)
        requires some { 0 < length (registers_of pool.bits) }
        requires room { HasRoom self.old 2 }
        ensures { Lays self.old self.new (load_code first target t (registers_of pool.bits)) }
    {
        let bx = pool.lowest();
        self.put(Operation::Addi, bx, first, 0);
        self.put(Operation::Load, target, bx, t);
    }

    // The value in u into a cell: the first cell is given, and the index is in t. Apart from `emit_load`, since the operation and the order of its
    // words differ: both as parameters would be no plainer.
    #[tactic(auto, using(crate::proofs::Emitting::put_append))]
    pub(crate) fn emit_store(&mut self, first: u32, t: u32, u: u32, pool: Pool)
        requires some { 0 < length (registers_of pool.bits) }
        requires room { HasRoom self.old 2 }
        ensures { Lays self.old self.new (store_code first t u (registers_of pool.bits)) }
    {
        let bx = pool.lowest();
        self.put(Operation::Addi, bx, first, 0);
        self.put(Operation::Store, bx, t, u);
    }
}
