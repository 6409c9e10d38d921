// Emission: the code of expressions and commands, row by row. Source document 001's rules.
ghost use Rattle.std.specs.Prelude.{◌≡◌, ◌≢◌, ◌+◌, ◌*◌, ◌<◌, ◌≤◌, length};
ghost use Rattle.rule.specs.Tree.{base};
ghost use Rattle.rule.specs.Kind.{an_assign, an_assign_at, expression};
ghost use Rattle.rule.specs.Table.{declaration_rows, sort, word as word_of, binding_of, kind_at, exp_at, com_at};
ghost use Rattle.compiler.specs.Pool.{registers_of, fresh, without};
ghost use Rattle.compiler.specs.Compile.{need_named, need_exp, size_named, size_exp, named_code, t_exp, t_com};
ghost use Rattle.compiler.specs.Inside.{ExpRow, ComRow, class_at, HasRoom, Lays, Fit, FitCom};

use crate::code::Code;
use crate::pool::Pool;
use crate::tables::Tables;
use instruction::Operation;
use rule::{Command, Expression};

impl Tables<'_> {
    // The first cell of a variable or an array.
    #[tactic(auto, using(crate::proofs::Bindings::base_stored))]
    fn base(&self, x: usize) -> u32
        requires declared { x < declaration_rows self.now.declarations.now }
        requires stored { sort self.now.declarations.now x ≢ 1 }
        ensures { result ≡ base (binding_of self.now.declarations.now x) }
    {
        self.bases[x]
    }

    // An identifier's value into the target.
    #[tactic(auto, using(crate::proofs::Bindings::need_stored, crate::proofs::Bindings::size_stored))]
    fn emit_name(&self, x: usize, target: u32, pool: Pool, code: &mut Code<'_>)
        requires declared { x < declaration_rows self.now.declarations.now }
        requires need { need_named (binding_of self.now.declarations.now x) ≤ length (registers_of pool.bits) }
        requires room { HasRoom code.old (size_named (binding_of self.now.declarations.now x)) }
        ensures { Lays code.old code.new (named_code (binding_of self.now.declarations.now x) target (registers_of pool.bits)) }
    {
        match self.constant(x) {
            Some(value) => code.put(Operation::Addi, target, value, 0),
            None => code.emit_load(self.base(x), target, 0, pool),
        }
    }

    // The expression that word k of a row names, into a fresh register: that register, and the pool less it.
    #[cycle(expression)]
    fn emit_operand(&self, row: usize, k: usize, pool: Pool, code: &mut Code<'_>) -> (u32, Pool)
        requires there { row * 4 + 3 < length self.now.nodes.now }
        requires class { class_at self.now.nodes.now row k ≡ expression }
        requires need { need_exp (binding_of self.now.declarations.now) (exp_at self.now.nodes.now (word_of self.now.nodes.now row k)) < length (registers_of pool.bits) }
        requires room { HasRoom code.old (size_exp (binding_of self.now.declarations.now) (exp_at self.now.nodes.now (word_of self.now.nodes.now row k))) }
        ensures register { result.0 ≡ fresh (registers_of pool.bits) }
        ensures rest { registers_of result.1.bits ≡ without (registers_of pool.bits) }
        ensures emitted { Lays code.old code.new (t_exp (binding_of self.now.declarations.now) (exp_at self.now.nodes.now (word_of self.now.nodes.now row k)) (fresh (registers_of pool.bits)) (without (registers_of pool.bits)) code.old.at) }
    {
        let register = pool.lowest();
        let rest = pool.less_lowest();
        self.emit_exp(self.operand(row, k), register, rest, code);
        (register, rest)
    }

    // The expression of a row into the target.
    // Five parameters: row, target, pool and code differ at each call. A struct of them would be made at the call and taken apart at once.
    #[cycle(expression)]
    #[tactic(auto, using(crate::proofs::Emits::emits), unfolding(crate::specs::Compile::need_exp, crate::specs::Compile::size_exp, crate::specs::Compile::t_exp))]
    fn emit_exp(&self, row: usize, target: u32, pool: Pool, code: &mut Code<'_>)
        requires exp_row { ExpRow self.now.nodes.now row }
        requires fit { Fit (binding_of self.now.declarations.now) (exp_at self.now.nodes.now row) code.old (registers_of pool.bits) }
        ensures { Lays code.old code.new (t_exp (binding_of self.now.declarations.now) (exp_at self.now.nodes.now row) target (registers_of pool.bits) code.old.at) }
    {
        match self.expression(row) {
            Expression::Value => code.put(Operation::Addi, target, self.word(row, 1), 0),
            Expression::Identifier => self.emit_name(self.link(row, 1), target, pool, code),
            Expression::Element => {
                let (t, rest) = self.emit_operand(row, 2, pool, code);
                code.emit_load(self.base(self.link(row, 1)), target, t, rest);
            }
            Expression::Not => {
                let (t, _) = self.emit_operand(row, 1, pool, code);
                code.emit_not(target, t);
            }
            Expression::Binary(operator) => {
                let (t, rest) = self.emit_operand(row, 1, pool, code);
                let (u, _) = self.emit_operand(row, 2, rest, code);
                code.emit_operator(operator, target, t, u);
            }
        }
    }

    // Assign: a row of that kind.
    #[tactic(auto, using(crate::proofs::Emits::emits), unfolding(crate::specs::Compile::need_com, crate::specs::Compile::size_com, crate::specs::Compile::t_com))]
    fn emit_assign(&self, row: usize, pool: Pool, code: &mut Code<'_>)
        requires com_row { ComRow self.now.nodes.now row }
        requires assigns { kind_at self.now.nodes.now row ≡ an_assign }
        requires fit_com { FitCom (binding_of self.now.declarations.now) (com_at self.now.nodes.now row) code.old (registers_of pool.bits) }
        ensures { Lays code.old code.new (t_com (binding_of self.now.declarations.now) (com_at self.now.nodes.now row) (registers_of pool.bits) code.old.at) }
    {
        let (t, rest) = self.emit_operand(row, 2, pool, code);
        code.emit_store(self.base(self.link(row, 1)), 0, t, rest);
    }

    // Assign element: a row of that kind. Apart from `emit_assign`, which has no operand for the index: one function for both would ask for the kind
    // again, and be no plainer.
    #[tactic(auto, using(crate::proofs::Emits::emits), unfolding(crate::specs::Compile::need_com, crate::specs::Compile::size_com, crate::specs::Compile::t_com))]
    fn emit_assign_element(&self, row: usize, pool: Pool, code: &mut Code<'_>)
        requires com_row { ComRow self.now.nodes.now row }
        requires assigns { kind_at self.now.nodes.now row ≡ an_assign_at }
        requires fit_com { FitCom (binding_of self.now.declarations.now) (com_at self.now.nodes.now row) code.old (registers_of pool.bits) }
        ensures { Lays code.old code.new (t_com (binding_of self.now.declarations.now) (com_at self.now.nodes.now row) (registers_of pool.bits) code.old.at) }
    {
        let (t, rest) = self.emit_operand(row, 2, pool, code);
        let (u, left) = self.emit_operand(row, 3, rest, code);
        code.emit_store(self.base(self.link(row, 1)), t, u, left);
    }

    // The command of a row. What leads past code that follows is written once that is laid.
    #[tactic(auto, using(crate::proofs::Emits::emits), unfolding(crate::specs::Compile::need_com, crate::specs::Compile::size_com, crate::specs::Compile::t_com))]
    pub(crate) fn emit_com(&self, row: usize, pool: Pool, code: &mut Code<'_>)
        requires com_row { ComRow self.now.nodes.now row }
        requires fit_com { FitCom (binding_of self.now.declarations.now) (com_at self.now.nodes.now row) code.old (registers_of pool.bits) }
        ensures { Lays code.old code.new (t_com (binding_of self.now.declarations.now) (com_at self.now.nodes.now row) (registers_of pool.bits) code.old.at) }
    {
        match self.command(row) {
            Command::Skip => code.put(Operation::Nop, 0, 0, 0),
            Command::Assign => self.emit_assign(row, pool, code),
            Command::AssignElement => self.emit_assign_element(row, pool, code),
            Command::Sequence => {
                self.emit_com(self.part(row, 1), pool, code);
                self.emit_com(self.part(row, 2), pool, code);
            }
            Command::While => {
                let start = code.label(0);
                let (t, _) = self.emit_operand(row, 1, pool, code);
                let branch = code.skip();
                self.emit_com(self.part(row, 2), pool, code);
                code.put(Operation::Jmp, start, 0, 0);
                code.put_at(branch, Operation::Beq, t, 0, code.label(0));
            }
            Command::If => {
                let (t, _) = self.emit_operand(row, 1, pool, code);
                let branch = code.skip();
                self.emit_com(self.part(row, 2), pool, code);
                let jump = code.skip();
                let other = code.label(0);
                code.put_at(branch, Operation::Beq, t, 0, other);
                self.emit_com(self.part(row, 3), pool, code);
                code.put_at(jump, Operation::Jmp, code.label(0), 0, 0);
            }
        }
    }
}
