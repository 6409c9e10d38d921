// Instructions emitted. 01-scope.md, "Meaning of a rule, and its steps".
ghost use Rattle.std.specs.Prelude.{◌≡◌, ◌<◌};
ghost use Rattle.rule.specs.Kind.{op_said};
ghost use Rattle.rule.specs.Table.{declaration_rows, binding_of, exp_at, com_at};
ghost use Rattle.compiler.specs.Compile.{size_named, size_op, size_exp, size_com};
ghost use Rattle.compiler.specs.Inside.{ExpRow, ComRow};

use crate::tables::Tables;
use rule::{Command, Expression, Operator};

// Of a binary's own part.
fn size_op(operator: Operator) -> u32
    ensures { result ≡ size_op (op_said operator) }
{
    match operator {
        Operator::Plus | Operator::Minus | Operator::Times | Operator::Less => 1,
        Operator::Equal | Operator::And | Operator::Or => 4,
    }
}

impl Tables<'_> {
    // Of an identifier.
    #[tactic(auto, using(crate::proofs::Bindings::size_stored))]
    fn size_name(&self, x: usize) -> u32
        requires { x < declaration_rows self.now.declarations.now }
        ensures { result ≡ size_named (binding_of self.now.declarations.now x) }
    {
        match self.constant(x) {
            Some(_) => 1,
            None => 2,
        }
    }

    // Of a row's expression.
    #[tactic(auto, using(crate::proofs::Rows::exp_read), unfolding(crate::specs::Compile::size_exp))]
    pub(crate) fn size_exp(&self, row: usize) -> u32
        requires exp_row { ExpRow self.now.nodes.now row }
        requires row_bound { size_exp (binding_of self.now.declarations.now) (exp_at self.now.nodes.now row) < 4294967296 }
        ensures { result ≡ size_exp (binding_of self.now.declarations.now) (exp_at self.now.nodes.now row) }
    {
        match self.expression(row) {
            Expression::Value => 1,
            Expression::Identifier => self.size_name(self.link(row, 1)),
            Expression::Element => self.size_exp(self.operand(row, 2)) + 2,
            Expression::Binary(operator) => {
                let left = self.size_exp(self.operand(row, 1));
                let right = self.size_exp(self.operand(row, 2));
                left + right + size_op(operator)
            }
            Expression::Not => self.size_exp(self.operand(row, 1)) + 3,
        }
    }

    // Of a row's command.
    #[tactic(auto, using(crate::proofs::Rows::com_read), unfolding(crate::specs::Compile::size_com))]
    pub(crate) fn size_com(&self, row: usize) -> u32
        requires com_row { ComRow self.now.nodes.now row }
        requires row_bound { size_com (binding_of self.now.declarations.now) (com_at self.now.nodes.now row) < 4294967296 }
        ensures { result ≡ size_com (binding_of self.now.declarations.now) (com_at self.now.nodes.now row) }
    {
        match self.command(row) {
            Command::Skip => 1,
            Command::Assign => self.size_exp(self.operand(row, 2)) + 2,
            Command::AssignElement => {
                let index = self.size_exp(self.operand(row, 2));
                let value = self.size_exp(self.operand(row, 3));
                index + value + 2
            }
            Command::Sequence => {
                let first = self.size_com(self.part(row, 1));
                let second = self.size_com(self.part(row, 2));
                first + second
            }
            Command::If => {
                let test = self.size_exp(self.operand(row, 1));
                let body = self.size_com(self.part(row, 2));
                let other = self.size_com(self.part(row, 3));
                test + body + other + 2
            }
            Command::While => {
                let test = self.size_exp(self.operand(row, 1));
                let body = self.size_com(self.part(row, 2));
                test + body + 2
            }
        }
    }
}
