// Registers needed. 01-scope.md, "Register choice".
ghost use Rattle.std.specs.Prelude.{◌≡◌, ◌+◌, ◌*◌, ◌<◌, ◌≤◌};
ghost use Rattle.rule.specs.Table.{declaration_rows, binding_of, exp_at, com_at};
ghost use Rattle.compiler.specs.Compile.{need_named, need_exp, need_com};
ghost use Rattle.compiler.specs.Inside.{ExpRow, ComRow};

use crate::tables::Tables;
use rule::{Command, Expression};

impl Tables<'_> {
    // Of an identifier.
    #[tactic(auto, using(crate::proofs::Bindings::need_stored))]
    fn need_name(&self, x: usize) -> u32
        requires { x < declaration_rows self.now.declarations.now }
        ensures { result ≡ need_named (binding_of self.now.declarations.now x) }
    {
        match self.constant(x) {
            Some(_) => 0,
            None => 1,
        }
    }

    // Of a row's expression.
    #[tactic(auto, using(crate::proofs::Rows::exp_read), unfolding(crate::specs::Compile::need_exp))]
    pub(crate) fn need_exp(&self, row: usize) -> u32
        requires exp_row { ExpRow self.now.nodes.now row }
        ensures value { result ≡ need_exp (binding_of self.now.declarations.now) (exp_at self.now.nodes.now row) }
        ensures upper_bound { result ≤ row * 2 + 2 }
    {
        match self.expression(row) {
            Expression::Value => 0,
            Expression::Identifier => self.need_name(self.link(row, 1)),
            Expression::Element => 1 + u32::max(1, self.need_exp(self.operand(row, 2))),
            Expression::Binary(_) => {
                let left = self.need_exp(self.operand(row, 1));
                let right = self.need_exp(self.operand(row, 2));
                u32::max(1 + left, 2 + right)
            }
            Expression::Not => 1 + self.need_exp(self.operand(row, 1)),
        }
    }

    // Of a row's command.
    #[tactic(auto, using(crate::proofs::Rows::com_read), unfolding(crate::specs::Compile::need_com))]
    pub(crate) fn need_com(&self, row: usize) -> u32
        requires com_row { ComRow self.now.nodes.now row }
        ensures value { result ≡ need_com (binding_of self.now.declarations.now) (com_at self.now.nodes.now row) }
        ensures upper_bound { result ≤ row * 2 + 3 }
    {
        match self.command(row) {
            Command::Skip => 0,
            Command::Assign => 1 + u32::max(1, self.need_exp(self.operand(row, 2))),
            Command::AssignElement => {
                let index = self.need_exp(self.operand(row, 2));
                let value = self.need_exp(self.operand(row, 3));
                u32::max(1 + index, u32::max(2 + value, 3))
            }
            Command::Sequence => {
                let first = self.need_com(self.part(row, 1));
                let second = self.need_com(self.part(row, 2));
                u32::max(first, second)
            }
            Command::If => {
                let test = self.need_exp(self.operand(row, 1));
                let body = self.need_com(self.part(row, 2));
                let other = self.need_com(self.part(row, 3));
                u32::max(1 + test, u32::max(body, other))
            }
            Command::While => {
                let test = self.need_exp(self.operand(row, 1));
                let body = self.need_com(self.part(row, 2));
                u32::max(1 + test, body)
            }
        }
    }
}
