// The tables of a rule that passed its checks, and the words of a node's row.
ghost use Rattle.std.specs.Prelude.{◌≡◌, ◌≢◌, ◌+◌, ◌*◌, ◌<◌, length, MatchOption};
ghost use Rattle.rule.specs.Tree.{constant};
ghost use Rattle.rule.specs.Kind.{expression, command, expression_said, command_said};
ghost use Rattle.rule.specs.Table.{declaration_rows, sort, binding_of, word as word_of, kind_at};
ghost use Rattle.compiler.specs.Inside.{Rows, Rows-prop, Based, Based-prop, ExpRow, ComRow, class_at};

use rule::{Command, DECLARATION_LIMIT, DECLARATION_WORDS, Expression, Kind, NODE_WORDS, Sort};

// The tables of a rule that passed its checks, with each declaration's first cell. Rows name each other by number, as a C program lends them:
// nothing is allocated.
#[derive(Clone, Copy)]
pub(crate) struct Tables<'a> {
    pub(crate) declarations: &'a [u32],
    pub(crate) nodes: &'a [u32],
    pub(crate) bases: &'a [u32; DECLARATION_LIMIT],
    ghost rows: { Rows declarations.now nodes.now } by { Rows-prop declarations.now nodes.now },
    ghost based: { Based declarations.now bases.now } by { Based-prop declarations.now bases.now },
}

impl Tables<'_> {
    // Word k of a row.
    pub(crate) fn word(&self, row: usize, k: usize) -> u32
        requires { row * 4 + k < length self.now.nodes.now }
        ensures { result ≡ word_of self.now.nodes.now row k }
    {
        self.nodes[row * NODE_WORDS + k]
    }

    // Word k of a row, which names a declaration.
    pub(crate) fn link(&self, row: usize, k: usize) -> usize
        requires { row * 4 + k < length self.now.nodes.now }
        ensures { result ≡ word_of self.now.nodes.now row k }
    {
        self.nodes[row * NODE_WORDS + k] as usize
    }

    // The kind of an expression's row.
    pub(crate) fn expression(&self, row: usize) -> Expression
        requires exp_row { ExpRow self.now.nodes.now row }
        ensures { kind_at self.now.nodes.now row ≡ expression_said result }
    {
        match Kind::try_from(self.word(row, 0)) {
            Ok(Kind::Expression(expression)) => expression,
            _ => unreachable!(),
        }
    }

    // The kind of a command's row.
    pub(crate) fn command(&self, row: usize) -> Command
        requires com_row { ComRow self.now.nodes.now row }
        ensures { kind_at self.now.nodes.now row ≡ command_said result }
    {
        match Kind::try_from(self.word(row, 0)) {
            Ok(Kind::Command(command)) => command,
            _ => unreachable!(),
        }
    }

    // The row of the expression that word k of a row names.
    #[tactic(auto, using(crate::proofs::Rows::exp_below))]
    pub(crate) fn operand(&self, row: usize, k: usize) -> usize
        requires there { row * 4 + 3 < length self.now.nodes.now }
        requires class { class_at self.now.nodes.now row k ≡ expression }
        ensures value { result ≡ word_of self.now.nodes.now row k }
        ensures below { result < row }
        ensures exp_row { ExpRow self.now.nodes.now result }
    {
        self.link(row, k)
    }

    // The row of the command that word k of a row names. Apart from `operand`, since what is known of the row differs: one function for both would
    // promise a choice, and be no plainer.
    #[tactic(auto, using(crate::proofs::Rows::com_below))]
    pub(crate) fn part(&self, row: usize, k: usize) -> usize
        requires there { row * 4 + 3 < length self.now.nodes.now }
        requires class { class_at self.now.nodes.now row k ≡ command }
        ensures value { result ≡ word_of self.now.nodes.now row k }
        ensures below { result < row }
        ensures com_row { ComRow self.now.nodes.now result }
    {
        self.link(row, k)
    }

    // The value of a constant.
    #[tactic(auto, using(crate::proofs::Bindings::binding_constant))]
    pub(crate) fn constant(&self, x: usize) -> Option<u32>
        requires { x < declaration_rows self.now.declarations.now }
        ensures { MatchOption result (sort self.now.declarations.now x ≢ 1) (λ v. binding_of self.now.declarations.now x ≡ constant v) }
    {
        if self.declarations[x * DECLARATION_WORDS] == u32::from(Sort::Constant) {
            Some(self.declarations[x * DECLARATION_WORDS + 1])
        } else {
            None
        }
    }
}
