// Refusals 6 to 9 of one row: its three words by its kind, with the marks of its children.
ghost use Rattle.std.specs.Prelude.{◌≡◌, ◌<◌, ◌≤◌, MatchResult};
ghost use Rattle.rule.specs.Table.{row_limit, node_rows};

use crate::fault::{Fault, demand, lower, refusal_at};
use crate::kind::{Command, Expression, Kind, Sort, UnknownKind};
use crate::mark::Mark;
use crate::row::Class::{
    ArrayName, CommandRow, ExpressionRow, Number, Scalar, Unused, VariableName,
};
use crate::{DECLARATION_WORDS, NODE_WORDS, ROW_LIMIT};
use refusal::Refusal;

// What one of a row's three words is.
#[derive(Clone, Copy)]
enum Class {
    Unused,
    Number,
    Scalar,
    VariableName,
    ArrayName,
    ExpressionRow,
    CommandRow,
}

// A row of the node table, with the declarations that it may name.
#[derive(Clone, Copy)]
pub(crate) struct Row<'a> {
    pub(crate) declarations: &'a [u32],
    pub(crate) nodes: &'a [u32],
    pub(crate) row: usize,
    ghost in_table: { (row < node_rows nodes.now) × (row < row_limit) },
}

impl Row<'_> {
    ghost use Rattle.refusal.specs.Refusal.{verdict_of};
    ghost use Rattle.rule.specs.Kind.{three, words_of, expression_said, command_said, kind_said, class_said};
    ghost use Rattle.rule.specs.Table.{declaration_rows, sort, word, kind_at};
    ghost use Rattle.rule.specs.Check.{last_no, row_no, no_of, verdict_at};
    ghost use Rattle.rule.specs.Marks.{mark_child};
    ghost use Rattle.rule.specs.Row.{word_found, words_found, word_marked, words_marked};

    // The sort of the declaration that a word names, as its number; refusal 8.
    fn named(&self, w: u32) -> Result<u32, Fault>
        ensures { MatchResult result
            (λ s. (w < declaration_rows self.now.declarations.now) × (s ≡ sort self.now.declarations.now w))
            (λ f. (declaration_rows self.now.declarations.now ≤ w) × (f ≡ Fault.Name)) }
    {
        let row = w as usize;
        if self.declarations.len() / DECLARATION_WORDS <= row {
            return Err(Fault::Name);
        }
        Ok(self.declarations[row * DECLARATION_WORDS])
    }

    // The kind of a child, as its number; refusal 6. A child below its row is marked.
    fn child(&self, w: u32, marks: &mut [Mark; ROW_LIMIT]) -> Result<u32, Fault>
        ensures kind { MatchResult result
            (λ k. (w < self.now.row) × (k ≡ word self.now.nodes.now w 0))
            (λ f. (self.now.row ≤ w) × (f ≡ Fault.Word)) }
        ensures marks { marks.new ≡ mark_child self.now.row w marks.old }
    {
        let at = w as usize;
        if self.row <= at {
            return Err(Fault::Word);
        }
        marks[at] = marks[at].more();
        Ok(self.nodes[at * NODE_WORDS])
    }

    // Refusals 6 to 9 of one word, by what it is. It becomes part of each arm of the tables below, so that a row takes one jump.
    // Read first as three classes, and then checked, a row took 1.1 to 1.3 times as long.
    #[inline(always)]
    fn check_word(&self, class: Class, w: u32, marks: &mut [Mark; ROW_LIMIT]) -> Result<(), Fault>
        ensures refusal { no_of result ≡ word_found self.now (class_said class) w }
        ensures marks { marks.new ≡ word_marked self.now (class_said class) w marks.old }
    {
        match class {
            Unused => demand(w == 0, Fault::Word),
            Number => Ok(()),
            Scalar => {
                let sort = Sort::try_from(self.named(w)?);
                demand(
                    matches!(sort, Ok(Sort::Constant | Sort::Variable)),
                    Fault::NamedKind,
                )
            }
            VariableName => {
                let sort = Sort::try_from(self.named(w)?);
                demand(matches!(sort, Ok(Sort::Variable)), Fault::NamedKind)
            }
            ArrayName => {
                let sort = Sort::try_from(self.named(w)?);
                demand(matches!(sort, Ok(Sort::Array)), Fault::NamedKind)
            }
            ExpressionRow => {
                let kind = Kind::try_from(self.child(w, marks)?);
                demand(matches!(kind, Ok(Kind::Expression(_))), Fault::Sort)
            }
            CommandRow => {
                let kind = Kind::try_from(self.child(w, marks)?);
                demand(matches!(kind, Ok(Kind::Command(_))), Fault::Sort)
            }
        }
    }

    // Refusals 6 to 9 of the row's three words, by what each is; part of each arm, too.
    #[inline(always)]
    fn check_words(
        &self,
        first: Class,
        second: Class,
        third: Class,
        marks: &mut [Mark; ROW_LIMIT],
    ) -> Result<(), Fault>
        ensures refusal { no_of result ≡ words_found self.now (three (class_said first) (class_said second) (class_said third)) }
        ensures marks { marks.new ≡ words_marked self.now (three (class_said first) (class_said second) (class_said third)) marks.old }
    {
        let at = self.row * NODE_WORDS;
        let a = self.check_word(first, self.nodes[at + 1], marks);
        let b = self.check_word(second, self.nodes[at + 2], marks);
        let c = self.check_word(third, self.nodes[at + 3], marks);
        lower(a, lower(b, c))
    }

    // Refusals 6 to 9 of the words of an expression.
    fn check_expression(
        &self,
        expression: Expression,
        marks: &mut [Mark; ROW_LIMIT],
    ) -> Result<(), Fault>
        ensures refusal { no_of result ≡ words_found self.now (words_of (expression_said expression)) }
        ensures marks { marks.new ≡ words_marked self.now (words_of (expression_said expression)) marks.old }
    {
        match expression {
            Expression::Value => self.check_words(Number, Unused, Unused, marks),
            Expression::Identifier => self.check_words(Scalar, Unused, Unused, marks),
            Expression::Element => self.check_words(ArrayName, ExpressionRow, Unused, marks),
            Expression::Binary(_) => self.check_words(ExpressionRow, ExpressionRow, Unused, marks),
            Expression::Not => self.check_words(ExpressionRow, Unused, Unused, marks),
        }
    }

    // Refusals 6 to 9 of the words of a command.
    fn check_command(&self, command: Command, marks: &mut [Mark; ROW_LIMIT]) -> Result<(), Fault>
        ensures refusal { no_of result ≡ words_found self.now (words_of (command_said command)) }
        ensures marks { marks.new ≡ words_marked self.now (words_of (command_said command)) marks.old }
    {
        match command {
            Command::Skip => self.check_words(Unused, Unused, Unused, marks),
            Command::Assign => self.check_words(VariableName, ExpressionRow, Unused, marks),
            Command::AssignElement => {
                self.check_words(ArrayName, ExpressionRow, ExpressionRow, marks)
            }
            Command::Sequence => self.check_words(CommandRow, CommandRow, Unused, marks),
            Command::If => self.check_words(ExpressionRow, CommandRow, CommandRow, marks),
            Command::While => self.check_words(ExpressionRow, CommandRow, Unused, marks),
        }
    }

    // Refusals 6 to 9 of the row's words, by its kind; where it has none, no word is in order.
    fn check_kind(
        &self,
        kind: Result<Kind, UnknownKind>,
        marks: &mut [Mark; ROW_LIMIT],
    ) -> Result<(), Fault>
        ensures refusal { no_of result ≡ words_found self.now (words_of (kind_said kind)) }
        ensures marks { marks.new ≡ words_marked self.now (words_of (kind_said kind)) marks.old }
    {
        match kind {
            Ok(Kind::Expression(expression)) => self.check_expression(expression, marks),
            Ok(Kind::Command(command)) => self.check_command(command, marks),
            Err(_) => Err(Fault::Word),
        }
    }

    // Refusal 7 of the last row.
    fn check_last(&self, kind: Result<Kind, UnknownKind>) -> Result<(), Fault>
        requires { kind_said kind ≡ kind_at self.now.nodes.now self.now.row }
        ensures { no_of result ≡ last_no self.now.nodes.now self.now.row }
    {
        let rows = self.nodes.len() / NODE_WORDS;
        demand(
            self.row + 1 < rows || matches!(kind, Ok(Kind::Command(_))),
            Fault::Sort,
        )
    }

    // Refusals 6 to 9 of the row.
    pub(crate) fn check(&self, marks: &mut [Mark; ROW_LIMIT]) -> Result<(), Refusal>
        ensures refusal { let r = self.now in verdict_of result ≡ verdict_at (row_no r.declarations.now r.nodes.now r.row) r.row }
        ensures marks { marks.new ≡ words_marked self.now (words_of (kind_at self.now.nodes.now self.now.row)) marks.old }
    {
        let kind = Kind::try_from(self.nodes[self.row * NODE_WORDS]);
        let words = self.check_kind(kind, marks);
        let found = lower(words, self.check_last(kind));
        refusal_at(found, self.row as u32)
    }
}
