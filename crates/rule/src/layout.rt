// Refusals 2, 4 and 5: what the declarations are, with their cells and the first cell of each.
ghost use Rattle.std.specs.Prelude.{◌≡◌, ◌*◌, ◌≤◌, length, IsTrue, SomeIff};
ghost use Rattle.rule.specs.Table.{declaration_limit, cells_of};
ghost use Rattle.rule.specs.Check.{is_declaration, declarations as declarations_of};
ghost use Rattle.rule.specs.Layout.{laid_said, laid_out, layout_of};

use crate::kind::Sort;
use crate::size::check_declaration_words;
use crate::{CELL_LIMIT, DECLARATION_LIMIT, DECLARATION_WORDS};
use refusal::Refusal;

// The number of the declarations' cells, and the first cell of each, in an array beside the table, which is lent to be read: nothing is
// allocated.
#[derive(Clone, Copy)]
pub struct Layout {
    pub cells: u32,
    pub bases: [u32; DECLARATION_LIMIT],
}

// The cells of a declaration, where a sort and a value are one.
fn cells_of(sort: u32, value: u32) -> Option<u32>
    ensures { SomeIff result (IsTrue (is_declaration sort value)) (cells_of sort value) }
{
    match (Sort::try_from(sort), value) {
        (Ok(Sort::Constant), _) => Some(0),
        (Ok(Sort::Variable), 0) => Some(1),
        (Ok(Sort::Array), 1..=CELL_LIMIT) => Some(value),
        _ => None,
    }
}

// Refusals 4 and 5, with the cells given out in row order.
fn lay_rows(declarations: &[u32]) -> Result<Layout, Refusal>
    requires { length declarations.now ≤ declaration_limit * 2 }
    ensures { laid_said result ≡ laid_out declarations.now (declarations_of declarations.now) }
{
    let mut bases = [0; DECLARATION_LIMIT];
    let mut cells = 0;
    for row in 0..declarations.len() / DECLARATION_WORDS {
        let at = row * DECLARATION_WORDS;
        let Some(own) = cells_of(declarations[at], declarations[at + 1]) else {
            return Err(Refusal::Declaration(row as u32));
        };
        bases[row] = cells;
        cells += own;
        if CELL_LIMIT < cells {
            return Err(Refusal::Cells(row as u32));
        }
    }
    Ok(Layout { cells, bases })
}

// Refusals 2, 4 and 5, with the number of cells and the first cell of each declaration.
#[tactic(auto, unfolding(crate::specs::Layout::layout_of, crate::specs::Layout::laid_said, crate::specs::Check::declared))]
pub fn lay_out(declarations: &[u32]) -> Result<Layout, Refusal>
    ensures { laid_said result ≡ layout_of declarations.now }
{
    check_declaration_words(declarations.len())?;
    lay_rows(declarations)
}
