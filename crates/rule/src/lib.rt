// Station rules as tables: declarations and nodes, and the checks that a table passes before anything is made of it.
#![tactic(auto)]

mod fault;
mod kind;
mod layout;
mod mark;
mod row;
mod size;

ghost use Rattle.std.specs.Prelude.{◌≡◌, ◌<◌, ◌≤◌};
ghost use Rattle.rule.specs.Table.{row_limit, node_rows};
ghost use Rattle.refusal.specs.Refusal.{verdict_of, ◌and_then◌};
ghost use Rattle.rule.specs.Check.{rows as rows_of, used_once};
ghost use Rattle.rule.specs.Answer.{verdict_said, check_said, rows_checked, checked};

pub use kind::{Command, Expression, Kind, Operator, Sort, UnknownKind, UnknownSort};
pub use layout::{Layout, lay_out};
use mark::{Mark, scan_marks};
use refusal::Refusal;
use row::Row;
pub use size::check_words;

// The words of a node row, and of a declaration.
pub const NODE_WORDS: usize = 4;

pub const DECLARATION_WORDS: usize = 2;

// At most so many node rows, declaration rows and cells.
pub const ROW_LIMIT: usize = 1024;

pub const DECLARATION_LIMIT: usize = 256;

pub const CELL_LIMIT: u32 = 65536;

// Refusals 6 to 9, then 10.
fn scan_rows(declarations: &[u32], nodes: &[u32]) -> Result<(), Refusal>
    requires { (0 < node_rows nodes.now) × (node_rows nodes.now ≤ row_limit) }
    ensures { verdict_of result ≡ rows_of declarations.now nodes.now and_then used_once nodes.now }
{
    let rows = nodes.len() / NODE_WORDS;
    let mut marks = [Mark::Unmet; ROW_LIMIT];
    for row in 0..rows {
        let row = Row {
            declarations,
            nodes,
            row,
        };
        row.check(&mut marks)?;
    }
    scan_marks(&marks, rows)
}

// Refusal 1, then 6 to 10.
#[tactic(auto, using(crate::proofs::Answers::said_is), unfolding(crate::specs::Answer::rows_checked, crate::specs::Check::nodes))]
pub fn check_rows(declarations: &[u32], nodes: &[u32]) -> Result<(), Refusal>
    ensures { verdict_said result ≡ rows_checked declarations.now nodes.now }
{
    size::check_node_words(nodes.len())?;
    scan_rows(declarations, nodes)
}

// Refusals 1, 2 and 4 to 10, in order, or the number of cells.
pub fn check(declarations: &[u32], nodes: &[u32]) -> Result<u32, Refusal>
    ensures { check_said result ≡ checked declarations.now nodes.now }
{
    check_words(nodes.len(), declarations.len())?;
    let layout = lay_out(declarations)?;
    check_rows(declarations, nodes)?;
    Ok(layout.cells)
}
