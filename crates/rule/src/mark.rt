// How often a row is met as a child, while the rows are gone through once; refusal 10.
ghost use Rattle.std.specs.Prelude.{◌≡◌, ◌<◌, ◌≤◌};
ghost use Rattle.refusal.specs.Refusal.{verdict_of};
ghost use Rattle.rule.specs.Table.{row_limit};
ghost use Rattle.rule.specs.Marks.{more, once_marked};

use crate::ROW_LIMIT;
use refusal::Refusal;

// How often a row is met as a child: never, once, or more often. The marks lie in an array beside the table, which is lent to be read: nothing
// is allocated.
#[derive(Clone, Copy, PartialEq, Eq)]
pub(crate) enum Mark {
    Unmet,
    Once,
    Often,
}

impl Mark {
    // The mark of a row that is met once more.
    pub(crate) fn more(self) -> Mark
        ensures { result ≡ more self }
    {
        match self {
            Mark::Unmet => Mark::Once,
            Mark::Once | Mark::Often => Mark::Often,
        }
    }
}

// Refusal 10, told from the marks.
pub(crate) fn scan_marks(marks: &[Mark; ROW_LIMIT], rows: usize) -> Result<(), Refusal>
    requires { (0 < rows) × (rows ≤ row_limit) }
    ensures { verdict_of result ≡ once_marked marks.now rows }
{
    for row in 0..rows - 1 {
        if marks[row] != Mark::Once {
            return Err(Refusal::Uses(row as u32));
        }
    }
    Ok(())
}
