// What is wrong with a row, and which of several faults counts.
ghost use Rattle.std.specs.Prelude.{◌≡◌, cond, min};
ghost use Rattle.refusal.specs.Refusal.{verdict_of};
ghost use Rattle.rule.specs.Check.{fault_number, no_of, verdict_at};

use refusal::Refusal;

// What is wrong with a row, in the order of the numbers.
#[derive(Clone, Copy, PartialEq, Eq, PartialOrd, Ord)]
pub(crate) enum Fault {
    Word,
    Sort,
    Name,
    NamedKind,
}

// "within a row the lower number wins"
pub(crate) fn lower(a: Result<(), Fault>, b: Result<(), Fault>) -> Result<(), Fault>
    ensures { no_of result ≡ min (no_of a) (no_of b) }
{
    match (a, b) {
        (Err(a), Err(b)) => Err(a.min(b)),
        (Ok(()), b) => b,
        (a, Ok(())) => a,
    }
}

// A fault, unless something holds.
pub(crate) fn demand(holds: bool, fault: Fault) -> Result<(), Fault>
    ensures { no_of result ≡ cond holds 10 (fault_number fault) }
{
    if holds { Ok(()) } else { Err(fault) }
}

// A row's fault as the refusal.
pub(crate) fn refusal_at(found: Result<(), Fault>, row: u32) -> Result<(), Refusal>
    ensures { verdict_of result ≡ verdict_at (no_of found) row }
{
    found.map_err(|fault| match fault {
        Fault::Word => Refusal::Word(row),
        Fault::Sort => Refusal::Sort(row),
        Fault::Name => Refusal::Name(row),
        Fault::NamedKind => Refusal::NamedKind(row),
    })
}
