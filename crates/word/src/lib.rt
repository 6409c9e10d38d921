// Words: 32-bit numbers read as signed numbers, with wrapping sum, difference and product, and signed order.
#![tactic(auto)]

ghost use Rattle.std.specs.Prelude.{◌≡◌};
ghost use Rattle.word.specs.Word.{sum_of, difference_of, product_of, less_of};

// How many words there are: one whole turn.
const TURN: u64 = 1 << u32::BITS;

// a + b, wrapped.
#[tactic(auto, using(crate::proofs::Wraps::sum_law))]
pub fn sum(a: u32, b: u32) -> u32
    ensures { result ≡ sum_of a b }
{
    a.wrapping_add(b)
}

// a - b, wrapped.
#[tactic(auto, using(crate::proofs::Wraps::difference_law))]
pub fn difference(a: u32, b: u32) -> u32
    ensures { result ≡ difference_of a b }
{
    a.wrapping_sub(b)
}

// a * b, wrapped.
#[tactic(auto, using(crate::proofs::Wraps::product_law))]
pub fn product(a: u32, b: u32) -> u32
    ensures { result ≡ product_of a b }
{
    // No `wrapping_mul`: docs/PROMISES.md, "Forms and where they belong", wants the 64-bit product reduced.
    (u64::from(a) * u64::from(b) % TURN) as u32
}

// Whether a is less than b, as signed numbers.
#[tactic(auto, using(crate::proofs::Signed::less_law))]
pub fn less(a: u32, b: u32) -> bool
    ensures { result ≡ less_of a b }
{
    a.cast_signed() < b.cast_signed()
}
