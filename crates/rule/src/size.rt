// Refusals 1 and 2: how many words each table may have.
ghost use Rattle.std.specs.Prelude.{◌≡◌, ◌*◌, ◌^◌, ◌<◌, ◌%◌, ◌&&◌, eqb, leb};
ghost use Rattle.refusal.specs.Refusal.{verdict_of};
ghost use Rattle.rule.specs.Check.{node_words, declaration_words};
ghost use Rattle.rule.specs.Answer.{verdict_said, words_checked};

use crate::{DECLARATION_LIMIT, DECLARATION_WORDS, NODE_WORDS, ROW_LIMIT};
use refusal::Refusal;

// Whether words are whole rows, and at most so many.
fn are_rows(words: usize, row_words: usize, most: usize) -> bool
    requires { (0 < row_words) × (most * row_words < 2 ^ 64) }
    ensures { result ≡ eqb (words % row_words) 0 && leb words (most * row_words) }
{
    words % row_words == 0 && words <= most * row_words
}

// Refusal 1.
#[tactic(auto, unfolding(crate::specs::Check::node_words))]
pub(crate) fn check_node_words(words: usize) -> Result<(), Refusal>
    ensures { verdict_of result ≡ node_words words }
{
    if 0 < words && are_rows(words, NODE_WORDS, ROW_LIMIT) {
        Ok(())
    } else {
        Err(Refusal::NodeWords)
    }
}

// Refusal 2.
#[tactic(auto, unfolding(crate::specs::Check::declaration_words))]
pub(crate) fn check_declaration_words(words: usize) -> Result<(), Refusal>
    ensures { verdict_of result ≡ declaration_words words }
{
    if are_rows(words, DECLARATION_WORDS, DECLARATION_LIMIT) {
        Ok(())
    } else {
        Err(Refusal::DeclarationWords)
    }
}

// Refusals 1 and 2.
#[tactic(auto, using(crate::proofs::Answers::said_is), unfolding(crate::specs::Answer::words_checked))]
pub fn check_words(node_words: usize, declaration_words: usize) -> Result<(), Refusal>
    ensures { verdict_said result ≡ words_checked node_words declaration_words }
{
    check_node_words(node_words)?;
    check_declaration_words(declaration_words)
}
