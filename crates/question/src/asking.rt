// From the bytes of an input to what it asks.
ghost use Rattle.std.specs.Prelude.{◌≡◌, ◌<◌, length, IfSome};
ghost use Rattle.refusal.specs.Tests.{on_ok};
ghost use Rattle.question.specs.Questions.{asked, newline, question_of};

use crate::question::Question;
use bus::Ranking;
use refusal::{Fault, Layer, Refusal};

// Ends the word.
const NEWLINE: u8 = 10;

// Where the first byte 10 of an input stands.
fn line_end(input: &[u8]) -> Option<usize>
    ensures value { result ≡ newline input.now }
    ensures within { IfSome result (λ i. i < length input.now) }
{
    input.iter().position(|byte| *byte == NEWLINE)
}

// The question of an input, or its fault where the word before the first byte 10 names no ranking rule.
pub fn ask(input: &[u8]) -> Result<Question<'_>, Fault>
    ensures { on_ok question_of result ≡ asked input.now }
{
    let no_word = Refusal::WordUnknown.at(0, Layer::Word);
    let end = line_end(input).ok_or(no_word)?;
    let ranking = Ranking::named(&input[..end]).ok_or(no_word)?;
    Ok(Question {
        ranking,
        file: &input[end + 1..],
    })
}
