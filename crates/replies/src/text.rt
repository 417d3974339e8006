// What the questions on names and texts answer, or the refusal that stands in the answer's place.
ghost use Rattle.replies.specs.Answers.{NameAnswer, TransformAnswer, StrictAnswer, ResultAnswer, PreservesAnswer, SatisfiesAnswer, AlikeAnswer};

use crate::answer::Answer;
use faults::refusal::Refusal;
use names::name::check_name;
use texts::read::{loose, strict};
use transforms::datatypes::Type;

pub fn name_answer(name: &[u8]) -> Result<Answer, Refusal>
    ensures { NameAnswer name.now result }
{
    check_name(name)?;
    Ok(Answer::Done)
}

pub fn transform_answer(text: &[u8]) -> Result<Answer, Refusal>
    ensures { TransformAnswer text.now result }
{
    let transform = loose(text)?;
    Ok(Answer::Printed(transform))
}

pub fn strict_answer(text: &[u8]) -> Result<Answer, Refusal>
    ensures { StrictAnswer text.now result }
{
    let transform = strict(text)?;
    Ok(Answer::Printed(transform))
}

pub fn result_answer(text: &[u8], input: Type) -> Result<Answer, Refusal>
    ensures { ResultAnswer text.now input result }
{
    let transform = loose(text)?;
    let result = transform.result_type(&input)?;
    Ok(Answer::ResultIs(result))
}

pub fn preserves_answer(text: &[u8]) -> Result<Answer, Refusal>
    ensures { PreservesAnswer text.now result }
{
    let transform = loose(text)?;
    Ok(Answer::Test(transform.preserves_order()))
}

// The first text that is refused decides.
pub fn satisfies_answer(text: &[u8], other: &[u8]) -> Result<Answer, Refusal>
    ensures { SatisfiesAnswer text.now other.now result }
{
    let own = loose(text)?;
    let wanted = loose(other)?;
    Ok(Answer::Test(own.satisfies_order_of(&wanted)))
}

pub fn alike_answer(text: &[u8], other: &[u8]) -> Result<Answer, Refusal>
    ensures { AlikeAnswer text.now other.now result }
{
    let own = loose(text)?;
    let second = loose(other)?;
    Ok(Answer::Test(own.alike(&second)))
}
