// A transform's text beside the printed one.
ghost use Rattle.std.specs.Prelude.{◌≡◌, Some};
ghost use Rattle.replies.specs.Normal.{Normalised, meant, normal_text};

use faults::refusal::Refusal;
use std::fmt;
use texts::read::{loose, strict};
use transforms::transform::Transform;

#[derive(Clone, Copy)]
pub enum Normal {
    // the text is the one that the transform is printed as
    Same(Transform),
    // the text is read as the transform, and is not its printed one
    Other(Transform),
}

// Which transform a text means, and whether it is the printed text.
pub fn normalise(text: &[u8]) -> Result<Normal, Refusal>
    ensures { Normalised text.now result }
{
    if let Ok(transform) = strict(text) {
        return Ok(Normal::Same(transform));
    }
    let transform = loose(text)?;
    Ok(Normal::Other(transform))
}

impl Normal {
    // The transform that the text means.
    pub fn transform(&self) -> Transform
        ensures { result ≡ meant self.now }
    {
        match *self {
            Normal::Same(transform) | Normal::Other(transform) => transform,
        }
    }
}

impl fmt::Display for Normal {
    ghost output = { λ n. Some (normal_text n) };

    fn fmt<W: fmt::Write>(&self, f: &mut fmt::Formatter<W>) -> fmt::Result {
        match *self {
            Normal::Same(transform) => write!(f, "{transform}, the printed text"),
            Normal::Other(transform) => write!(f, "{transform}, not the printed text"),
        }
    }
}
