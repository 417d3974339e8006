// What every refusal tells: its number, its kind, its layer, its reason, a value and an index.
#![tactic(auto)]

ghost use Rattle.std.specs.Prelude.{◌≡◌, Some};
ghost use Rattle.faults.specs.Told.{Told, kind_word, layer_word};
ghost use Rattle.faults.specs.Refusals.{told_by};

pub mod error;
pub mod refusal;

use error::{ErrorKind, Layer};
use refusal::Refusal;
use std::fmt;

// A refusal by what it tells. `told` is the one definition of an enum's numbers and values.
pub trait Fault {
    ghost told: { Self → Told };

    // All that it tells.
    fn refusal(&self) -> Refusal
        ensures { told_by result ≡ told self.now };

    fn number(&self) -> u8
        ensures { result ≡ (told self.now).number }
    {
        self.refusal().number
    }

    fn kind(&self) -> ErrorKind
        ensures { result ≡ (told self.now).kind }
    {
        self.refusal().kind
    }

    fn layer(&self) -> Layer
        ensures { result ≡ (told self.now).layer }
    {
        self.refusal().layer
    }

    fn reason(&self) -> &'static str
        ensures { result.now ≡ (told self.now).reason }
    {
        self.refusal().reason
    }

    // the length or the index of an earlier field that goes with the number
    fn value(&self) -> Option<usize>
        ensures { result ≡ (told self.now).value }
    {
        self.refusal().value
    }

    // which field of a batch, or entry of a record, was refused
    fn index(&self) -> Option<usize>
        ensures { result ≡ (told self.now).index }
    {
        self.refusal().index
    }
}

impl ErrorKind {
    // The kind's name, as the crate prints it.
    pub fn into_static(self) -> &'static str
        ensures { result.now ≡ kind_word self }
    {
        match self {
            ErrorKind::PreconditionFailed => "PreconditionFailed",
            ErrorKind::Unexpected => "Unexpected",
            ErrorKind::DataInvalid => "DataInvalid",
            ErrorKind::NamespaceAlreadyExists => "NamespaceAlreadyExists",
            ErrorKind::TableAlreadyExists => "TableAlreadyExists",
            ErrorKind::NamespaceNotFound => "NamespaceNotFound",
            ErrorKind::TableNotFound => "TableNotFound",
            ErrorKind::FeatureUnsupported => "FeatureUnsupported",
            ErrorKind::CatalogCommitConflicts => "CatalogCommitConflicts",
        }
    }
}

impl Layer {
    pub fn into_static(self) -> &'static str
        ensures { result.now ≡ layer_word self }
    {
        match self {
            Layer::Name => "name",
            Layer::Text => "text",
            Layer::Type => "type",
            Layer::Draft => "draft",
            Layer::Batch => "batch",
            Layer::Record => "record",
            Layer::Sort => "sort",
            Layer::Selection => "selection",
        }
    }
}

impl fmt::Display for ErrorKind {
    ghost output = { λ kind. Some (kind_word kind) };

    fn fmt<W: fmt::Write>(&self, f: &mut fmt::Formatter<W>) -> fmt::Result {
        f.write_str(self.into_static())
    }
}

impl fmt::Display for Layer {
    ghost output = { λ layer. Some (layer_word layer) };

    fn fmt<W: fmt::Write>(&self, f: &mut fmt::Formatter<W>) -> fmt::Result {
        write!(f, "{}", self.into_static())
    }
}
