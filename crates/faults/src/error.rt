// The kinds of the crate's errors, and the layers that a refusal can come from.
#[derive(Clone, Copy, Debug, PartialEq, Eq)]
pub enum ErrorKind {
    // the state is not one that the call can go on from
    PreconditionFailed,
    Unexpected,
    // what was passed breaks a rule
    DataInvalid,
    NamespaceAlreadyExists,
    TableAlreadyExists,
    NamespaceNotFound,
    TableNotFound,
    FeatureUnsupported,
    CatalogCommitConflicts,
}

#[derive(Clone, Copy, Debug, PartialEq, Eq)]
pub enum Layer {
    Name,
    Text,
    Type,
    Draft,
    Batch,
    Record,
    Sort,
    Selection,
}
