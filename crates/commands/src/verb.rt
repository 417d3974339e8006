// The first words of commands.
ghost use Rattle.std.specs.Prelude.{◌≡◌, MatchResult};
ghost use Rattle.commands.specs.Words.{word_of, NoVerb};
ghost use Rattle.commands.specs.declared.fault.ScriptFault.TheVariants.{BadCommand};

use crate::fault::ScriptFault;
use std::str::FromStr;

#[derive(Clone, Copy)]
pub enum Verb {
    Column,
    Columns,
    Regular,
    Sheet,
    Select,
    Name,
    Transform,
    Strict,
    Result,
    Preserves,
    Satisfies,
    Alike,
    Draft,
    Unbound,
    SpecId,
    Start,
    Add,
    AddByName,
    Batch,
    Close,
    Bind,
    Open,
    OpenBind,
    PartitionType,
    Unpartitioned,
    Sequential,
    Highest,
    Compatible,
    Equal,
    RecordOf,
    RecordUnbound,
    Read,
    Items,
    SortNew,
    SortId,
    Sort,
    SortBuild,
    SortBuildUnbound,
}

const VERBS: [Verb; 38] = [
    Verb::Column,
    Verb::Columns,
    Verb::Regular,
    Verb::Sheet,
    Verb::Select,
    Verb::Name,
    Verb::Transform,
    Verb::Strict,
    Verb::Result,
    Verb::Preserves,
    Verb::Satisfies,
    Verb::Alike,
    Verb::Draft,
    Verb::Unbound,
    Verb::SpecId,
    Verb::Start,
    Verb::Add,
    Verb::AddByName,
    Verb::Batch,
    Verb::Close,
    Verb::Bind,
    Verb::Open,
    Verb::OpenBind,
    Verb::PartitionType,
    Verb::Unpartitioned,
    Verb::Sequential,
    Verb::Highest,
    Verb::Compatible,
    Verb::Equal,
    Verb::RecordOf,
    Verb::RecordUnbound,
    Verb::Read,
    Verb::Items,
    Verb::SortNew,
    Verb::SortId,
    Verb::Sort,
    Verb::SortBuild,
    Verb::SortBuildUnbound,
];

impl Verb {
    fn word(self) -> &'static str
        ensures { result.now ≡ word_of self }
    {
        match self {
            Verb::Column => "column",
            Verb::Columns => "columns",
            Verb::Regular => "regular",
            Verb::Sheet => "sheet",
            Verb::Select => "select",
            Verb::Name => "name",
            Verb::Transform => "transform",
            Verb::Strict => "strict",
            Verb::Result => "result",
            Verb::Preserves => "preserves",
            Verb::Satisfies => "satisfies",
            Verb::Alike => "alike",
            Verb::Draft => "draft",
            Verb::Unbound => "unbound",
            Verb::SpecId => "spec-id",
            Verb::Start => "start",
            Verb::Add => "add",
            Verb::AddByName => "add-by-name",
            Verb::Batch => "batch",
            Verb::Close => "close",
            Verb::Bind => "bind",
            Verb::Open => "open",
            Verb::OpenBind => "open-bind",
            Verb::PartitionType => "type",
            Verb::Unpartitioned => "unpartitioned",
            Verb::Sequential => "sequential",
            Verb::Highest => "highest",
            Verb::Compatible => "compatible",
            Verb::Equal => "equal",
            Verb::RecordOf => "record",
            Verb::RecordUnbound => "record-unbound",
            Verb::Read => "read",
            Verb::Items => "items",
            Verb::SortNew => "sort-new",
            Verb::SortId => "sort-id",
            Verb::Sort => "sort",
            Verb::SortBuild => "sort-build",
            Verb::SortBuildUnbound => "sort-build-unbound",
        }
    }
}

// The verb that a word is, if it is one.
impl FromStr for Verb {
    type Err = ScriptFault;

    ghost from_str_gives = { λ word r. MatchResult r (λ verb. word_of verb ≡ word) (λ fault. NoVerb word × (fault ≡ BadCommand)) };

    fn from_str(word: &str) -> Result<Verb, ScriptFault> {
        let verb = VERBS.iter().find(|verb| verb.word() == word).copied();
        verb.ok_or(ScriptFault::BadCommand)
    }
}
