// Lines of a script as commands.
ghost use Rattle.commands.specs.Faults.{NothingRefused};

use crate::fault::ScriptFault;
use crate::types::read_type;
use crate::verb::Verb;
use crate::word::{bytes, hex, maybe_id};
use sorts::sort::{NullOrder, SortDirection};
use std::alloc::Global;
use transforms::datatypes::Type;

// One record more of the column table.
#[derive(Drop)]
pub struct ColumnLine {
    pub id: i32,
    pub field_type: Type,
    pub name: Vec<u8>,
    pub is_marked: bool,
}

// A field of a draft, with its transform as a text.
#[derive(Drop)]
pub struct FieldLine {
    pub source_id: i32,
    pub field_id: Option<i32>,
    pub name: Vec<u8>,
    pub text: Vec<u8>,
}

#[derive(Drop)]
pub struct SortLine {
    pub source_id: i32,
    pub text: Vec<u8>,
    pub direction: SortDirection,
    pub null_order: NullOrder,
}

#[derive(Drop)]
pub enum Command {
    Column(ColumnLine),
    ColumnsClear,
    Regular,
    Sheet(Vec<u8>),
    Select(Vec<i32>),
    SelectAll,
    Name(Vec<u8>),
    Transform(Vec<u8>),
    Strict(Vec<u8>),
    ResultType(Vec<u8>, Type),
    Preserves(Vec<u8>),
    Satisfies(Vec<u8>, Vec<u8>),
    Alike(Vec<u8>, Vec<u8>),
    Draft,
    Unbound,
    SpecId(i32),
    Add(FieldLine),
    // so many lines of fields follow
    Batch(usize),
    Close,
    RecordUnbound,
    Read(Vec<u8>),
    Items(Vec<u8>),
    SortNew,
    SortId(i64),
    Sort(SortLine),
    SortBuild,
    SortBuildUnbound,
    // a command of the language that the planner does not have yet
    Later,
}

impl Command {
    // The command that a line says; none where the line is empty or a comment.
    pub fn read(heap: Global, line: &str) -> Result<Option<Command>, ScriptFault>
        ensures { NothingRefused result }
    {
        let words: Vec<&str> = line.split_ascii_whitespace().collect(heap)?;
        let [first, rest @ ..] = words.as_slice() else {
            return Ok(None);
        };
        if first.starts_with('#') {
            return Ok(None);
        }
        let verb: Verb = first.parse()?;
        let words = Words { heap, verb, rest };
        let command = match verb {
            Verb::Column | Verb::Columns | Verb::Regular | Verb::Sheet | Verb::Select => {
                words.of_columns()?
            }
            Verb::SortNew | Verb::SortId | Verb::Sort | Verb::SortBuild | Verb::SortBuildUnbound =>
                words.of_sort()?,
            Verb::Name
            | Verb::Transform
            | Verb::Strict
            | Verb::Result
            | Verb::Preserves
            | Verb::Satisfies
            | Verb::Alike => words.of_text()?,
            _ => words.of_draft()?,
        };
        Ok(Some(command))
    }
}

// A line's verb, and the words after it.
#[derive(Drop)]
struct Words<'a> {
    heap: Global,
    verb: Verb,
    rest: &'a [&'a str],
}

impl Words<'_> {
    fn of_columns(&self) -> Result<Command, ScriptFault>
        ensures { NothingRefused result }
    {
        let heap = self.heap;
        match (self.verb, self.rest) {
            (Verb::Column, [id, word, name]) => column(heap, id, word, name, false),
            (Verb::Column, [id, word, name, "marked"]) => column(heap, id, word, name, true),
            (Verb::Columns, ["clear"]) => Ok(Command::ColumnsClear),
            (Verb::Regular, []) => Ok(Command::Regular),
            (Verb::Sheet, [digits]) => Ok(Command::Sheet(hex(heap, digits)?)),
            (Verb::Select, ["all"]) => Ok(Command::SelectAll),
            (Verb::Select, [_, ..]) => select(heap, self.rest),
            _ => Err(ScriptFault::BadCommand),
        }
    }

    fn of_text(&self) -> Result<Command, ScriptFault>
        ensures { NothingRefused result }
    {
        let heap = self.heap;
        match (self.verb, self.rest) {
            (Verb::Name, [name]) => Ok(Command::Name(bytes(heap, name)?)),
            (Verb::Transform, [text]) => Ok(Command::Transform(bytes(heap, text)?)),
            (Verb::Strict, [text]) => Ok(Command::Strict(bytes(heap, text)?)),
            (Verb::Result, [text, word]) => result_type(heap, text, word),
            (Verb::Preserves, [text]) => Ok(Command::Preserves(bytes(heap, text)?)),
            (Verb::Satisfies, [text, other]) => {
                Ok(Command::Satisfies(bytes(heap, text)?, bytes(heap, other)?))
            }
            (Verb::Alike, [text, other]) => Ok(Command::Alike(
                bytes(heap, text)?,
                bytes(heap, other)?,
            )),
            _ => Err(ScriptFault::BadCommand),
        }
    }

    fn of_draft(&self) -> Result<Command, ScriptFault>
        ensures { NothingRefused result }
    {
        let heap = self.heap;
        match (self.verb, self.rest) {
            (Verb::Draft, []) => Ok(Command::Draft),
            (Verb::Unbound, []) => Ok(Command::Unbound),
            (Verb::SpecId, [word]) => Ok(Command::SpecId(word.parse()?)),
            (Verb::Add, [source, field, name, text]) => add(heap, source, field, name, text),
            (Verb::Batch, [word]) => Ok(Command::Batch(word.parse()?)),
            (Verb::Close, []) => Ok(Command::Close),
            (Verb::RecordUnbound, []) => Ok(Command::RecordUnbound),
            (Verb::Read, [digits]) => Ok(Command::Read(hex(heap, digits)?)),
            (Verb::Items, [digits]) => Ok(Command::Items(hex(heap, digits)?)),
            (
                Verb::Draft
                | Verb::Unbound
                | Verb::SpecId
                | Verb::Add
                | Verb::Batch
                | Verb::Close
                | Verb::RecordUnbound
                | Verb::Read
                | Verb::Items,
                _,
            ) => Err(ScriptFault::BadCommand),
            _ => Ok(Command::Later),
        }
    }

    fn of_sort(&self) -> Result<Command, ScriptFault>
        ensures { NothingRefused result }
    {
        let heap = self.heap;
        match (self.verb, self.rest) {
            (Verb::SortNew, []) => Ok(Command::SortNew),
            (Verb::SortId, [word]) => Ok(Command::SortId(word.parse()?)),
            (Verb::Sort, [source, text, direction, nulls]) => {
                sort(heap, source, text, direction, nulls)
            }
            (Verb::SortBuild, []) => Ok(Command::SortBuild),
            (Verb::SortBuildUnbound, []) => Ok(Command::SortBuildUnbound),
            _ => Err(ScriptFault::BadCommand),
        }
    }
}

fn column(
    heap: Global,
    number: &str,
    word: &str,
    name: &str,
    is_marked: bool,
) -> Result<Command, ScriptFault>
    ensures { NothingRefused result }
{
    let field_type = read_type(word)?;
    let id = number.parse()?;
    let name = bytes(heap, name)?;
    Ok(Command::Column(ColumnLine {
        id,
        field_type,
        name,
        is_marked,
    }))
}

fn select(heap: Global, words: &[&str]) -> Result<Command, ScriptFault>
    ensures { NothingRefused result }
{
    let mut ids = Vec::new(heap);
    for word in words {
        ids.push(word.parse()?)?;
    }
    Ok(Command::Select(ids))
}

fn result_type(heap: Global, text: &str, word: &str) -> Result<Command, ScriptFault>
    ensures { NothingRefused result }
{
    let input = read_type(word)?;
    Ok(Command::ResultType(bytes(heap, text)?, input))
}

fn add(
    heap: Global,
    source: &str,
    field: &str,
    name: &str,
    text: &str,
) -> Result<Command, ScriptFault>
    ensures { NothingRefused result }
{
    let source_id = source.parse()?;
    let field_id = maybe_id(field)?;
    let name = bytes(heap, name)?;
    let text = bytes(heap, text)?;
    Ok(Command::Add(FieldLine {
        source_id,
        field_id,
        name,
        text,
    }))
}

fn sort(
    heap: Global,
    source: &str,
    text: &str,
    direction: &str,
    nulls: &str,
) -> Result<Command, ScriptFault>
    ensures { NothingRefused result }
{
    let direction = read_direction(direction)?;
    let null_order = read_nulls(nulls)?;
    let source_id = source.parse()?;
    let text = bytes(heap, text)?;
    Ok(Command::Sort(SortLine {
        source_id,
        text,
        direction,
        null_order,
    }))
}

// kept: a function for each of the two enums, no plainer as one over both, since words and cases are each its own
fn read_direction(word: &str) -> Result<SortDirection, ScriptFault>
    ensures { NothingRefused result }
{
    match word {
        "asc" => Ok(SortDirection::Ascending),
        "desc" => Ok(SortDirection::Descending),
        _ => Err(ScriptFault::BadCommand),
    }
}

fn read_nulls(word: &str) -> Result<NullOrder, ScriptFault>
    ensures { NothingRefused result }
{
    match word {
        "first" => Ok(NullOrder::First),
        "last" => Ok(NullOrder::Last),
        _ => Err(ScriptFault::BadCommand),
    }
}
