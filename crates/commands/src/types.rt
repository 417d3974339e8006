// Words that stand for types.
ghost use Rattle.commands.specs.Faults.{NothingRefused};

use crate::fault::ScriptFault;
use transforms::datatypes::{PrimitiveType, Type};

// The primitive types that have no parameters.
const PLAIN: [PrimitiveType; 14] = [
    PrimitiveType::Boolean,
    PrimitiveType::Int,
    PrimitiveType::Long,
    PrimitiveType::Float,
    PrimitiveType::Double,
    PrimitiveType::Date,
    PrimitiveType::Time,
    PrimitiveType::Timestamp,
    PrimitiveType::Timestamptz,
    PrimitiveType::TimestampNs,
    PrimitiveType::TimestamptzNs,
    PrimitiveType::String,
    PrimitiveType::Uuid,
    PrimitiveType::Binary,
];

// A type by its word, with its parameters: int, decimal(9,2), fixed[16], list, list@4.
// kept: no plainer: FromStr can't be implemented here, since it and the types are other crates', and the words are the script's;
// so too `read_direction` and `read_nulls`
pub fn read_type(word: &str) -> Result<Type, ScriptFault>
    ensures { NothingRefused result }
{
    read_nested(word)
        .or_else(|| read_primitive(word).map(Type::Primitive))
        .ok_or(ScriptFault::BadCommand)
}

fn read_primitive(word: &str) -> Option<PrimitiveType> {
    if let Some(rest) = word.strip_prefix("decimal(") {
        return read_decimal(rest);
    }
    if let Some(rest) = word.strip_prefix("fixed[") {
        return read_fixed(rest);
    }
    read_plain(word)
}

fn read_plain(word: &str) -> Option<PrimitiveType> {
    PLAIN
        .iter()
        .find(|primitive| primitive.word() == word)
        .copied()
}

// What follows `decimal(`: a precision, a comma, a scale and a bracket.
fn read_decimal(rest: &str) -> Option<PrimitiveType> {
    let inside = rest.strip_suffix(')')?;
    let (precision, scale) = inside.split_once(',')?;
    let precision = precision.parse().ok()?;
    let scale = scale.parse().ok()?;
    Some(PrimitiveType::Decimal { precision, scale })
}

fn read_fixed(rest: &str) -> Option<PrimitiveType> {
    let inside = rest.strip_suffix(']')?;
    inside.parse().ok().map(PrimitiveType::Fixed)
}

// A nested kind, with its place after an @; without one the place is 0.
fn read_nested(word: &str) -> Option<Type> {
    let (kind, place) = match word.split_once('@') {
        Some((kind, place)) => (kind, place.parse().ok()?),
        None => (word, 0),
    };
    match kind {
        "struct" => Some(Type::Struct(place)),
        "list" => Some(Type::List(place)),
        "map" => Some(Type::Map(place)),
        _ => None,
    }
}
