// Types and transforms as text.
ghost use Rattle.std.specs.Prelude.{◌≡◌, ◌++◌, Some, codes, decimal};
ghost use Rattle.std.specs.Fmt.{WritesOnOk};
ghost use Rattle.transforms.specs.Printed.{printed};
ghost use Rattle.transforms.specs.Types.{type_word, parameters, type_text, place};

use crate::datatypes::{PrimitiveType, Type};
use crate::transform::Transform;
use std::fmt;

impl fmt::Display for Transform {
    ghost output = { λ t. Some (printed t) };

    fn fmt<W: fmt::Write>(&self, f: &mut fmt::Formatter<W>) -> fmt::Result {
        match *self {
            Transform::Identity => f.write_str("identity"),
            Transform::Bucket(width) => write!(f, "bucket[{width}]"),
            Transform::Truncate(width) => write!(f, "truncate[{width}]"),
            Transform::Year => f.write_str("year"),
            Transform::Month => f.write_str("month"),
            Transform::Day => f.write_str("day"),
            Transform::Hour => f.write_str("hour"),
            Transform::Void => f.write_str("void"),
            Transform::Unknown => f.write_str("unknown"),
        }
    }
}

impl PrimitiveType {
    // The name without parameters.
    pub fn word(&self) -> &'static str
        ensures { result.now ≡ type_word self.now }
    {
        match *self {
            PrimitiveType::Boolean => "boolean",
            PrimitiveType::Int => "int",
            PrimitiveType::Long => "long",
            PrimitiveType::Float => "float",
            PrimitiveType::Double => "double",
            PrimitiveType::Decimal { .. } => "decimal",
            PrimitiveType::Date => "date",
            PrimitiveType::Time => "time",
            PrimitiveType::Timestamp => "timestamp",
            PrimitiveType::Timestamptz => "timestamptz",
            PrimitiveType::TimestampNs => "timestamp_ns",
            PrimitiveType::TimestamptzNs => "timestamptz_ns",
            PrimitiveType::String => "string",
            PrimitiveType::Uuid => "uuid",
            PrimitiveType::Fixed(_) => "fixed",
            PrimitiveType::Binary => "binary",
        }
    }
}

impl fmt::Display for PrimitiveType {
    ghost output = { λ p. Some (type_word p ++ parameters p) };

    fn fmt<W: fmt::Write>(&self, f: &mut fmt::Formatter<W>) -> fmt::Result {
        match *self {
            PrimitiveType::Decimal { precision, scale } => put_decimal(precision, scale, f),
            PrimitiveType::Fixed(length) => write!(f, "fixed[{length}]"),
            _ => f.write_str(self.word()),
        }
    }
}

fn put_decimal<W: fmt::Write>(precision: u32, scale: u32, f: &mut fmt::Formatter<W>) -> fmt::Result
    ensures { WritesOnOk W.Write.write_str_gives f.old result (codes "decimal(" ++ (decimal precision ++ (codes "," ++ (decimal scale ++ codes ")")))) f.new }
{
    write!(f, "decimal({precision},{scale})")
}

impl fmt::Display for Type {
    ghost output = { λ t. Some (type_text t) };

    fn fmt<W: fmt::Write>(&self, f: &mut fmt::Formatter<W>) -> fmt::Result {
        match *self {
            Type::Primitive(p) => write!(f, "{p}"),
            Type::Struct(place) => put_nested("struct", place, f),
            Type::List(place) => put_nested("list", place, f),
            Type::Map(place) => put_nested("map", place, f),
        }
    }
}

// A nested type's kind, and its place where that is not 0.
fn put_nested<W: fmt::Write>(kind: &str, at: u32, f: &mut fmt::Formatter<W>) -> fmt::Result
    ensures { WritesOnOk W.Write.write_str_gives f.old result (kind.now ++ place at) f.new }
{
    if at == 0 {
        f.write_str(kind)
    } else {
        write!(f, "{kind}@{at}")
    }
}
