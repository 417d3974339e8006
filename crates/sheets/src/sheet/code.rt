// A column's bytes: the code of its type, with the mark, and eight bytes of parameters. Codes 0 to 15 are the primitive
// types, 16 struct, 17 list, 18 map. A decimal has precision and scale, four bytes each, a fixed its length, a nested
// type its place in the last four; all other bytes are zero.
ghost use Rattle.std.specs.Prelude.{◌≡◌};
ghost use Rattle.std.specs.List.{slice_get};
ghost use Rattle.sheets.specs.TypeCodes.{parameters};
ghost use Rattle.sheets.specs.Decoded.{number_of, types};
ghost use Rattle.sheets.specs.Standing.{ReadsColumn};

use schemas::schema::Column;
use transforms::datatypes::{PrimitiveType, Type};

// What is added to the code of a marked column.
const MARK: u8 = 128;

// One more than four bytes hold.
const WORD: u64 = 4294967296;

// The column whose bytes are the code, with the mark, and the parameters.
pub(super) fn read_column(byte: u8, parameters: u64) -> Option<Column>
    ensures { ReadsColumn byte parameters result }
{
    let field_type = type_coded(byte % MARK, parameters)?;
    if parameters_of(field_type) != parameters {
        return None;
    }
    Some(Column {
        field_type,
        is_marked: byte >= MARK,
    })
}

// The type with the code and as much of the parameters as it has.
fn type_coded(code: u8, parameters: u64) -> Option<Type>
    ensures { result ≡ slice_get (types parameters) code }
{
    let low = (parameters % WORD) as u32;
    let primitive = match code {
        0 => PrimitiveType::Boolean,
        1 => PrimitiveType::Int,
        2 => PrimitiveType::Long,
        3 => PrimitiveType::Float,
        4 => PrimitiveType::Double,
        5 => PrimitiveType::Decimal {
            precision: (parameters / WORD) as u32,
            scale: low,
        },
        6 => PrimitiveType::Date,
        7 => PrimitiveType::Time,
        8 => PrimitiveType::Timestamp,
        9 => PrimitiveType::Timestamptz,
        10 => PrimitiveType::TimestampNs,
        11 => PrimitiveType::TimestamptzNs,
        12 => PrimitiveType::String,
        13 => PrimitiveType::Uuid,
        14 => PrimitiveType::Fixed(parameters),
        15 => PrimitiveType::Binary,
        16 => return Some(Type::Struct(low)),
        17 => return Some(Type::List(low)),
        18 => return Some(Type::Map(low)),
        _ => return None,
    };
    Some(Type::Primitive(primitive))
}

fn parameters_of(field_type: Type) -> u64
    ensures { result ≡ number_of (parameters field_type) }
{
    match field_type {
        Type::Primitive(PrimitiveType::Decimal { precision, scale }) => {
            u64::from(precision) * WORD + u64::from(scale)
        }
        Type::Primitive(PrimitiveType::Fixed(length)) => length,
        Type::Primitive(_) => 0,
        Type::Struct(place) | Type::List(place) | Type::Map(place) => u64::from(place),
    }
}
