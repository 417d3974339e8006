// Transforms: what a field makes of its source's values.
ghost use Rattle.std.specs.Prelude.{◌≡◌, Some, Decides};
ghost use Rattle.std.specs.Option.{option_map};
ghost use Rattle.std.specs.Result.{result_ok};
ghost use Rattle.transforms.specs.Documented.{AsDocumented};
ghost use Rattle.transforms.specs.Orders.{preserves, fineness, Satisfies, Alike, SatisfyingIsAPartialOrder};
ghost use Rattle.transforms.specs.Units.{rank};
ghost use Rattle.transforms.specs.Results.{told, primitive_result, nested_result, ResultType};

use crate::datatypes::{PrimitiveType, Type};
use faults::Fault;
use faults::error::{ErrorKind, Layer};
use faults::refusal::Refusal;

// What a partition or sort field makes of its source's values. A width is any 32-bit number.
#[derive(Clone, Copy, PartialEq, Eq)]
pub enum Transform {
    Identity,
    Bucket(u32),
    Truncate(u32),
    Year,
    Month,
    Day,
    Hour,
    Void,
    Unknown,
}

// What time is cut by, from coarse to fine.
#[derive(Clone, Copy, PartialEq, Eq, PartialOrd, Ord)]
enum TimeUnit {
    Year,
    Month,
    Day,
    Hour,
}

// Why a transform and a type don't go together.
#[derive(Clone, Copy, PartialEq, Eq)]
pub enum TypeFault {
    NoResult,
}

impl Fault for TypeFault {
    ghost told = { told };

    fn refusal(&self) -> Refusal {
        match *self {
            TypeFault::NoResult => {
                Refusal::new(8, ErrorKind::DataInvalid, Layer::Type, "no-result")
            }
        }
    }
}

impl Transform {
    // The type of what this transform makes of values of `input_type`.
    pub fn result_type(&self, input_type: &Type) -> Result<Type, TypeFault>
        ensures rule { ResultType self.now input_type.now result }
        ensures documented { AsDocumented self.now input_type.now (result_ok result) }
    {
        match *input_type {
            Type::Primitive(source) => self.primitive_result(source).map(Type::Primitive),
            nested => self.nested_result(nested),
        }
        .ok_or(TypeFault::NoResult)
    }

    fn primitive_result(&self, source: PrimitiveType) -> Option<PrimitiveType>
        ensures { result ≡ primitive_result self.now source }
    {
        match *self {
            Transform::Identity | Transform::Void => Some(source),
            Transform::Bucket(_) if source.is_hashable() => Some(PrimitiveType::Int),
            Transform::Truncate(_) if source.is_truncatable() => Some(source),
            Transform::Year | Transform::Month if source.has_date() => Some(PrimitiveType::Int),
            Transform::Day if source.has_date() => Some(PrimitiveType::Date),
            Transform::Hour if source.is_timestamp() => Some(PrimitiveType::Int),
            Transform::Unknown => Some(PrimitiveType::String),
            _ => None,
        }
    }

    // Nested types are carried through by void alone; of unknown nothing is known but its type.
    fn nested_result(&self, source: Type) -> Option<Type>
        ensures { result ≡ nested_result self.now source }
    {
        match *self {
            Transform::Void => Some(source),
            Transform::Unknown => Some(Type::Primitive(PrimitiveType::String)),
            _ => None,
        }
    }

    // Whether results stand in the order of the values.
    pub fn preserves_order(&self) -> bool
        ensures { result ≡ preserves self.now }
    {
        !matches!(
            *self,
            Transform::Void | Transform::Bucket(_) | Transform::Unknown
        )
    }

    // Whether what is ordered by this transform is ordered by `other` too.
    pub fn satisfies_order_of(&self, other: &Transform) -> bool
        ensures cases { Decides result (Satisfies self.now other.now) }
        ensures order { SatisfyingIsAPartialOrder }
    {
        match (self.time_unit(), other.time_unit()) {
            (Some(own), Some(wanted)) => wanted <= own,
            _ => *self == *other || (*self == Transform::Identity && other.preserves_order()),
        }
    }

    // The unit that this transform cuts time by, if it does.
    fn time_unit(&self) -> Option<TimeUnit>
        ensures { option_map rank result ≡ fineness self.now }
    {
        match *self {
            Transform::Year => Some(TimeUnit::Year),
            Transform::Month => Some(TimeUnit::Month),
            Transform::Day => Some(TimeUnit::Day),
            Transform::Hour => Some(TimeUnit::Hour),
            _ => None,
        }
    }

    // Whether one source may not have both: equal transforms, and any two that cut time.
    pub fn alike(&self, other: &Transform) -> bool
        ensures { Decides result (Alike self.now other.now) }
    {
        *self == *other || (self.time_unit().is_some() && other.time_unit().is_some())
    }
}
