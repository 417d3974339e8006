// The types of columns.
ghost use Rattle.std.specs.Prelude.{◌≡◌, not, ◌∷◌};
ghost use Rattle.transforms.specs.Types.{among};
ghost use Rattle.transforms.specs.Results.{timestamps, unhashed, truncatable};

// The primitive types, in the crate's order.
#[derive(Clone, Copy, PartialEq, Eq)]
pub enum PrimitiveType {
    Boolean,
    Int,
    Long,
    Float,
    Double,
    Decimal { precision: u32, scale: u32 },
    Date,
    Time,
    Timestamp,
    Timestamptz,
    TimestampNs,
    TimestamptzNs,
    String,
    Uuid,
    Fixed(u64),
    Binary,
}

// A column's type. A nested type is told by its kind and a place that the schema gives and that is only handed on.
#[derive(Clone, Copy, PartialEq, Eq)]
pub enum Type {
    Primitive(PrimitiveType),
    Struct(u32),
    List(u32),
    Map(u32),
}

impl PrimitiveType {
    pub(crate) fn is_timestamp(&self) -> bool
        ensures { result ≡ among self.now timestamps }
    {
        matches!(
            *self,
            PrimitiveType::Timestamp
                | PrimitiveType::Timestamptz
                | PrimitiveType::TimestampNs
                | PrimitiveType::TimestamptzNs
        )
    }

    pub(crate) fn has_date(&self) -> bool
        ensures { result ≡ among self.now (PrimitiveType.Date ∷ timestamps) }
    {
        matches!(*self, PrimitiveType::Date) || self.is_timestamp()
    }

    pub(crate) fn is_hashable(&self) -> bool
        ensures { result ≡ not (among self.now unhashed) }
    {
        !matches!(
            *self,
            PrimitiveType::Boolean | PrimitiveType::Float | PrimitiveType::Double
        )
    }

    pub(crate) fn is_truncatable(&self) -> bool
        ensures { result ≡ among self.now truncatable }
    {
        matches!(
            *self,
            PrimitiveType::Int
                | PrimitiveType::Long
                | PrimitiveType::Decimal { .. }
                | PrimitiveType::String
                | PrimitiveType::Binary
        )
    }
}
