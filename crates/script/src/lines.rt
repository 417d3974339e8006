// Specs and orders as lines.
use partitions::field::UnboundPartitionField;
use partitions::spec::UnboundPartitionSpec;
use sorts::sort::{NullOrder, SortDirection, SortField, SortOrder};
use std::fmt;

// What stands in a line in words of its own.
pub trait Written {
    fn write<W: fmt::Write>(&self, f: &mut fmt::Formatter<W>) -> fmt::Result;
}

// A thing, printed as it is written in a line.
#[derive(Drop)]
pub struct Line<'a, T>(pub &'a T);

impl<T: Written> fmt::Display for Line<'_, T> {
    fn fmt<W: fmt::Write>(&self, f: &mut fmt::Formatter<W>) -> fmt::Result {
        self.0.write(f)
    }
}

// A number, or `-` for none.
impl Written for Option<i32> {
    fn write<W: fmt::Write>(&self, f: &mut fmt::Formatter<W>) -> fmt::Result {
        match self {
            Some(id) => write!(f, "{id}"),
            None => f.write_str("-"),
        }
    }
}

// `unbound ID: SOURCE ID NAME TRANSFORM; ..`
impl Written for UnboundPartitionSpec {
    fn write<W: fmt::Write>(&self, f: &mut fmt::Formatter<W>) -> fmt::Result {
        f.write_str("unbound ")?;
        self.spec_id().write(f)?;
        write_all(self.fields(), f)
    }
}

impl Written for UnboundPartitionField {
    fn write<W: fmt::Write>(&self, f: &mut fmt::Formatter<W>) -> fmt::Result {
        write!(f, "{} ", self.source_id)?;
        self.field_id.write(f)?;
        f.write_str(" ")?;
        write_name(self.name.as_bytes(), f)?;
        write!(f, " {}", self.transform)
    }
}

// `order ID: SOURCE TRANSFORM asc first; ..`
impl Written for SortOrder {
    fn write<W: fmt::Write>(&self, f: &mut fmt::Formatter<W>) -> fmt::Result {
        write!(f, "order {}", self.order_id())?;
        write_all(self.fields(), f)
    }
}

impl Written for SortField {
    fn write<W: fmt::Write>(&self, f: &mut fmt::Formatter<W>) -> fmt::Result {
        let direction = match self.direction {
            SortDirection::Ascending => "asc",
            SortDirection::Descending => "desc",
        };
        let nulls = match self.null_order {
            NullOrder::First => "first",
            NullOrder::Last => "last",
        };
        write!(
            f,
            "{} {} {direction} {nulls}",
            self.source_id, self.transform
        )
    }
}

// A colon, and the items with semicolons between them.
fn write_all<T: Written, W: fmt::Write>(items: &[T], f: &mut fmt::Formatter<W>) -> fmt::Result {
    f.write_str(":")?;
    for (place, item) in items.iter().enumerate() {
        f.write_str(if place == 0 { " " } else { "; " })?;
        item.write(f)?;
    }
    Ok(())
}

// A name that is a bare word as it is, and any other as `x:` and hexadecimal digits.
fn write_name<W: fmt::Write>(name: &[u8], f: &mut fmt::Formatter<W>) -> fmt::Result {
    if !is_bare(name) {
        return write_hex(name, f);
    }
    for b in name {
        f.write_char(char::from(*b))?;
    }
    Ok(())
}

fn is_bare(name: &[u8]) -> bool {
    !name.is_empty()
        && name.iter().all(
            |b| matches!(*b, b'A'..=b'Z' | b'a'..=b'z' | b'0'..=b'9' | b'_' | b'.' | b'-'),
        )
}

fn write_hex<W: fmt::Write>(bytes: &[u8], f: &mut fmt::Formatter<W>) -> fmt::Result {
    f.write_str("x:")?;
    for b in bytes {
        write!(f, "{b:02x}")?;
    }
    Ok(())
}
