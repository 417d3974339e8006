// The checks of an order's id and of its fields.
ghost use Rattle.sorts.specs.SortRules.{order_rules, field_rules, each_field_rules, Answers};

use super::{SortFault, SortField};
use schemas::schema::Schema;
use transforms::datatypes::Type;

// The id 0 is the unsorted order's alone.
pub(super) fn check_order_id(order_id: Option<i64>, fields: &[SortField]) -> Result<(), SortFault>
    ensures { Answers (order_rules order_id fields.now) result }
{
    match (order_id, fields) {
        (None, _) | (Some(0), []) => Ok(()),
        (Some(0), _) => Err(SortFault::ZeroWithFields),
        (Some(_), []) => Err(SortFault::IdWithoutFields),
        (Some(_), _) => Ok(()),
    }
}

pub(super) fn check_fields<S: Schema>(fields: &[SortField], schema: &S) -> Result<(), SortFault>
    ensures { Answers (each_field_rules (S.Schema.columns schema.now) fields.now) result }
{
    for field in fields {
        field.check(schema)?;
    }
    Ok(())
}

impl SortField {
    fn check<S: Schema>(&self, schema: &S) -> Result<(), SortFault>
        ensures { Answers (field_rules (S.Schema.columns schema.now) self.now) result }
    {
        let source = schema
            .field_by_id(self.source_id)
            .ok_or(SortFault::SourceUnknown)?;
        if !matches!(source.field_type, Type::Primitive(_)) {
            return Err(SortFault::SourceNotPrimitive);
        }
        self.transform
            .result_type(&source.field_type)
            .map_err(|_| SortFault::SourceUnfit)?;
        Ok(())
    }
}
