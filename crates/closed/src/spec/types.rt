// The type of a spec's partitions on a schema.
ghost use Rattle.std.specs.Prelude.{◌≡◌, ◌≤◌, length, Some, MatchResult};
ghost use Rattle.faults.specs.Rules.{AllKept, FirstBroken};
ghost use Rattle.closed.specs.Closed.{paper_closed};
ghost use Rattle.closed.specs.Opened.{opened, openeds};
ghost use Rattle.closed.specs.TypeFaults.{told};
ghost use Rattle.closed.specs.Typing.{result_on, field_rules, each_rules, KeptBefore, Typed, Types};

use super::PartitionSpec;
use crate::field::PartitionField;
use crate::types::{TypeFault, TypeField};
use schemas::schema::Schema;
use transforms::datatypes::Type;

impl PartitionSpec {
    // Writes a field of the type for each field, and says how many there are. Nothing is written where a field has no
    // type, or where the list is too short.
    // kept: fixed memory, the caller's list, of which the front is written
    pub fn partition_type<S: Schema>(
        &self,
        schema: &S,
        into: &mut [TypeField],
    ) -> Result<usize, TypeFault>
        ensures { Types (S.Schema.columns schema.now) (paper_closed self.now).fields into.old into.new result }
    {
        let fields = self.fields();
        if into.len() < fields.len() {
            return Err(TypeFault::MemoryShort);
        }
        check_types(schema, fields)?;
        write_types(schema, fields, into);
        Ok(fields.len())
    }
}

// Refuses with the first field that has no type.
fn check_types<S: Schema>(schema: &S, fields: &[PartitionField]) -> Result<(), TypeFault>
    ensures { MatchResult result (λ _. KeptBefore (S.Schema.columns schema.now) (openeds fields.now) (length fields.now)) (λ fault. FirstBroken (each_rules (S.Schema.columns schema.now) (openeds fields.now)) (told fault)) }
{
    for field in fields {
        type_of(schema, field)?;
    }
    Ok(())
}

// The second pass: each field is known to have a type.
fn write_types<S: Schema>(schema: &S, fields: &[PartitionField], into: &mut [TypeField])
    requires kept { KeptBefore (S.Schema.columns schema.now) (openeds fields.now) (length fields.now) }
    requires room { length fields.now ≤ length into.old }
    ensures { Typed (S.Schema.columns schema.now) (openeds fields.now) (length fields.now) into.old into.new }
{
    // kept: no plainer: the place is part of what is written, so the index is wanted anyway
    for (place, field) in fields.iter().enumerate() {
        if let Ok(result_type) = type_of(schema, field) {
            into[place] = TypeField {
                field_id: field.field_id,
                result_type,
                place,
            };
        }
    }
}

// What the field makes of its source's type.
fn type_of<S: Schema>(schema: &S, field: &PartitionField) -> Result<Type, TypeFault>
    ensures { MatchResult result (λ made. result_on (S.Schema.columns schema.now) (opened field.now) ≡ Some made) (λ fault. FirstBroken (field_rules (S.Schema.columns schema.now) (opened field.now)) (told fault)) }
{
    let column = schema
        .field_by_id(field.source_id)
        .ok_or(TypeFault::SourceUnknown)?;
    Ok(field.transform.result_type(&column.field_type)?)
}
