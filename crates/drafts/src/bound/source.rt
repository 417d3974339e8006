// The rules of a field on a schema: its name beside the columns' names, and its source.
ghost use Rattle.partitions.specs.AddRules.{Judged};
ghost use Rattle.partitions.specs.Views.{papers, seen};
ghost use Rattle.drafts.specs.BoundAdds.{AdmitsAll};
ghost use Rattle.drafts.specs.SourceRules.{collision_rules, column_rules, source_rules};

use super::OnSchema;
use partitions::batch::{BatchCause, BatchFault};
use partitions::fault::DraftFault;
use partitions::field::{FieldView, UnboundPartitionField};
use schemas::schema::Schema;
use transforms::datatypes::Type;
use transforms::transform::Transform;

impl<'a, S: Schema> OnSchema<'a, S> {
    // Whether the schema admits every field. The index is of the first that it does not.
    pub(crate) fn check_all(&self, fields: &[UnboundPartitionField]) -> Result<(), BatchFault>
        ensures { AdmitsAll (S.Schema.columns self.now.schema.now) (papers fields.now) result }
    {
        for (index, field) in fields.iter().enumerate() {
            self.check_source(&field.view())
                .map_err(|fault| BatchFault {
                    index,
                    cause: BatchCause::Add(fault),
                })?;
        }
        Ok(())
    }

    pub(super) fn check_source(&self, field: &FieldView<'_>) -> Result<(), DraftFault>
        ensures { Judged (source_rules (S.Schema.columns self.now.schema.now) (seen field.now)) result }
    {
        self.check_collision(field)?;
        self.check_column(field)
    }

    // An identity field may be named as its source, and no field as any other column.
    fn check_collision(&self, field: &FieldView<'_>) -> Result<(), DraftFault>
        ensures { Judged (collision_rules (S.Schema.columns self.now.schema.now) (seen field.now)) result }
    {
        match self.schema.field_by_name(field.name) {
            None => Ok(()),
            Some(_) if field.transform != Transform::Identity => Err(DraftFault::NamedAsColumn),
            Some(column) if column.id != field.source_id => Err(DraftFault::NamedAsOtherColumn),
            Some(_) => Ok(()),
        }
    }

    // A void field makes nothing of its source, so that any column will do.
    fn check_column(&self, field: &FieldView<'_>) -> Result<(), DraftFault>
        ensures { Judged (column_rules (S.Schema.columns self.now.schema.now) (seen field.now)) result }
    {
        let source = self
            .schema
            .field_by_id(field.source_id)
            .ok_or(DraftFault::SourceUnknown)?;
        if field.transform == Transform::Void {
            return Ok(());
        }
        if !matches!(source.field_type, Type::Primitive(_)) {
            return Err(DraftFault::SourceNotPrimitive);
        }
        if source.is_marked {
            return Err(DraftFault::SourceMarked);
        }
        field
            .transform
            .result_type(&source.field_type)
            .map(|_| ())
            .map_err(|_| DraftFault::SourceUnfit)
    }
}
