// Fields are added to a list of fields, each checked against those before it and against a schema.
ghost use Rattle.std.specs.Prelude.{List};
ghost use Rattle.faults.specs.Rules.{Rule};
ghost use Rattle.partitions.specs.AddRules.{Judged};
ghost use Rattle.partitions.specs.Fields.{PaperField};
ghost use Rattle.partitions.specs.Listed.{listed};
ghost use Rattle.partitions.specs.Views.{seen};
ghost use Rattle.drafts.specs.BoundAdds.{AddsNamed, on_named};
ghost use Rattle.drafts.specs.SourceRules.{bound_rules, early_rules};

use names::name::check_name;
use partitions::fault::DraftFault;
use partitions::field::FieldView;
use partitions::fields::FieldList;
use partitions::validator::CorePartitionSpecValidator;
use partitions::ways::Adding;
use schemas::schema::Schema;
use transforms::transform::Transform;

mod source;

// A schema that is asked of each field.
#[derive(Drop)]
pub(crate) struct OnSchema<'a, S: Schema> {
    pub(crate) schema: &'a S,
}

impl<'a, S: Schema> Adding for OnSchema<'a, S> {
    ghost rules = { λ s. bound_rules (S.Schema.columns s.schema.now) };

    fn add_to(&self, fields: &mut FieldList, field: &FieldView<'_>) -> Result<(), DraftFault> {
        self.check_early(fields, field)?;
        fields.add(field)
    }
}

impl<'a, S: Schema> OnSchema<'a, S> {
    // Adds a field on the column that a source's name leads to, with no id stated.
    pub(crate) fn add_named(
        &self,
        fields: &mut FieldList,
        source_name: &[u8],
        name: &[u8],
        transform: Transform,
    ) -> Result<(), DraftFault>
        ensures { AddsNamed (S.Schema.columns self.now.schema.now) (listed fields.old) (on_named (S.Schema.columns self.now.schema.now) source_name.now name.now transform) result (listed fields.new) }
    {
        let source = self
            .schema
            .field_by_name(source_name)
            .ok_or(DraftFault::SourceNameUnknown)?;
        let field = FieldView {
            source_id: source.id,
            field_id: None,
            name,
            transform,
        };
        self.add_to(fields, &field)
    }

    // The rules that come before those of ids and room.
    fn check_early(&self, fields: &FieldList, field: &FieldView<'_>) -> Result<(), DraftFault>
        ensures { Judged (early_rules (S.Schema.columns self.now.schema.now) (listed fields.now) (seen field.now)) result }
    {
        check_name(field.name)?;
        fields.check_used(field)?;
        self.check_source(field)
    }
}
