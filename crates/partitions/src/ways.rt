// Ways to add a field to those that are there: each is checked by its own ordered rules.
ghost use Rattle.std.specs.Prelude.{List};
ghost use Rattle.faults.specs.Rules.{Rule};
ghost use Rattle.partitions.specs.AddRules.{add_rules};
ghost use Rattle.partitions.specs.Adds.{AddsBy};
ghost use Rattle.partitions.specs.Fields.{PaperField};
ghost use Rattle.partitions.specs.Listed.{listed};
ghost use Rattle.partitions.specs.Views.{seen};

use crate::fault::DraftFault;
use crate::field::FieldView;
use crate::fields::FieldList;

pub trait Adding {
    // the rules of a field after those that are there
    ghost rules: { Self → List PaperField → PaperField → List Rule };

    // Refuses with the first rule that the field breaks; else it stands at the end.
    fn add_to(&self, fields: &mut FieldList, field: &FieldView<'_>) -> Result<(), DraftFault>
        ensures { AddsBy (rules self.now) (listed fields.old) (seen field.now) result (listed fields.new) };
}

// No schema is asked: only the rules among the fields themselves.
#[derive(Clone, Copy)]
pub struct Unbound;

impl Adding for Unbound {
    ghost rules = { λ _. add_rules };

    fn add_to(&self, fields: &mut FieldList, field: &FieldView<'_>) -> Result<(), DraftFault> {
        fields.add(field)
    }
}
