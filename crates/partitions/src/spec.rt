// Unbound partition specs: what an unbound draft can build.
ghost use Rattle.std.specs.Prelude.{◌≡◌, [], IfOk, Decides};
ghost use Rattle.partitions.specs.Adds.{Adds};
ghost use Rattle.partitions.specs.Buildable.{Buildable, BuildableExactlyWhenBuilt};
ghost use Rattle.partitions.specs.Listed.{listed};
ghost use Rattle.partitions.specs.Specs.{paper_spec, blank};
ghost use Rattle.partitions.specs.Views.{papers, seen};
ghost use Rattle.partitions.specs.Equals.{spec_eq, SpecsAreEqualExactlyWhenTheSame};
ghost use Rattle.partitions.specs.EqualLaws.{spec_eq_laws};

use crate::fault::DraftFault;
use crate::field::{FieldView, UnboundPartitionField};
use crate::fields::FieldList;
use std::alloc::{AllocError, Global};

#[derive(Drop)]
pub struct UnboundPartitionSpec {
    pub(crate) spec_id: Option<i32>,
    pub(crate) fields: FieldList,
}

impl UnboundPartitionSpec {
    // No id and no fields. No later call wants memory.
    pub fn new(heap: Global) -> Result<UnboundPartitionSpec, AllocError>
        ensures { IfOk result (λ s. paper_spec s ≡ blank) }
    {
        let fields = FieldList::new(heap)?;
        Ok(UnboundPartitionSpec {
            spec_id: None,
            fields,
        })
    }

    // Begins anew: the id that is passed, and no fields.
    pub fn restart(&mut self, spec_id: Option<i32>)
        ensures { paper_spec self.new ≡ record { spec_id = spec_id; fields = [] } }
    {
        self.spec_id = spec_id;
        self.fields.clear();
    }

    // As an unbound draft adds a field.
    pub fn add_partition_field(&mut self, field: &FieldView<'_>) -> Result<(), DraftFault>
        ensures fields { Adds (paper_spec self.old).fields (seen field.now) result (paper_spec self.new).fields }
        ensures spec_id { (paper_spec self.new).spec_id ≡ (paper_spec self.old).spec_id }
    {
        self.fields.add(field)
    }

    // Its id and its fields, for whoever takes the spec over.
    pub fn into_parts(self) -> (Option<i32>, FieldList)
        ensures { record { spec_id = result.0; fields = listed result.1 } ≡ paper_spec self }
    {
        let UnboundPartitionSpec { spec_id, fields } = self;
        (spec_id, fields)
    }

    pub fn spec_id(&self) -> Option<i32>
        ensures { result ≡ (paper_spec self.now).spec_id }
    {
        self.spec_id
    }

    // Every spec's fields are fields that a draft can build.
    pub fn fields(&self) -> &[UnboundPartitionField]
        ensures same { papers result.now ≡ (paper_spec self.now).fields }
        ensures buildable { Buildable (papers result.now) }
        ensures law { BuildableExactlyWhenBuilt }
    {
        self.fields.as_slice()
    }
}

// kept: no plainer: a derived `==` promises `value` alone, and `decides` and `exactly` must stay
impl PartialEq for UnboundPartitionSpec {
    ghost eq = { spec_eq };

    ghost laws = { spec_eq_laws };

    fn eq(&self, other: &UnboundPartitionSpec) -> bool
        ensures value { result ≡ spec_eq self.now other.now }
        ensures decides { Decides result (paper_spec self.now ≡ paper_spec other.now) }
        ensures exactly { SpecsAreEqualExactlyWhenTheSame }
    {
        self.spec_id == other.spec_id && self.fields() == other.fields()
    }
}
