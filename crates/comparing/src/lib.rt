// Where two plans part.
#![tactic(auto)]

ghost use Rattle.std.specs.Prelude.{◌≡◌, MatchOption};
ghost use Rattle.partitions.specs.Specs.{paper_spec};
ghost use Rattle.partitions.specs.Views.{papers};
ghost use Rattle.comparing.specs.Partings.{PartAt, Parts};

use partitions::field::UnboundPartitionField;
use partitions::spec::UnboundPartitionSpec;

#[derive(Clone, Copy)]
pub enum Parting {
    SpecIds,
    // the fields at the place differ, or only one of the plans has one there
    Fields { place: usize },
}

// None where the two are equal.
pub fn compare(plan: &UnboundPartitionSpec, other: &UnboundPartitionSpec) -> Option<Parting>
    ensures { Parts (paper_spec plan.now) (paper_spec other.now) result }
{
    if plan.spec_id() != other.spec_id() {
        return Some(Parting::SpecIds);
    }
    let place = first_difference(plan.fields(), other.fields())?;
    Some(Parting::Fields { place })
}

// The first place where the two do not have the same; past its end a list has nothing.
fn first_difference(
    fields: &[UnboundPartitionField],
    others: &[UnboundPartitionField],
) -> Option<usize>
    ensures { MatchOption result (papers fields.now ≡ papers others.now) (λ place. PartAt (papers fields.now) (papers others.now) place) }
{
    let shared = fields.len().min(others.len());
    let lengths_differ = fields.len() != others.len();
    fields
        .iter()
        .zip(others)
        .position(|(field, other)| *field != *other)
        .or_else(|| lengths_differ.then_some(shared))
}
