// An unbound spec is bound: taken over by a draft, and closed.
ghost use Rattle.std.specs.Prelude.{OnOk};
ghost use Rattle.closed.specs.Closed.{paper_closed};
ghost use Rattle.partitions.specs.Specs.{paper_spec};
ghost use Rattle.binding.specs.Binds.{Binds};
ghost use Rattle.binding.specs.Backs.{BoundBack, ReadAndBoundBack, FitOnEverySchemaThatShowsTheSame};

use crate::fault::BindFault;
use closed::spec::PartitionSpec;
use drafts::builder::PartitionSpecBuilder;
use partitions::spec::UnboundPartitionSpec;
use schemas::schema::Schema;

// Fills the caller's spec. The unbound spec is gone, also where it is refused and the caller's spec is as it was.
pub fn bind<S: Schema>(
    unbound: UnboundPartitionSpec,
    schema: &S,
    spec: &mut PartitionSpec,
) -> Result<(), BindFault>
    ensures answer { Binds (S.Schema.columns schema.now) (paper_spec unbound) spec.old spec.new result }
    ensures back { BoundBack (S.Schema.columns schema.now) (paper_spec unbound) spec.new result }
    ensures read_back { ReadAndBoundBack (S.Schema.columns schema.now) (paper_spec unbound) spec.new result }
    ensures fit { OnOk result (FitOnEverySchemaThatShowsTheSame (S.Schema.columns schema.now) (paper_closed spec.new).fields) }
{
    let draft = PartitionSpecBuilder::new_from_unbound(unbound, schema)?;
    draft.build(spec)?;
    Ok(())
}
