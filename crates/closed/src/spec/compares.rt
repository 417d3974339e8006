// Closed specs, compared.
ghost use Rattle.std.specs.Prelude.{◌≡◌, Decides};
ghost use Rattle.closed.specs.Closed.{paper_closed};
ghost use Rattle.closed.specs.Questions.{Compatible};
ghost use Rattle.closed.specs.Equals.{spec_eq, SpecsAreEqualExactlyWhenTheSame};
ghost use Rattle.closed.specs.EqualLaws.{spec_eq_laws};

use super::PartitionSpec;

impl PartitionSpec {
    // Whether the other has as many fields, each with the source, the name and the transform of this one's at its place.
    pub fn is_compatible_with(&self, other: &PartitionSpec) -> bool
        ensures { Decides result (Compatible (paper_closed self.now).fields (paper_closed other.now).fields) }
    {
        let fields = self.fields();
        let others = other.fields();
        fields.len() == others.len()
            && fields
                .iter()
                .zip(others)
                .all(|(field, other)| field.is_compatible_with(other))
    }
}

// kept: no plainer: a derived `==` promises `value` alone, and `decides` and `exactly` must stay
impl PartialEq for PartitionSpec {
    ghost eq = { spec_eq };

    ghost laws = { spec_eq_laws };

    fn eq(&self, other: &PartitionSpec) -> bool
        ensures value { result ≡ spec_eq self.now other.now }
        ensures decides { Decides result (paper_closed self.now ≡ paper_closed other.now) }
        ensures exactly { SpecsAreEqualExactlyWhenTheSame }
    {
        self.spec_id == other.spec_id && self.fields() == other.fields()
    }
}
