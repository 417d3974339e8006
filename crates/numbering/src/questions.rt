// What is asked of fields that have their ids.
ghost use Rattle.std.specs.Prelude.{◌≡◌, ◌+◌, map, length, pos, Decides, MatchOption};
ghost use Rattle.numbering.specs.Ids.{Sequential, Highest};

use crate::Identified;

// Whether the ids count up from 1000, by one from field to field.
pub fn has_sequential_ids<T: Identified<i32>>(fields: &[T]) -> bool
    ensures { Decides result (Sequential (map T.Identified.id fields.now)) }
{
    fields
        .iter()
        .enumerate()
        .all(|(place, field)| is_at(field.field_id(), place))
}

// The highest id, or none where there is no field.
pub fn highest_field_id<T: Identified<i32>>(fields: &[T]) -> Option<i32>
    ensures { MatchOption result (length fields.now ≡ 0) (λ id. Highest (map T.Identified.id fields.now) id) }
{
    fields.iter().map(|field| field.field_id()).max()
}

fn is_at(id: i32, place: usize) -> bool
    ensures { Decides result (id ≡ pos (1000 + place)) }
{
    id >= 1000 && id as usize - 1000 == place
}
