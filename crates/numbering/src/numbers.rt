// The numbering of fields: stated ids are kept, and missing ones are given from the first field on.
ghost use Rattle.std.specs.Prelude.{◌≡◌, [], map, ℤ, Some, Decides, MatchOption};
ghost use Rattle.std.specs.List.{ContainsAt as Has};
ghost use Rattle.numbering.specs.Numbering.{Least, Permitted};
ghost use Rattle.numbering.specs.OneField.{IsId, NoId, After};
ghost use Rattle.numbering.specs.Outcome.{Answered, Lawful};

use crate::{Identified, NumberFault};

// Writes the fields' ids to the front of `ids`. Each field without an id gets its least permitted number: above the
// start, above every earlier id, stated by no field, and at most 2147483647. Refused at the first that has none.
pub fn number<T: Identified<Option<i32>>>(
    start: i32,
    fields: &[T],
    ids: &mut [i32],
) -> Result<(), NumberFault>
    ensures answer { Answered start (map T.Identified.id fields.now) ids.old ids.new result }
    ensures lawful { Lawful start (map T.Identified.id fields.now) ids.new result }
{
    if ids.len() < fields.len() {
        return Err(NumberFault::Short);
    }
    let mut last = start;
    // kept: tried, and the proof did not close: of what is written through a zip with `ids.iter_mut()` nothing is known
    for (index, field) in fields.iter().enumerate() {
        let id = id_of(fields, field, last).ok_or(NumberFault::NoNumber { index })?;
        ids[index] = id;
        last = last.max(id);
    }
    Ok(())
}

// The id of a field: what it states, or the least number above `last` that no field states.
fn id_of<T: Identified<Option<i32>>>(fields: &[T], field: &T, last: i32) -> Option<i32>
    ensures { MatchOption result (NoId last (map T.Identified.id fields.now) (T.Identified.id field.now)) (λ n. IsId last (map T.Identified.id fields.now) (T.Identified.id field.now) n) }
{
    field.field_id().or_else(|| next_free(fields, last))
}

// The least number above `last` that no field states.
fn next_free<T: Identified<Option<i32>>>(fields: &[T], last: i32) -> Option<i32>
    ensures { MatchOption result ((n : ℤ) → Permitted last (map T.Identified.id fields.now) [] n → ⊥) (λ n. Least (Permitted last (map T.Identified.id fields.now) []) n) }
{
    (after(last)?..=i32::MAX).find(|next| !some_states(fields, *next))
}

// The number after n, where there is one.
fn after(n: i32) -> Option<i32>
    ensures { After n result }
{
    n.checked_add(1)
}

// Whether some field states the number.
fn some_states<T: Identified<Option<i32>>>(fields: &[T], n: i32) -> bool
    ensures { Decides result (Has (map T.Identified.id fields.now) (Some n)) }
{
    fields.iter().any(|field| field.field_id() == Some(n))
}
