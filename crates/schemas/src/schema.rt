// Schemas: two lookups that show a table's columns.
ghost use Rattle.std.specs.Prelude.{◌≡◌};
ghost use Rattle.std.specs.Option.{option_map};
ghost use Rattle.schemas.specs.Columns.{Columns, Sound, named_in, id_of};
ghost use Rattle.schemas.specs.Laws.{SameColumnsAreEqual, SameColumnsSameAnswers};

use transforms::datatypes::Type;

// A column that is inside a list or a map, at any depth, is marked.
#[derive(Clone, Copy, PartialEq, Eq)]
pub struct Column {
    pub field_type: Type,
    pub is_marked: bool,
}

// What a name leads to.
#[derive(Clone, Copy)]
pub struct NamedColumn {
    pub id: i32,
    pub field_type: Type,
}

pub trait Schema {
    // What the schema shows. Asking changes nothing of it.
    ghost columns: { Self → Columns };

    ghost sound: { (s : Self) → Sound (columns s) };

    fn field_by_id(&self, id: i32) -> Option<Column>
        ensures { result ≡ (columns self.now).by_id id };

    fn id_by_name(&self, name: &[u8]) -> Option<i32>
        ensures { result ≡ (columns self.now).by_name name.now };

    // The type is that of the id's column, so that both lookups agree where an id repeats.
    fn field_by_name(&self, name: &[u8]) -> Option<NamedColumn>
        ensures named { result ≡ named_in (columns self.now) name.now }
        ensures leads { option_map id_of result ≡ (columns self.now).by_name name.now }
    {
        let id = self.id_by_name(name)?;
        let column = self.field_by_id(id)?;
        Some(NamedColumn {
            id,
            field_type: column.field_type,
        })
    }
}

// Whatever is told of a schema's columns is told of any other that shows the same.
pub fn same_columns_are_equal()
    ensures { SameColumnsAreEqual }
{}

pub fn same_columns_same_answers()
    ensures { SameColumnsSameAnswers }
{}
