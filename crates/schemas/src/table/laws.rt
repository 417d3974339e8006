// What the lookups of a table's rows answer, said of places.
ghost use Rattle.schemas.specs.RowLaws.{FirstRowDecides, RegularRowsAreFound};

pub fn first_row_decides()
    ensures { FirstRowDecides }
{}

pub fn regular_rows_are_found()
    ensures { RegularRowsAreFound }
{}
