// The columns that a script states, and the questions that are asked of them.
use commands::command::ColumnLine;
use commands::fault::ScriptFault;
use faults::refusal::Refusal;
use names::name::NamePlace;
use replies::answer::Answer;
use schemas::schema::Schema;
use schemas::selection::Selection;
use schemas::table::{ColumnRecord, ColumnTable};
use sheets::sheet::ColumnSheet;
use std::alloc::Global;

// A column table, the sheet that stands in its place if there is one, and the selected ids if there is a selection.
#[derive(Drop)]
pub struct Columns {
    records: Vec<ColumnRecord>,
    names: Vec<u8>,
    sheet: Option<Vec<u8>>,
    selected: Option<Vec<i32>>,
}

// What is asked of whatever schema the script has.
// kept: no plainer: a closure can't be generic over the schema that it is given, the calls want a type and not a `dyn Schema`, and
// a trait with one generic method is both
pub trait Question {
    fn ask<S: Schema>(&self, schema: &S) -> Result<Answer, ScriptFault>;
}

impl Columns {
    pub fn new(heap: Global) -> Columns {
        Columns {
            records: Vec::new(heap),
            names: Vec::new(heap),
            sheet: None,
            selected: None,
        }
    }

    // Forgets everything.
    pub fn clear(&mut self) {
        self.records.clear();
        self.names.clear();
        self.sheet = None;
        self.selected = None;
    }

    pub fn add(&mut self, line: &ColumnLine) -> Result<(), ScriptFault> {
        let start = self.names.len();
        let length = line.name.len();
        self.names.extend_from_slice(line.name.as_slice())?;
        self.records.push(ColumnRecord {
            id: line.id,
            field_type: line.field_type,
            is_marked: line.is_marked,
            name: NamePlace { start, length },
        })?;
        Ok(())
    }

    pub fn use_sheet(&mut self, bytes: Vec<u8>) {
        self.sheet = Some(bytes);
    }

    pub fn is_regular(&self) -> bool {
        self.table().regular()
    }

    fn table(&self) -> ColumnTable<'_> {
        ColumnTable {
            records: self.records.as_slice(),
            names: self.names.as_slice(),
        }
    }

    pub fn select_all(&mut self) {
        self.selected = None;
    }

    // Selects the ids, up to the first that is refused.
    pub fn select(&mut self, heap: Global, ids: &[i32]) -> Result<Answer, ScriptFault> {
        let mut all = self.selected.take().unwrap_or(Vec::new(heap));
        let result = extend(heap, &self.table(), &mut all, ids);
        self.selected = Some(all);
        result
    }

    // Asks the schema that the script has now.
    pub fn answer<Q: Question>(&self, heap: Global, question: &Q) -> Result<Answer, ScriptFault> {
        match &self.sheet {
            Some(bytes) => {
                let sheet = ColumnSheet::new(bytes.as_slice());
                self.answer_under(heap, &sheet, question)
            }
            None => self.answer_under(heap, &self.table(), question),
        }
    }

    // Asks the selection over a schema, where there is one, or the schema itself.
    fn answer_under<S: Schema, Q: Question>(
        &self,
        heap: Global,
        under: &S,
        question: &Q,
    ) -> Result<Answer, ScriptFault> {
        match &self.selected {
            Some(ids) => { question.ask(&selection_of(heap, under, ids.as_slice())?) }
            None => question.ask(under),
        }
    }
}

fn extend(
    heap: Global,
    table: &ColumnTable,
    all: &mut Vec<i32>,
    ids: &[i32],
) -> Result<Answer, ScriptFault> {
    let mut selection = selection_of(heap, table, all.as_slice())?;
    for id in ids {
        selection.select(*id).map_err(Refusal::from)?;
        all.push(*id)?;
    }
    Ok(Answer::Done)
}

// The selection of ids that were selected before, so that none is refused.
fn selection_of<'a, S: Schema>(
    heap: Global,
    under: &'a S,
    ids: &[i32],
) -> Result<Selection<'a, S>, ScriptFault> {
    let mut selection = Selection::new(heap, under)?;
    for id in ids {
        let _ = selection.select(*id);
    }
    Ok(selection)
}
