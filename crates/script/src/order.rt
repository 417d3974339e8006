// The sort draft of a script.
use crate::columns::{Columns, Question};
use crate::lines::Line;
use commands::command::SortLine;
use commands::fault::ScriptFault;
use faults::refusal::Refusal;
use replies::answer::Answer;
use schemas::schema::Schema;
use sorts::sort::{SortField, SortOrder, SortOrderBuilder};
use std::alloc::Global;
use texts::read::loose;

#[derive(Drop)]
pub struct Sorting {
    draft: SortOrderBuilder,
}

#[derive(Drop)]
struct Build<'a> {
    heap: Global,
    draft: &'a SortOrderBuilder,
}

impl Sorting {
    pub fn new(heap: Global) -> Result<Sorting, ScriptFault> {
        let draft = SortOrderBuilder::new(heap)?;
        Ok(Sorting { draft })
    }

    pub fn with_order_id(&mut self, order_id: i64) {
        self.draft.with_order_id(order_id);
    }

    pub fn add(&mut self, line: &SortLine) -> Result<Answer, Refusal> {
        let transform = loose(line.text.as_slice())?;
        self.draft.with_sort_field(SortField {
            source_id: line.source_id,
            transform,
            direction: line.direction,
            null_order: line.null_order,
        })?;
        Ok(Answer::Done)
    }

    pub fn build_unbound(&self, heap: Global) -> Result<Answer, ScriptFault> {
        let mut order = SortOrder::new(heap)?;
        self.draft.build_unbound(&mut order).map_err(Refusal::from)?;
        Ok(Answer::Line(format!(in heap; "{}", Line(&order))?))
    }

    pub fn build(&self, heap: Global, columns: &Columns) -> Result<Answer, ScriptFault> {
        let build = Build {
            heap,
            draft: &self.draft,
        };
        columns.answer(heap, &build)
    }
}

impl Question for Build<'_> {
    fn ask<S: Schema>(&self, schema: &S) -> Result<Answer, ScriptFault> {
        let mut order = SortOrder::new(self.heap)?;
        self.draft.build(schema, &mut order).map_err(Refusal::from)?;
        Ok(Answer::Line(format!(in self.heap; "{}", Line(&order))?))
    }
}
