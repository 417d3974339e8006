// What a script has made so far, and what its commands answer.
use crate::columns::Columns;
use crate::draft::{Batch, add_field, close};
use crate::order::Sorting;
use commands::command::Command;
use commands::fault::ScriptFault;
use partitions::builder::UnboundPartitionSpecBuilder;
use partitions::spec::UnboundPartitionSpec;
use replies::answer::Answer;
use replies::text::{
    alike_answer, name_answer, preserves_answer, result_answer, satisfies_answer, strict_answer,
    transform_answer,
};
use std::alloc::Global;

// Of the two sorts of drafts the planner has only the unbound one yet.
#[derive(Drop)]
enum Draft {
    Bound,
    Unbound(UnboundPartitionSpecBuilder),
}

#[derive(Drop)]
pub struct Plan {
    heap: Global,
    columns: Columns,
    draft: Draft,
    batch: Option<Batch>,
    // the last unbound spec, if there was one
    spec: Option<UnboundPartitionSpec>,
    sorting: Sorting,
}

impl Plan {
    pub fn new(heap: Global) -> Result<Plan, ScriptFault> {
        Ok(Plan {
            heap,
            columns: Columns::new(heap),
            draft: Draft::Bound,
            batch: None,
            spec: None,
            sorting: Sorting::new(heap)?,
        })
    }

    // The answer to one line of a script; none where it is empty, a comment or a line of a batch that goes on.
    pub fn answer(&mut self, line: &str) -> Result<Option<Answer>, ScriptFault> {
        let Some(command) = Command::read(self.heap, line)? else {
            return Ok(None);
        };
        if self.batch.is_some() {
            return self.go_on(&command);
        }
        match &command {
            Command::Batch(count) => self.begin_batch(*count),
            _ => Ok(Some(self.run(&command)?)),
        }
    }

    fn begin_batch(&mut self, count: usize) -> Result<Option<Answer>, ScriptFault> {
        self.batch = Some(Batch::new(self.heap, count));
        self.end_batch()
    }

    // A line while a batch is due: another field of it, or no command.
    fn go_on(&mut self, command: &Command) -> Result<Option<Answer>, ScriptFault> {
        let Command::Add(line) = command else {
            return Err(ScriptFault::BadCommand);
        };
        if let Some(batch) = &mut self.batch {
            batch.take(line)?;
        }
        self.end_batch()
    }

    // Answers a batch once no line of it is due.
    fn end_batch(&mut self) -> Result<Option<Answer>, ScriptFault> {
        let Some(batch) = self.batch.take() else {
            return Ok(None);
        };
        if !batch.is_whole() {
            self.batch = Some(batch);
            return Ok(None);
        }
        match &mut self.draft {
            Draft::Unbound(draft) => Ok(Some(batch.add_to(draft)?)),
            Draft::Bound => Ok(Some(Answer::NotYet)),
        }
    }

    fn run(&mut self, command: &Command) -> Result<Answer, ScriptFault> {
        match command {
            Command::Name(name) => Ok(name_answer(name.as_slice())?),
            Command::Transform(text) => Ok(transform_answer(text.as_slice())?),
            Command::Strict(text) => Ok(strict_answer(text.as_slice())?),
            Command::ResultType(text, input) => Ok(result_answer(text.as_slice(), *input)?),
            Command::Preserves(text) => Ok(preserves_answer(text.as_slice())?),
            Command::Satisfies(text, other) => {
                Ok(satisfies_answer(text.as_slice(), other.as_slice())?)
            }
            Command::Alike(text, other) => Ok(alike_answer(text.as_slice(), other.as_slice())?),
            Command::SortNew => self.new_sorting(),
            Command::SortId(order_id) => {
                self.sorting.with_order_id(*order_id);
                Ok(Answer::Done)
            }
            Command::Sort(line) => Ok(self.sorting.add(line)?),
            Command::SortBuild => self.sorting.build(self.heap, &self.columns),
            Command::SortBuildUnbound => self.sorting.build_unbound(self.heap),
            Command::RecordUnbound | Command::Read(_) | Command::Items(_) | Command::Later => {
                Ok(Answer::NotYet)
            }
            _ => self.run_on_columns(command),
        }
    }

    fn run_on_columns(&mut self, command: &Command) -> Result<Answer, ScriptFault> {
        match command {
            Command::Column(line) => self.columns.add(line)?,
            Command::ColumnsClear => self.columns.clear(),
            Command::Regular => return Ok(Answer::Test(self.columns.is_regular())),
            Command::Sheet(bytes) => {
                let bytes = bytes.as_slice().to_vec(self.heap)?;
                self.columns.use_sheet(bytes);
            }
            Command::Select(ids) => return self.columns.select(self.heap, ids.as_slice()),
            Command::SelectAll => self.columns.select_all(),
            _ => return self.run_on_draft(command),
        }
        Ok(Answer::Done)
    }

    fn run_on_draft(&mut self, command: &Command) -> Result<Answer, ScriptFault> {
        match (command, &mut self.draft) {
            (Command::Unbound, _) => self.new_unbound(),
            (Command::Draft, _) => {
                self.draft = Draft::Bound;
                Ok(Answer::NotYet)
            }
            (Command::SpecId(spec_id), Draft::Unbound(draft)) => {
                draft.with_spec_id(*spec_id);
                Ok(Answer::Done)
            }
            (Command::Add(line), Draft::Unbound(draft)) => Ok(add_field(draft, line)?),
            (Command::Close, _) => self.close(),
            _ => Ok(Answer::NotYet),
        }
    }

    fn new_unbound(&mut self) -> Result<Answer, ScriptFault> {
        self.draft = Draft::Unbound(UnboundPartitionSpecBuilder::new(self.heap)?);
        Ok(Answer::Done)
    }

    fn new_sorting(&mut self) -> Result<Answer, ScriptFault> {
        self.sorting = Sorting::new(self.heap)?;
        Ok(Answer::Done)
    }

    // Builds the draft into the last spec; a new draft begins.
    fn close(&mut self) -> Result<Answer, ScriptFault> {
        let Draft::Unbound(draft) = &mut self.draft else {
            return Ok(Answer::NotYet);
        };
        let fresh = UnboundPartitionSpecBuilder::new(self.heap)?;
        let (spec, answer) = close(self.heap, std::mem::replace(draft, fresh))?;
        self.spec = Some(spec);
        Ok(answer)
    }
}
