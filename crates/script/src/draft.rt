// The unbound draft of a script, and a batch whose lines are still due.
use crate::lines::Line;
use commands::command::FieldLine;
use commands::fault::ScriptFault;
use faults::refusal::Refusal;
use names::name::NamePlace;
use partitions::batch::BatchField;
use partitions::builder::UnboundPartitionSpecBuilder;
use partitions::field::FieldView;
use partitions::spec::UnboundPartitionSpec;
use replies::answer::Answer;
use std::alloc::Global;
use texts::read::loose;

// The lines of a batch so far: its fields, their names, and the first text that was refused.
#[derive(Drop)]
pub struct Batch {
    due: usize,
    fields: Vec<BatchField>,
    names: Vec<u8>,
    refused: Option<Refusal>,
}

impl Batch {
    pub fn new(heap: Global, due: usize) -> Batch {
        Batch {
            due,
            fields: Vec::new(heap),
            names: Vec::new(heap),
            refused: None,
        }
    }

    pub fn is_whole(&self) -> bool {
        self.due == 0
    }

    // One of the lines that are due.
    pub fn take(&mut self, line: &FieldLine) -> Result<(), ScriptFault> {
        let index = self.fields.len();
        self.due = self.due.saturating_sub(1);
        let transform = match loose(line.text.as_slice()) {
            Ok(transform) => transform,
            Err(fault) => {
                self.refuse(index, Refusal::from(fault));
                return Ok(());
            }
        };
        let start = self.names.len();
        let length = line.name.len();
        self.names.extend_from_slice(line.name.as_slice())?;
        self.fields.push(BatchField {
            source_id: line.source_id,
            field_id: line.field_id,
            name: NamePlace { start, length },
            transform,
        })?;
        Ok(())
    }

    // The first refused text decides; what comes after it is passed over.
    fn refuse(&mut self, index: usize, refusal: Refusal) {
        if self.refused.is_none() {
            self.refused = Some(Refusal {
                index: Some(index),
                ..refusal
            });
        }
    }

    pub fn add_to(&self, draft: &mut UnboundPartitionSpecBuilder) -> Result<Answer, Refusal> {
        if let Some(refusal) = self.refused {
            return Err(refusal);
        }
        draft.add_partition_fields(&partitions::batch::Batch {
            fields: self.fields.as_slice(),
            area: self.names.as_slice(),
        })?;
        Ok(Answer::Done)
    }
}

pub fn add_field(
    draft: &mut UnboundPartitionSpecBuilder,
    line: &FieldLine,
) -> Result<Answer, Refusal> {
    let transform = loose(line.text.as_slice())?;
    draft.add_partition_field(&FieldView {
        source_id: line.source_id,
        field_id: line.field_id,
        name: line.name.as_slice(),
        transform,
    })?;
    Ok(Answer::Done)
}

// The spec that the draft builds, and its line.
pub fn close(
    heap: Global,
    draft: UnboundPartitionSpecBuilder,
) -> Result<(UnboundPartitionSpec, Answer), ScriptFault> {
    let spec = draft.build();
    let line = format!(in heap; "{}", Line(&spec))?;
    Ok((spec, Answer::Line(line)))
}
