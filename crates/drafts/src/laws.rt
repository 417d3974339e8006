// Laws of drafts over every history of calls.
ghost use Rattle.drafts.specs.Laws.{OneAnswer, OneRun, AdmittedOnEverySuitingSchema, StepByColumns, RunByColumns, BuildableAndAdmittedIsAccepted};

// A call, and so a history of calls, has one answer and leaves one draft.
pub fn histories_have_one_answer()
    ensures call { OneAnswer }
    ensures history { OneRun }
{}

// Every field of a draft fits every schema that shows the same columns as each that was passed.
pub fn suiting_schemas_admit()
    ensures { AdmittedOnEverySuitingSchema }
{}

// A schema counts only by the columns that it shows.
pub fn answers_depend_on_columns_alone()
    ensures call { StepByColumns }
    ensures history { RunByColumns }
{}

// Fields that keep the rules among themselves and on the schema are accepted as a batch.
pub fn admitted_fields_are_accepted()
    ensures { BuildableAndAdmittedIsAccepted }
{}
