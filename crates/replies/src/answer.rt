// Answers to commands, and the lines that they are printed as.
ghost use Rattle.std.specs.Prelude.{Some};
ghost use Rattle.replies.specs.Shown.{answer_text};

use std::fmt;
use transforms::datatypes::Type;
use transforms::transform::Transform;

// What a command that is not refused answers.
#[derive(Drop)]
pub enum Answer {
    Done,
    Printed(Transform),
    ResultIs(Type),
    Test(bool),
    // a spec, an order or a record, as a line
    Line(String),
    // nothing was closed yet
    NoSpec,
    // the draft is of the other sort
    NotHere,
    NotYet,
}

impl fmt::Display for Answer {
    ghost output = { λ a. Some (answer_text a) };

    fn fmt<W: fmt::Write>(&self, f: &mut fmt::Formatter<W>) -> fmt::Result {
        match self {
            Answer::Done => f.write_str("ok"),
            Answer::Printed(transform) => write!(f, "ok {transform}"),
            Answer::ResultIs(result) => write!(f, "ok {result}"),
            Answer::Test(true) => f.write_str("yes"),
            Answer::Test(false) => f.write_str("no"),
            Answer::Line(line) => f.write_str(line.as_str()),
            Answer::NoSpec => f.write_str("no-spec"),
            Answer::NotHere => f.write_str("not-here"),
            Answer::NotYet => f.write_str("not-yet"),
        }
    }
}
