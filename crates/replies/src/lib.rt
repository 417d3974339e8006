// Answers to the commands of a script: what each says, and the line that it is printed as.
#![tactic(auto)]

pub mod answer;
pub mod normal;
pub mod text;
