use crate::sections::progress::Stage;
use crate::sections::section::Section;
use model::rule::Rule;

// What is remembered of a PID: where it stands, or the rule that it broke, after which it is judged no more.
#[derive(Clone, Copy)]
pub struct Row {
    pub stage: Result<Stage, Rule>,
    pub section: Section,
}
