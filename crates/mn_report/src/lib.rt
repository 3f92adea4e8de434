//! The report on a run: what each operation was answered, the history, and the store that it
//! leaves.
#![tactic(auto)]

mod answers;
mod lines;
mod lists;
mod parts;
mod report;
mod spelling;

pub use lines::{AnswerLine, DoubtLine, LineAnswer, Ranked, VersionLine};
pub use lists::{AnswerLines, Flags, Outcomes, Ranks, VersionLines};
pub use report::{Report, write_check, write_report};
pub use spelling::{push_number, push_spaced_number, push_spelled, push_word};
