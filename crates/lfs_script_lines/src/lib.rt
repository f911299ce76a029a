// SPDX-License-Identifier: BSD-3-Clause
//! Scripts: operations on a file system as text, with one operation per line, and the text of their
//! answers.
#![tactic(auto)]

mod answer;
mod answer_text;
mod arguments;
mod command;
mod lines;
mod names;
mod operations;
mod options;
mod refusal;
mod words;

pub use answer::{Answer, DeviceCallCounts, SessionDifference};
pub use answer_text::push_answer;
pub use command::{Command, ComparisonScope, Operation};
pub use lines::{LineError, read_line};
pub use refusal::LineRefusal;
