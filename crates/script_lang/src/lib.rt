// The script language: commands in, answers out.
#![tactic(auto)]

mod commands;
mod fields;
mod limits;
mod lines;
mod numbers;
mod printed_line;
mod printing;
mod reading;
mod words;
mod worked;

pub use commands::{Answer, Command, CommandList, LaneList, RowList, Script, ScriptFault};
pub use limits::{MOST_BYTES, MOST_COMMANDS, MOST_DIGITS, MOST_LINE};
pub use numbers::read_number;
pub use printing::{print_answer, print_refused};
pub use reading::read_script;
pub use table_model::Why;
pub use worked::{worked_refusals, worked_scripts};
