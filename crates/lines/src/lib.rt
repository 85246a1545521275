// What the programs print and read, over lent bytes: the lines of the listing, the text of an answer, the rule and the events of an input.
#![tactic(auto)]

mod answers;
mod input;
mod text;

pub use answers::{put_checked, put_report};
pub use input::{Next, event_end, next_event, read_full, read_some, rule_end, rule_in};
pub use text::{put_last, put_refused, put_text};
