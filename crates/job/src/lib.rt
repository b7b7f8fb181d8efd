//! Jobs: a site with some of its ways closed for the while; lists of calls tried on a job; and such lists as text, a call to a line:
//! "close W", "reopen W" or "plan START END BOUND".
#![tactic(auto)]

pub mod call_text;
pub mod job;
pub mod list;
pub mod replay;
pub mod script;
