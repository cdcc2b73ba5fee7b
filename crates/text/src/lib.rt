// Text by lines: where a line stops being a form, and a reader that finds the place.
#![tactic(auto)]

mod cursor;
pub mod form;
pub mod reader;
pub mod tokens;
