// The questions that are asked before any charge: 1 to 5 of a sheet, and 6 of a call.
#![tactic(auto)]

mod limits;
mod question_5;
mod question_6;
mod sheet_check;
mod sums;

pub use question_5::kinds_named;
pub use question_6::admit;
pub use sheet_check::check_sheet;
