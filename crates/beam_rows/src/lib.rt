//! The instruction table: one row of a process. A row is executed wholly, or memory is refused and nothing changes. A row that would end
//! the process answers the end and isn't executed: the caller ends the process.
#![tactic(auto)]

mod call_cache;
mod calls;
mod catching;
mod choosing;
mod computes;
mod controls;
mod data;
mod fetch;
mod leaving;
mod making;
mod messaging;
mod moving;
mod native_rows;
mod natives;
mod of_process;
mod operand;
mod quick;
mod rare_record_rows;
mod receiving;
mod record_rows;
pub mod request;
mod row;
mod row_costs;
mod row_error;
mod rows_without_record;
pub mod run;
pub mod short;
pub mod spots;
mod stacks;
mod tests;
