//! The form of a file that is run: its image, in which the rows of labels and the callees of imports were looked up once.
#![tactic(auto)]

mod action;
mod action_records;
mod atoms;
pub mod callee;
mod chunk_copies;
mod code;
mod entry_points;
mod image;
mod image_inner;
mod imports;
pub mod instruction_record;
mod labelled;
mod list_actions;
mod list_reading;
mod module_records;
mod native_records;
mod natives;
mod next_rows;
mod operand_lists;
mod prepare;
mod prepared_file;
mod reader;
mod record_table;
mod shape;
mod short;
mod test_records;
mod tests;

pub use code::{LinkedCode, LinkedRecord};
pub use image::Image;
pub use module_records::ModuleRecords;
pub use operand_lists::OperandList;
pub use prepared_file::PreparedFile;
