//! One result set of a query in its text form, read whole: the names of its columns and its rows, in which each column is a text
//! or NULL.
#![tactic(auto)]

mod cells;
mod fault;
mod law;
mod one_value;
mod parts;
mod read;
mod row;
mod row_list;
mod rows;
#[cfg(test)]
mod tests;

pub use fault::ReadFault;
pub use law::{one_values_are_read, result_sets_are_read};
pub use one_value::OneValue;
pub use read::read_rows;
pub use row::Row;
pub use row_list::RowList;
pub use rows::Rows;
