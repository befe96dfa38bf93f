//! Messages of the MariaDB client/server protocol, read from payloads and written. Packets, fields, status bits and
//! capabilities have the names of MariaDB's protocol documentation.
#![tactic(auto)]

pub mod capability;
pub mod command;
mod eof_msg;
mod err_msg;
mod execute_head;
mod fault;
mod fields;
mod greeting;
mod ok_msg;
mod prepare_ok;
mod response;
pub mod status;
mod switch;
mod writing;

pub use eof_msg::EofMsg;
pub use err_msg::{ErrMsg, err_code};
pub use execute_head::{ExecuteHead, ExecuteParts};
pub use fault::MsgFault;
pub use fields::split_text;
pub use greeting::Greeting;
pub use ok_msg::{OkMsg, ok_status};
pub use prepare_ok::PrepareOk;
pub use response::Response;
pub use switch::Switch;

#[cfg(test)]
mod captured;
#[cfg(test)]
mod tests;
