//! Bytes on the wire: texts, packets and payloads, length-encoded integers. Beside them stand words that several
//! crates share: why a session or a link ends, and which commits a read waits for.
#![tactic(auto)]

mod close_reason;
mod deframer;
mod drop_cause;
mod due;
mod fault;
mod framing;
mod gathering;
mod law;
mod lenenc;
mod mode;
mod packet;
mod payload;
mod payload_list;
mod text;
mod text_list;

pub use close_reason::CloseReason;
pub use deframer::Deframer;
pub use drop_cause::DropCause;
pub use fault::{NextError, WireFault};
pub use framing::frame;
pub use law::{
    beginnings_are_read, later_bytes_change_nothing, streams_are_read, unread_bytes_are_bounded,
};
pub use lenenc::{LenencFault, put_lenenc, read_lenenc, split_lenenc};
pub use mode::Mode;
pub use payload::Payload;
pub use payload_list::PayloadList;
pub use text::Text;
pub use text_list::TextList;

#[cfg(test)]
mod tests;
