//! A command that set something for its session, as links play it again.

use rws_wire::Text;

/// One command of a history.
#[derive(Debug, Drop)]
pub struct Entry {
    /// The payload, command byte included.
    pub command: Text,
    /// The handle that the client knows the statement by, where the command is a COM_STMT_PREPARE.
    pub client_id: Option<u32>,
    /// The columns that the prepare's answer counted, 0 of other commands.
    pub columns: u16,
    /// The parameters that the prepare's answer counted, 0 of other commands.
    pub parameters: u16,
}
