//! Which command a payload of a client is ("Text protocol", "Utility commands" and "Binary
//! protocol (prepared statements)" of the protocol).
ghost use Rattle.std.specs.Prelude.{◌≡◌};
ghost use Rattle.rws_commands.specs.Requests.{arguments_of, class_by, request_by, request_of};

use rws_class::{Class, classify};
use rws_msgs::command::{
    COM_FIELD_LIST, COM_INIT_DB, COM_PING, COM_QUERY, COM_QUIT, COM_RESET_CONNECTION,
    COM_SET_OPTION, COM_STMT_CLOSE, COM_STMT_EXECUTE, COM_STMT_FETCH, COM_STMT_PREPARE,
    COM_STMT_RESET, COM_STMT_SEND_LONG_DATA,
};

/// A command by its first byte.
#[derive(Clone, Copy, Debug, PartialEq, Eq)]
pub enum Request {
    /// COM_QUIT
    Quit,
    /// COM_PING
    Ping,
    /// COM_QUERY
    Query,
    /// COM_FIELD_LIST
    FieldList,
    /// COM_INIT_DB
    InitDb,
    /// COM_STMT_PREPARE
    Prepare,
    /// COM_STMT_EXECUTE
    Execute,
    /// COM_STMT_SEND_LONG_DATA
    SendLongData,
    /// COM_STMT_CLOSE
    CloseStatement,
    /// COM_STMT_RESET
    ResetStatement,
    /// A command that the proxy knows and doesn't take: COM_SET_OPTION, COM_STMT_FETCH, COM_RESET_CONNECTION.
    Unsupported,
    /// No byte, or any other.
    Unknown,
}

impl Request {
    /// The command that a payload is. What follows its first byte isn't looked at.
    pub fn of(payload: &[u8]) -> Request
        ensures { result ≡ request_of payload.now }
    {
        match payload {
            [code, ..] => Request::with_code(*code),
            [] => Request::Unknown,
        }
    }

    /// The class of a command of these bytes: of a query that of its text. A command that no server is to answer counts as
    /// [`Class::Other`], and so does an execute: its class is that of its statement.
    pub fn class(self, payload: &[u8]) -> Class
        ensures { result ≡ class_by self payload.now }
    {
        match self {
            Request::Query => classify(arguments(payload)),
            Request::FieldList => Class::PrimaryRead,
            Request::InitDb | Request::Prepare => Class::Session,
            _ => Class::Other,
        }
    }

    /// The command whose first byte this is.
    fn with_code(code: u8) -> Request
        ensures { result ≡ request_by code }
    {
        match code {
            COM_QUIT => Request::Quit,
            COM_QUERY => Request::Query,
            COM_FIELD_LIST => Request::FieldList,
            COM_PING => Request::Ping,
            COM_INIT_DB => Request::InitDb,
            COM_STMT_PREPARE => Request::Prepare,
            COM_STMT_EXECUTE => Request::Execute,
            COM_STMT_SEND_LONG_DATA => Request::SendLongData,
            COM_STMT_CLOSE => Request::CloseStatement,
            COM_STMT_RESET => Request::ResetStatement,
            COM_SET_OPTION | COM_STMT_FETCH | COM_RESET_CONNECTION => Request::Unsupported,
            _ => Request::Unknown,
        }
    }
}

/// What stands behind the command byte.
pub(crate) fn arguments(payload: &[u8]) -> &[u8]
    ensures { result.now ≡ arguments_of payload.now }
{
    match payload {
        [_, arguments @ ..] => arguments,
        [] => payload,
    }
}
