//! The commands that a client sends in the command phase: the first byte of a command's payload, under the names of
//! MariaDB's protocol documentation ("Text Protocol", "Binary Protocol (Prepared Statements)"). No other byte is a command here.
//! Definitions name these constants too, from `specs.declared.command.TheConstants`.

/// The client leaves; there is no reply.
pub const COM_QUIT: u8 = 0x01;

/// Another database: its name.
pub const COM_INIT_DB: u8 = 0x02;

/// A statement: its text.
pub const COM_QUERY: u8 = 0x03;

/// The columns of a table: its name and a zero byte, then a pattern.
pub const COM_FIELD_LIST: u8 = 0x04;

/// Whether the server is there.
pub const COM_PING: u8 = 0x0E;

/// A statement to be prepared: its text.
pub const COM_STMT_PREPARE: u8 = 0x16;

/// A prepared statement is carried out, as [`ExecuteHead`](crate::ExecuteHead) has it.
pub const COM_STMT_EXECUTE: u8 = 0x17;

/// A part of a parameter's value: a statement's id in four bytes, the parameter's place in two, and the bytes. There
/// is no reply.
pub const COM_STMT_SEND_LONG_DATA: u8 = 0x18;

/// A statement is given up: its id in four bytes. There is no reply.
pub const COM_STMT_CLOSE: u8 = 0x19;

/// A statement's long data and cursor are given up: its id in four bytes.
pub const COM_STMT_RESET: u8 = 0x1A;

/// Several statements in one COM_QUERY are allowed or not: a number in two bytes.
pub const COM_SET_OPTION: u8 = 0x1B;

/// Rows of an open cursor: a statement's id and how many, in four bytes each.
pub const COM_STMT_FETCH: u8 = 0x1C;

/// The session becomes as it was behind the login.
pub const COM_RESET_CONNECTION: u8 = 0x1F;
