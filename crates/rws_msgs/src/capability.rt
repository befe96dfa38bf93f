//! The capabilities that a greeting offers and a response takes up: bits of their lower 32, under the names of MariaDB's
//! protocol documentation ("Capabilities", there with CLIENT_ in front of most).

/// CLIENT_MYSQL: the bit that MariaDB's own peers leave clear to show that they have further capabilities.
pub const MYSQL: u32 = 0x1;

/// CLIENT_FOUND_ROWS: an OK counts the rows that were found, not those that were changed.
pub const FOUND_ROWS: u32 = 0x2;

/// CLIENT_LONG_FLAG: the flags of a column have two bytes.
pub const LONG_FLAG: u32 = 0x4;

/// CLIENT_CONNECT_WITH_DB: a response names a database.
pub const CONNECT_WITH_DB: u32 = 0x8;

/// CLIENT_COMPRESS: packets may be compressed.
pub const COMPRESS: u32 = 0x20;

/// CLIENT_LOCAL_FILES: the client may be asked for a file of its own, for LOAD DATA LOCAL.
pub const LOCAL_FILES: u32 = 0x80;

/// CLIENT_IGNORE_SPACE: spaces may stand between a function's name and its parenthesis.
pub const IGNORE_SPACE: u32 = 0x100;

/// CLIENT_PROTOCOL_41: the protocol of MySQL 4.1 and later, whose layouts this crate has.
pub const PROTOCOL_41: u32 = 0x200;

/// CLIENT_INTERACTIVE: the timeout of interactive clients holds.
pub const INTERACTIVE: u32 = 0x400;

/// CLIENT_SSL: TLS follows.
pub const SSL: u32 = 0x800;

/// CLIENT_TRANSACTIONS: the status bits of transactions are understood.
pub const TRANSACTIONS: u32 = 0x2000;

/// CLIENT_SECURE_CONNECTION: a scramble of 20 bytes is answered, as in 4.1.
pub const SECURE_CONNECTION: u32 = 0x8000;

/// CLIENT_MULTI_STATEMENTS: a COM_QUERY may hold several statements.
pub const MULTI_STATEMENTS: u32 = 0x1_0000;

/// CLIENT_MULTI_RESULTS: a COM_QUERY may be answered by several results.
pub const MULTI_RESULTS: u32 = 0x2_0000;

/// CLIENT_PS_MULTI_RESULTS: a COM_STMT_EXECUTE may be answered by several results.
pub const PS_MULTI_RESULTS: u32 = 0x4_0000;

/// CLIENT_PLUGIN_AUTH: a response names an authentication plugin.
pub const PLUGIN_AUTH: u32 = 0x8_0000;

/// CLIENT_CONNECT_ATTRS: a response has a list of attributes.
pub const CONNECT_ATTRS: u32 = 0x10_0000;

/// CLIENT_PLUGIN_AUTH_LENENC_CLIENT_DATA: the length of a response's answer is a length-encoded integer, not one byte.
pub const PLUGIN_AUTH_LENENC_CLIENT_DATA: u32 = 0x20_0000;

/// CLIENT_SESSION_TRACK: an OK may report changes of the session's state.
pub const SESSION_TRACK: u32 = 0x80_0000;

/// CLIENT_DEPRECATE_EOF: an OK stands where an EOF stood.
pub const DEPRECATE_EOF: u32 = 0x100_0000;

/// What the proxy's greeting offers to its clients.
pub const OFFERED_TO_CLIENTS: u32 = MYSQL
    | FOUND_ROWS
    | LONG_FLAG
    | CONNECT_WITH_DB
    | IGNORE_SPACE
    | PROTOCOL_41
    | INTERACTIVE
    | TRANSACTIONS
    | SECURE_CONNECTION
    | MULTI_RESULTS
    | PS_MULTI_RESULTS
    | PLUGIN_AUTH
    | CONNECT_ATTRS
    | PLUGIN_AUTH_LENENC_CLIENT_DATA;

/// What a client's choice of is handed on to the servers that the proxy logs in to for it.
pub const KEPT_FOR_LINKS: u32 = FOUND_ROWS | LONG_FLAG | IGNORE_SPACE | INTERACTIVE;

/// What the proxy takes up at each server, whoever its client is. CLIENT_CONNECT_WITH_DB is added where there is a database.
pub const SENT_TO_SERVERS: u32 = MYSQL
    | PROTOCOL_41
    | TRANSACTIONS
    | SECURE_CONNECTION
    | MULTI_RESULTS
    | PS_MULTI_RESULTS
    | PLUGIN_AUTH
    | PLUGIN_AUTH_LENENC_CLIENT_DATA
    | SESSION_TRACK;

const _: () = prove!(OFFERED_TO_CLIENTS == 0x003E_A70F);

const _: () = prove!(KEPT_FOR_LINKS == 0x0506);

const _: () = prove!(SENT_TO_SERVERS == 0x00AE_A201);
