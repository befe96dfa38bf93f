//! The kinds of reply, and what is said of one.

/// What a command is answered by.
#[derive(Clone, Copy, Debug, PartialEq, Eq)]
pub enum Kind {
    /// One OK or ERR.
    Simple,
    /// One or more OKs and results, as to COM_QUERY and COM_STMT_EXECUTE.
    Query,
    /// The answer to COM_STMT_PREPARE.
    Prepare,
    /// The answer to COM_FIELD_LIST.
    FieldList,
}

/// How a whole reply ended.
#[derive(Clone, Copy, Debug, PartialEq, Eq)]
pub enum Outcome {
    /// Without an error. `status` is that of its last OK or EOF, and 0x0002, autocommit alone, for a prepared statement
    /// without parameters and columns.
    Done { status: u16 },
    /// By an ERR with this code.
    Failed { code: u16 },
}

/// How far a reply has come.
#[derive(Clone, Copy, Debug, PartialEq, Eq)]
pub enum Progress {
    /// It goes on.
    More,
    /// It is whole and ended so.
    Whole(Outcome),
}

/// The payloads so far begin no reply of the kind, or the reply was whole already.
#[derive(Clone, Copy, Debug, PartialEq, Eq)]
pub struct BadReply;
