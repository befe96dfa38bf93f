//! What may come next in a reply: one small function for each place, each proved to be the definition's step there.

ghost use Rattle.std.specs.Prelude.{◌≡◌};
ghost use Rattle.rws_reply.specs.declared.kind.Outcome.TheVariants.{Done, Failed};
ghost use Rattle.rws_reply.specs.declared.awaits.Step.TheVariants.{Ends};
ghost use Rattle.rws_reply.specs.Machine.{behind_result, next, to_columns, to_parameters};

use crate::{Outcome, payload};
use rws_msgs::status::AUTOCOMMIT;
use rws_msgs::{err_code, ok_status};

/// What a tracker waits for.
#[derive(Clone, Copy)]
pub enum Awaits {
    /// An OK or an ERR.
    Simple,
    /// The first payload of a result of a query.
    Query,
    /// So many more definitions of columns, and an EOF.
    Definitions(u64),
    /// The rows of a result.
    Rows,
    /// A PrepareOk or an ERR.
    Prepare,
    /// So many more definitions of parameters, and an EOF; then those of so many columns.
    Parameters { left: u16, columns: u16 },
    /// So many more definitions of a prepared statement's columns, and an EOF.
    Columns(u16),
    /// The first payload of a list of fields.
    FieldList,
    /// The rest of a list of fields.
    Fields,
}

/// What a payload leads to.
pub enum Step {
    /// The reply goes on, and this may come next.
    Goes(Awaits),
    /// The reply is whole and ended so.
    Ends(Outcome),
    /// The payload can't stand here.
    Wrong,
}

impl Step {
    /// The reply is whole, with the status of its last OK or EOF.
    fn done(status: u16) -> Step
        ensures { result ≡ Ends (Done status) }
    {
        Step::Ends(Outcome::Done { status })
    }

    /// The reply is whole, with the code of its ERR.
    fn failed(code: u16) -> Step
        ensures { result ≡ Ends (Failed code) }
    {
        Step::Ends(Outcome::Failed { code })
    }
}

/// Behind an OK or a last EOF of a query: another result, or the end.
fn result_end(status: u16) -> Step
    ensures { result ≡ behind_result status }
{
    if payload::has_more(status) {
        Step::Goes(Awaits::Query)
    } else {
        Step::done(status)
    }
}

/// Behind what tells of a prepared statement's parameters: its columns, or the end.
fn columns_next(columns: u16, status: u16) -> Step
    ensures { result ≡ to_columns columns status }
{
    if columns == 0 {
        Step::done(status)
    } else {
        Step::Goes(Awaits::Columns(columns))
    }
}

/// Behind the first payload of a prepared statement: its parameters, or its columns.
fn parameters_next(columns: u16, parameters: u16) -> Step
    ensures { result ≡ to_parameters (columns, parameters) }
{
    if parameters == 0 {
        columns_next(columns, AUTOCOMMIT)
    } else {
        Step::Goes(Awaits::Parameters {
            left: parameters,
            columns,
        })
    }
}

/// At the only payload of a simple reply.
fn simple(payload: &[u8]) -> Step
    ensures { result ≡ next Awaits.Simple payload.now }
{
    if let Some(status) = ok_status(payload, true) {
        Step::done(status)
    } else if let Some(code) = err_code(payload) {
        Step::failed(code)
    } else {
        Step::Wrong
    }
}

/// At the first payload of a result.
fn query(payload: &[u8]) -> Step
    ensures { result ≡ next Awaits.Query payload.now }
{
    if let Some(status) = ok_status(payload, true) {
        result_end(status)
    } else if let Some(code) = err_code(payload) {
        Step::failed(code)
    } else if let Some(count) = payload::column_count(payload) {
        Step::Goes(Awaits::Definitions(count))
    } else {
        Step::Wrong
    }
}

/// At the definition of a column, or at the EOF behind the last.
fn definitions(left: u64, payload: &[u8]) -> Step
    ensures { result ≡ next (Awaits.Definitions left) payload.now }
{
    if left == 0 {
        match payload::eof(payload) {
            Some(_) => Step::Goes(Awaits::Rows),
            None => Step::Wrong,
        }
    } else if payload::definition(payload) {
        Step::Goes(Awaits::Definitions(left - 1))
    } else {
        Step::Wrong
    }
}

/// At a row, or at what ends the rows.
fn rows(payload: &[u8]) -> Step
    ensures { result ≡ next Awaits.Rows payload.now }
{
    if let Some(status) = payload::eof(payload) {
        result_end(status)
    } else if let Some(code) = err_code(payload) {
        Step::failed(code)
    } else if payload::row(payload) {
        Step::Goes(Awaits::Rows)
    } else {
        Step::Wrong
    }
}

/// At the first payload of the answer to a prepare.
fn prepare(payload: &[u8]) -> Step
    ensures { result ≡ next Awaits.Prepare payload.now }
{
    if let Some(code) = err_code(payload) {
        Step::failed(code)
    } else if let Some((columns, parameters)) = payload::prepared(payload) {
        parameters_next(columns, parameters)
    } else {
        Step::Wrong
    }
}

/// At the definition of a parameter, or at the EOF behind the last.
fn parameters(left: u16, columns: u16, payload: &[u8]) -> Step
    ensures { result ≡ next (Awaits.Parameters left columns) payload.now }
{
    if left == 0 {
        match payload::eof(payload) {
            Some(status) => columns_next(columns, status),
            None => Step::Wrong,
        }
    } else if payload::definition(payload) {
        Step::Goes(Awaits::Parameters {
            left: left - 1,
            columns,
        })
    } else {
        Step::Wrong
    }
}

/// At the definition of a prepared statement's column, or at the EOF behind the last.
fn columns(left: u16, payload: &[u8]) -> Step
    ensures { result ≡ next (Awaits.Columns left) payload.now }
{
    if left == 0 {
        match payload::eof(payload) {
            Some(status) => Step::done(status),
            None => Step::Wrong,
        }
    } else if payload::definition(payload) {
        Step::Goes(Awaits::Columns(left - 1))
    } else {
        Step::Wrong
    }
}

/// At the first payload of a list of fields, where alone an ERR may stand.
fn field_list(payload: &[u8]) -> Step
    ensures { result ≡ next Awaits.FieldList payload.now }
{
    match err_code(payload) {
        Some(code) => Step::failed(code),
        None => fields(payload),
    }
}

/// At the definition of a field, or at the EOF behind the last.
fn fields(payload: &[u8]) -> Step
    ensures { result ≡ next Awaits.Fields payload.now }
{
    if let Some(status) = payload::eof(payload) {
        Step::done(status)
    } else if payload::definition(payload) {
        Step::Goes(Awaits::Fields)
    } else {
        Step::Wrong
    }
}

/// What one more payload leads to.
pub fn next(awaits: Awaits, payload: &[u8]) -> Step
    ensures { result ≡ next awaits payload.now }
{
    match awaits {
        Awaits::Simple => simple(payload),
        Awaits::Query => query(payload),
        Awaits::Definitions(left) => definitions(left, payload),
        Awaits::Rows => rows(payload),
        Awaits::Prepare => prepare(payload),
        Awaits::Parameters { left, columns } => parameters(left, columns, payload),
        Awaits::Columns(left) => columns(left, payload),
        Awaits::FieldList => field_list(payload),
        Awaits::Fields => fields(payload),
    }
}
