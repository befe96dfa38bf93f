//! What a payload of a reply is. Its bytes alone don't tell it: a payload is read as one of the few things that may stand
//! at its place.

ghost use Rattle.std.specs.Prelude.{◌≡◌, find};
ghost use Rattle.rws_reply.specs.Machine.{definition_or_eof, expected, role_in};
ghost use Rattle.rws_reply.specs.Roles.{reads_as};

use crate::awaits::Awaits;
use crate::payload;
use rws_msgs::{err_code, ok_status};

/// What a payload of a reply is, by the names of MariaDB's protocol documentation.
#[derive(Clone, Copy, Debug, PartialEq, Eq)]
pub enum Role {
    /// OK_Packet.
    Ok,
    /// ERR_Packet.
    Err,
    /// COM_STMT_PREPARE_OK, the first payload of the answer to a prepare.
    Prepared,
    /// The number of a result's columns.
    Count,
    /// The definition of a column, a parameter or a field.
    Definition,
    /// EOF_Packet, behind definitions or behind rows.
    Eof,
    /// A row of a result, in its text or its binary form.
    Row,
}

/// Whether the payload can be read so.
fn reads_as(role: Role, payload: &[u8]) -> bool
    ensures { result ≡ reads_as role payload.now }
{
    match role {
        Role::Ok => ok_status(payload, true).is_some(),
        Role::Err => err_code(payload).is_some(),
        Role::Prepared => payload::prepared(payload).is_some(),
        Role::Count => payload::column_count(payload).is_some(),
        Role::Definition => payload::definition(payload),
        Role::Eof => payload::eof(payload).is_some(),
        Role::Row => payload::row(payload),
    }
}

/// What comes where so many definitions are left.
fn definition_or_eof(left: u64) -> &'static [Role]
    ensures { result.now ≡ definition_or_eof left }
{
    if left == 0 {
        &[Role::Eof]
    } else {
        &[Role::Definition]
    }
}

/// What may come there.
fn expected(awaits: Awaits) -> &'static [Role]
    ensures { result.now ≡ expected awaits }
{
    match awaits {
        Awaits::Simple => &[Role::Ok, Role::Err],
        Awaits::Query => &[Role::Ok, Role::Err, Role::Count],
        Awaits::Definitions(left) => definition_or_eof(left),
        Awaits::Rows => &[Role::Eof, Role::Err, Role::Row],
        Awaits::Prepare => &[Role::Err, Role::Prepared],
        Awaits::Parameters { left, .. } | Awaits::Columns(left) => definition_or_eof(u64::from(
            left,
        )),
        Awaits::FieldList => &[Role::Err, Role::Eof, Role::Definition],
        Awaits::Fields => &[Role::Eof, Role::Definition],
    }
}

/// The first of these roles that the payload can be read as.
fn first_read(roles: &[Role], payload: &[u8]) -> Option<Role>
    ensures { result ≡ find (λ role. reads_as role payload.now) roles.now }
{
    roles.iter().copied().find(|role| reads_as(*role, payload))
}

/// What the payload is for a tracker that waits so; None where the reply is whole or bad.
pub fn role_in(awaits: Option<Awaits>, payload: &[u8]) -> Option<Role>
    ensures { result ≡ role_in awaits payload.now }
{
    first_read(expected(awaits?), payload)
}
