//! The client's answer to a greeting ("Connection", Handshake Response Packet). Which fields stand there is said by its
//! first, the flags.
ghost use Rattle.std.specs.Prelude.{◌≡◌, ◌++◌, Ok, OnOk, OnErr, IfOk, length, take};
ghost use Rattle.rws_msgs.specs.Decoding.{IsDecoded};
ghost use Rattle.rws_wire.specs.Reading.{Reads};
ghost use Rattle.rws_msgs.specs.ResponseLayout.{IsAnswer, IsName, IsResponse, ResponseFits, answer_at, answer_bytes, attributes_at, attributes_bytes, front_bytes, has, name_at, name_bytes, names_at, names_bytes, response_at, response_bytes, with_database, with_plugin};
ghost use Rattle.rws_msgs.specs.ResponseParts.{name_of, response_of};

use crate::MsgFault;
use crate::capability::{
    CONNECT_ATTRS, CONNECT_WITH_DB, PLUGIN_AUTH, PLUGIN_AUTH_LENENC_CLIENT_DATA,
};
use crate::fields::{bytes_at, end, last_text_at, split_text, u8_at, u32_at, zero_text_at};
use crate::writing::{or_cut, put_text, put_u32};
use rws_wire::Text;
use std::alloc::{AllocError, Global};

/// Handshake Response Packet: the login that a client asks for.
#[derive(Debug, PartialEq, Eq, Drop)]
pub struct Response {
    /// The client's capabilities.
    pub flags: u32,
    /// The number of the character set.
    pub charset: u8,
    /// The name of the account.
    pub user: Text,
    /// The answer to the scramble, or no bytes for an empty password.
    pub answer: Text,
    /// There exactly where the flags have CLIENT_CONNECT_WITH_DB.
    pub database: Option<Text>,
    /// There exactly where the flags have CLIENT_PLUGIN_AUTH.
    pub plugin: Option<Text>,
}

/// The greatest packet that is written, 16 MiB.
const MAX_PACKET_LEN: u32 = 0x100_0000;

/// The fields, before texts are copied.
#[derive(Clone, Copy)]
struct Parts<'a> {
    flags: u32,
    charset: u8,
    user: &'a [u8],
    answer: &'a [u8],
    database: Option<&'a [u8]>,
    plugin: Option<&'a [u8]>,
}

/// Whether the flags have the capability.
#[tactic(auto, unfolding(crate::specs::ResponseLayout::has))]
fn has(flags: u32, bit: u32) -> bool
    ensures { result ≡ has flags bit }
{
    flags & bit != 0
}

/// The answer, behind its length.
#[tactic(auto, unfolding(crate::specs::ResponseLayout::answer_at))]
fn answer_of(lenenc: bool, bytes: &[u8]) -> Result<(&[u8], &[u8]), MsgFault>
    ensures fits { IfOk result (λ x. IsAnswer lenenc x.0.now) }
    ensures reads { Reads (λ x. (x.0.now, x.1.now)) result (answer_at lenenc bytes.now) }
{
    if lenenc {
        return split_text(bytes);
    }
    let (size, rest) = u8_at(bytes)?;
    bytes_at(size as usize, rest)
}

/// A name that is there or not; the last one may lack its zero byte.
#[tactic(auto, unfolding(crate::specs::ResponseLayout::name_at))]
fn name_at(given: bool, last: bool, bytes: &[u8]) -> Result<(Option<&[u8]>, &[u8]), MsgFault>
    ensures reads { Reads (λ x. (name_of x.0, x.1.now)) result (name_at given last bytes.now) }
    ensures fits { IfOk result (λ x. IsName given (name_of x.0)) }
{
    if !given {
        return Ok((None, bytes));
    }
    if last {
        let (text, rest) = last_text_at(bytes);
        return Ok((Some(text), rest));
    }
    let (text, rest) = zero_text_at(bytes)?;
    Ok((Some(text), rest))
}

/// What stands behind the attributes, where there are some.
#[tactic(auto, unfolding(crate::specs::ResponseLayout::attributes_at))]
fn behind_attributes(given: bool, bytes: &[u8]) -> Result<&[u8], MsgFault>
    ensures { Reads (λ rest. rest.now) result (attributes_at given bytes.now) }
{
    if !given {
        return Ok(bytes);
    }
    let (_, rest) = split_text(bytes)?;
    Ok(rest)
}

/// The texts behind the answer.
#[derive(Clone, Copy)]
struct Names<'a> {
    database: Option<&'a [u8]>,
    plugin: Option<&'a [u8]>,
}

/// The database and the plugin, which end the payload but for attributes.
#[tactic(auto, unfolding(crate::specs::ResponseLayout::names_at, crate::specs::Fields::ended))]
fn names_of(flags: u32, bytes: &[u8]) -> Result<Names<'_>, MsgFault>
    ensures reads { Reads (λ names. (name_of names.database, name_of names.plugin)) result (names_at flags bytes.now) }
    ensures database { IfOk result (λ names. IsName (with_database flags) (name_of names.database)) }
    ensures plugin { IfOk result (λ names. IsName (with_plugin flags) (name_of names.plugin)) }
{
    let plugged = has(flags, PLUGIN_AUTH);
    let listed = has(flags, CONNECT_ATTRS);
    let last = !plugged && !listed;
    let (database, rest) = name_at(has(flags, CONNECT_WITH_DB), last, bytes)?;
    let (plugin, rest) = name_at(plugged, !listed, rest)?;
    let rest = behind_attributes(listed, rest)?;
    end(rest)?;
    Ok(Names { database, plugin })
}

/// The response that the payload is.
#[tactic(auto, unfolding(crate::specs::ResponseLayout::response_at))]
fn parts_of(payload: &[u8]) -> Result<Parts<'_>, MsgFault>
    ensures reads { Reads response_of result (response_at payload.now) }
    ensures fits { IfOk result (λ parts. IsResponse (response_of parts)) }
{
    let (flags, rest) = u32_at(payload)?;
    let (_, rest) = u32_at(rest)?;
    let (charset, rest) = u8_at(rest)?;
    let (_, rest) = bytes_at(23, rest)?;
    let (user, rest) = zero_text_at(rest)?;
    let (answer, rest) = answer_of(has(flags, PLUGIN_AUTH_LENENC_CLIENT_DATA), rest)?;
    let names = names_of(flags, rest)?;
    Ok(Parts {
        flags,
        charset,
        user,
        answer,
        database: names.database,
        plugin: names.plugin,
    })
}

/// A copy of a name that is there.
fn copied(alloc: Global, name: Option<&[u8]>) -> Result<Option<Text>, MsgFault>
    ensures { IsDecoded result (Ok (name_of name.entry)) }
{
    match name {
        Some(text) => Ok(Some(Text::from_slice(alloc, text)?)),
        None => Ok(None),
    }
}

impl Response {
    /// The response in a payload. The greatest packet, the filler and the attributes are read over. The last text, a
    /// database or a plugin behind which nothing is to stand, may lack its zero byte.
    #[tactic(auto, using(crate::proofs::MemoryLemmas::response_never))]
    pub fn decode(alloc: Global, payload: &[u8]) -> Result<Response, MsgFault>
        ensures gives { IsDecoded result (response_at payload.now) }
        ensures fits { IfOk result IsResponse }
    {
        let parts = parts_of(payload)?;
        Ok(Response {
            flags: parts.flags,
            charset: parts.charset,
            user: Text::from_slice(alloc, parts.user)?,
            answer: Text::from_slice(alloc, parts.answer)?,
            database: copied(alloc, parts.database)?,
            plugin: copied(alloc, parts.plugin)?,
        })
    }

    /// Appends the payload, with a greatest packet of 16 MiB and an empty list of attributes where the flags have
    /// them. What is written isn't read back where a zero byte stands in the user or a name, where the names don't go
    /// with the flags, or where an answer above 255 bytes stands behind a length of one byte. `Err` leaves `out` as it
    /// was.
    #[tactic(auto, using(crate::proofs::ResponseLemmas::response_again))]
    pub fn encode(&self, out: &mut Vec<u8>) -> Result<(), AllocError>
        ensures ok { OnOk result (out.new.items ≡ out.old.items ++ response_bytes self.now) }
        ensures err { OnErr result (out.new.items ≡ out.old.items) }

        // It is decoded again where the names and the answer go with the flags, and no zero byte stands in the user or a
        // name.
        ensures again { IsResponse self.now → response_at (response_bytes self.now) ≡ Ok self.now }
    {
        let before = out.len();
        or_cut(self.put(out), before, out)
    }

    /// Appends the payload; after an `Err` some of it may stand there.
    #[tactic(auto, unfolding(crate::specs::ResponseLayout::response_bytes))]
    fn put(&self, out: &mut Vec<u8>) -> Result<(), AllocError>
        ensures ok { OnOk result (out.new.items ≡ out.old.items ++ response_bytes self.now) }
        ensures err { OnErr result (take (length out.old.items) out.new.items ≡ out.old.items) }
        ensures fits { ResponseFits self.now }
    {
        let (flags, answer) = (self.flags, self.answer.as_slice());
        self.put_front(out)?;
        put_answer(has(flags, PLUGIN_AUTH_LENENC_CLIENT_DATA), answer, out)?;
        self.put_names(out)
    }

    /// Appends what stands up to the user.
    #[tactic(auto, unfolding(crate::specs::ResponseLayout::front_bytes))]
    fn put_front(&self, out: &mut Vec<u8>) -> Result<(), AllocError>
        ensures ok { OnOk result (out.new.items ≡ out.old.items ++ front_bytes self.now) }
        ensures err { OnErr result (take (length out.old.items) out.new.items ≡ out.old.items) }
    {
        put_u32(self.flags, out)?;
        put_u32(MAX_PACKET_LEN, out)?;
        out.push(self.charset)?;
        out.extend_from_slice(&[0; 23])?;
        out.extend_from_slice(self.user.as_slice())?;
        out.push(0x00)?;
        Ok(())
    }

    /// Appends the names, and an empty list of attributes where the flags have them.
    #[tactic(auto, unfolding(crate::specs::ResponseLayout::names_bytes, crate::specs::ResponseLayout::attributes_bytes))]
    fn put_names(&self, out: &mut Vec<u8>) -> Result<(), AllocError>
        ensures ok { OnOk result (out.new.items ≡ out.old.items ++ names_bytes self.now) }
        ensures err { OnErr result (take (length out.old.items) out.new.items ≡ out.old.items) }
    {
        put_name(&self.database, out)?;
        put_name(&self.plugin, out)?;
        if has(self.flags, CONNECT_ATTRS) {
            out.push(0x00)?;
        }
        Ok(())
    }
}

/// Appends the answer behind its length.
#[tactic(auto, unfolding(crate::specs::ResponseLayout::answer_bytes))]
fn put_answer(lenenc: bool, answer: &[u8], out: &mut Vec<u8>) -> Result<(), AllocError>
    ensures ok { OnOk result (out.new.items ≡ out.old.items ++ answer_bytes lenenc answer.now) }
    ensures err { OnErr result (take (length out.old.items) out.new.items ≡ out.old.items) }
{
    if lenenc {
        return put_text(answer, out);
    }
    out.push((answer.len() % 256) as u8)?;
    out.extend_from_slice(answer)
}

/// Appends a name that is there.
#[tactic(auto, unfolding(crate::specs::ResponseLayout::name_bytes))]
fn put_name(name: &Option<Text>, out: &mut Vec<u8>) -> Result<(), AllocError>
    ensures ok { OnOk result (out.new.items ≡ out.old.items ++ name_bytes name.now) }
    ensures err { OnErr result (take (length out.old.items) out.new.items ≡ out.old.items) }
{
    if let Some(text) = name {
        out.extend_from_slice(text.as_slice())?;
        out.push(0x00)?;
    }
    Ok(())
}
