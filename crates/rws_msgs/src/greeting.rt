//! What a server says first on a connection ("Connection", Initial Handshake Packet). The scramble and the capabilities stand
//! in two pieces each, which are one value here.
ghost use Rattle.std.specs.Prelude.{◌≡◌, ◌<◌, ◌^◌, ◌++◌, Ok, OnOk, OnErr, IfOk, length, take};
ghost use Rattle.rws_msgs.specs.Fields.{HasNoZero};
ghost use Rattle.rws_msgs.specs.GreetingLayout.{GreetingFits, abilities_at, abilities_bytes, back_bytes, front_bytes, greeting_at, greeting_bytes, last_piece_at, plugin_at};
ghost use Rattle.rws_msgs.specs.GreetingParts.{greeting_of};
ghost use Rattle.rws_msgs.specs.Decoding.{IsDecoded};
ghost use Rattle.rws_wire.specs.Reading.{Reads};

use crate::MsgFault;
use crate::fields::{
    array_at, bytes_at, end, fixed_at, last_text_at, u8_at, u16_at, u32_at, zero_text_at,
};
use crate::writing::{or_cut, put_u32};
use rws_wire::Text;
use std::alloc::{AllocError, Global};

/// Initial Handshake Packet: the server's version and what it can, with the scramble that a login answers.
#[derive(Debug, PartialEq, Eq, Drop)]
pub struct Greeting {
    /// The server's version, as a text.
    pub version: Text,
    /// The server's number of the connection.
    pub id: u32,
    /// The bytes that a login answers, both pieces put together.
    pub scramble: [u8; 20],
    /// The lower 32 bits of the server's capabilities.
    pub capabilities: u32,
    /// The number of the server's character set.
    pub charset: u8,
    /// The server's status bits, as in an `OkMsg`.
    pub status: u16,
    /// The name of the authentication plugin.
    pub plugin: Text,
}

/// The numbers between the two pieces of the scramble.
#[derive(Clone, Copy)]
struct Abilities {
    capabilities: u32,
    charset: u8,
    status: u16,
}

/// The fields, before texts are copied.
#[derive(Clone, Copy)]
struct Parts<'a> {
    version: &'a [u8],
    id: u32,
    scramble: [u8; 20],
    abilities: Abilities,
    plugin: &'a [u8],
}

/// The numbers between the two pieces of the scramble.
#[tactic(auto, unfolding(crate::specs::GreetingLayout::abilities_at))]
fn abilities_of(bytes: &[u8]) -> Result<(Abilities, &[u8]), MsgFault>
    ensures { Reads (λ x. (x.0, x.1.now)) result (abilities_at bytes.now) }
{
    let ([a, b], rest) = array_at::<2>(bytes)?;
    let (charset, rest) = u8_at(rest)?;
    let (status, rest) = u16_at(rest)?;
    let ([c, d], rest) = array_at::<2>(rest)?;
    let capabilities = u32::from_le_bytes([a, b, c, d]);
    Ok((
        Abilities {
            capabilities,
            charset,
            status,
        },
        rest,
    ))
}

/// The second piece of the scramble, behind the data length and the filler.
#[tactic(auto, unfolding(crate::specs::GreetingLayout::last_piece_at))]
fn last_piece_of(bytes: &[u8]) -> Result<([u8; 12], &[u8]), MsgFault>
    ensures { Reads (λ x. (x.0, x.1.now)) result (last_piece_at bytes.now) }
{
    let (_, rest) = u8_at(bytes)?;
    let (_, rest) = bytes_at(10, rest)?;
    let (piece, rest) = array_at::<12>(rest)?;
    let rest = fixed_at(0x00, rest)?;
    Ok((piece, rest))
}

/// The plugin's name, which ends the payload.
#[tactic(auto, unfolding(crate::specs::GreetingLayout::plugin_at, crate::specs::Fields::ended))]
fn plugin_of(bytes: &[u8]) -> Result<&[u8], MsgFault>
    ensures reads { Reads (λ plugin. plugin.now) result (plugin_at bytes.now) }
    ensures no_zero { IfOk result (λ plugin. HasNoZero plugin.now) }
{
    let (plugin, rest) = last_text_at(bytes);
    end(rest)?;
    Ok(plugin)
}

/// The scramble of its two pieces.
fn joined(first: &[u8; 8], last: &[u8; 12]) -> [u8; 20]
    ensures { result ≡ first.now ++ last.now }
{
    let mut scramble = [0; 20];
    scramble[..8].copy_from_slice(first);
    scramble[8..].copy_from_slice(last);
    scramble
}

/// The greeting that the payload is.
#[tactic(auto, unfolding(crate::specs::GreetingLayout::greeting_at))]
fn parts_of(payload: &[u8]) -> Result<Parts<'_>, MsgFault>
    ensures reads { Reads greeting_of result (greeting_at payload.now) }
    ensures version { IfOk result (λ parts. HasNoZero parts.version.now) }
    ensures plugin { IfOk result (λ parts. HasNoZero parts.plugin.now) }
{
    let rest = fixed_at(0x0A, payload)?;
    let (version, rest) = zero_text_at(rest)?;
    let (id, rest) = u32_at(rest)?;
    let (first, rest) = array_at::<8>(rest)?;
    let behind = fixed_at(0x00, rest)?;
    let (abilities, rest) = abilities_of(behind)?;
    let (last, rest) = last_piece_of(rest)?;
    let plugin = plugin_of(rest)?;
    Ok(Parts {
        version,
        id,
        scramble: joined(&first, &last),
        abilities,
        plugin,
    })
}

impl Greeting {
    /// The greeting in a payload. The data length and the filler may hold anything; a plugin that lacks its zero byte
    /// ends with the payload.
    #[tactic(auto, using(crate::proofs::MemoryLemmas::greeting_never))]
    pub fn decode(alloc: Global, payload: &[u8]) -> Result<Greeting, MsgFault>
        ensures gives { IsDecoded result (greeting_at payload.now) }
        ensures version { IfOk result (λ greeting. HasNoZero greeting.version) }
        ensures plugin { IfOk result (λ greeting. HasNoZero greeting.plugin) }
    {
        let parts = parts_of(payload)?;
        Ok(Greeting {
            version: Text::from_slice(alloc, parts.version)?,
            id: parts.id,
            scramble: parts.scramble,
            capabilities: parts.abilities.capabilities,
            charset: parts.abilities.charset,
            status: parts.abilities.status,
            plugin: Text::from_slice(alloc, parts.plugin)?,
        })
    }

    /// Appends the payload, with a data length of 21 and a filler of zeros. What is written isn't read back where a
    /// zero byte stands in the version or the plugin. `Err` leaves `out` as it was.
    #[tactic(auto, using(crate::proofs::GreetingLemmas::greeting_again))]
    pub fn encode(&self, out: &mut Vec<u8>) -> Result<(), AllocError>
        ensures ok { OnOk result (out.new.items ≡ out.old.items ++ greeting_bytes self.now) }
        ensures err { OnErr result (out.new.items ≡ out.old.items) }

        // It is decoded again where neither the version nor the plugin has a zero byte.
        ensures again { HasNoZero self.now.version → HasNoZero self.now.plugin → greeting_at (greeting_bytes self.now) ≡ Ok self.now }
    {
        let before = out.len();
        or_cut(self.put(out), before, out)
    }

    /// Appends the payload; after an `Err` some of it may stand there.
    #[tactic(auto, unfolding(crate::specs::GreetingLayout::greeting_bytes))]
    fn put(&self, out: &mut Vec<u8>) -> Result<(), AllocError>
        ensures ok { OnOk result (out.new.items ≡ out.old.items ++ greeting_bytes self.now) }
        ensures err { OnErr result (take (length out.old.items) out.new.items ≡ out.old.items) }
        ensures fits { GreetingFits self.now }
    {
        self.put_front(out)?;
        self.put_back(out)
    }

    /// Appends what stands up to the capabilities' second half.
    #[tactic(auto, unfolding(crate::specs::GreetingLayout::front_bytes))]
    fn put_front(&self, out: &mut Vec<u8>) -> Result<(), AllocError>
        ensures ok { OnOk result (out.new.items ≡ out.old.items ++ front_bytes self.now) }
        ensures err { OnErr result (take (length out.old.items) out.new.items ≡ out.old.items) }
        ensures fits { GreetingFits self.now }
    {
        let (id, abilities) = (self.id, self.abilities());
        out.push(0x0A)?;
        out.extend_from_slice(self.version.as_slice())?;
        out.push(0x00)?;
        put_u32(id, out)?;
        out.extend_from_slice(&self.scramble[..8])?;
        out.push(0x00)?;
        out.extend_from_slice(&abilities)
    }

    /// The capabilities' lower half, the character set, the status and the capabilities' upper half.
    #[tactic(auto, unfolding(crate::specs::GreetingLayout::abilities_bytes))]
    fn abilities(&self) -> [u8; 7]
        ensures bytes { result ≡ abilities_bytes self.now }
        ensures capabilities { self.now.capabilities < 2 ^ 32 }
        ensures status { self.now.status < 2 ^ 16 }
    {
        let (capabilities, status) = (self.capabilities, self.status);
        let [a, b, c, d] = capabilities.to_le_bytes();
        let [e, f] = status.to_le_bytes();
        [a, b, self.charset, e, f, c, d]
    }

    /// Appends the data length, the filler, the scramble's second piece and the plugin.
    #[tactic(auto, unfolding(crate::specs::GreetingLayout::back_bytes))]
    fn put_back(&self, out: &mut Vec<u8>) -> Result<(), AllocError>
        ensures ok { OnOk result (out.new.items ≡ out.old.items ++ back_bytes self.now) }
        ensures err { OnErr result (take (length out.old.items) out.new.items ≡ out.old.items) }
    {
        let (_, piece) = self.scramble.split_at(8);
        out.extend_from_slice(&[21, 0, 0, 0, 0, 0, 0, 0, 0, 0, 0])?;
        out.extend_from_slice(piece)?;
        out.push(0x00)?;
        out.extend_from_slice(self.plugin.as_slice())?;
        out.push(0x00)?;
        Ok(())
    }
}
