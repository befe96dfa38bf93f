//! What goes out on a link.
ghost use Rattle.std.specs.Prelude.{◌≡◌, ◌∷◌, ◌++◌, [], Some, OnOk, map};
ghost use Rattle.rws_wire.specs.Packets.{spelling};
ghost use Rattle.rws_link.specs.Linking.{IsReady, kept};
ghost use Rattle.rws_link.specs.Stepping.{Rests, sent};
ghost use Rattle.rws_record.specs.Values.{sent_all};

use rws_link::Link;
use rws_reply::Kind;
use rws_wire::{PayloadList, Text, frame};
use std::alloc::{AllocError, Global};

/// Sends payloads on a link that is ready, each as a command of its own, of which the last is answered. What goes out for each is
/// appended to `out`, as packets from the number 0 on.
pub(crate) fn send_each(
    link: &mut Link,
    alloc: Global,
    payloads: &[Text],
    kind: Kind,
    out: &mut PayloadList,
) -> Result<(), AllocError>
    requires { IsReady link.old }
    ensures ok { link.old ≡ kept Rests → OnOk result (link.new ≡ kept (sent_all payloads.now kind)) }
    ensures out { OnOk result (out.new ≡ out.old ++ map (spelling 0) payloads.now) }
{
    match payloads {
        [] => Ok(()),
        [payload, others @ ..] => {
            if others.is_empty() {
                return send_last(link, alloc, payload.as_slice(), kind, out);
            }
            put_silent(alloc, payload.as_slice(), out)?;
            send_each(link, alloc, others, kind, out)
        }
    }
}

/// Sends the payload that is answered.
fn send_last(
    link: &mut Link,
    alloc: Global,
    payload: &[u8],
    kind: Kind,
    out: &mut PayloadList,
) -> Result<(), AllocError>
    requires { IsReady link.old }
    ensures ok { link.old ≡ kept Rests → OnOk result (link.new ≡ kept (sent payload.now (Some kind))) }
    ensures out { OnOk result (out.new ≡ out.old ++ spelling 0 payload.now ∷ []) }
{
    let mut packets = Vec::new(alloc);
    link.send(payload, Some(kind), &mut packets)?;
    out.push(Text::new(packets))
}

/// Puts a command out that has no reply: the link on which it goes needn't know of it.
pub(crate) fn put_silent(
    alloc: Global,
    payload: &[u8],
    out: &mut PayloadList,
) -> Result<(), AllocError>
    ensures { OnOk result (out.new ≡ out.old ++ spelling 0 payload.now ∷ []) }
{
    let mut packets = Vec::new(alloc);
    frame(payload, 0, &mut packets)?;
    out.push(Text::new(packets))
}
