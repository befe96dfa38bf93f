//! The steps of a session: each kind is tried, and goes where it is due.
//!
//! What is owed comes first. Where nothing is owed and the session isn't over, the worker is asked where the pending command is
//! to go, the links are sent what is due on them, then a flood behind the command is refused, then what came on the links is read,
//! and then what came of the client is taken up.
ghost use Rattle.std.specs.Prelude.{◌≡◌, ◌&&◌, ◌+◌, ◌∷◌, ◌++◌, ℕ, length, List, [], map, Some, None, IfOk, OnErr, OnOk, IfSome, MatchOption, is_some, false, true, if◌then◌else◌};
ghost use Rattle.rws_wire.specs.Packets.{spelling};
ghost use Rattle.rws_wire.specs.declared.drop_cause.DropCause.TheVariants as causes;
ghost use Rattle.rws_board.specs.declared.action.Action.TheVariants as actions;
ghost use Rattle.rws_config.specs.declared.config.Config.{Config};
ghost use Rattle.rws_commands.specs.Commands.{asked_under};
ghost use Rattle.rws_commands.specs.Statements.{forgotten, stale_on, unplayed};
ghost use Rattle.rws_record.specs.declared.output.Output.TheVariants.{Act};
ghost use Rattle.rws_record.specs.Item.{Item, Purpose};
ghost use Rattle.rws_record.specs.Item.Purpose.{Asks, Plays, Prepares};
ghost use Rattle.rws_record.specs.Outputs.{close_bytes};
ghost use Rattle.rws_record.specs.Values.{asking, contains, is_up, linked, links, preamble};
ghost use Rattle.rws_record.specs.Rules.{after_flood, due_flood, due_route, due_sends, flood_by, flood_limit, is_ready, is_same, next, owed};
ghost use Rattle.rws_links.specs.declared.finding.DueKind.TheVariants as kinds;
ghost use Rattle.rws_reply.specs.declared.kind.Kind.TheVariants.{Query as QueryReply};
ghost use Rattle.rws_links.specs.Links.{link_of};
ghost use Rattle.rws_links.specs.Table.{AreDistinct, IsSending, SendsOn, without_number};
ghost use Rattle.rws_session.specs.declared.owing.Out.TheVariants as outs;
ghost use Rattle.rws_session.specs.Kept.{Holds, Is};
ghost use Rattle.rws_session.specs.Steps.{SendsClose, SendsEntry, SendsOwn, SendsPending, Tries, due_put, found_due, going, id_in, is_keeping, is_unrouted, others_dropped, owes, unsent};

use crate::owing::Out;
use crate::session::Session;
use rws_board::Action;
use rws_commands::{ClassedCommand, ProxyError, put_asked};
use rws_config::{Config, FLOOD_ROOM};
use rws_links::{Asked, Due, DueKind, NumberedLink};
use rws_msgs::command::COM_STMT_CLOSE;
use rws_record::{Output, preamble};
use rws_reply::Kind;
use rws_wire::{CloseReason, DropCause, PayloadList, Text};
use std::alloc::{AllocError, Global};
use std::collections::VecDeque;

impl Session {
    /// Makes the next step, and says whether there was one.
    pub(super) fn step(&mut self, config: &Config) -> Result<bool, AllocError>
        ensures ok { (past : List Item) → Is config.now self.old past
            → IfOk result (λ went. Tries config.now (next config.now past) past went self.old self.new) }
        ensures err { (past : List Item) → Is config.now self.old past → OnErr result (Holds self.old self.new) }
    {
        if self.is_asking() {
            return Ok(false);
        }
        if self.pay()? {
            return Ok(true);
        }
        if self.is_over() {
            return Ok(false);
        }
        if self.ask() {
            return Ok(true);
        }
        if self.send(config)? {
            return Ok(true);
        }
        if self.refuse_flood(config)? {
            return Ok(true);
        }
        if self.read_links(config)? {
            return Ok(true);
        }
        self.take_up(config)
    }

    /// Gives out what is owed first.
    fn pay(&mut self) -> Result<bool, AllocError>
        ensures ok { (config : Config) (past : List Item) → Is config self.old past
            → IfOk result (λ went. Tries config (due_put (owed config past)) past went self.old self.new) }
        ensures err { OnErr result (Holds self.old self.new) }
    {
        match self.next_owed() {
            None => Ok(false),
            Some(out) => {
                self.give(out)?;
                Ok(true)
            }
        }
    }

    /// What is owed first, which is owed no longer.
    fn next_owed(&mut self) -> Option<Out>
        ensures { MatchOption result ((self.old.state.owed ≡ []) × (self.new ≡ self.old))
            (λ out. (self.old.state.owed ≡ Some out ∷ self.new.state.owed)
            × (self.new ≡ record self.old { state = record self.old.state { owed = self.new.state.owed } })) }
    {
        self.owed.pop_front()
    }

    /// Asks the worker where the pending command is to go, where that isn't known and the command doesn't wait for a primary.
    fn ask(&mut self) -> bool
        ensures { (config : Config) (past : List Item) → Is config self.old past → owed config past ≡ [] → asking past ≡ false
            → Tries config (due_route config past) past result self.old self.new }
    {
        if !self.is_unrouted() {
            return false;
        }
        self.asking = true;
        true
    }

    /// It isn't known where the pending command goes, and it doesn't wait.
    fn is_unrouted(&self) -> bool
        ensures { result ≡ is_unrouted self.now.state }
    {
        self.is_busy() && self.goes_on().is_none() && !self.routing.waits
    }

    /// The link that the pending command is to go on.
    fn goes_on(&self) -> Option<u64>
        ensures { result ≡ going self.now.state }
    {
        self.kept_on
            .or(self.transaction.link)
            .or(self.routing.assigned)
    }

    /// Sends what is due on the first link on which something is: the preamble, an entry of the history, or the pending command.
    fn send(&mut self, config: &Config) -> Result<bool, AllocError>
        ensures ok { (past : List Item) → Is config.now self.old past → owed config.now past ≡ []
            → IfOk result (λ went. Tries config.now (due_sends config.now (links past) past) past went self.old self.new) }
        ensures err { OnErr result (Holds self.old self.new) }
    {
        match self.due() {
            None => Ok(false),
            Some(due) => self.send_due(due, config),
        }
    }

    /// Sends what is due first. Before an entry or a command the link's server is told to close a statement that has left.
    fn send_due(&mut self, due: Due, config: &Config) -> Result<bool, AllocError>
        ensures ok { (past : List Item) → Is config.now self.old past → owed config.now past ≡ []
            → found_due self.old.state ≡ Some due
            → IfOk result (λ went. Tries config.now (due_sends config.now (links past) past) past went self.old self.new) }
        ensures err { OnErr result (Holds self.old self.new) }
    {
        match due.what {
            DueKind::Preamble => self.send_preamble(due.link),
            DueKind::Entry => self.play(due.link, due.entry),
            DueKind::Command => self.ask_on(due.link, due.entry, config),
        }
    }

    /// The next entry from this serial on is due on a link.
    fn play(&mut self, link: u64, serial: u64) -> Result<bool, AllocError>
        ensures ok { (config : Config) (past : List Item) → Is config self.old past → owed config past ≡ []
            → found_due self.old.state ≡ Some (record { link = link; what = kinds.Entry; entry = serial })
            → IfOk result (λ went. Tries config (due_sends config (links past) past) past went self.old self.new) }
        ensures err { OnErr result (Holds self.old self.new) }
    {
        if !self.has_unplayed(serial) {
            return Ok(false);
        }
        match self.take_stale(link) {
            Some(id) => self.send_close(link, id),
            None => self.send_entry(link, serial),
        }
    }

    /// The pending command is due on a link, which has played all entries below this serial.
    fn ask_on(&mut self, link: u64, serial: u64, config: &Config) -> Result<bool, AllocError>
        ensures ok { (past : List Item) → Is config.now self.old past → owed config.now past ≡ []
            → found_due self.old.state ≡ Some (record { link = link; what = kinds.Command; entry = serial })
            → IfOk result (λ went. Tries config.now (due_sends config.now (links past) past) past went self.old self.new) }
        ensures err { OnErr result (Holds self.old self.new) }
    {
        if !self.is_busy() {
            return Ok(false);
        }
        if let Some(id) = self.take_stale(link) {
            return self.send_close(link, id);
        }
        match self.checks_first() {
            Some(check) => self.send_check(link, check, config),
            None => self.send_pending(link),
        }
    }

    /// The history has an entry from this serial on.
    fn has_unplayed(&self, serial: u64) -> bool
        ensures { result ≡ is_some (unplayed serial self.now.state.statements) }
    {
        self.statements.unplayed(serial).is_some()
    }

    /// The least id that a link's server is to close, which is forgotten.
    fn take_stale(&mut self, link: u64) -> Option<u32>
        ensures result { result ≡ stale_on link self.old.state.statements }
        ensures rest { self.new ≡ record self.old { state = record self.old.state { statements = forgotten link self.old.state.statements } } }
        ensures none { result ≡ None → self.new ≡ self.old }
    {
        self.statements.take_stale(link)
    }

    /// Tells a link's server to close a statement, if the link may be sent that.
    fn send_close(&mut self, link: u64, id: u32) -> Result<bool, AllocError>
        ensures sends { IfOk result (λ went. SendsClose link id went self.old self.new) }
        ensures links { (past : List Item) (numbers : List ℕ) → self.old.state.links ≡ map (link_of past) numbers → AreDistinct numbers
            → IfOk result (λ went. (went ≡ (contains link numbers && (is_same true (is_up link past) && is_ready (linked link past))))
            × (self.new.state.links ≡ self.old.state.links)) }
        ensures err { OnErr result (Holds self.old self.new) }
    {
        let mut packets = PayloadList::new(self.alloc);
        if !self
            .links
            .send_silent(link, &close_bytes(id), &mut packets)?
        {
            return Ok(false);
        }
        self.put_out(link, &packets)?;
        Ok(true)
    }

    /// The first link on which something is due, and what.
    fn due(&self) -> Option<Due>
        ensures { result ≡ found_due self.now.state }
    {
        self.links.due(self.unsent(), self.statements.last_serial())
    }

    /// The link that the pending command is to go on, where it isn't sent yet.
    fn unsent(&self) -> Option<u64>
        ensures { result ≡ unsent self.now.state }
    {
        if self.is_busy() && self.sent_on.is_none() {
            return self.goes_on();
        }
        None
    }

    /// Sends the preamble on a link, if that waits for it.
    fn send_preamble(&mut self, link: u64) -> Result<bool, AllocError>
        ensures sends { IfOk result (λ went. SendsOwn link preamble went self.old self.new) }
        ensures links { (past : List Item) (numbers : List ℕ) → self.old.state.links ≡ map (link_of past) numbers → AreDistinct numbers
            → IfOk result (λ went. SendsOn link Prepares past numbers went self.new.state.links) }
        ensures err { OnErr result (Holds self.old self.new) }
    {
        self.send_own(link, Asked::Preamble, preamble())
    }

    /// Sends a statement of the proxy's own on a link, a COM_QUERY, if the link may be sent what was asked.
    pub(super) fn send_own(
        &mut self,
        link: u64,
        asked: Asked,
        payload: &[u8],
    ) -> Result<bool, AllocError>
        ensures sends { IfOk result (λ went. SendsOwn link payload.now went self.old self.new) }
        ensures links { (purpose : Purpose) (past : List Item) (numbers : List ℕ) → IsSending asked (payload.now ∷ []) QueryReply purpose
            → self.old.state.links ≡ map (link_of past) numbers → AreDistinct numbers
            → IfOk result (λ went. SendsOn link purpose past numbers went self.new.state.links) }
        ensures err { OnErr result (Holds self.old self.new) }
    {
        let mut bytes = Vec::new(self.alloc);
        if !self
            .links
            .send_one(link, asked, payload, Kind::Query, &mut bytes)?
        {
            return Ok(false);
        }
        self.act(Action::ToLink {
            link,
            bytes: Text::new(bytes),
        })?;
        Ok(true)
    }

    /// Sends the next entry of the history from this serial on, if there is one and the link may be sent it.
    fn send_entry(&mut self, link: u64, serial: u64) -> Result<bool, AllocError>
        ensures sends { IfOk result (λ went. SendsEntry link (unplayed serial self.old.state.statements) went self.old self.new) }
        ensures links { (past : List Item) (numbers : List ℕ) → self.old.state.links ≡ map (link_of past) numbers → AreDistinct numbers
            → IfSome (unplayed serial self.old.state.statements) (λ entry. IfOk result (λ went. SendsOn link (Plays entry) past numbers went self.new.state.links)) }
        ensures err { OnErr result (Holds self.old self.new) }
    {
        let Some(entry) = self.statements.unplayed(serial) else {
            return Ok(false);
        };
        let mut bytes = Vec::new(self.alloc);
        if !self.links.send_entry(link, entry, &mut bytes)? {
            return Ok(false);
        }
        self.act(Action::ToLink {
            link,
            bytes: Text::new(bytes),
        })?;
        Ok(true)
    }

    /// Sends the pending command on a link, if that may be sent one.
    fn send_pending(&mut self, link: u64) -> Result<bool, AllocError>
        ensures sends { IfOk result (λ went. SendsPending link self.old.state.pending went self.old self.new) }
        ensures links { (past : List Item) (numbers : List ℕ) → self.old.state.links ≡ map (link_of past) numbers → AreDistinct numbers
            → IfSome self.old.state.pending (λ command. IfOk result (λ went. SendsOn link (Asks command (id_in link command self.old.state)) past numbers went self.new.state.links)) }
        ensures err { OnErr result (Holds self.old self.new) }
    {
        let Some(command) = &self.pending else {
            return Ok(false);
        };
        let keeping = is_keeping(command, self.kept_on);
        let mut packets = PayloadList::new(self.alloc);
        if !self.send_asked(link, &mut packets)? {
            return Ok(false);
        }
        self.owe_keeping(keeping, link)?;
        self.put_out(link, &packets)?;
        self.note_sent(keeping, link);
        Ok(true)
    }

    /// Lets a link send what asks a server by the pending command; the packets of each payload are appended to `out`.
    fn send_asked(&mut self, link: u64, out: &mut PayloadList) -> Result<bool, AllocError>
        ensures sends { IfSome self.old.state.pending (λ command. IfOk result (λ went. out.new
            ≡ out.old ++ (if went then map (spelling 0) (asked_under (id_in link command self.old.state) command.body) else []))) }
        ensures rest { self.new ≡ record self.old { state = record self.old.state { links = self.new.state.links } } }
        ensures links { (past : List Item) (numbers : List ℕ) → self.old.state.links ≡ map (link_of past) numbers → AreDistinct numbers
            → IfSome self.old.state.pending (λ command. IfOk result (λ went. SendsOn link (Asks command (id_in link command self.old.state)) past numbers went self.new.state.links)) }
        ensures holds { Holds self.old self.new }
    {
        let Some(command) = &self.pending else {
            return Ok(false);
        };
        let id = self.statements.id_for(link, command.command());
        let mut payloads = PayloadList::new(self.alloc);
        put_asked(self.alloc, id, command.command(), &mut payloads)?;
        self.links
            .send_command(link, id, command.command(), &payloads, out)
    }

    /// Packets go on a link, each as an output of its own.
    fn put_out(&mut self, link: u64, packets: &PayloadList) -> Result<(), AllocError>
        ensures ok { OnOk result (self.new ≡ record self.old { outs = self.old.outs ++ map (λ bytes. Act (actions.ToLink link bytes)) packets.now }) }
        ensures err { OnErr result (Holds self.old self.new) }
    {
        let mut more = VecDeque::new(self.alloc);
        put_each(self.alloc, link, packets.as_slice(), &mut more)?;
        self.outs.append(&mut more)
    }

    /// Where the session is to be kept on this link, the others are given up.
    pub(super) fn owe_keeping(&mut self, keeping: bool, link: u64) -> Result<(), AllocError>
        ensures ok { OnOk result (self.new ≡ record self.old {
          state = record self.old.state { owed = others_dropped keeping link self.old.state.links ++ self.old.state.owed };
        }) }
        ensures holds { Holds self.old self.new }
    {
        if keeping {
            return drop_others(self.links.as_slice(), link, &mut self.owed);
        }
        Ok(())
    }

    /// The pending command was sent on this link, on which the session is kept from now on, or not.
    fn note_sent(&mut self, keeping: bool, link: u64)
        ensures { self.new ≡ record self.old {
          state = record self.old.state {
            sent_on = Some link;
            kept_on = if keeping then Some link else self.old.state.kept_on;
          };
        } }
    {
        self.sent_on = Some(link);
        if keeping {
            self.kept_on = Some(link);
        }
    }

    /// Breaks the session off where the client sent on too far behind the pending command.
    fn refuse_flood(&mut self, config: &Config) -> Result<bool, AllocError>
        ensures ok { (past : List Item) → Is config.now self.old past → owed config.now past ≡ []
            → IfOk result (λ went. Tries config.now (due_flood config.now past) past went self.old self.new) }
        ensures err { OnErr result (Holds self.old self.new) }
    {
        match self.flood(config) {
            None => Ok(false),
            Some(held) => {
                self.break_off(held)?;
                Ok(true)
            }
        }
    }

    /// The first number of bytes above what the client may have sent behind the pending command, where so many are held.
    fn flood(&self, config: &Config) -> Option<u64>
        ensures { result ≡ flood_by self.now.state.pending (flood_limit config.now) (length self.now.state.front.stream.held) }
    {
        if !self.is_busy() {
            return None;
        }
        let held = self.front.held();
        let limit = config.command_bytes.saturating_add(FLOOD_ROOM);
        if held > limit {
            return Some(limit + 1);
        }
        None
    }

    /// The client is told an error in a packet of number 1, and the session closed.
    fn break_off(&mut self, held: u64) -> Result<(), AllocError>
        ensures ok { OnOk result (self.new ≡ record self.old { state = owes (after_flood held) self.old.state }) }
        ensures err { OnErr result (Holds self.old self.new) }
    {
        self.owe(Out::Close {
            reason: CloseReason::Flooded { held },
        })?;
        self.owe(Out::Refuse {
            number: 1,
            error: ProxyError::CommandTooLarge,
        })
    }

    /// The worker was asked, and didn't answer yet.
    pub(super) fn is_asking(&self) -> bool
        ensures { result ≡ self.now.state.asking }
    {
        self.asking
    }

    /// A command is pending.
    pub(super) fn is_busy(&self) -> bool
        ensures { result ≡ is_some self.now.state.pending }
    {
        self.pending.is_some()
    }
}

/// Each link but this one is to be given up, before what is owed.
fn drop_others(
    links: &[NumberedLink],
    kept: u64,
    owed: &mut VecDeque<Out>,
) -> Result<(), AllocError>
    ensures { OnOk result (map Some owed.new.items ≡ map (λ link. Some (outs.Drop link.number causes.Kept)) (without_number kept links.now) ++ map Some owed.old.items) }
{
    match links {
        [] => Ok(()),
        [first, others @ ..] => {
            drop_others(others, kept, owed)?;
            if first.number == kept {
                return Ok(());
            }
            owed.push_front(Out::Drop {
                link: first.number,
                cause: DropCause::Kept,
            })?;
            Ok(())
        }
    }
}

/// A command keeps the session on the link that it is sent on, which wasn't kept on one before.
fn is_keeping(command: &ClassedCommand, kept_on: Option<u64>) -> bool
    ensures { result ≡ is_keeping command.now kept_on }
{
    command.keeps() && kept_on.is_none()
}

/// COM_STMT_CLOSE of the statement that a server has under this id.
fn close_bytes(id: u32) -> [u8; 5]
    ensures { result ≡ close_bytes id }
{
    let [a, b, c, d] = id.to_le_bytes();
    [COM_STMT_CLOSE, a, b, c, d]
}

/// Packets go on a link, one after the other. After an `Err` some of them do.
fn put_each(
    alloc: Global,
    link: u64,
    packets: &[Text],
    outs: &mut VecDeque<Output>,
) -> Result<(), AllocError>
    ensures { OnOk result (outs.new.items ≡ outs.old.items ++ map (λ bytes. Act (actions.ToLink link bytes)) packets.now) }
{
    match packets {
        [] => Ok(()),
        [first, others @ ..] => {
            let bytes = Text::from_slice(alloc, first.as_slice())?;
            outs.push_back(Output::Act(Action::ToLink { link, bytes }))?;
            put_each(alloc, link, others, outs)
        }
    }
}
