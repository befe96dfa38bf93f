//! What a session gives out: all of it goes through here, and only here does giving it out change what is kept.
ghost use Rattle.std.specs.Prelude.{◌≡◌, ◌∷◌, ◌++◌, ℕ, List, [], true, map, Some, None, IfOk, OnErr, OnOk};
ghost use Rattle.rws_wire.specs.Packets.{spelling, number_behind};
ghost use Rattle.rws_wire.specs.declared.drop_cause.DropCause.TheVariants as causes;
ghost use Rattle.rws_board.specs.declared.action.Action.TheVariants as actions;
ghost use Rattle.rws_record.specs.Rules.{after_loss_by};
ghost use Rattle.rws_record.specs.Values.{later_of};
ghost use Rattle.rws_record.specs.declared.output.Output.TheVariants.{Act, Record};
ghost use Rattle.rws_session.specs.declared.owing.Out.TheVariants as outs;
ghost use Rattle.rws_session.specs.State.{erased};
ghost use Rattle.rws_links.specs.declared.history.Recording.TheVariants as recordings;
ghost use Rattle.rws_links.specs.Losses.{closing};
ghost use Rattle.rws_session.specs.Kept.{Holds};
ghost use Rattle.rws_session.specs.Steps.{ending_in, ends_reply, ends_unsent, gives, leaves, loss_in, notes, refused, statements_behind};

use crate::owing::Out;
use crate::session::Session;
use rws_board::Action;
use rws_commands::{Ending, ProxyError};
use rws_gtid::Gtid;
use rws_links::{
    NumberedLink, Recording, answered_by, closing, is_link, is_loss, not_replayable, own_ok,
    prepares, sends_again,
};
use rws_record::Output;
use rws_trx::Transaction;
use rws_wire::{CloseReason, DropCause, Text, frame};
use std::alloc::AllocError;
use std::collections::VecDeque;

impl Session {
    /// Gives out what was owed.
    pub(super) fn give(&mut self, out: Out) -> Result<(), AllocError>
        ensures ok { OnOk result (self.new ≡ gives out self.old) }
        ensures err { OnErr result (Holds self.old self.new) }
    {
        match out {
            Out::Hand { packets } => self.hand(packets),
            Out::LogIn { link, packets } => self.log_in(link, packets),
            Out::Pass {
                number,
                link,
                payload,
                ending,
                recording,
            } => self.pass(number, link, payload.as_slice(), ending, recording),
            Out::Own { number, status } => self.tell_own(number, &own_ok(status)),
            Out::Refuse { number, error } => self.refuse(number, error),
            Out::Record { server, gtid } => self.record(server, gtid),
            Out::Drop { link, cause } => self.drop_link(link, cause),
            Out::Close { reason } => self.close(reason),
        }
    }

    /// Hands the client packets as they are.
    fn hand(&mut self, packets: Text) -> Result<(), AllocError>
        ensures ok { OnOk result (self.new ≡ gives (outs.Hand packets) self.old) }
        ensures err { OnErr result (Holds self.old self.new) }
    {
        self.act(Action::ToClient {
            session: self.number,
            bytes: packets,
        })
    }

    /// Sends packets of its login on a link as they are.
    fn log_in(&mut self, link: u64, packets: Text) -> Result<(), AllocError>
        ensures ok { OnOk result (self.new ≡ gives (outs.LogIn link packets) self.old) }
        ensures err { OnErr result (Holds self.old self.new) }
    {
        self.act(Action::ToLink {
            link,
            bytes: packets,
        })
    }

    /// Something is to be done outside.
    pub(super) fn act(&mut self, action: Action) -> Result<(), AllocError>
        ensures ok { OnOk result (self.new ≡ record self.old { outs = self.old.outs ++ Act action ∷ [] }) }
        ensures err { OnErr result (Holds self.old self.new) }
    {
        self.outs.push_back(Output::Act(action))?;
        Ok(())
    }

    /// The words of the pool are told of a commit that this server made; the session itself has seen it.
    fn record(&mut self, server: u8, gtid: Gtid) -> Result<(), AllocError>
        ensures ok { OnOk result (self.new ≡ gives (outs.Record server gtid) self.old) }
        ensures err { OnErr result (Holds self.old self.new) }
    {
        self.outs.push_back(Output::Record { server, gtid })?;
        self.own = Some(later_of(gtid, self.own));
        Ok(())
    }

    /// Tells the client a payload, in packets from this number on. The number behind them.
    fn tell(&mut self, number: u8, payload: &[u8]) -> Result<u8, AllocError>
        ensures told { OnOk result (self.new ≡ record self.old { outs = self.old.outs ++ Act (actions.ToClient self.old.number (spelling number payload.now)) ∷ [] }) }
        ensures next { IfOk result (λ next. next ≡ number_behind number payload.now) }
        ensures err { OnErr result (Holds self.old self.new) }
    {
        let mut bytes = Vec::new(self.alloc);
        let next = frame(payload, number, &mut bytes)?;
        self.act(Action::ToClient {
            session: self.number,
            bytes: Text::new(bytes),
        })?;
        Ok(next)
    }

    /// Answers a command by a payload of the proxy's own.
    fn tell_own(&mut self, number: u8, payload: &[u8]) -> Result<(), AllocError>
        ensures ok { OnOk result (self.new ≡ record self.old { outs = self.old.outs ++ Act (actions.ToClient self.old.number (spelling number payload.now)) ∷ [] }) }
        ensures err { OnErr result (Holds self.old self.new) }
    {
        self.tell(number, payload)?;
        Ok(())
    }

    /// Tells the client an error of the proxy's own. Where there was no primary, or that is behind, the pending command is answered so.
    fn refuse(&mut self, number: u8, error: ProxyError) -> Result<(), AllocError>
        ensures ok { OnOk result (self.new ≡ gives (outs.Refuse number error) self.old) }
        ensures err { OnErr result (Holds self.old self.new) }
    {
        let payload = error.payload(self.alloc)?;
        self.tell_own(number, payload.as_slice())?;
        self.end_by(error);
        Ok(())
    }

    /// The client has an error of the proxy's own.
    fn end_by(&mut self, error: ProxyError)
        ensures { self.new ≡ record self.old { state = refused error self.old.state } }
    {
        match error {
            ProxyError::NoPrimary | ProxyError::PrimaryBehind { .. } => self.end_unsent(),
            ProxyError::UnknownCommand
            | ProxyError::NotSupported
            | ProxyError::UnknownStatement
            | ProxyError::BadExecute
            | ProxyError::TooManyStatements
            | ProxyError::NotInReadOnly
            | ProxyError::TooManyConnections
            | ProxyError::CommandTooLarge
            | ProxyError::OutOfMemory => {}
        }
    }

    /// The pending command was answered by an error of the proxy's own.
    fn end_unsent(&mut self)
        ensures { self.new ≡ record self.old { state = ends_unsent self.old.state } }
    {
        if prepares(&self.pending) {
            self.statements.prepare_failed();
        }
        self.pending = None;
        self.routing = self.routing.stopped();
    }

    /// Passes a payload of the reply to the pending command on; the last one comes with how the reply ended.
    fn pass(
        &mut self,
        number: u8,
        link: u64,
        payload: &[u8],
        ending: Option<Ending>,
        recording: Recording,
    ) -> Result<(), AllocError>
        ensures ok { OnOk result (self.new ≡ gives (outs.Pass number link payload.now ending recording) self.old) }
        ensures err { OnErr result (Holds self.old self.new) }
    {
        match ending {
            None => self.pass_part(number, link, payload),
            Some(ending) => self.pass_last(number, link, payload, ending, recording),
        }
    }

    /// Passes a payload on that isn't the last one.
    fn pass_part(&mut self, number: u8, link: u64, payload: &[u8]) -> Result<(), AllocError>
        ensures ok { OnOk result (self.new ≡ gives (outs.Pass number link payload.now None recordings.Nothing) self.old) }
        ensures err { OnErr result (Holds self.old self.new) }
    {
        self.reply_number = self.tell(number, payload)?;
        self.told_from = Some(link);
        Ok(())
    }

    /// Passes the last payload on.
    fn pass_last(
        &mut self,
        number: u8,
        link: u64,
        payload: &[u8],
        ending: Ending,
        recording: Recording,
    ) -> Result<(), AllocError>
        ensures ok { OnOk result (self.new ≡ gives (outs.Pass number link payload.now (Some ending) recording) self.old) }
        ensures err { OnErr result (Holds self.old self.new) }
    {
        let transaction = answered_by(
            self.kept_on,
            &self.pending,
            link,
            ending.outcome,
            self.routing,
            self.transaction,
        );
        self.answer_pending(link, ending, recording)?;
        self.note(link, recording)?;
        let next = self.tell(number, payload)?;
        self.end_reply(next, link, transaction, recording);
        Ok(())
    }

    /// The pending command was answered so on a link: what that means for the client's statements, and for the history.
    fn answer_pending(
        &mut self,
        link: u64,
        ending: Ending,
        recording: Recording,
    ) -> Result<(), AllocError>
        ensures ok { OnOk result (self.new ≡ record self.old {
          state = record self.old.state { statements = statements_behind link ending recording self.old.state; pending = None };
        }) }
        ensures holds { Holds self.old self.new }
    {
        let serial = match recording {
            Recording::Accepts => Some(self.serials),
            Recording::Nothing | Recording::Keeps => None,
        };
        match self.pending.take() {
            None => Ok(()),
            Some(command) => {
                self.statements
                    .answered(link, command, ending.outcome, ending.named, serial)
            }
        }
    }

    /// Notes what the end of a reply on this link means for the history, as far as links and what is owed go.
    fn note(&mut self, link: u64, recording: Recording) -> Result<(), AllocError>
        ensures ok { OnOk result (self.new ≡ record self.old { state = notes link recording self.old.state }) }
        ensures holds { Holds self.old self.new }
    {
        match recording {
            Recording::Nothing => Ok(()),
            Recording::Accepts => self.count_entry(link),
            Recording::Keeps => {
                let keeping = self.kept_on.is_none();
                self.owe_keeping(keeping, link)
            }
        }
    }

    /// There is one more entry of the history, which this link led.
    fn count_entry(&mut self, link: u64) -> Result<(), AllocError>
        ensures ok { OnOk result (self.new ≡ record self.old { state = notes link recordings.Accepts self.old.state }) }
        ensures holds { Holds self.old self.new }
    {
        let Some(more) = self.serials.checked_add(1) else {
            return Err(AllocError);
        };
        self.links.lead(link, self.serials)?;
        self.serials = more;
        Ok(())
    }

    /// The client has the last payload of the reply, behind which the transaction is this one.
    fn end_reply(&mut self, next: u8, link: u64, transaction: Transaction, recording: Recording)
        ensures { self.new ≡ record self.old { state = ends_reply next link transaction self.old.state.statements recording self.old.state } }
    {
        self.transaction = transaction;
        self.reply_number = next;
        self.pending = None;
        self.sent_on = None;
        self.told_from = None;
        if recording == Recording::Keeps {
            self.kept_on = Some(link);
        }
    }

    /// Gives a link up.
    fn drop_link(&mut self, link: u64, cause: DropCause) -> Result<(), AllocError>
        ensures ok { OnOk result (self.new ≡ gives (outs.Drop link cause) self.old) }
        ensures err { OnErr result (Holds self.old self.new) }
    {
        if is_loss(cause) {
            self.owe_loss(link)?;
        }
        self.act(Action::Drop { link, cause })?;
        self.links.remove(link);
        self.statements.drop_link(link);
        self.leave_link(link);
        Ok(())
    }

    /// The pending command isn't on this link any more, and isn't to go on it.
    pub(super) fn leave_link(&mut self, link: u64)
        ensures { self.new ≡ record self.old { state = leaves link self.old.state } }
    {
        if is_link(link, self.sent_on) {
            self.sent_on = None;
        }
        self.routing = self.routing.lost(link);
    }

    /// A link is lost: what this means for the session is owed.
    pub(super) fn owe_loss(&mut self, link: u64) -> Result<(), AllocError>
        ensures ok { OnOk result (self.new ≡ record self.old {
          state = record self.old.state {
            owed = map erased (after_loss_by (loss_in link self.old.state) (ending_in self.old.state)) ++ self.old.state.owed;
          };
        }) }
        ensures err { OnErr result (Holds self.old self.new) }
    {
        match self.loss(link) {
            Some(reason) => self.owe(Out::Close { reason }),
            None => Ok(()),
        }
    }

    /// Why the loss of a link closes the session, if it does.
    fn loss(&self, link: u64) -> Option<CloseReason>
        ensures { after_loss_by (loss_in link self.now.state) (ending_in self.now.state) ≡ closing result }
    {
        closing(
            is_link(link, self.told_from),
            is_link(link, self.sent_on),
            sends_again(&self.pending, self.transaction.state),
            is_link(link, self.kept_on),
            is_link(link, self.transaction.link),
            not_replayable(&self.pending, self.transaction),
        )
    }

    /// Owes something before what is owed already.
    pub(super) fn owe(&mut self, out: Out) -> Result<(), AllocError>
        ensures ok { OnOk result (self.new ≡ record self.old { state = record self.old.state { owed = Some out ∷ self.old.state.owed } }) }
        ensures err { OnErr result (Holds self.old self.new) }
    {
        self.owed.push_front(out)?;
        Ok(())
    }

    /// Closes the session.
    fn close(&mut self, reason: CloseReason) -> Result<(), AllocError>
        ensures ok { OnOk result (self.new ≡ gives (outs.Close reason) self.old) }
        ensures err { OnErr result (Holds self.old self.new) }
    {
        self.owe_farewells()?;
        self.act(Action::Close {
            session: self.number,
            reason,
        })?;
        self.over = true;
        Ok(())
    }

    /// What is owed is that the links are given up, and nothing else.
    pub(super) fn owe_farewells(&mut self) -> Result<(), AllocError>
        ensures ok { OnOk result (self.new ≡ record self.old {
          state = record self.old.state {
            owed = map (λ link. Some (outs.Drop link.number causes.End)) self.old.state.links;
          };
        }) }
        ensures err { OnErr result (Holds self.old self.new) }
    {
        farewells(self.links.as_slice(), &mut self.owed)
    }
}

/// Each link is to be given up, and nothing else is owed.
fn farewells(links: &[NumberedLink], owed: &mut VecDeque<Out>) -> Result<(), AllocError>
    ensures { OnOk result (map Some owed.new.items ≡ map (λ link. Some (outs.Drop link.number causes.End)) links.now) }
{
    owed.clear();
    for link in links {
        owed.push_back(Out::Drop {
            link: link.number,
            cause: DropCause::End,
        })?;
    }
    Ok(())
}

/// The later one of two commits, by their sequences: the one before at a tie, and its domain.
fn later_of(gtid: Gtid, before: Option<Gtid>) -> Gtid
    ensures { result ≡ later_of gtid before }
{
    let Some(before) = before else {
        return gtid;
    };
    if before.sequence < gtid.sequence {
        return Gtid {
            domain: before.domain,
            server: gtid.server,
            sequence: gtid.sequence,
        };
    }
    before
}
