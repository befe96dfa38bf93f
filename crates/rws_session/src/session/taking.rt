//! What comes of the client is taken up, one thing after the other: the steps of its login, and then its commands.
ghost use Rattle.std.specs.Prelude.{◌≡◌, [], ◌∷◌, List, IfOk, OnErr, OnOk};
ghost use Rattle.rws_front.specs.Connection.{step_of};
ghost use Rattle.rws_front.specs.Names.{IsNamed};
ghost use Rattle.rws_record.specs.Item.{Item};
ghost use Rattle.rws_record.specs.Item.Put.{Closes, Hands};
ghost use Rattle.rws_commands.specs.declared.judged.Judged.TheVariants.{HasTooMuch};
ghost use Rattle.rws_commands.specs.Judging.{judged};
ghost use Rattle.rws_commands.specs.Statements.{taken_as};
ghost use Rattle.rws_trx.specs.Transactions.{is_open};
ghost use Rattle.rws_record.specs.Rules.{after_command, due_take, owed};
ghost use Rattle.rws_session.specs.Kept.{Holds, Is};
ghost use Rattle.rws_session.specs.Steps.{TakesSaid, Tries, answers, begins_reply, owes, recounted, situation_in, takes};

use crate::owing::Out;
use crate::session::Session;
use rws_commands::{Judged, ProxyError, Situation};
use rws_config::Config;
use rws_front::FrontStep;
use rws_links::LinkLogin;
use rws_routing::Routing;
use rws_trx::Open;
use rws_wire::{CloseReason, Payload, Text};
use std::alloc::AllocError;

impl Session {
    /// Takes up what comes next of the client, where no command is pending.
    pub(super) fn take_up(&mut self, config: &Config) -> Result<bool, AllocError>
        ensures ok { (past : List Item) → Is config.now self.old past → owed config.now past ≡ []
            → IfOk result (λ went. Tries config.now (due_take config.now past) past went self.old self.new) }
        ensures err { OnErr result (Holds self.old self.new) }
    {
        if self.is_busy() {
            return Ok(false);
        }
        let said = self.next_said(config)?;
        let went = self.take_said(said, config)?;
        self.recount();
        Ok(went)
    }

    /// The number of an error for want of memory is that of the client's side as it stands now.
    fn recount(&mut self)
        ensures { self.new ≡ recounted self.old }
    {
        self.want_number = self.front.error_number(&[]);
    }

    /// What comes next of the client.
    fn next_said(&mut self, config: &Config) -> Result<FrontStep, AllocError>
        ensures said { IfOk result (λ said. (said, self.new.state.front) ≡ step_of config.now.accounts self.old.state.front) }
        ensures named { IfOk result IsNamed }
        ensures rest { self.new ≡ record self.old { state = record self.old.state { front = self.new.state.front } } }
        ensures err { OnErr result (Holds self.old self.new) }
    {
        self.front.next(config)
    }

    /// Takes up what came of the client: a command, a step of the login, or that its packets can't be read on.
    fn take_said(&mut self, said: FrontStep, config: &Config) -> Result<bool, AllocError>
        requires { IsNamed said }
        ensures ok { IfOk result (λ went. TakesSaid (situation_in config.now self.old.state) self.old.state.statements said went self.old self.new) }
        ensures err { OnErr result (Holds self.old self.new) }
    {
        match said {
            FrontStep::Idle => Ok(false),
            FrontStep::Send(packets) => {
                self.owe(Out::Hand { packets })?;
                Ok(true)
            }
            FrontStep::LoggedIn(login) => {
                self.login = Some(LinkLogin::new(login));
                Ok(true)
            }
            FrontStep::Command(Payload { bytes, next }) => {
                self.take(bytes, next, config)?;
                Ok(true)
            }
            FrontStep::End { bytes, reason } => {
                self.owe_end(bytes, reason)?;
                Ok(true)
            }
        }
    }

    /// The session is closed for this reason, behind these packets.
    fn owe_end(&mut self, packets: Text, reason: CloseReason) -> Result<(), AllocError>
        ensures ok { OnOk result (self.new ≡ record self.old { state = owes (Hands packets ∷ Closes reason ∷ []) self.old.state }) }
        ensures err { OnErr result (Holds self.old self.new) }
    {
        self.owe(Out::Close { reason })?;
        self.owe(Out::Hand { packets })
    }

    /// Takes up a command, whose reply begins with the packet number `number`.
    fn take(&mut self, payload: Text, number: u8, config: &Config) -> Result<(), AllocError>
        ensures ok { OnOk result (self.new ≡ record self.old {
          state = takes (judged (situation_in config.now self.old.state) self.old.state.statements payload number) payload number self.old.state;
        }) }
        ensures err { OnErr result (Holds self.old self.new) }
    {
        let judgement = self.judge(payload, number, config)?;
        self.begin_reply(number);
        self.answer_command(judgement, number)
    }

    /// What a command is taken for, and what that changes in the client's statements.
    fn judge(&mut self, payload: Text, number: u8, config: &Config) -> Result<Judged, AllocError>
        ensures judged { IfOk result (λ judgement. judgement ≡ judged (situation_in config.now self.old.state) self.old.state.statements payload number) }
        ensures taken { IfOk result (λ judgement. self.new ≡ record self.old {
          state = record self.old.state {
            statements = taken_as judgement (is_open self.old.state.transaction.state) payload self.old.state.statements;
          };
        }) }
        ensures holds { Holds self.old self.new }
    {
        let now = self.situation(config);
        self.statements.take(payload, number, now)
    }

    /// How the session stands where a command comes now.
    fn situation(&self, config: &Config) -> Situation
        ensures { result ≡ situation_in config.now self.now.state }
    {
        let opened = self.transaction.state.opened;
        Situation {
            in_transaction: opened != Open::Nothing,
            read_only: opened == Open::ReadOnly,
            history_limit: config.history_limit,
            room: config.command_bytes,
        }
    }

    /// A command that was taken for this waits for a server, or its answer is owed.
    fn answer_command(&mut self, judgement: Judged, number: u8) -> Result<(), AllocError>
        ensures ok { OnOk result (self.new ≡ record self.old { state = answers judgement number self.old.state }) }
        ensures err { OnErr result (Holds self.old self.new) }
    {
        match judgement {
            Judged::Leaves => self.owe(Out::Close {
                reason: CloseReason::Quit,
            }),
            Judged::IsOwn => {
                let status = self.transaction.state.status();
                self.owe(Out::Own { number, status })
            }
            Judged::IsRefused(error) => self.owe(Out::Refuse { number, error }),
            Judged::IsSilent => Ok(()),
            Judged::HasTooMuch(length) => self.owe_too_much(length, number),
            Judged::Serves(command) => {
                self.pending = Some(command);
                Ok(())
            }
        }
    }

    /// The session is closed, since a statement would hold too many bytes of long data.
    fn owe_too_much(&mut self, length: u64, number: u8) -> Result<(), AllocError>
        ensures ok { OnOk result (self.new ≡ record self.old { state = owes (after_command (HasTooMuch length) number 0) self.old.state }) }
        ensures err { OnErr result (Holds self.old self.new) }
    {
        self.owe(Out::Close {
            reason: CloseReason::TooLarge { length },
        })?;
        self.owe(Out::Refuse {
            number,
            error: ProxyError::CommandTooLarge,
        })
    }

    /// A new command isn't routed yet, and the client is told nothing of its reply.
    fn begin_reply(&mut self, number: u8)
        ensures { self.new ≡ record self.old { state = begins_reply number self.old.state } }
    {
        self.sent_on = None;
        self.told_from = None;
        self.reply_number = number;
        self.routing = Routing::new();
    }
}
