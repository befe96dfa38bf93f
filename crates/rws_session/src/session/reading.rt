//! What comes on the links is read, one thing after the other.
ghost use Rattle.std.specs.Prelude.{◌≡◌, ◌++◌, ℕ, List, [], map, IfOk, OnErr, OnOk};
ghost use Rattle.rws_commands.specs.Statements.{swept_if};
ghost use Rattle.rws_record.specs.Item.{Item};
ghost use Rattle.rws_record.specs.Values.{links};
ghost use Rattle.rws_record.specs.Rules.{after_check, after_preparing, differing, due_arrival, form_of, owed, unasked};
ghost use Rattle.rws_links.specs.Links.{link_of};
ghost use Rattle.rws_links.specs.Table.{AreDistinct, ReadsFirst};
ghost use Rattle.rws_session.specs.Kept.{Holds, Is};
ghost use Rattle.rws_session.specs.Steps.{Tries, commit_said, ended_in, ends_in, hears_coming, outcome_of, owes, owes_commit, owes_coming, owes_played, owes_reply, played_if, recording_in, takes_coming};

use crate::owing::Out;
use crate::session::Session;
use crate::session::checking::{commit_said, heard_check};
use rws_causal::Causal;
use rws_commands::{Ending, PreparedAs, ProxyError, is_otherwise};
use rws_config::Config;
use rws_gtid::Gtid;
use rws_link::LinkStep;
use rws_links::{Asked, Coming, Recording, drop_cause, ends_by, sets_session};
use rws_msgs::PrepareOk;
use rws_reply::{Outcome, Progress, Role, client_payload};
use rws_wire::{DropCause, Text};
use std::alloc::AllocError;

impl Session {
    /// Asks the links, in order of number, up to the first that has something to say.
    pub(super) fn read_links(&mut self, config: &Config) -> Result<bool, AllocError>
        ensures ok { (past : List Item) → Is config.now self.old past → owed config.now past ≡ []
            → IfOk result (λ went. Tries config.now (due_arrival (links past) past) past went self.old self.new) }
        ensures err { OnErr result (Holds self.old self.new) }
    {
        match self.next_coming()? {
            None => Ok(false),
            Some(coming) => {
                self.take_coming(coming, config)?;
                Ok(true)
            }
        }
    }

    /// What the first link says that has something to say.
    fn next_coming(&mut self) -> Result<Option<Coming>, AllocError>
        ensures reads { (past : List Item) (numbers : List ℕ) → self.old.state.links ≡ map (link_of past) numbers → AreDistinct numbers
            → IfOk result (λ found. ReadsFirst past numbers found self.new.state.links) }
        ensures rest { self.new ≡ record self.old { state = record self.old.state { links = self.new.state.links } } }
        ensures holds { Holds self.old self.new }
    {
        self.links.read()
    }

    /// Takes in what a link says.
    fn take_coming(&mut self, coming: Coming, config: &Config) -> Result<(), AllocError>
        ensures ok { OnOk result (self.new ≡ record self.old { state = takes_coming config.now coming self.old.state }) }
        ensures err { OnErr result (Holds self.old self.new) }
    {
        let handle = self.statements.next_handle();
        let server = coming.server;
        let commit = commit_said(self.alloc, &coming.said, coming.asked, config.gtid_domain)?;
        self.hear_coming(&coming)?;
        self.owe_coming(coming, handle, config)?;
        self.owe_commit(server, commit)
    }

    /// The words of the pool are to be told of a commit of this server before anything else.
    fn owe_commit(&mut self, server: u8, commit: Option<Gtid>) -> Result<(), AllocError>
        ensures ok { OnOk result (self.new ≡ record self.old { state = owes_commit server commit self.old.state }) }
        ensures err { OnErr result (Holds self.old self.new) }
    {
        match commit {
            Some(gtid) => self.owe(Out::Record { server, gtid }),
            None => Ok(()),
        }
    }

    /// The link's server is banned, if it answers an entry of the history otherwise; statements may have an id there, or leave; and
    /// the pending command may go on, or back to the primary.
    fn hear_coming(&mut self, coming: &Coming) -> Result<(), AllocError>
        ensures ok { OnOk result (self.new ≡ record self.old { state = hears_coming coming.now self.old.state }) }
        ensures holds { Holds self.old self.new }
    {
        self.banned = coming.bans(self.banned);
        if let Some(outcome) = outcome_of(&coming.said) {
            self.hear_end(coming, outcome)?;
        }
        self.routing = heard_check(coming.checked, self.routing);
        Ok(())
    }

    /// A reply on a link ended so.
    fn hear_end(&mut self, coming: &Coming, outcome: Outcome) -> Result<(), AllocError>
        ensures ok { OnOk result (self.new ≡ record self.old {
          state = record self.old.state {
            statements = ended_in coming.now.link outcome coming.now.asked (ends_in coming.now.link self.old.state) coming.now.named self.old.state.statements;
          };
        }) }
        ensures holds { Holds self.old self.new }
    {
        match coming.asked {
            Some(Asked::Command) => {
                self.sweep_behind(coming.link, outcome);
                Ok(())
            }
            Some(Asked::Entry { serial, statement }) => {
                self.name_played(coming.link, serial, statement, coming.named, outcome)
            }
            Some(Asked::Preamble | Asked::Wait | Asked::Probe(_)) | None => Ok(()),
        }
    }

    /// The statements leave that were closed in the transaction, if that ends with the reply of a link that ended so.
    fn sweep_behind(&mut self, link: u64, outcome: Outcome)
        ensures { self.new ≡ record self.old {
          state = record self.old.state { statements = swept_if (ends_in link self.old.state outcome) self.old.state.statements };
        } }
    {
        let ends = ends_by(
            self.kept_on,
            &self.pending,
            link,
            outcome,
            self.routing,
            self.transaction,
        );
        if ends {
            self.statements.sweep();
        }
    }

    /// The link's server has an id for the statement of an entry that it was played without an error.
    fn name_played(
        &mut self,
        link: u64,
        serial: u64,
        statement: Option<PreparedAs>,
        named: Option<PrepareOk>,
        outcome: Outcome,
    ) -> Result<(), AllocError>
        ensures ok { OnOk result (self.new ≡ record self.old {
          state = record self.old.state { statements = played_if link serial statement named outcome self.old.state.statements };
        }) }
        ensures holds { Holds self.old self.new }
    {
        match outcome {
            Outcome::Failed { .. } => Ok(()),
            Outcome::Done { .. } => self.statements.played(link, serial, statement, named),
        }
    }

    /// Decides what follows on what a link says, where the next statement's handle is this.
    fn owe_coming(&mut self, coming: Coming, handle: u32, config: &Config) -> Result<(), AllocError>
        ensures ok { OnOk result (self.new ≡ record self.old { state = owes_coming config.now.history_limit handle coming self.old.state }) }
        ensures err { OnErr result (Holds self.old self.new) }
    {
        let Coming {
            link,
            server: _,
            said,
            asked,
            named,
            checked,
        } = coming;
        match said {
            LinkStep::Part {
                payload,
                role,
                progress,
                next: _,
                behind,
            } => match asked {
                Some(Asked::Command) => {
                    let form = self.form_of(handle, role, payload)?;
                    self.take_reply(link, form, named, progress, behind, config)
                }
                Some(
                    Asked::Entry {
                        serial: _,
                        statement,
                    },
                ) => self.take_played(link, statement, named, progress, behind),
                Some(Asked::Preamble) => self.take_prepared(link, progress, behind),
                Some(Asked::Wait | Asked::Probe(_)) => self.take_checked(link, checked, behind),
                None => Ok(()),
            },
            LinkStep::Lost(cause) => self.owe(Out::Drop {
                link,
                cause: drop_cause(cause),
            }),
            LinkStep::Send(packets) => self.owe(Out::LogIn { link, packets }),
            LinkStep::LoggedIn | LinkStep::Idle => Ok(()),
        }
    }

    /// A payload of the reply to an entry of the history came, which prepares this.
    fn take_played(
        &mut self,
        link: u64,
        statement: Option<PreparedAs>,
        named: Option<PrepareOk>,
        progress: Progress,
        behind: bool,
    ) -> Result<(), AllocError>
        ensures ok { OnOk result (self.new ≡ record self.old { state = owes (owes_played link statement named progress behind) self.old.state }) }
        ensures err { OnErr result (Holds self.old self.new) }
    {
        match progress {
            Progress::More => Ok(()),
            Progress::Whole(Outcome::Done { .. }) => {
                self.owe_differing(link, is_otherwise(statement, named), behind)
            }
            Progress::Whole(Outcome::Failed { .. }) => self.owe(Out::Drop {
                link,
                cause: DropCause::SessionDiffers,
            }),
        }
    }

    /// A link that differs is given up; a byte behind a whole reply costs any other, too.
    fn owe_differing(&mut self, link: u64, otherwise: bool, behind: bool) -> Result<(), AllocError>
        ensures ok { OnOk result (self.new ≡ record self.old { state = owes (differing link otherwise behind) self.old.state }) }
        ensures err { OnErr result (Holds self.old self.new) }
    {
        if otherwise {
            return self.owe(Out::Drop {
                link,
                cause: DropCause::SessionDiffers,
            });
        }
        self.owe_unasked(link, behind)
    }

    /// A payload of the reply to a link's preamble came.
    fn take_prepared(
        &mut self,
        link: u64,
        progress: Progress,
        behind: bool,
    ) -> Result<(), AllocError>
        ensures ok { OnOk result (self.new ≡ record self.old { state = owes (after_preparing link progress behind) self.old.state }) }
        ensures err { OnErr result (Holds self.old self.new) }
    {
        match progress {
            Progress::More => Ok(()),
            Progress::Whole(Outcome::Done { .. }) => self.owe_unasked(link, behind),
            Progress::Whole(Outcome::Failed { code }) => self.owe(Out::Drop {
                link,
                cause: DropCause::Login { code },
            }),
        }
    }

    /// A payload of the answer to a wait or a probe came, by which this comes next of the command.
    fn take_checked(
        &mut self,
        link: u64,
        checked: Option<Causal>,
        behind: bool,
    ) -> Result<(), AllocError>
        ensures ok { OnOk result (self.new ≡ record self.old { state = owes (after_check link checked behind self.old.state.reply_number) self.old.state }) }
        ensures err { OnErr result (Holds self.old self.new) }
    {
        match checked {
            None => Ok(()),
            Some(Causal::Stale { wanted, found }) => {
                let number = self.reply_number;
                self.owe_unasked(link, behind)?;
                self.owe(Out::Refuse {
                    number,
                    error: ProxyError::PrimaryBehind { wanted, found },
                })
            }
            Some(Causal::Unreadable) => self.owe(Out::Drop {
                link,
                cause: DropCause::Probe,
            }),
            Some(Causal::Go | Causal::Wait(_) | Causal::Probe(_) | Causal::TryPrimary) => {
                self.owe_unasked(link, behind)
            }
        }
    }

    /// The form in which the client gets a payload of this role.
    fn form_of(&self, handle: u32, role: Role, payload: Text) -> Result<Text, AllocError>
        ensures { IfOk result (λ form. form ≡ form_of handle role payload) }
    {
        let form = client_payload(self.alloc, role, payload.as_slice(), handle)?;
        Ok(form.unwrap_or(payload))
    }

    /// Decides what follows on a payload of the pending command's reply, in the client's form.
    fn take_reply(
        &mut self,
        link: u64,
        payload: Text,
        named: Option<PrepareOk>,
        progress: Progress,
        behind: bool,
        config: &Config,
    ) -> Result<(), AllocError>
        ensures ok { OnOk result (self.new ≡ record self.old {
          state = record self.old.state {
            owed = owes_reply link payload named progress behind self.old.state.reply_number (recording_in config.now.history_limit self.old.state)
                ++ self.old.state.owed;
          };
        }) }
        ensures err { OnErr result (Holds self.old self.new) }
    {
        let number = self.reply_number;
        match progress {
            Progress::More => self.owe(Out::Pass {
                number,
                link,
                payload,
                ending: None,
                recording: Recording::Nothing,
            }),
            Progress::Whole(outcome) => {
                let recording = self.recording_of(outcome, config);
                self.owe_unasked(link, behind)?;
                self.owe(Out::Pass {
                    number,
                    link,
                    payload,
                    ending: Some(Ending { outcome, named }),
                    recording,
                })
            }
        }
    }

    /// What the end of the pending command's reply means for the history.
    fn recording_of(&self, outcome: Outcome, config: &Config) -> Recording
        ensures { result ≡ recording_in config.now.history_limit self.now.state outcome }
    {
        Recording::of(
            sets_session(&self.pending),
            self.kept_on.is_some(),
            self.statements.is_full(config.history_limit),
            outcome,
        )
    }

    /// A byte behind a whole reply costs the link.
    fn owe_unasked(&mut self, link: u64, behind: bool) -> Result<(), AllocError>
        ensures ok { OnOk result (self.new ≡ record self.old { state = owes (unasked link behind) self.old.state }) }
        ensures err { OnErr result (Holds self.old self.new) }
    {
        if behind {
            return self.owe(Out::Drop {
                link,
                cause: DropCause::Unasked,
            });
        }
        Ok(())
    }
}

/// How the reply ended that is whole with what a link says.
fn outcome_of(said: &LinkStep) -> Option<Outcome>
    ensures { result ≡ outcome_of said.now }
{
    match said {
        LinkStep::Part {
            progress: Progress::Whole(outcome),
            ..
        } => Some(*outcome),
        _ => None,
    }
}
