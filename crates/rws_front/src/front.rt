//! A front, phase by phase.
ghost use Rattle.std.specs.Prelude.{◌≡◌, ◌++◌, length, [], None, IfOk, OnOk, OnErr};
ghost use Rattle.rws_wire.specs.Deframing.{next_of};
ghost use Rattle.rws_wire.specs.Packets.{next_number};
ghost use Rattle.rws_front.specs.Connection.{behind_answer, fault_number, refused, responded, response_in, settled};
ghost use Rattle.rws_front.specs.Names.{AreNames, IsNamed, IsNamedPhase, IsNamedResponse};
ghost use Rattle.rws_front.specs.declared.phase.Phase.TheVariants.{AwaitsAnswer, AwaitsResponse, Commands, Greets};

use crate::access::{Access, access_of};
use crate::messages::{error, greeting, ok, switch};
use crate::phase::Phase;
use crate::refusal::Refusal;
use crate::response::{is_native, response_in};
use crate::{FrontStep, Login};
use rws_config::{Account, Config};
use rws_msgs::Response;
use rws_msgs::capability::OFFERED_TO_CLIENTS;
use rws_wire::{CloseReason, Deframer, NextError, Text, WireFault};
use std::alloc::{AllocError, Global};
use std::marker::Model;
use std::mem;

/// The length of a packet behind which its payload goes on.
const FULL_PACKET: u64 = 0xFF_FFFF;

/// One client's side of a connection.
///
/// [`Front::next`] gives the greeting first. Then the client's response is judged, after a question for another plugin's
/// answer where it names one, and an OK and the login are given; or one error. Behind a login come the commands.
#[derive(Drop)]
pub struct Front {
    alloc: Global,
    session: u32,
    scramble: [u8; 20],
    phase: Phase,
    stream: Deframer,
}

impl Model for Front {
    ghost use Rattle.rws_front.specs.Fronting.{Fronting};
    ghost use Rattle.rws_front.specs.Names.{IsNamedPhase};

    ghost Value = { Fronting };

    ghost view = { λ f. record { session = f.session; scramble = f.scramble; phase = f.phase; stream = f.stream } };

    ghost invariant = { λ f. IsNamedPhase f.phase };
}

impl Front {
    ghost use Rattle.rws_front.specs.Connection.{IsHeard, IsSpent, MayWantMemory, commanded, error_number, step_in, step_of};
    ghost use Rattle.rws_front.specs.Fronting.{fed};

    /// A front that is to greet its client. The scramble is the connection's own, 20 bytes that nobody can foresee. This
    /// takes no memory.
    pub fn new(alloc: Global, session: u32, scramble: [u8; 20], config: &Config) -> Front
        ensures { result ≡ record {
          session = session;
          scramble = scramble;
          phase = Greets;
          stream = record { limit = config.now.command_bytes; held = []; stopped = None };
        } }
    {
        Front {
            alloc,
            session,
            scramble,
            phase: Phase::Greets,
            stream: Deframer::new(alloc, config.command_bytes),
        }
    }

    /// Begins with the commands: no greeting is given, and nobody logs in.
    pub fn ready(&mut self)
        requires unasked { self.old.phase ≡ Greets }
        requires unfed { self.old.stream.held ≡ [] }
        ensures { self.new ≡ record self.old { phase = Commands } }
    {
        self.phase = Phase::Commands;
    }

    /// How many bytes were fed and not handed out or read, packet headers included.
    pub fn held(&self) -> u64
        ensures { result ≡ length self.now.stream.held }
    {
        self.stream.held()
    }

    /// Takes the next bytes of the client. `Err` changes nothing.
    pub fn feed(&mut self, piece: &[u8]) -> Result<(), AllocError>
        ensures ok { OnOk result (self.new ≡ fed self.old piece.now) }
        ensures err { OnErr result (self.new ≡ self.old) }
    {
        self.stream.feed(piece)
    }

    /// The number of an error that is no reply to the client's bytes, where `piece` came behind those that were fed. Ask for it
    /// before [`Front::next`]: a front that had no memory has ended, and then it is 1. This takes no memory.
    pub fn error_number(&self, piece: &[u8]) -> u8
        ensures { result ≡ error_number (fed self.now piece.now) }
    {
        match &self.phase {
            Phase::AwaitsResponse => self.stream.number_due(1, piece),
            Phase::AwaitsAnswer { asked, .. } => {
                let due = self.stream.number_due(asked.wrapping_add(1), piece);
                behind_answer(*asked, due)
            }
            Phase::Greets | Phase::LogsIn(_) | Phase::Commands | Phase::Ended(_) => 1,
        }
    }

    /// The next step. `Err` is want of memory: the front has then ended for this reason, so that no login is left half done.
    pub fn next(&mut self, config: &Config) -> Result<FrontStep, AllocError>
        ensures ok { IfOk result (λ step. (step, self.new) ≡ step_of config.now.accounts self.old) }
        ensures err { OnErr result (IsSpent self.old self.new) }
        ensures memory { OnErr result (MayWantMemory self.old.stream self.old.phase) }

        // The names of a login that is handed out have no zero byte.
        ensures named { IfOk result IsNamed }
    {
        let phase = mem::replace(&mut self.phase, Phase::Ended(CloseReason::Memory));
        let (step, phase) = self.step_in(phase, config.accounts.as_slice())?;
        self.phase = phase;
        Ok(step)
    }

    /// The step in a phase, and the phase behind it, which the caller keeps.
    fn step_in(
        &mut self,
        phase: Phase,
        accounts: &[Account],
    ) -> Result<(FrontStep, Phase), AllocError>
        requires named { IsNamedPhase phase }
        ensures ok { IfOk result (λ x. (x.0, record self.new { phase = x.1 }) ≡ step_in accounts.now (record self.old { phase = phase }) phase) }
        ensures err { OnErr result (self.new ≡ record self.old { stream = self.new.stream }) }
        ensures memory { OnErr result (MayWantMemory self.old.stream phase) }
        ensures named { IfOk result (λ x. IsNamed x.0 × IsNamedPhase x.1) }
    {
        match phase {
            Phase::Greets => {
                let bytes = greeting(self.alloc, self.session, &self.scramble)?;
                Ok((FrontStep::Send(bytes), Phase::AwaitsResponse))
            }
            Phase::AwaitsResponse => self.hear_response(accounts),
            Phase::AwaitsAnswer { response, asked } => self.hear_answer(accounts, response, asked),
            Phase::LogsIn(login) => Ok((FrontStep::LoggedIn(login), Phase::Commands)),
            Phase::Commands => self.hear_command(),
            Phase::Ended(reason) => {
                let bytes = Text::empty(self.alloc);
                Ok((FrontStep::End { bytes, reason }, Phase::Ended(reason)))
            }
        }
    }

    /// The step where the client's response is awaited, whose packets are numbered from 1 on.
    fn hear_response(&mut self, accounts: &[Account]) -> Result<(FrontStep, Phase), AllocError>
        ensures ok { IfOk result (λ x. (x.0, record self.new { phase = x.1 }) ≡ step_in accounts.now (record self.old { phase = AwaitsResponse }) AwaitsResponse) }
        ensures err { OnErr result (self.new ≡ record self.old { stream = self.new.stream }) }
        ensures memory { OnErr result (IsHeard (next_of self.old.stream 1)) }
        ensures named { IfOk result (λ x. IsNamed x.0 × IsNamedPhase x.1) }
    {
        match self.stream.next_payload(1) {
            Ok(Some(payload)) => {
                let response = response_in(self.alloc, payload.bytes.as_slice())?;
                responded(self.alloc, accounts, &self.scramble, response, payload.next)
            }
            Ok(None) => Ok((FrontStep::Idle, Phase::AwaitsResponse)),
            Err(NextError::Fault(fault)) => {
                let number = fault_number(1, 1, fault);
                refused(self.alloc, Refusal::Fault(fault), number)
            }
            Err(NextError::OutOfMemory) => Err(AllocError),
        }
    }

    /// The step where the client was asked for another answer, whose packets are numbered on from the question.
    fn hear_answer(
        &mut self,
        accounts: &[Account],
        response: Response,
        asked: u8,
    ) -> Result<(FrontStep, Phase), AllocError>
        requires named { AreNames response.user response.database }
        ensures ok { IfOk result (λ x. (x.0, record self.new { phase = x.1 }) ≡ step_in accounts.now (record self.old { phase = AwaitsAnswer response asked }) (AwaitsAnswer response asked)) }
        ensures err { OnErr result (self.new ≡ record self.old { stream = self.new.stream }) }
        ensures memory { OnErr result (IsHeard (next_of self.old.stream (next_number asked))) }
        ensures named { IfOk result (λ x. IsNamed x.0 × IsNamedPhase x.1) }
    {
        let due = asked.wrapping_add(1);
        match self.stream.next_payload(due) {
            Ok(Some(payload)) => {
                let user = response.user.as_slice();
                let access = access_of(accounts, user, &self.scramble, payload.bytes.as_slice());
                settled(self.alloc, access, response, payload.next)
            }
            Ok(None) => Ok((FrontStep::Idle, Phase::AwaitsAnswer { response, asked })),
            Err(NextError::Fault(fault)) => {
                let number = fault_number(asked, due, fault);
                refused(self.alloc, Refusal::Fault(fault), number)
            }
            Err(NextError::OutOfMemory) => Err(AllocError),
        }
    }

    /// The step where commands are awaited, whose packets are numbered from 0 on.
    fn hear_command(&mut self) -> Result<(FrontStep, Phase), AllocError>
        ensures ok { IfOk result (λ x. (x.0, record self.new { phase = x.1 }) ≡ commanded (record self.old { phase = Commands })) }
        ensures err { OnErr result (self.new ≡ record self.old { stream = self.new.stream }) }
        ensures memory { OnErr result (IsHeard (next_of self.old.stream 0)) }
        ensures named { IfOk result (λ x. IsNamed x.0 × IsNamedPhase x.1) }
    {
        match self.stream.next_payload(0) {
            Ok(Some(payload)) => Ok((FrontStep::Command(payload), Phase::Commands)),
            Ok(None) => Ok((FrontStep::Idle, Phase::Commands)),
            Err(NextError::Fault(fault)) => refused(self.alloc, Refusal::Fault(fault), 1),
            Err(NextError::OutOfMemory) => Err(AllocError),
        }
    }
}

/// The number of the error at a fault in the login. `behind` is the number behind the last payload of the client, `due` the
/// one that its next packet was to have.
#[tactic(auto, unfolding(rws_wire::specs::Packets::full_packet))]
fn fault_number(behind: u8, due: u8, fault: WireFault) -> u8
    ensures { result ≡ fault_number behind due fault }
{
    match fault {
        WireFault::OutOfOrder { want, .. } => { if want == due { behind } else { want } }
        WireFault::TooLarge { length } => {
            let full = length.saturating_sub(1) / FULL_PACKET;
            if full == 0 {
                behind
            } else {
                due.wrapping_add((full % 256) as u8)
            }
        }
    }
}

/// The number behind the last packet of the client's answer that came, by the one that is due, or that of the question.
fn behind_answer(asked: u8, due: u8) -> u8
    ensures { result ≡ behind_answer asked due }
{
    if due == asked.wrapping_add(1) {
        asked
    } else {
        due
    }
}

/// The error in a packet of this number, and then nothing more.
fn refused(alloc: Global, refusal: Refusal, number: u8) -> Result<(FrontStep, Phase), AllocError>
    ensures ends { IfOk result (λ x. x ≡ refused refusal number) }
    ensures named { IfOk result (λ x. IsNamed x.0 × IsNamedPhase x.1) }
{
    let reason = refusal.reason();
    let bytes = error(alloc, refusal, number)?;
    Ok((FrontStep::End { bytes, reason }, Phase::Ended(reason)))
}

/// A login is accepted or refused, in the packet with this number.
fn settled(
    alloc: Global,
    access: Access,
    response: Response,
    number: u8,
) -> Result<(FrontStep, Phase), AllocError>
    requires named { AreNames response.user response.database }
    ensures settles { IfOk result (λ x. x ≡ settled access response number) }
    ensures named { IfOk result (λ x. IsNamed x.0 × IsNamedPhase x.1) }
{
    let Access::Granted(stage1) = access else {
        return refused(alloc, Refusal::AccessDenied, number);
    };
    let bytes = ok(alloc, number)?;
    let login = Login {
        user: response.user,
        stage1,
        database: response.database,
        charset: response.charset,
        flags: response.flags & OFFERED_TO_CLIENTS,
    };
    Ok((FrontStep::Send(bytes), Phase::LogsIn(login)))
}

/// What a client's response is answered, in the packet with this number.
fn responded(
    alloc: Global,
    accounts: &[Account],
    scramble: &[u8; 20],
    response: Option<Response>,
    number: u8,
) -> Result<(FrontStep, Phase), AllocError>
    requires named { IsNamedResponse response }
    ensures responds { IfOk result (λ x. x ≡ responded accounts.now scramble.now response number) }
    ensures named { IfOk result (λ x. IsNamed x.0 × IsNamedPhase x.1) }
{
    let Some(response) = response else {
        return refused(alloc, Refusal::BadHandshake, number);
    };
    if !is_native(&response.plugin) {
        let bytes = switch(alloc, scramble, number)?;
        let asked = number;
        return Ok((
            FrontStep::Send(bytes),
            Phase::AwaitsAnswer { response, asked },
        ));
    }
    let user = response.user.as_slice();
    let access = access_of(accounts, user, scramble, response.answer.as_slice());
    settled(alloc, access, response, number)
}
