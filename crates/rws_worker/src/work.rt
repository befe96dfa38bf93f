//! A worker over a board.
ghost use Rattle.std.specs.Prelude.{◌≡◌, ◌≤◌, ◌+◌, ◌∷◌, ◌++◌, ℕ, List, [], Some, IsErrOf, MatchOption, MatchResult};
ghost use Rattle.rws_board.specs.Boards.Standing.{Going, ActFailed};
ghost use Rattle.rws_board.specs.Faults.{Rises};
ghost use Rattle.rws_board.specs.declared.interaction.Interaction.{Interaction};
ghost use Rattle.rws_board.specs.declared.interaction.Interaction.TheVariants.{Told, Took};
ghost use Rattle.rws_config.specs.Allowed.{IsAllowed};
ghost use Rattle.rws_pool.specs.declared.words.PoolWords.{PoolWords};
ghost use Rattle.rws_pool.specs.History.{event_of};
ghost use Rattle.rws_pool.specs.Machine.{CanStep, new_words, pool_step};
ghost use Rattle.rws_select.specs.Choice.{HasScorer};
ghost use Rattle.rws_worker.specs.Stepping.{IsIdle};
ghost use Rattle.rws_worker.specs.Working.{DoesAll, GoesSo, HasBegun, IsUnderway, WithWords, Works, end_by, is_end};
ghost use Rattle.rws_worker.specs.declared.work.Next.TheVariants as Next;
ghost use Rattle.rws_worker.specs.declared.work.WorkEnd.TheVariants.{BoardFailed};

use crate::{Step, Worker};
use rws_board::{Action, Board, BoardFault, Event};
use rws_config::Config;
use rws_pool::{PoolCall, PoolWords};
use rws_select::{Load, Selector};
use std::alloc::Global;

/// How a worker's work ended.
#[derive(Clone, Copy, Debug, PartialEq, Eq)]
pub enum WorkEnd {
    /// The board gave the end.
    Ended,
    /// A call of the board failed, and its count of faults rose.
    BoardFailed,
    /// The event of number 4,294,967,296 came, the end not counted, and isn't handled; or no number was left for a link.
    TooMany,
    /// There was no memory in the board.
    OutOfMemory,
}

/// How a worker's work goes on.
pub(crate) enum Next {
    /// Something was done.
    Goes,
    /// All that came of the last event is done.
    Rests,
    /// No link can be opened any more.
    Spent,
}

/// Runs a worker over a board until the board's end: it takes the board's next event, does all that comes of it, and then
/// asks for the next one. A step of the pool is taken by the words, and then the board is told; a session that asked for them is
/// answered by them. It waits for nobody, and always returns.
pub fn work_here<B: Board, F: Fn(&Load) -> u64 + Sync>(
    alloc: Global,
    board: &mut B,
    words: &mut PoolWords,
    config: &Config,
    selector: &Selector<F>,
) -> WorkEnd
    requires allowed { IsAllowed config.now }
    requires words { words.old ≡ new_words config.now.gtid_domain }
    requires scorer { HasScorer F.Fn selector.now }
    ensures works { Works config.now (WithWords (λ interactions standing. B.did board.old board.new interactions standing) words.old words.new) result }
    ensures counts { B.faults board.old ≤ B.faults board.new }
    ensures failed { result ≡ BoardFailed → Rises (B.faults board.old) (B.faults board.new) }
{
    let mut worker = Worker::new(alloc);
    let mut events = 0;
    'events: loop {
        if let Some(end) = handle_next(&mut worker, board, words, config, selector, &mut events) {
            return end;
        }
    }
}

/// Takes the next event and does all that comes of it. `events` were taken before.
fn handle_next<B: Board, F: Fn(&Load) -> u64 + Sync>(
    worker: &mut Worker,
    board: &mut B,
    words: &mut PoolWords,
    config: &Config,
    selector: &Selector<F>,
    events: &mut u32,
) -> Option<WorkEnd>
    requires allowed { IsAllowed config.now }
    requires scorer { HasScorer F.Fn selector.now }
    requires begun { HasBegun config.now (λ start. B.did start board.old) words.old worker.old events.old }
    requires idle { IsIdle worker.old }
    ensures goes { (start : B) (first : PoolWords) → first ≡ new_words config.now.gtid_domain
        → IsUnderway config.now (WithWords (B.did start board.old) first words.old) worker.old events.old 0
        → MatchOption result (IsUnderway config.now (WithWords (B.did start board.new) first words.new) worker.new events.new 0 × IsIdle worker.new)
        (λ end. Works config.now (WithWords (B.did start board.new) first words.new) end) }
    ensures counted { MatchOption result (events.new ≡ events.old + 1) (λ _. events.new ≡ events.new) }
    ensures counts { B.faults board.old ≤ B.faults board.new }
    ensures failed { result ≡ Some BoardFailed → Rises (B.faults board.old) (B.faults board.new) }
{
    let event = match board.next(0) {
        Ok(event) => event,
        Err(BoardFault::Failed) => return Some(WorkEnd::BoardFailed),
        Err(BoardFault::OutOfMemory) => return Some(WorkEnd::OutOfMemory),
    };
    if is_end(&event) {
        return Some(WorkEnd::Ended);
    }
    if *events == u32::MAX {
        return Some(WorkEnd::TooMany);
    }
    *events += 1;
    worker.give(event, config);
    if worker.is_spent() {
        return Some(WorkEnd::TooMany);
    }
    match do_all(worker, board, words, config, selector) {
        Ok(true) => None,
        Ok(false) => Some(WorkEnd::TooMany),
        Err(BoardFault::Failed) => Some(WorkEnd::BoardFailed),
        Err(BoardFault::OutOfMemory) => Some(WorkEnd::OutOfMemory),
    }
}

/// The event is the end.
fn is_end(event: &Event) -> bool
    ensures { result ≡ is_end event.now }
{
    match event {
        Event::End => true,
        Event::Accept { .. } => false,
        Event::Begin { .. } => false,
        Event::ClientBytes { .. } => false,
        Event::ClientGone { .. } => false,
        Event::LinkReady { .. } => false,
        Event::LinkBytes { .. } => false,
        Event::LinkGone { .. } => false,
        Event::Clock { .. } => false,
        Event::Observed { .. } => false,
    }
}

/// Does all that comes of the last event, in order; false where that is too much.
fn do_all<B: Board, F: Fn(&Load) -> u64 + Sync>(
    worker: &mut Worker,
    board: &mut B,
    words: &mut PoolWords,
    config: &Config,
    selector: &Selector<F>,
) -> Result<bool, BoardFault>
    requires allowed { IsAllowed config.now }
    requires scorer { HasScorer F.Fn selector.now }
    requires begun { (events : ℕ) × HasBegun config.now (λ start. B.did start board.old) words.old worker.old events }
    ensures acts { (start : B) (first : PoolWords) (events : ℕ) → first ≡ new_words config.now.gtid_domain
        → IsUnderway config.now (WithWords (B.did start board.old) first words.old) worker.old events 0
        → DoesAll config.now (WithWords (B.did start board.new) first words.new) worker.new events result }
    ensures counts { B.faults board.old ≤ B.faults board.new }
    ensures failed { IsErrOf result BoardFault.Failed → Rises (B.faults board.old) (B.faults board.new) }
{
    for _ in 0..u64::MAX {
        match do_next(worker, board, words, config, selector) {
            Ok(Next::Goes) => {}
            Ok(Next::Rests) => return Ok(true),
            Ok(Next::Spent) => return Ok(false),
            Err(fault) => return Err(fault),
        }
    }
    Ok(false)
}

/// Does the next thing.
fn do_next<B: Board, F: Fn(&Load) -> u64 + Sync>(
    worker: &mut Worker,
    board: &mut B,
    words: &mut PoolWords,
    config: &Config,
    selector: &Selector<F>,
) -> Result<Next, BoardFault>
    requires allowed { IsAllowed config.now }
    requires scorer { HasScorer F.Fn selector.now }
    requires begun { (events : ℕ) × HasBegun config.now (λ start. B.did start board.old) words.old worker.old events }
    ensures acts { (start : B) (first : PoolWords) (events things : ℕ) → first ≡ new_words config.now.gtid_domain
        → IsUnderway config.now (WithWords (B.did start board.old) first words.old) worker.old events things → MatchResult result
        (λ next. GoesSo config.now (WithWords (B.did start board.new) first words.new) worker.new events things next)
        (λ fault. Works config.now (WithWords (B.did start board.new) first words.new) (end_by fault)) }
    ensures counts { B.faults board.old ≤ B.faults board.new }
    ensures failed { IsErrOf result BoardFault.Failed → Rises (B.faults board.old) (B.faults board.new) }
{
    match worker.step(config) {
        Step::Idle => Ok(Next::Rests),
        Step::Spent => Ok(Next::Spent),
        Step::Act(action) => act(action, board),
        Step::Broken { session, farewell } => act(
            Action::ToClient {
                session,
                bytes: farewell,
            },
            board,
        ),
        Step::Call(call) => match call_out(&call, board, words) {
            Ok(next) => {
                worker.answer(words, config, selector);
                Ok(next)
            }
            Err(fault) => Err(fault),
        },
    }
}

/// The board takes an action.
fn act<B: Board>(action: Action, board: &mut B) -> Result<Next, BoardFault>
    ensures did { (start : B) (before : List Interaction) → B.did start board.old before Going → MatchResult result
        (λ next. B.did start board.new (before ++ Took action ∷ []) Going × (next ≡ Next.Goes))
        (λ fault. B.did start board.new (before ++ Took action ∷ []) (ActFailed fault)) }
    ensures counts { B.faults board.old ≤ B.faults board.new }
    ensures failed { IsErrOf result BoardFault.Failed → Rises (B.faults board.old) (B.faults board.new) }
{
    match board.act(action) {
        Ok(()) => Ok(Next::Goes),
        Err(fault) => Err(fault),
    }
}

/// The words take a step of the pool, and the board is told of it.
fn call_out<B: Board>(
    call: &PoolCall,
    board: &mut B,
    words: &mut PoolWords,
) -> Result<Next, BoardFault>
    requires can { CanStep words.old.last.domain (event_of call.now) }
    ensures did { (start : B) (before : List Interaction) → B.did start board.old before Going → MatchResult result
        (λ next. B.did start board.new (before ++ Told call.now ∷ []) Going × (next ≡ Next.Goes))
        (λ fault. B.did start board.new (before ++ Told call.now ∷ []) (ActFailed fault)) }
    ensures step { words.new ≡ pool_step words.old (event_of call.now) }
    ensures counts { B.faults board.old ≤ B.faults board.new }
    ensures failed { IsErrOf result BoardFault.Failed → Rises (B.faults board.old) (B.faults board.new) }
{
    words.apply(&call.event());
    match board.tell(call) {
        Ok(()) => Ok(Next::Goes),
        Err(fault) => Err(fault),
    }
}
