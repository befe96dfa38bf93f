//! Laws about a session's record. Each function does nothing; its contract is the law, which is proved with it.
ghost use Rattle.rws_laws.specs.Laws.{Answered, AnsweredInRuns, Causes, CausesInRuns, CountsItsLog, ExecutesKeepTheirForm, GoesWhereFound, IdsAreOfTheLink, NoChangeInReadOnly, NothingBehindHidden, OneLinkEach, OneQuestionARoute, OnlyPreparesLeave, PassesBehindRecords, PinnedTakesNoRoute, PlaysInOrder, ProbesForWhatIsWanted, ReadsSeeCommits, RecordsFirst, SetsBeforeItAsks, SetsInOrder, StaysOnItsLink, WaitsForWhatIsWanted, WholeReplies, WritesAtPrimary};

/// All that a session read, told, opened, sent, dropped and closed has its cause in what stands below it: in the bytes of the
/// client and of its links.
pub fn causes()
    ensures records { Causes }
    ensures runs { CausesInRuns }
{}

/// A client that is passed a reply's end has a whole reply to its command, in the form for a client that doesn't track the
/// session's state.
pub fn replies_are_whole()
    ensures { WholeReplies }
{}

/// A session that rests, and waits for no answer of its worker, has answered all that it can answer, and has no link left if it
/// is over.
pub fn has_answered()
    ensures records { Answered }
    ensures runs { AnsweredInRuns }
{}

/// Before a client's command goes on a link, the session's history was set there, whole and in order; what has set the session there beside
/// it are prepares of statements that have left.
pub fn links_are_set_alike()
    ensures asked { SetsBeforeItAsks }
    ensures front { SetsInOrder }
    ensures left { OnlyPreparesLeave }
    ensures played { PlaysInOrder }
{}

/// A session has at most one link to a server.
pub fn one_link_each()
    ensures { OneLinkEach }
{}

/// A session that isn't pinned to a link sends a command to the server that the command's last route found.
pub fn goes_where_found()
    ensures { GoesWhereFound }
{}

/// A session that is pinned to a link sends the client's commands there, and takes no route.
pub fn stays_on_its_link()
    ensures sends { StaysOnItsLink }
    ensures routes { PinnedTakesNoRoute }
{}

/// A transaction that may write is open at the server that the last route gave as primary.
pub fn writes_at_primary()
    ensures { WritesAtPrimary }
{}

/// While a read-only transaction is open, a command that may change something is sent to no server, and neither is a setting for which
/// the history has no room.
pub fn no_change_in_read_only()
    ensures { NoChangeInReadOnly }
{}

/// How many bytes count for a transaction is how many the commands of its log have.
pub fn counts_its_log()
    ensures { CountsItsLog }
{}

/// Where a link is lost, and with it what became of a command that may have changed something, the session sends nothing more.
pub fn nothing_behind_hidden()
    ensures { NothingBehindHidden }
{}

/// What goes on a link for an execute of a prepared statement is what the client asked to be run, under an id that the link's server
/// gave to the statement.
pub fn executes_keep_their_form()
    ensures form { ExecutesKeepTheirForm }
    ensures own { IdsAreOfTheLink }
{}

/// A commit that a server names is told to the words of the pool before anything else is done about its reply, so before a client
/// knows of the commit.
pub fn records_come_first()
    ensures next { RecordsFirst }
    ensures passed { PassesBehindRecords }
{}

/// A server is asked something before a command only where the command reads, and is to see a commit that the server isn't known to
/// have; and at most once for each time that the command is routed.
pub fn asks_first_what_is_wanted()
    ensures waits { WaitsForWhatIsWanted }
    ensures probes { ProbesForWhatIsWanted }
    ensures once { OneQuestionARoute }
{}

/// A command that only reads goes to a server that has what the settings say it is to see.
pub fn reads_see_commits()
    ensures { ReadsSeeCommits }
{}
