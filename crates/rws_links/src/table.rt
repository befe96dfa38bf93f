//! The links of a session, in a table.
//!
//! What a link is and does is said by `rws_link`, and what of it is kept, as a function of a record, by `link_of` of
//! specs/Links.antt. The table of a record is `link_of` of each of its links.
ghost use Rattle.std.specs.Prelude.{◌≡◌, ◌==◌, ◌<◌, ◌&&◌, ◌∷◌, ◌++◌, [], List, None, ℕ, IfOk, IfSome, OnErr, OnOk, MatchOption, length, count_by, map, true, if◌then◌else◌};
ghost use Rattle.std.specs.List.{list_any, position};
ghost use Rattle.rws_wire.specs.Packets.{spelling};
ghost use Rattle.rws_result.specs.declared.one_value.OneValue.TheVariants.{Begins};
ghost use Rattle.rws_link.specs.Stepping.{Rests};
ghost use Rattle.rws_link.specs.Linking.{is_awaiting, kept};
ghost use Rattle.rws_record.specs.Item.{Item, Purpose};
ghost use Rattle.rws_record.specs.Item.Item.{LinkBytes};
ghost use Rattle.rws_record.specs.Item.Purpose.{Asks, Plays};
ghost use Rattle.rws_record.specs.Rules.{is_ready, is_same};
ghost use Rattle.rws_record.specs.Values.{contains, is_up, linked};
ghost use Rattle.rws_commands.specs.Commands.{asked_under};
ghost use Rattle.rws_links.specs.Finding.{first_due, first_to, leads_to, owes_to};
ghost use Rattle.rws_links.specs.Links.{link_of, new_link, number_of};
ghost use Rattle.rws_links.specs.Table.{AreDistinct, IsSending, ReadiesOn, ReadsFirst, SendsOn, has_number, led, without_number};

use crate::coming::read_first;
use crate::finding::{first_due, first_to, load_of};
use crate::history::lead;
use crate::{Asked, Coming, Count, Due, LinkLogin, NumberedLink};
use rws_commands::{Command, HistoryEntry};
use rws_link::Link;
use rws_native::Login;
use rws_reply::Kind;
use rws_result::OneValue;
use rws_wire::{PayloadList, Text};
use std::alloc::{AllocError, Global};
use std::marker::Model;

/// The links that a session has, in the order in which they were opened.
///
/// Numbers are given once, and rise: the order is that of the numbers, and no number stands twice. A clause that speaks of a
/// record asks for the latter of the record's links, and each legal record has it.
///
/// `Err` is want of memory. The table then has the same links by number as before, and nothing more is known of them.
#[derive(Drop)]
pub struct LinkTable {
    links: Vec<NumberedLink>,
}

impl Model for LinkTable {
    ghost use Rattle.std.specs.Prelude.{List};
    ghost use Rattle.rws_links.specs.declared.numbered.NumberedLink.{NumberedLink};

    ghost Value = { List NumberedLink };

    ghost view = { λ t. t.links.items };
}

impl LinkTable {
    /// A table of one link, to a server of the settings, that is ready for commands.
    pub fn begin(alloc: Global, number: u64, server: u8) -> Result<LinkTable, AllocError>
        ensures { IfOk result (λ table. table ≡ record { number = number; server = server; is_up = true; asked = None; named = None; value = Begins; cursor = 0; link = kept Rests } ∷ []) }
    {
        let mut links = Vec::new(alloc);
        links.push(NumberedLink {
            number,
            server,
            is_up: true,
            asked: None,
            named: None,
            value: OneValue::Begins,
            cursor: 0,
            link: ready_link(alloc)?,
        })?;
        Ok(LinkTable { links })
    }

    /// A table of no links, which takes no memory.
    pub fn new(alloc: Global) -> LinkTable
        ensures { result ≡ [] }
    {
        LinkTable {
            links: Vec::new(alloc),
        }
    }

    /// A link to a server of the settings is opened, behind the others: it is to log in so, and isn't prepared. Numbers are given
    /// once, so none has this one; one that had it would be taken away.
    pub fn open(
        &mut self,
        alloc: Global,
        number: u64,
        server: u8,
        login: &LinkLogin,
    ) -> Result<(), AllocError>
        ensures ok { OnOk result (self.new ≡ without_number number self.old ++ new_link number server login.now ∷ []) }
        ensures err { OnErr result (map number_of self.new ≡ map number_of self.old) }
    {
        let link = login.link(alloc)?;
        self.links.reserve(1)?;
        self.links.retain(|link| !(link.number == number));
        self.links.push(NumberedLink {
            number,
            server,
            is_up: false,
            asked: None,
            named: None,
            value: OneValue::Begins,
            cursor: 0,
            link,
        })?;
        Ok(())
    }

    /// A link counts as ready for commands, if it is there and no byte came on it yet, and the answer is whether it was so.
    pub fn ready(&mut self, number: u64) -> bool
        ensures { (past : List Item) (links : List ℕ) → self.old ≡ map (link_of past) links → AreDistinct links
            → ReadiesOn number past links result self.new }
    {
        match self.place(number) {
            None => false,
            Some(at) => {
                let link = &mut self.links[at];
                link.ready()
            }
        }
    }

    /// The links themselves, in order of number.
    pub fn as_slice(&self) -> &[NumberedLink]
        ensures { result.now ≡ self.now }
    {
        self.links.as_slice()
    }

    /// The place of the link of this number.
    fn place(&self, number: u64) -> Option<usize>
        ensures place { result ≡ position (has_number number) self.now }
        ensures within { IfSome result (λ at. at < length self.now) }
    {
        self.links.iter().position(|link| link.number == number)
    }

    /// The table has a link of this number.
    pub fn has(&self, number: u64) -> bool
        ensures { result ≡ list_any (λ link. link.number == number) self.now }
    {
        self.links.iter().any(|link| link.number == number)
    }

    /// The table has a link of this number, and a reply is awaited there.
    pub fn awaits(&self, number: u64) -> bool
        ensures { result ≡ list_any (λ link. link.number == number && is_awaiting link.link) self.now }
    {
        self.links
            .iter()
            .any(|link| link.number == number && link.link.is_awaiting())
    }

    /// The link that the session has to a server, by its number: the first one.
    pub fn to_server(&self, server: u8) -> Option<u64>
        ensures { result ≡ first_to server self.now }
    {
        first_to(self.links.as_slice(), server)
    }

    /// How many links there are to a server.
    pub fn load(&self, server: u8) -> Count
        ensures links { result.links ≡ count_by (leads_to server) self.now }
        ensures pending { result.pending ≡ count_by (owes_to server) self.now }
    {
        load_of(self.links.as_slice(), server)
    }

    /// The first link on which something is due, in order of number: the preamble on one that is logged in and isn't prepared; an
    /// entry of the history, whose last one has the serial `last`, on one that is prepared, owes no reply and has some to play;
    /// and a command that waits for link `goes` on that one, behind those.
    pub fn due(&self, goes: Option<u64>, last: Option<u64>) -> Option<Due>
        ensures { result ≡ first_due goes last self.now }
    {
        first_due(self.links.as_slice(), goes, last)
    }

    /// Bytes came on a link: it holds them until it is read. On a link that isn't there they change nothing.
    pub fn feed(&mut self, number: u64, bytes: &[u8]) -> Result<(), AllocError>
        ensures ok { (past : List Item) (links : List ℕ) → self.old ≡ map (link_of past) links → AreDistinct links
            → OnOk result (self.new ≡ map (link_of (LinkBytes number bytes.now ∷ past)) links) }
        ensures err { OnErr result (map number_of self.new ≡ map number_of self.old) }
    {
        match self.place(number) {
            None => Ok(()),
            Some(at) => {
                let link = &mut self.links[at];
                link.feed(bytes)
            }
        }
    }

    /// Sends payloads on a link, each as a command of its own, of which the last is answered by a reply of this kind, if the link is
    /// there and may be sent them; the answer is whether they were. The preamble goes on a link that isn't prepared, and all else on
    /// one that is; it has logged in and owes no reply. What goes out for each payload is appended to `out`, as packets from the
    /// number 0 on. No payloads send nothing, and leave the link at rest.
    pub fn send(
        &mut self,
        number: u64,
        asked: Asked,
        payloads: &PayloadList,
        kind: Kind,
        out: &mut PayloadList,
    ) -> Result<bool, AllocError>
        ensures ok { (purpose : Purpose) (past : List Item) (links : List ℕ) → IsSending asked payloads.now kind purpose
            → self.old ≡ map (link_of past) links → AreDistinct links
            → IfOk result (λ went. SendsOn number purpose past links went self.new) }
        ensures out { IfOk result (λ went. out.new ≡ out.old ++ (if went then map (spelling 0) payloads.now else [])) }
        ensures numbers { map number_of self.new ≡ map number_of self.old }
    {
        let alloc = *self.links.allocator();
        match self.place(number) {
            None => Ok(false),
            Some(at) => {
                let link = &mut self.links[at];
                link.send(alloc, asked, payloads, kind, out)
            }
        }
    }

    /// Sends one payload in the same way. What goes out is appended to `out`.
    pub fn send_one(
        &mut self,
        number: u64,
        asked: Asked,
        payload: &[u8],
        kind: Kind,
        out: &mut Vec<u8>,
    ) -> Result<bool, AllocError>
        ensures ok { (purpose : Purpose) (past : List Item) (links : List ℕ) → IsSending asked (payload.now ∷ []) kind purpose
            → self.old ≡ map (link_of past) links → AreDistinct links
            → IfOk result (λ went. SendsOn number purpose past links went self.new) }
        ensures out { IfOk result (λ went. out.new.items ≡ out.old.items ++ (if went then spelling 0 payload.now else [])) }
        ensures numbers { map number_of self.new ≡ map number_of self.old }
    {
        match self.place(number) {
            None => Ok(false),
            Some(at) => {
                let link = &mut self.links[at];
                link.send_one(asked, payload, kind, out)
            }
        }
    }

    /// Sends a command of the client on a link, if that is there and may be sent one; the answer is whether it was. Its payloads are
    /// those by which the link's server is asked, which has this id for the statement of an execute.
    pub fn send_command(
        &mut self,
        number: u64,
        id: Option<u32>,
        command: &Command,
        payloads: &PayloadList,
        out: &mut PayloadList,
    ) -> Result<bool, AllocError>
        requires { payloads.now ≡ asked_under id command.now.body }
        ensures ok { (past : List Item) (links : List ℕ) → self.old ≡ map (link_of past) links → AreDistinct links
            → IfOk result (λ went. SendsOn number (Asks command.now id) past links went self.new) }
        ensures out { IfOk result (λ went. out.new ≡ out.old ++ (if went then map (spelling 0) payloads.now else [])) }
        ensures numbers { map number_of self.new ≡ map number_of self.old }
    {
        self.send(number, Asked::Command, payloads, command.kind, out)
    }

    /// Sends an entry of the history on a link, if that is there and may be sent one; the answer is whether it was.
    pub fn send_entry(
        &mut self,
        number: u64,
        entry: &HistoryEntry,
        out: &mut Vec<u8>,
    ) -> Result<bool, AllocError>
        ensures ok { (past : List Item) (links : List ℕ) → self.old ≡ map (link_of past) links → AreDistinct links
            → IfOk result (λ went. SendsOn number (Plays entry.now) past links went self.new) }
        ensures out { IfOk result (λ went. out.new.items ≡ out.old.items ++ (if went then spelling 0 entry.now.payload else [])) }
        ensures numbers { map number_of self.new ≡ map number_of self.old }
    {
        let asked = Asked::Entry {
            serial: entry.serial,
            statement: entry.statement,
        };
        let payload = entry.payload.as_slice();
        self.send_one(number, asked, payload, entry.kind, out)
    }

    /// Sends a command that has no reply on a link, if that is there, prepared and free; the answer is whether it was. The link stays
    /// as it is. What goes out is appended to `out`, as packets from the number 0 on.
    pub fn send_silent(
        &mut self,
        number: u64,
        payload: &[u8],
        out: &mut PayloadList,
    ) -> Result<bool, AllocError>
        ensures ok { (past : List Item) (links : List ℕ) → self.old ≡ map (link_of past) links → AreDistinct links
            → IfOk result (λ went.
            (went ≡ (contains number links && (is_same true (is_up number past) && is_ready (linked number past))))
            × (self.new ≡ self.old)) }
        ensures out { IfOk result (λ went. out.new ≡ out.old ++ (if went then spelling 0 payload.now ∷ [] else [])) }
        ensures numbers { map number_of self.new ≡ map number_of self.old }
    {
        let alloc = *self.links.allocator();
        match self.place(number) {
            None => Ok(false),
            Some(at) => {
                let link = &self.links[at];
                link.tell(alloc, payload, out)
            }
        }
    }

    /// A link led the entry of this serial: it has come behind it.
    pub fn lead(&mut self, number: u64, serial: u64) -> Result<(), AllocError>
        ensures ok { OnOk result (self.new ≡ map (led number serial) self.old) }
        ensures numbers { map number_of self.new ≡ map number_of self.old }
    {
        lead(self.links.as_mut_slice(), number, serial)
    }

    /// A link is lost, or given up: it is taken away, and what it holds is forgotten.
    pub fn remove(&mut self, number: u64)
        ensures { self.new ≡ without_number number self.old }
    {
        self.links.retain(|link| !(link.number == number));
    }

    /// Takes the first link away; the answer is its number. It takes no memory.
    pub fn take_first(&mut self) -> Option<u64>
        ensures { MatchOption result ((self.old ≡ []) × (self.new ≡ [])) (λ number. map number_of self.old ≡ number ∷ map number_of self.new) }
    {
        if self.links.is_empty() {
            return None;
        }
        Some(self.links.remove(0).number)
    }

    /// Asks the links in order of number, up to the first that has something to say. What it says is taken out of it: a whole reply
    /// without an error to the preamble has prepared it then, and with one to an entry it has played that.
    pub fn read(&mut self) -> Result<Option<Coming>, AllocError>
        ensures ok { (past : List Item) (links : List ℕ) → self.old ≡ map (link_of past) links → AreDistinct links
            → IfOk result (λ found. ReadsFirst past links found self.new) }
        ensures numbers { map number_of self.new ≡ map number_of self.old }
    {
        let alloc = *self.links.allocator();
        read_first(alloc, self.links.as_mut_slice())
    }
}

/// A link that counts as logged in. It never logs in, so its login names nobody.
fn ready_link(alloc: Global) -> Result<Link, AllocError>
    ensures { IfOk result (λ link. link ≡ kept Rests) }
{
    let nobody = Login {
        user: Text::empty(alloc),
        stage1: None,
        database: None,
        charset: 0,
        flags: 0,
    };
    let mut link = Link::new(alloc, &nobody)?;
    link.ready();
    Ok(link)
}
