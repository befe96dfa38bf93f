//! The pool words as sixteen numbers, and back. The domain isn't among them.
ghost use Rattle.std.specs.Prelude.{◌≡◌, ◌^◌, ◌<◌, slice_index};
ghost use Rattle.rws_pool.specs.declared.words.PoolWords.{PoolWords};
ghost use Rattle.rws_pool.specs.declared.words.State.{State};
ghost use Rattle.rws_cell.specs.Packing.{code_of, packed_words};

use rws_gtid::Gtid;
use rws_pool::{PoolWords, Seen, State};

/// The server and the sequence of the last commit, then each server's state and position.
pub fn pack(words: &PoolWords) -> [u64; 16]
    ensures words { result ≡ packed_words words.now }
    ensures narrow { slice_index result 0 < 2 ^ 32 }
{
    let last = words.last;
    let [a, b, c, d, e, f, g] = words.servers;
    [
        u64::from(last.server),
        last.sequence,
        code_of(a.state),
        a.position,
        code_of(b.state),
        b.position,
        code_of(c.state),
        c.position,
        code_of(d.state),
        d.position,
        code_of(e.state),
        e.position,
        code_of(f.state),
        f.position,
        code_of(g.state),
        g.position,
    ]
}

/// The words of this domain that were packed.
pub fn unpack(domain: u32, packed: &[u64; 16]) -> PoolWords
    requires { slice_index packed.now 0 < 2 ^ 32 }
    ensures domain { result.last.domain ≡ domain }
    ensures words { (words : PoolWords) → words.last.domain ≡ domain → packed.now ≡ packed_words words → result ≡ words }
{
    let [
        server,
        sequence,
        a,
        a_at,
        b,
        b_at,
        c,
        c_at,
        d,
        d_at,
        e,
        e_at,
        f,
        f_at,
        g,
        g_at,
    ] = *packed;
    PoolWords {
        last: Gtid {
            domain,
            server: server as u32,
            sequence,
        },
        servers: [
            seen(a, a_at),
            seen(b, b_at),
            seen(c, c_at),
            seen(d, d_at),
            seen(e, e_at),
            seen(f, f_at),
            seen(g, g_at),
        ],
    }
}

fn seen(code: u64, position: u64) -> Seen
    ensures state { (state : State) → code ≡ code_of state → result.state ≡ state }
    ensures position { result.position ≡ position }
{
    Seen {
        state: state_of(code),
        position,
    }
}

fn code_of(state: State) -> u64
    ensures { result ≡ code_of state }
{
    match state {
        State::Down => 0,
        State::Running => 1,
        State::Slave => 2,
        State::Master => 3,
        State::Maintenance => 4,
    }
}

fn state_of(code: u64) -> State
    ensures { (state : State) → code ≡ code_of state → result ≡ state }
{
    match code {
        1 => State::Running,
        2 => State::Slave,
        3 => State::Master,
        4 => State::Maintenance,
        _ => State::Down,
    }
}
