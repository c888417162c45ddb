// Playing back a hall's link log: after each event, whether some minimal cut is wholly down. `replay` takes whatever it is given.
#![tactic(auto)]

ghost use Rattle.std.specs.Prelude.{◌≡◌, ◌≤◌, ◌<◌, length};
ghost use Rattle.sequences.specs.Words.{onto};
ghost use Rattle.network.specs.Refusals.{refusal_of, answer_of};
ghost use Rattle.network.specs.Record.{present};
ghost use Rattle.replay.specs.Log.{event_count, changed, change_of, event_fault, log_fault};
ghost use Rattle.replay.specs.Replay.{silent_bytes, replayed, replayed_by, silent_after, ReplayMeans};

use connectivity::{settled, severed};
use edge_set::EdgeSet;
use network::{Accepted, Network, Refusal, accept};
use sets::BitSet;

// The commands of a log.
const DOWN: u8 = 0x44;

const UP: u8 = 0x55;

// What an event's command says of its edge.
#[derive(Clone, Copy)]
enum Change {
    Down,
    Up,
}

impl TryFrom<u8> for Change {
    type Error = Refusal;

    ghost try_from_gives = { λ command answer. answer ≡ change_of command };

    fn try_from(command: u8) -> Result<Change, Refusal> {
        match command {
            DOWN => Ok(Change::Down),
            UP => Ok(Change::Up),
            _ => Err(Refusal::BadEvent),
        }
    }
}

// The fault of an event, where these edges are present: 16, then 17.
fn event_fault(present: EdgeSet, command: u8, edge: u8) -> Result<(), Refusal>
    ensures { refusal_of result ≡ event_fault present.0 command edge }
{
    Change::try_from(command)?;
    if !present.contains(edge as u32) {
        return Err(Refusal::NoSuchEdge);
    }
    Ok(())
}

// The first fault of a log, event by event; then that of half an event.
fn log_fault(present: EdgeSet, log: &[u8]) -> Result<(), Refusal>
    ensures { refusal_of result ≡ log_fault present.0 log.now }
{
    // By index and not by pairs: the edit replay_first_event_not_checked begins with the second event.
    for i in 0..log.len() / 2 {
        event_fault(present, log[2 * i], log[2 * i + 1])?;
    }
    let half = log.len() % 2 != 0;
    if half {
        return Err(Refusal::BadEvent);
    }
    Ok(())
}

// The edges down after an event: down adds the edge, up takes it away. Every command of a log without fault is one of the two.
fn changed(down: EdgeSet, command: u8, edge: u8) -> EdgeSet
    requires { edge < 64 }
    ensures { result.0 ≡ changed command down.0 edge }
{
    match Change::try_from(command) {
        Ok(Change::Down) => down.with(edge as u32),
        _ => down.without(edge as u32),
    }
}

// Plays back a log without fault. The room's state before an event is known, so that a spread is made only where it can change.
fn play(accepted: Accepted, log: &[u8], silent: &mut [u8])
    requires { (log_fault (present accepted.network) log.now ≡ 0) × (event_count log.now ≤ length silent.old) }
    ensures { silent.new ≡ onto (silent_bytes accepted.network log.now) silent.old }
{
    let events = log.len() / 2;
    let mut down = EdgeSet::empty();
    let mut severs = severed(accepted, down);
    // By index, as in `log_fault`, and not by `iter_mut` beside the events: what is written through both no proof knows afterwards.
    for i in 0..events {
        let next = changed(down, log[2 * i], log[2 * i + 1]);
        // The two sets stand here, and not in a struct that a drill and a week of works share: replay_settled_backwards exchanges them.
        if !settled(severs, down, next) {
            severs = severed(accepted, next);
        }
        down = next;
        silent[i] = severs as u8;
    }
}

// Plays a log back: one byte for each event, 1 if some minimal cut is wholly down after it, else 0; gives their count. The record's first
// fault, then 18, then the log's first fault, 16 or 17; on refusal no byte changes.
pub fn replay(network: Network, log: &[u8], silent: &mut [u8]) -> Result<usize, Refusal>
    ensures value { (replayed result ≡ replayed_by network log.now silent.old)
        × (silent.new ≡ silent_after network log.now silent.old) }
    ensures means { ReplayMeans network log.now silent.old (refusal_of result) (answer_of 0 result) silent.new }
{
    let accepted = accept(network)?;
    let events = log.len() / 2;
    if silent.len() < events {
        return Err(Refusal::TooManyEvents);
    }
    log_fault(network.present, log)?;
    play(accepted, log, silent);
    Ok(events)
}
