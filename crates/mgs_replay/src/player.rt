// Runs the lines from the first `open` on.
ghost use Rattle.std.specs.Prelude.{◌≡◌, ◌++◌, ◌∷◌, ℕ, List, [], Some, OnOk, true};
ghost use Rattle.mgs_model.specs.World.{World};
ghost use Rattle.mgs_model.specs.Picture.{IsSize};
ghost use Rattle.mgs_replay.specs.declared.client.Client.TheVariants as client_states;
ghost use Rattle.mgs_script.specs.Lines.{line_view, Open, Keys, Close, said_in, needs_memory};
ghost use Rattle.mgs_replay.specs.Prints.{refusal_text};
ghost use Rattle.mgs_replay.specs.Clients.{client_of, shown_text};
ghost use Rattle.mgs_replay.specs.Players.{label as called, Has, playing, standing_of, had_session};
ghost use Rattle.mgs_replay.specs.Replayed.{closed};
ghost use Rattle.mgs_replay.specs.Turns.{TypesOne, Types, IsDue};
ghost use Rattle.mgs_replay.specs.Served.{client_opened, labels_in, session_in, player_of, clients_keyed, IsReady, IsWaiting, NotBad, Prints, Runs, RunsOn, RunsSaid, TypesLabel, short_or};

use crate::calls::{Server, byte, close, open, tell_all};
use crate::client::{Cause, Client};
use crate::clients::Clients;
use crate::print::{print_ended, print_refusal, print_screen};
use mgs_marks::Marked;
use mgs_model::{Keyed, Name, OpenFault, SessionId, Short};
use mgs_script::{Line, LineFault, read_line, typed_label};
use mgs_term::Term;
use std::alloc::{AllocError, Global};

fn printed(outcome: Result<(), AllocError>) -> Result<(), LineFault>
    ensures { result ≡ short_or outcome }
{
    outcome.map_err(|_| LineFault::Short)
}

fn played(outcome: Result<(), Short>) -> Result<(), LineFault>
    ensures { result ≡ short_or outcome }
{
    outcome.map_err(|_| LineFault::Short)
}

// Whether a label has had a session.
#[tactic(auto, using(crate::proofs::Events::standing_at))]
fn had_session(clients: &Clients, label: &Name) -> bool
    ensures { result ≡ had_session (standing_of label.now (labels_in clients.now)) }
{
    match clients.client(label) {
        None | Some(Client::Never) => false,
        Some(Client::Open { .. }) | Some(Client::Ended(_)) => true,
    }
}

// The open session of a label, if it has one.
#[tactic(auto, using(crate::proofs::Events::standing_at))]
fn session_of(clients: &Clients, label: &Name) -> Option<SessionId>
    ensures { result ≡ session_in label.now clients.now }
{
    match clients.client(label) {
        Some(Client::Open { id, .. }) => Some(*id),
        None | Some(Client::Never) | Some(Client::Ended(_)) => None,
    }
}

// The terminals take what waits for them, and each session that ended is told. `Short`: memory was refused to a tape.
fn hand_over<T: Marked + Drop>(
    alloc: Global,
    server: &mut Server<T>,
    clients: &mut Clients,
) -> Result<(), Short>
    requires { IsWaiting server.old clients.old }
    ensures ready { OnOk result (IsReady server.new clients.new) }
    ensures world { OnOk result (server.new.world ≡ server.old.world) }
    ensures labels { OnOk result (labels_in clients.new ≡ labels_in clients.old) }
{
    match clients.take_all(alloc, server) {
        Ok(()) => tell_all(alloc, server),
        Err(Short) => Err(Short),
    }
}

// A session that was opened gets its label and its terminal, which takes the first bytes.
fn client_session<T: Marked + Drop>(
    alloc: Global,
    server: &mut Server<T>,
    clients: &mut Clients,
    label: Name,
    id: SessionId,
    rows: usize,
    cols: usize,
) -> Result<(), LineFault>
    requires size { IsSize rows cols }
    requires waiting { IsWaiting server.old (clients.old ++ client_opened label id rows cols ∷ []) }
    ensures ready { OnOk result (IsReady server.new clients.new) }
    ensures world { OnOk result (server.new.world ≡ server.old.world) }
    ensures labels { OnOk result (labels_in clients.new ≡ labels_in clients.old ++ called label (Has id) ∷ []) }
    ensures fault { NotBad result }
{
    let Ok(term) = Term::new(alloc, rows, cols) else {
        return Err(LineFault::Short);
    };
    if clients.add(label, Client::Open { id, term }).is_err() {
        return Err(LineFault::Short);
    }
    played(hand_over(alloc, server, clients))
}

// An open that was refused uses the label up.
fn refuse_open(
    clients: &mut Clients,
    out: &mut Vec<u8>,
    label: Name,
    fault: OpenFault,
) -> Result<(), LineFault>
    ensures clients { OnOk result (clients.new ≡ clients.old ++ record { label = label; client = client_states.Never } ∷ []) }
    ensures out { OnOk result (out.new.items ≡ out.old.items ++ refusal_text label fault) }
    ensures fault { NotBad result }
{
    if clients.add(label, Client::Never).is_err() {
        return Err(LineFault::Short);
    }
    printed(print_refusal(out, &label, fault))
}

fn open_line<T: Marked + Drop>(
    alloc: Global,
    server: &mut Server<T>,
    clients: &mut Clients,
    out: &mut Vec<u8>,
    label: Name,
    user: &str,
    rows: usize,
    cols: usize,
) -> Result<(), LineFault>
    requires { IsReady server.old clients.old }
    ensures ready { OnOk result (IsReady server.new clients.new) }
    ensures runs { RunsOn result server.old clients.old (Open label user.now rows cols) server.new clients.new out.old.items out.new.items }
{
    if clients.client(&label).is_some() {
        return Err(LineFault::Bad);
    }
    let Ok(answer) = open(alloc, server, user, rows, cols) else {
        return Err(LineFault::Short);
    };
    match answer {
        Ok(id) => client_session(alloc, server, clients, label, id, rows, cols),
        Err(fault) => refuse_open(clients, out, label, fault),
    }
}

// A byte that ended its session ends the label's.
fn end_if_quit(clients: &mut Clients, label: &Name, keyed: Keyed)
    ensures { clients.new ≡ clients_keyed keyed label.now clients.old }
{
    match keyed {
        Keyed::Quit => clients.end(label, Cause::Quit),
        Keyed::Done | Keyed::NoSession | Keyed::Short => {}
    }
}

// One byte of the open session of a label. Where it ends the session, it ends the label's.
fn type_key<T: Marked + Drop>(
    alloc: Global,
    server: &mut Server<T>,
    clients: &mut Clients,
    label: &Name,
    id: SessionId,
    key: u8,
) -> Result<(), Short>
    requires ready { IsReady server.old clients.old }
    requires session { session_in label.now clients.old ≡ Some id }
    ensures ready { OnOk result (IsReady server.new clients.new) }
    ensures types { OnOk result (TypesOne (Some id) (player_of server.old clients.old) label.now key (player_of server.new clients.new)) }
{
    match byte(alloc, server, id, key) {
        Ok(keyed) => {
            end_if_quit(clients, label, keyed);
            hand_over(alloc, server, clients)
        }
        Err(Short) => Err(Short),
    }
}

// One byte of a label; none where its session ended.
fn type_one<T: Marked + Drop>(
    alloc: Global,
    server: &mut Server<T>,
    clients: &mut Clients,
    label: &Name,
    key: u8,
) -> Result<(), Short>
    requires { IsReady server.old clients.old }
    ensures ready { OnOk result (IsReady server.new clients.new) }
    ensures types { OnOk result (TypesLabel server.old clients.old label.now key server.new clients.new) }
{
    match session_of(clients, label) {
        Some(id) => type_key(alloc, server, clients, label, id, key),
        None => Ok(()),
    }
}

#[tactic(auto, using(crate::proofs::Players::types_none))]
fn type_all<T: Marked + Drop>(
    alloc: Global,
    server: &mut Server<T>,
    clients: &mut Clients,
    label: &Name,
    keys: &[u8],
) -> Result<(), Short>
    requires { IsReady server.old clients.old }
    ensures ready { OnOk result (IsReady server.new clients.new) }
    ensures types { OnOk result (Types (player_of server.old clients.old) label.now keys.now (player_of server.new clients.new)) }
{
    for key in keys {
        match type_one(alloc, server, clients, label, *key) {
            Ok(()) => {}
            Err(Short) => return Err(Short),
        }
    }
    Ok(())
}

fn show_line(clients: &Clients, out: &mut Vec<u8>, label: &Name) -> Result<(), LineFault>
    ensures { Prints result out.old.items out.new.items (shown_text label.now (client_of label.now clients.now)) }
{
    match clients.client(label) {
        None | Some(Client::Never) => Err(LineFault::Bad),
        Some(Client::Open { term, .. }) => printed(print_screen(out, label, term)),
        Some(Client::Ended(cause)) => printed(print_ended(out, label, *cause)),
    }
}

fn close_session<T: Marked + Drop>(
    alloc: Global,
    server: &mut Server<T>,
    clients: &mut Clients,
    label: &Name,
    id: SessionId,
) -> Result<(), Short>
    requires ready { IsReady server.old clients.old }
    requires session { session_in label.now clients.old ≡ Some id }
    ensures ready { OnOk result (IsReady server.new clients.new) }
    ensures closes { OnOk result (player_of server.new clients.new ≡ closed (Some id) (player_of server.old clients.old) label.now) }
{
    match close(alloc, server, id) {
        Ok(()) => {
            clients.end(label, Cause::Closed);
            hand_over(alloc, server, clients)
        }
        Err(Short) => Err(Short),
    }
}

// Closes the session of a label, where it is open.
fn close_label<T: Marked + Drop>(
    alloc: Global,
    server: &mut Server<T>,
    clients: &mut Clients,
    label: &Name,
) -> Result<(), Short>
    requires { IsReady server.old clients.old }
    ensures ready { OnOk result (IsReady server.new clients.new) }
    ensures closes { OnOk result (player_of server.new clients.new ≡ closed (session_in label.now clients.old) (player_of server.old clients.old) label.now) }
{
    match session_of(clients, label) {
        Some(id) => close_session(alloc, server, clients, label, id),
        None => Ok(()),
    }
}

#[tactic(auto, using(crate::proofs::Players::types_run))]
fn keys_line<T: Marked + Drop>(
    alloc: Global,
    server: &mut Server<T>,
    clients: &mut Clients,
    label: &Name,
    keys: &[u8],
) -> Result<(), LineFault>
    requires { IsReady server.old clients.old }
    ensures ready { OnOk result (IsReady server.new clients.new) }
    ensures runs { (out : List ℕ) → Runs result (player_of server.old clients.old) (Keys label.now keys.now) (player_of server.new clients.new) out out }
{
    if !had_session(clients, label) {
        return Err(LineFault::Bad);
    }
    played(type_all(alloc, server, clients, label, keys))
}

#[tactic(auto, using(crate::proofs::Players::closes_run))]
fn close_line<T: Marked + Drop>(
    alloc: Global,
    server: &mut Server<T>,
    clients: &mut Clients,
    label: &Name,
) -> Result<(), LineFault>
    requires { IsReady server.old clients.old }
    ensures ready { OnOk result (IsReady server.new clients.new) }
    ensures runs { (out : List ℕ) → Runs result (player_of server.old clients.old) (Close label.now) (player_of server.new clients.new) out out }
{
    if !had_session(clients, label) {
        return Err(LineFault::Bad);
    }
    played(close_label(alloc, server, clients, label))
}

// A line from the first `open` on. What it prints is put after `out`.
#[tactic(auto, using(crate::proofs::Players::nothing_run))]
fn run_line<T: Marked + Drop>(
    alloc: Global,
    server: &mut Server<T>,
    clients: &mut Clients,
    out: &mut Vec<u8>,
    line: &Line,
) -> Result<(), LineFault>
    requires { IsReady server.old clients.old }
    ensures ready { OnOk result (IsReady server.new clients.new) }
    ensures runs { Runs result (player_of server.old clients.old) (line_view line.now) (player_of server.new clients.new) out.old.items out.new.items }
{
    match line {
        Line::Nothing => Ok(()),
        Line::Open {
            label,
            user,
            rows,
            cols,
        } => open_line(alloc, server, clients, out, *label, user, *rows, *cols),
        Line::Keys { label, keys } => keys_line(alloc, server, clients, label, keys),
        Line::Show { label } => show_line(clients, out, label),
        Line::Close { label } => close_line(alloc, server, clients, label),
        Line::User { .. }
        | Line::Group { .. }
        | Line::Buffer { .. }
        | Line::OwnGroup { .. }
        | Line::Entry { .. }
        | Line::Text { .. } => Err(LineFault::Bad),
    }
}

// Why a line is not run that memory was refused to read: of groups, texts and keys, only keys of a label that had a
// session are not refused.
fn unread_fault(clients: &Clients, line: &[u8]) -> LineFault
    requires { needs_memory (said_in line.now) ≡ true }
    ensures { (w : World) → IsDue result (said_in line.now) (playing w (labels_in clients.now)) }
{
    match typed_label(line) {
        None => LineFault::Bad,
        Some(label) => {
            if had_session(clients, &label) {
                LineFault::Short
            } else {
                LineFault::Bad
            }
        }
    }
}

/// Runs a line of a script, from the first `open` on, as it stands in the script. What it prints is put after `out`.
///
/// `Bad`: the line is refused. It says nothing that is known, sets users or buffers, opens a label that was used, or
/// names one that had no session. `Short` is out of memory, which comes only where the line is not refused. Nothing is
/// said of what these two leave.
pub(crate) fn step_line<T: Marked + Drop>(
    alloc: Global,
    server: &mut Server<T>,
    clients: &mut Clients,
    out: &mut Vec<u8>,
    line: &[u8],
) -> Result<(), LineFault>
    requires { IsReady server.old clients.old }
    ensures ready { OnOk result (IsReady server.new clients.new) }
    ensures runs { RunsSaid result (player_of server.old clients.old) (said_in line.now) (player_of server.new clients.new) out.old.items out.new.items }
{
    match read_line(alloc, line) {
        Ok(line) => run_line(alloc, server, clients, out, &line),
        Err(LineFault::Bad) => Err(LineFault::Bad),
        Err(LineFault::Short) => Err(unread_fault(clients, line)),
    }
}
