// Runs the lines of a script.
ghost use Rattle.std.specs.Prelude.{◌≡◌, ◌+◌, ◌≤◌, [], Some, length, OnOk, IfOk, IfSome, true};
ghost use Rattle.mgs_replay.specs.Faults.{fault_of, end_at, IsPlayed, IsSet};
ghost use Rattle.mgs_script.specs.Lines.{said_in, needs_memory};
ghost use Rattle.mgs_model.specs.World.{World};
ghost use Rattle.mgs_script.specs.Scripts.{lines_of};
ghost use Rattle.mgs_replay.specs.Players.{setting, playing};
ghost use Rattle.mgs_replay.specs.Replayed.{Written};
ghost use Rattle.mgs_replay.specs.Served.{IsReady, TurnsLine};
ghost use Rattle.mgs_replay.specs.Turns.{IsDue, PlaysOn, SetsSaid, SetUp};

use crate::calls::Server;
use crate::clients::Clients;
use crate::player::step_line;
use crate::script::ReplayFault;
use crate::setup::Setup;
use mgs_engine::Engine;
use mgs_marks::Marked;
use mgs_model::{SCRIPT_LIMIT, Short};
use mgs_script::{Line, LineFault, cut_line, read_line, typed_label};
use std::alloc::Global;
use std::io::Write;

/// Why a line ended a replay.
#[derive(Clone, Copy, PartialEq, Eq)]
enum TurnFault {
    /// It is no line of a script, or says what cannot be.
    Refused,
    /// Writing failed.
    Write,
    /// Out of memory.
    Short,
}

fn turn_fault(fault: LineFault) -> TurnFault
    ensures { result ≡ fault_of fault }
{
    match fault {
        LineFault::Bad => TurnFault::Refused,
        LineFault::Short => TurnFault::Short,
    }
}

// How a replay ends by a fault of the line of that number.
fn ended_at(number: usize, fault: TurnFault) -> ReplayFault
    ensures { result ≡ end_at number fault }
{
    match fault {
        TurnFault::Refused => ReplayFault::Line(number),
        TurnFault::Write => ReplayFault::Write,
        TurnFault::Short => ReplayFault::Short,
    }
}

// A line, and what it prints.
fn turn<T: Marked + Drop, W: Write>(
    alloc: Global,
    server: &mut Server<T>,
    clients: &mut Clients,
    out: &mut Vec<u8>,
    line: &[u8],
    writer: &mut W,
) -> Result<(), TurnFault>
    requires { IsReady server.old clients.old }
    ensures ready { OnOk result (IsReady server.new clients.new) }
    ensures turned { TurnsLine result server.old clients.old line.now server.new clients.new (W.contents writer.old) (W.contents writer.new) }
{
    out.clear();
    match step_line(alloc, server, clients, out, line) {
        Ok(()) => match writer.write_all(out.as_slice()) {
            Ok(()) => Ok(()),
            Err(_) => Err(TurnFault::Write),
        },
        Err(fault) => Err(turn_fault(fault)),
    }
}

// The lines from the first `open` on, which is line `first`.
fn run_lines<T: Marked + Drop, W: Write>(
    alloc: Global,
    server: &mut Server<T>,
    text: &[u8],
    first: usize,
    writer: &mut W,
) -> Result<(), ReplayFault>
    requires sessions { server.old.world.sessions ≡ [] }
    requires queues { server.old.queues ≡ [] }
    requires ended { server.old.ended ≡ [] }
    requires first { 1 ≤ first }
    requires counted { first + length text.now ≤ SCRIPT_LIMIT + 1 }
    ensures line { IsPlayed result }
    ensures written { PlaysOn result first (playing server.old.world []) (lines_of text.now) (W.contents writer.old) (W.contents writer.new) }
{
    let mut clients = Clients::new(alloc);
    let mut out = Vec::new(alloc);
    let mut rest = Some(text);
    let mut number = first;
    while let Some(text) = rest {
        let (line, later) = cut_line(text);
        match turn(alloc, server, &mut clients, &mut out, line, writer) {
            Ok(()) => {}
            Err(fault) => return Err(ended_at(number, fault)),
        }
        rest = later;
        number += 1;
    }
    Ok(())
}

// Why a line before the first `open` is not run that memory was refused to read: keys are refused there.
fn unread_setting_fault(line: &[u8]) -> LineFault
    requires { needs_memory (said_in line.now) ≡ true }
    ensures { (w : World) → IsDue result (said_in line.now) (setting w) }
{
    match typed_label(line) {
        Some(_) => LineFault::Bad,
        None => LineFault::Short,
    }
}

// A line before the first `open`. False: it is that one, and not run.
fn set_line<'a>(alloc: Global, setup: &mut Setup<'a>, line: &'a [u8]) -> Result<bool, LineFault>
    ensures { SetsSaid result (said_in line.now) setup.old setup.new }
{
    match read_line(alloc, line) {
        Ok(Line::Open { .. }) => Ok(false),
        Ok(line) => match setup.run(line) {
            Ok(()) => Ok(true),
            Err(fault) => Err(fault),
        },
        Err(LineFault::Bad) => Err(LineFault::Bad),
        Err(LineFault::Short) => Err(unread_setting_fault(line)),
    }
}

// Runs the lines before the first `open`: its number, and the script from it on, if there is one.
#[tactic(auto, using(crate::proofs::Standing::leads_first))]
fn set_up<'a>(
    alloc: Global,
    setup: &mut Setup<'a>,
    script: &'a [u8],
) -> Result<Option<(usize, &'a [u8])>, ReplayFault>
    requires { length script.now ≤ SCRIPT_LIMIT }
    ensures line { IsSet result }
    ensures first { IfOk result (λ o. IfSome o (λ p. 1 ≤ p.0)) }
    ensures counted { IfOk result (λ o. IfSome o (λ p. p.0 + length p.1.now ≤ SCRIPT_LIMIT + 1)) }
    ensures sets { SetUp (λ x. x.now) result setup.old script.now setup.new }
{
    let mut rest = Some(script);
    let mut number = 1usize;
    while let Some(text) = rest {
        let (line, later) = cut_line(text);
        match set_line(alloc, setup, line) {
            Ok(true) => {}
            Ok(false) => return Ok(Some((number, text))),
            Err(fault) => return Err(ended_at(number, turn_fault(fault))),
        }
        rest = later;
        number += 1;
    }
    Ok(None)
}

// The engine over the users and buffers that were set.
fn server_of<T: Marked + Drop>(alloc: Global, setup: Setup) -> Result<Server<T>, Short>
    ensures world { IfOk result (λ e. e.world ≡ setup.entry) }
    ensures sessions { IfOk result (λ e. e.world.sessions ≡ []) }
    ensures queues { IfOk result (λ e. e.queues ≡ []) }
    ensures ended { IfOk result (λ e. e.ended ≡ []) }
{
    let core = setup.into_core()?;
    Engine::new(alloc, core)
}

/// Runs the lines of a script over a server that has nothing yet, and writes what they print, line by line.
///
/// `Line` is the first line that is refused; what the lines before it print is written. `Write`: writing fails, and
/// nothing is said of what was written. `Short`: memory is refused at a line that is not refused, or at the line of a
/// group or a text before the first `open`; what the lines before it print is written.
pub(crate) fn play<T: Marked + Drop, W: Write>(
    alloc: Global,
    script: &[u8],
    writer: &mut W,
) -> Result<(), ReplayFault>
    requires { length script.now ≤ SCRIPT_LIMIT }
    ensures line { IsPlayed result }
    ensures written { Written script.now (W.contents writer.old) (W.contents writer.new) result }
{
    let mut setup = Setup::new(alloc);
    match set_up(alloc, &mut setup, script) {
        Ok(None) => Ok(()),
        Ok(Some((number, text))) => match server_of::<T>(alloc, setup) {
            Ok(mut server) => run_lines(alloc, &mut server, text, number, writer),
            Err(Short) => Err(ReplayFault::Short),
        },
        Err(fault) => Err(fault),
    }
}
