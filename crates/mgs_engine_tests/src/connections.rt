// Connections of an engine: how they end, and what the others see then.
use crate::fixtures::{Server, is_open, press, serve, show, sit, take};
use crate::wire::{Narrow, five_taker};
use mgs_engine::Cause;
use mgs_model::{Keyed, SessionId, Tickets};
use mgs_wire::{Conn, PumpedIn, PumpedOut, pump_in, pump_out};
use std::alloc::Global;
use std::io::{ErrorKind, Write};
use std::process::Abort;
use std::test::Fail;

const LOGIN: &[u8] = b"login ann t1 6 20\n";

// A connection of ann, and the session of bob, who shares her buffer.
#[derive(Drop)]
struct Shared {
    conn: Conn,
    server: Server,
    tickets: Tickets,
    bob: SessionId,
}

impl Shared {
    fn new(alloc: Global, rt: &impl Abort) -> Result<Shared, Fail> {
        let list = ["ALLOW OWNER@ rwatdcCo", "ALLOW bob rwat"];
        let mut server = serve(alloc, &list, &[], rt);
        let bob = sit(&mut server, "bob", 6, 20, rt);
        let mut tickets = Tickets::new(alloc);
        tickets.add("ann", "t1")?;
        Ok(Shared {
            conn: Conn::new(alloc)?,
            server,
            tickets,
            bob,
        })
    }

    // Reads once.
    fn read(&mut self, bytes: &[u8]) -> PumpedIn {
        let mut reader = bytes;
        pump_in(&mut self.conn, &mut self.server, &self.tickets, &mut reader)
    }

    fn write<W: Write>(&mut self, writer: &mut W) -> PumpedOut {
        pump_out(&mut self.conn, &mut self.server, writer)
    }

    // How ann's session ended, which is the only one that is to be told. None: it has not.
    fn cause(&mut self) -> Option<Cause> {
        let (id, cause) = self.server.ended()?;
        if self.conn.session() == Some(id) && self.server.ended().is_none() {
            Some(cause)
        } else {
            None
        }
    }

    // Whether bob's session goes on, and his terminal shows this screen and this cursor.
    fn bob_sees(&mut self, alloc: Global, screen: &str, cursor: (usize, usize)) -> bool {
        let mut taken = Vec::new(alloc);
        take(&mut self.server, self.bob, 100_000, &mut taken);
        is_open(&self.server, self.bob) && show(alloc, &taken, screen, cursor)
    }
}

// Whether a reader that ends behind these keys has ended the session, and left the text as they left it.
fn ends_behind(alloc: Global, keys: &[u8], rt: &impl Abort) -> Result<bool, Fail> {
    let mut shared = Shared::new(alloc, rt)?;
    let opened = shared.read(LOGIN);
    let typed = shared.read(keys);
    let ended = shared.read(&[]);
    Ok(
        opened == PumpedIn::Took(LOGIN.len())
            && typed == PumpedIn::Took(keys.len())
            && ended == PumpedIn::Finished
            && shared.cause() == Some(Cause::Closed)
            && shared.bob_sees(alloc, "hi | -**-notes-L1-C0-----", (1, 1)),
    )
}

#[test]
fn readers_end_behind_half_read_keys_and_in_prompts(rt: HostRuntime) -> Result<(), Fail> {
    let half_read: [&[u8]; 4] = [b"hi\x1b", b"hi\x18", b"hi\x1bx", b"hi\x18bpl"];
    for &keys in &half_read {
        assert!(rt; ends_behind(rt.alloc(), keys, &rt)?);
    }
    Ok(())
}

#[test]
fn a_failing_writer_closes_its_session_alone(rt: HostRuntime) -> Result<(), Fail> {
    let mut shared = Shared::new(rt.alloc(), &rt)?;
    let _ = shared.read(LOGIN);
    let mut writer = five_taker(rt.alloc(), Some(ErrorKind::BrokenPipe));
    let answer = shared.write(&mut writer);
    assert!(rt; answer == PumpedOut::Failed && writer.taken.len() == 5);
    assert!(rt; shared.cause() == Some(Cause::Closed));
    let bob = shared.bob;
    assert!(rt; press(&mut shared.server, bob, b"hi") == Keyed::Done);
    assert!(rt; shared.bob_sees(rt.alloc(), "hi | -**-notes-L1-C2-----", (1, 3)));
    Ok(())
}

// A writer that took what is written five bytes at a time, and would block behind each five.
fn written_in_fives(alloc: Global, shared: &mut Shared) -> Narrow {
    let mut writer = five_taker(alloc, Some(ErrorKind::WouldBlock));
    for _ in 0..100 {
        if shared.write(&mut writer) == PumpedOut::Blocked {
            writer.room = 5;
        }
    }
    writer
}

#[test]
fn five_bytes_at_a_time_paint_the_screen(rt: HostRuntime) -> Result<(), Fail> {
    let mut shared = Shared::new(rt.alloc(), &rt)?;
    let _ = shared.read(b"login ann t1 6 20\nhi");
    let writer = written_in_fives(rt.alloc(), &mut shared);
    assert!(rt;
        show(
            rt.alloc(),
            &writer.taken,
            "hi | -**-notes-L1-C2-----",
            (1, 3)
        )
    );
    Ok(())
}

#[test]
fn bytes_behind_a_quit_are_dropped(rt: HostRuntime) -> Result<(), Fail> {
    let mut shared = Shared::new(rt.alloc(), &rt)?;
    let input = b"login ann t1 6 20\nhi\x18\x03jk";
    let took = shared.read(input);
    assert!(rt; took == PumpedIn::Took(input.len()));
    assert!(rt; shared.cause() == Some(Cause::Quit));
    let next = shared.read(b"lm");
    assert!(rt; next == PumpedIn::Finished);
    assert!(rt; shared.bob_sees(rt.alloc(), "hi | -**-notes-L1-C0-----", (1, 1)));
    Ok(())
}
