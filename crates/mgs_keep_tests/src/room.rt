// Memory that is set aside.
use mgs_journal::Room;
use std::test::Fail;

// What was lent is set aside again where nobody took it, however little is set aside.
#[test]
fn memory_that_was_lent_is_set_aside_again(rt: HostRuntime) -> Result<(), Fail> {
    for &size in &[0, 1, 16_777_216] {
        let mut room = Room::new(rt.alloc(), size)?;
        assert!(rt; room.take_back());
        room.lend();
        room.lend();
        assert!(rt; room.take_back());
    }
    Ok(())
}
