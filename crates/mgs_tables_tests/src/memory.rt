// What each call changes and refuses, over memory.
use crate::calls::{
    add, add_and_drop, all_rights, drop_one, make, newest, page, put, put_two, run, set, version,
};
use mgs_tables::Fault;
use sqlite::{Connection, Constraint, Error, ErrorCode, MemStore};
use std::alloc::{AllocError, Global};
use std::test::Fail;

// A file in memory.
fn open(alloc: Global) -> Result<Connection<MemStore>, AllocError> {
    Connection::open_in_memory(alloc)
}

#[test]
fn a_change_is_read_back_with_its_event(rt: HostRuntime) -> Result<(), Fail> {
    let mut conn = open(rt.alloc())?;
    make(&mut conn)?;
    assert_eq!(rt; version(&mut conn)?, 3);
    add(&mut conn, "notes", "ALLOW user ann READ")?;
    set(&mut conn, "notes", "DENY user bob READ")?;
    assert_eq!(rt;
        all_rights(&mut conn, rt.alloc())?.as_str(),
        "notes/ann/staff/DENY user bob READ/"
    );
    assert_eq!(rt;
        page(&mut conn, rt.alloc(), 0, 9)?.as_str(),
        "1 create notes/2 list notes/"
    );
    Ok(())
}

#[test]
fn a_buffer_that_is_taken_out_is_gone(rt: HostRuntime) -> Result<(), Fail> {
    let mut conn = open(rt.alloc())?;
    make(&mut conn)?;
    add(&mut conn, "notes", "a")?;
    add(&mut conn, "plan", "b")?;
    drop_one(&mut conn, "notes")?;
    assert_eq!(rt;
        all_rights(&mut conn, rt.alloc())?.as_str(),
        "plan/ann/staff/b/"
    );
    assert_eq!(rt;
        page(&mut conn, rt.alloc(), 2, 9)?.as_str(),
        "3 kill notes/"
    );
    Ok(())
}

#[test]
fn a_name_is_taken_once_and_told_once(rt: HostRuntime) -> Result<(), Fail> {
    let mut conn = open(rt.alloc())?;
    make(&mut conn)?;
    add(&mut conn, "notes", "a")?;
    let taken = Error::SqliteFailure(ErrorCode::ConstraintViolation(Constraint::Unique));
    assert_eq!(rt; add(&mut conn, "notes", "b"), Err(Fault::Sqlite(taken)));
    assert_eq!(rt;
        all_rights(&mut conn, rt.alloc())?.as_str(),
        "notes/ann/staff/a/"
    );
    assert_eq!(rt; newest(&mut conn)?, 1);
    Ok(())
}

#[test]
fn a_change_of_no_buffer_is_refused_and_not_told(rt: HostRuntime) -> Result<(), Fail> {
    let mut conn = open(rt.alloc())?;
    make(&mut conn)?;
    assert_eq!(rt; set(&mut conn, "notes", "a"), Err(Fault::NoBuffer));
    assert_eq!(rt; drop_one(&mut conn, "notes"), Err(Fault::NoBuffer));
    assert_eq!(rt; newest(&mut conn)?, 0);
    Ok(())
}

// A buffer that is added before the change that is refused is not there.
#[test]
fn changes_are_made_all_or_none(rt: HostRuntime) -> Result<(), Fail> {
    let mut conn = open(rt.alloc())?;
    make(&mut conn)?;
    assert_eq!(rt;
        add_and_drop(&mut conn, "notes", "plan"),
        Err(Fault::NoBuffer)
    );
    assert_eq!(rt; all_rights(&mut conn, rt.alloc())?.as_str(), "");
    assert_eq!(rt; newest(&mut conn)?, 0);
    Ok(())
}

#[test]
fn nothing_is_changed_within_a_transaction_of_others(rt: HostRuntime) -> Result<(), Fail> {
    let mut conn = open(rt.alloc())?;
    make(&mut conn)?;
    run(&mut conn, "BEGIN")?;
    let refused = Error::SqliteFailure(ErrorCode::TransactionState);
    assert_eq!(rt; add(&mut conn, "notes", "a"), Err(Fault::Sqlite(refused)));
    assert_eq!(rt;
        put_two(&mut conn, "login", "end"),
        Err(Fault::Sqlite(refused))
    );
    assert_eq!(rt; make(&mut conn), Err(refused));
    run(&mut conn, "COMMIT")?;
    assert_eq!(rt; newest(&mut conn)?, 0);
    Ok(())
}

#[test]
fn gathered_events_are_read_by_pages(rt: HostRuntime) -> Result<(), Fail> {
    let mut conn = open(rt.alloc())?;
    make(&mut conn)?;
    put(&mut conn, "login")?;
    put_two(&mut conn, "denied", "end")?;
    assert_eq!(rt;
        page(&mut conn, rt.alloc(), 0, 2)?.as_str(),
        "1 login /2 denied /"
    );
    assert_eq!(rt; page(&mut conn, rt.alloc(), 2, 2)?.as_str(), "3 end /");
    assert_eq!(rt; page(&mut conn, rt.alloc(), 3, 2)?.as_str(), "");
    assert_eq!(rt; newest(&mut conn)?, 3);
    Ok(())
}

#[test]
fn tables_that_are_there_are_not_made_again(rt: HostRuntime) -> Result<(), Fail> {
    let mut conn = open(rt.alloc())?;
    make(&mut conn)?;
    add(&mut conn, "notes", "a")?;
    assert!(rt; make(&mut conn).is_err());
    assert_eq!(rt;
        all_rights(&mut conn, rt.alloc())?.as_str(),
        "notes/ann/staff/a/"
    );
    Ok(())
}
