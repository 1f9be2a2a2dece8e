// What is kept of texts, over memory.
use crate::calls::{add, all_texts, drop_one, make, newest, page, put_text, replace, run, texts};
use mgs_tables::{Fault, Text};
use sqlite::{Connection, MemStore};
use std::alloc::Global;
use std::test::Fail;

// Tables in memory with two buffers.
fn begin(alloc: Global) -> Result<Connection<MemStore>, Fail> {
    let mut conn = Connection::open_in_memory(alloc)?;
    make(&mut conn)?;
    add(&mut conn, "notes", "a")?;
    add(&mut conn, "plan", "b")?;
    Ok(conn)
}

#[test]
fn a_text_comes_in_the_place_of_another(rt: HostRuntime) -> Result<(), Fail> {
    let mut conn = begin(rt.alloc())?;
    assert_eq!(rt; all_texts(&mut conn, rt.alloc())?.as_str(), "-/-/");
    put_text(&mut conn, "plan", 1, 7, "one\ntwo")?;
    assert_eq!(rt;
        all_texts(&mut conn, rt.alloc())?.as_str(),
        "-/1 7 one\ntwo/"
    );
    put_text(&mut conn, "notes", 0, i64::MIN, "")?;
    put_text(&mut conn, "plan", 0, -1, "three")?;
    assert_eq!(rt;
        all_texts(&mut conn, rt.alloc())?.as_str(),
        "0 -9223372036854775808 /0 -1 three/"
    );
    assert_eq!(rt;
        page(&mut conn, rt.alloc(), 6, 9)?.as_str(),
        "7 login /8 end /"
    );
    Ok(())
}

#[test]
fn a_text_goes_with_its_buffer(rt: HostRuntime) -> Result<(), Fail> {
    let mut conn = begin(rt.alloc())?;
    put_text(&mut conn, "notes", 1, 0, "first")?;
    put_text(&mut conn, "plan", 1, 0, "second")?;
    drop_one(&mut conn, "plan")?;
    add(&mut conn, "other", "c")?;
    assert_eq!(rt; all_texts(&mut conn, rt.alloc())?.as_str(), "1 0 first/-/");
    assert_eq!(rt; run(&mut conn, "DELETE FROM text")?, 1);
    Ok(())
}

#[test]
fn a_buffer_that_comes_in_the_place_of_another_has_no_text(rt: HostRuntime) -> Result<(), Fail> {
    let mut conn = begin(rt.alloc())?;
    put_text(&mut conn, "plan", 1, 0, "secret")?;
    replace(&mut conn, "plan", "c")?;
    assert_eq!(rt; all_texts(&mut conn, rt.alloc())?.as_str(), "-/-/");
    assert_eq!(rt; run(&mut conn, "DELETE FROM text")?, 0);
    Ok(())
}

#[test]
fn a_text_of_no_buffer_is_refused_and_nothing_told(rt: HostRuntime) -> Result<(), Fail> {
    let mut conn = begin(rt.alloc())?;
    assert_eq!(rt;
        put_text(&mut conn, "todo", 0, 0, "a"),
        Err(Fault::NoBuffer)
    );
    assert_eq!(rt; newest(&mut conn)?, 2);
    assert_eq!(rt; all_texts(&mut conn, rt.alloc())?.as_str(), "-/-/");
    Ok(())
}

// The text of the first buffer.
fn first_body(all: &[Option<Text>]) -> &str {
    match all.first() {
        Some(Some(text)) => text.body.as_str(),
        _ => "",
    }
}

#[test]
fn characters_of_every_width_come_back(rt: HostRuntime) -> Result<(), Fail> {
    let mut conn = begin(rt.alloc())?;
    let body = "\u{0}a\u{7f}\u{80}\u{7ff}\u{800}\u{d7ff}\u{e000}\u{ffff}\u{10000}\u{10ffff}\u{0}";
    put_text(&mut conn, "notes", 1, 0, body)?;
    let all = texts(&mut conn, rt.alloc())?;
    assert!(rt; first_body(all.as_slice()) == body);
    Ok(())
}

#[test]
fn a_text_of_the_longest_kind_comes_back(rt: HostRuntime) -> Result<(), Fail> {
    let mut conn = begin(rt.alloc())?;
    let body = "\u{10ffff}".repeat(rt.alloc(), 1_048_576)?;
    put_text(&mut conn, "notes", 1, 0, body.as_str())?;
    let all = texts(&mut conn, rt.alloc())?;
    assert!(rt; first_body(all.as_slice()) == body.as_str());
    Ok(())
}
