// What comes back of texts.
use crate::calls::{add, come, forget, remove, set, set_text, text, text_comes};
use crate::desk::{Desk, Dial, again, begin, last_lines, resume, tables};
use mgs_journal::Journal;
use std::alloc::Global;
use std::test::Fail;

fn add_two<J: Journal>(desk: &mut J) -> Result<(), Fail> {
    add(desk, "notes", "ann", "-", "ALLOW OWNER@ rw")?;
    add(desk, "todo", "ann", "-", "ALLOW OWNER@ rw")
}

// A ledger with two buffers, of which nothing is gathered.
fn two<'a>(alloc: Global, dial: &'a Dial) -> Result<Desk<'a>, Fail> {
    let mut desk = begin(alloc, dial)?;
    add_two(&mut desk)?;
    Ok(desk)
}

// Keeps two texts of the second buffer, one after the other, and sets the rights of the first, and says what is kept of the first's text.
fn keep_texts<J: Journal>(alloc: Global, desk: &mut J) -> Result<String, Fail> {
    set_text(desk, alloc, 1, "one", false, -7)?;
    set_text(
        desk,
        alloc,
        1,
        "a\u{0}\u{e9}\u{2014}\u{10ffff}\n",
        true,
        i64::MAX,
    )?;
    if !set(desk, "notes", "bob", "-", "ALLOW OWNER@ r")? {
        return Err(Fail::new("not set"));
    }
    text(alloc, desk, 0)
}

// Whether there are the text that was kept last, none of the first buffer, and no third.
fn has_last_text<J: Journal>(alloc: Global, desk: &J) -> Result<bool, Fail> {
    let last = text(alloc, desk, 1)?;
    Ok(
        text(alloc, desk, 0)?.as_str() == "-"
            && last.as_str() == "true 9223372036854775807 a\u{0}\u{e9}\u{2014}\u{10ffff}\n"
            && text(alloc, desk, 2)?.as_str() == "-",
    )
}

#[test]
fn a_text_comes_back_as_it_was_kept_last(rt: HostRuntime) -> Result<(), Fail> {
    let dial = Dial::new();
    let mut desk = two(rt.alloc(), &dial)?;
    assert_eq!(rt; keep_texts(rt.alloc(), &mut desk)?.as_str(), "-");
    let desk = again(rt.alloc(), &dial, desk)?;
    assert!(rt; has_last_text(rt.alloc(), &desk)?);
    Ok(())
}

// Seconds at which a text comes, and whether it is due: a second is over since one was kept, or the clock was set back by one.
const MOMENTS: [(u32, bool); 8] = [
    (70, true),
    (70, false),
    (71, true),
    (71, false),
    (73, true),
    (72, true),
    (72, false),
    (0, true),
];

// Whether a text is due at each of them as it is said there.
fn is_due_in_time<J: Journal>(desk: &mut J, dial: &Dial, alloc: Global) -> Result<bool, Fail> {
    for &(second, due) in &MOMENTS {
        if text_comes(desk, dial, alloc, second)? != due {
            return Ok(false);
        }
    }
    Ok(true)
}

#[test]
fn a_text_is_due_once_a_second_is_over(rt: HostRuntime) -> Result<(), Fail> {
    let dial = Dial::new();
    let mut desk = two(rt.alloc(), &dial)?;
    assert!(rt; is_due_in_time(&mut desk, &dial, rt.alloc())?);
    Ok(())
}

// Whether a killed buffer's text goes with it, that of a forgotten one too, and another buffer in its place has none.
fn text_goes<J: Journal>(alloc: Global, desk: &mut J) -> Result<bool, Fail> {
    set_text(desk, alloc, 0, "first", true, 1)?;
    set_text(desk, alloc, 1, "second", false, 2)?;
    remove(desk, "-")?;
    let is_second = text(alloc, desk, 0)?.as_str() == "false 2 second";
    forget(desk, "todo")?;
    add(desk, "other", "ann", "-", "ALLOW OWNER@ rw")?;
    Ok(is_second && text(alloc, desk, 0)?.as_str() == "-")
}

#[test]
fn a_text_goes_with_its_buffer(rt: HostRuntime) -> Result<(), Fail> {
    let dial = Dial::new();
    let mut desk = two(rt.alloc(), &dial)?;
    assert!(rt; text_goes(rt.alloc(), &mut desk)?);
    let desk = again(rt.alloc(), &dial, desk)?;
    assert_eq!(rt; text(rt.alloc(), &desk, 0)?.as_str(), "-");
    Ok(())
}

// Whether what is gathered waits for a text that is kept.
fn waits_for_a_text<J: Journal>(desk: &mut J, dial: &Dial, alloc: Global) -> Result<bool, Fail> {
    come(desk, 3)?;
    let waits = dial.line_count() == 2;
    set_text(desk, alloc, 0, "a", false, 0)?;
    Ok(waits && dial.line_count() == 5)
}

#[test]
fn what_is_gathered_is_committed_with_a_text(rt: HostRuntime) -> Result<(), Fail> {
    let dial = Dial::new();
    let mut desk = two(rt.alloc(), &dial)?;
    assert!(rt; waits_for_a_text(&mut desk, &dial, rt.alloc())?);
    let text = last_lines(rt.alloc(), desk)?;
    assert!(rt; text.as_str().ends_with("\t5\tbob\tlogin\t\t\n"));
    Ok(())
}

#[test]
fn a_text_that_does_not_read_is_refused(rt: HostRuntime) -> Result<(), Fail> {
    let dial = Dial::new();
    let mut conn = tables(rt.alloc())?;
    conn.execute_batch(
        "INSERT INTO buffer (id, name, owner, owning_group, entries) VALUES (1, 'notes', 'ann', '', ''); \
         INSERT INTO event (at, user, what, buffer, detail) VALUES (0, 'ann', 'create', 'notes', 'ann: -'); \
         INSERT INTO text (buffer, modified, file, body) VALUES (1, 2, 0, 'a')",
    )?;
    match resume(rt.alloc(), conn, &dial) {
        Ok(_) => Err(Fail::new("no fault")),
        Err(fault) => {
            let told = format!(in rt.alloc(); "{fault}")?;
            assert_eq!(rt; told.as_str(), "a text: not as it was kept");
            Ok(())
        }
    }
}
