// Undos in a row over a text and the record of its edits.
use mgs_model::Short;
use mgs_text::{PlainText, Text};
use mgs_undo::{Edit, Record};
use std::alloc::Global;
use std::process::Abort;
use std::test::Fail;

// Takes out of a text what an edit put in, and puts back what it took out. What is taken out now.
fn take_back(rt: &impl Abort, text: &mut impl Text, edit: &Edit) -> Result<Vec<char>, Short> {
    let (at, added) = (edit.at, edit.added);
    assert!(rt; at <= text.len() && added <= text.len() - at);
    let removed = text.copy(at, at + added)?;
    text.replace(at, at + added, &edit.removed)?;
    Ok(removed)
}

// Takes the edit of a serial back, which is an edit of its own. Whether that edit was kept.
fn undo(
    rt: &impl Abort,
    record: &mut Record,
    text: &mut impl Text,
    target: u64,
) -> Result<bool, Short> {
    assert!(rt; record.serial() < 2000);
    let Some(edit) = record.item(target) else {
        return Ok(false);
    };
    let (at, added) = (edit.at, edit.removed.len());
    let removed = take_back(rt, text, edit)?;
    let _oldest = record.push(Edit { at, removed, added });
    Ok(true)
}

// Whether the edit of a serial is kept.
fn is_kept(record: &Record, serial: u64) -> bool {
    record.item(serial).is_some()
}

// Keeps an edit that put one character in the place of others. Whether the oldest edit is forgotten.
fn keep(rt: &impl Abort, record: &mut Record, at: usize, removed: Vec<char>) -> bool {
    assert!(rt; record.serial() < 2000);
    let oldest = record.push(Edit {
        at,
        removed,
        added: 1,
    });
    oldest.is_some()
}

// Puts 1,001 characters into an empty text, one after another. The first of these edits is forgotten.
fn insert_in_a_row(
    rt: &impl Abort,
    alloc: Global,
    record: &mut Record,
    text: &mut impl Text,
) -> Result<(), Short> {
    assert!(rt; record.serial() == 0 && !is_kept(record, 0));
    for at in 0..1001usize {
        assert!(rt; at == text.len());
        text.replace(at, at, &['x'])?;
        assert!(rt; keep(rt, record, at, Vec::new(alloc)) == (at == 1000));
    }
    assert!(rt; !is_kept(record, 1) && is_kept(record, 2));
    assert!(rt; is_kept(record, 1001) && !is_kept(record, 1002));
    Ok(())
}

// Takes the last 500 edits of 1,001 back, and tries one more, which is kept no longer.
fn undo_in_a_row(rt: &impl Abort, record: &mut Record, text: &mut impl Text) -> Result<(), Short> {
    for behind in 0..500u64 {
        assert!(rt; undo(rt, record, text, 1001 - behind)?);
    }
    assert!(rt; text.len() == 501);
    assert!(rt; !undo(rt, record, text, 501)?);
    assert!(rt; text.len() == 501);
    Ok(())
}

// 1,001 insertions, of which the first is forgotten, and 501 undos, of which the last finds no edit.
#[test]
fn five_hundred_undos_in_a_row(rt: HostRuntime) -> Result<(), Fail> {
    let mut record = Record::new(rt.alloc())?;
    let mut text = PlainText::of(rt.alloc(), &[])?;
    insert_in_a_row(&rt, rt.alloc(), &mut record, &mut text)?;
    undo_in_a_row(&rt, &mut record, &mut text)?;
    Ok(())
}

// Keeps 1,001 edits, each of which took two characters out.
fn keep_in_a_row(rt: &impl Abort, alloc: Global, record: &mut Record) -> Result<(), Fail> {
    assert!(rt; record.serial() == 0 && !is_kept(record, 0));
    for at in 0..1001usize {
        let removed = vec![in alloc; 'a', 'é']?;
        assert!(rt; keep(rt, record, at, removed) == (at == 1000));
    }
    Ok(())
}

// Whether the latest 1,000 of those edits are kept.
fn are_latest_kept(record: &Record) -> bool {
    let (Some(first), Some(last)) = (record.item(2), record.item(1001)) else {
        return false;
    };
    record.serial() == 1001
        && !is_kept(record, 1)
        && first.at == 1
        && last.at == 1000
        && last.removed.len() == 2
        && !is_kept(record, 1002)
}

#[test]
fn keeps_the_latest_thousand(rt: HostRuntime) -> Result<(), Fail> {
    let mut record = Record::new(rt.alloc())?;
    keep_in_a_row(&rt, rt.alloc(), &mut record)?;
    assert!(rt; are_latest_kept(&record));
    Ok(())
}
