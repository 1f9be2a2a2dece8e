// The steps of a save, on a disk of tests, and the calls that they are on the system's.
use crate::files::write;
use crate::noting::Noting;
use crate::room::{files_at, make_folder};
use crate::standing::StandIn;
use mgs_disk::{DiskFiles, FileStore};
use mgs_store::Store;
use std::alloc::Global;
use std::cell::RefCell;
use std::fs;
use std::os::unix::fs::MetadataExt;
use std::path::Path;
use std::test::Fail;

// Whether a save of `other` on a disk that does so many steps is done, and these were told.
fn tells(alloc: Global, left: usize, done: bool, steps: &str) -> Result<bool, Fail> {
    let told = RefCell::new(String::new(alloc));
    let disk = StandIn::new(alloc, &told, left);
    let mut store = FileStore::new(alloc, disk, files_at(alloc, "a", "b")?)?;
    let saved = store.save("other", &['n', 'e', 'w']).is_ok();
    let faults = store.faults();
    drop(store);
    let told = told.into_inner();
    Ok(saved == done && (faults == 0) == done && told.as_str() == steps)
}

#[test]
fn each_step_of_a_save_fails_in_turn(rt: HostRuntime) -> Result<(), Fail> {
    let steps = [
        "",
        "create /f/b.discard.",
        "create /f/b.write new.group.discard.",
        "create /f/b.write new.group.mode.owner.discard.",
        "create /f/b.write new.group.mode.owner.sync.discard.",
    ];
    for left in 0..steps.len() {
        assert!(rt;
            tells(rt.alloc(), left, false, steps[left])?,
            "{left} steps"
        );
    }
    let all = "create /f/b.write new.group.mode.owner.sync.rename /f/b.folder /f.";
    assert!(rt; tells(rt.alloc(), steps.len(), true, all)?);
    Ok(())
}

// Whether a save by the calls of the system is done, in the place of a file like this one.
fn is_saved(
    rt: &HostRuntime,
    model: Path<'_>,
    told: &RefCell<String>,
    syncs: bool,
) -> Result<bool, Fail> {
    let files = Noting::new(rt, model, told, syncs);
    let disk = DiskFiles::new(&files)?;
    let mut store = FileStore::new(rt.alloc(), disk, files_at(rt.alloc(), "/f/a", "")?)?;
    Ok(store.save("notes", &['n', 'e', 'w']).is_ok())
}

// Whether it is done exactly where the disk syncs, and these calls were made.
fn asks(rt: &HostRuntime, model: Path<'_>, syncs: bool, calls: &str) -> Result<bool, Fail> {
    let told = RefCell::new(String::new(rt.alloc()));
    let is_done = is_saved(rt, model, &told, syncs)?;
    let told = told.into_inner();
    Ok(is_done == syncs && told.as_str() == calls)
}

// Whether a save in the place of this file, whose mode is 640, makes each call in its order.
fn asks_in_order(rt: &HostRuntime, model: Path<'_>) -> Result<bool, Fail> {
    let old = fs::metadata(rt, model)?;
    let (user, group) = (old.uid(), old.gid());
    let new = "/f/.mgd-0000000000000000";
    let filled = format!(in rt.alloc();
        "make {new}.write ne.write w.group {group}.mode 416.owner {user}."
    )?;
    let saved = format!(in rt.alloc(); "{filled}sync all.from {new}.to /f/a.open /f.sync all.")?;
    let failed = format!(in rt.alloc(); "{filled}remove {new}.")?;
    Ok(asks(rt, model, true, saved.as_str())? && asks(rt, model, false, failed.as_str())?)
}

#[test]
fn each_step_of_a_save_is_a_call_of_the_system(rt: HostRuntime) -> Result<(), Fail> {
    let folder = make_folder(&rt, "mgs_disk_calls")?;
    let model = folder.as_path().join(rt.alloc(), "a")?;
    write(&rt, model.as_path(), "640", "old")?;
    assert!(rt; asks_in_order(&rt, model.as_path())?);
    fs::remove_dir_all(&rt, folder.as_path())?;
    Ok(())
}
