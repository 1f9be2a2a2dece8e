// What a user does to a buffer, by the rights that its list grants him.
ghost use Rattle.std.specs.Prelude.{◌≡◌, ◌<◌, ◌-◌, ◌^◌, length, true};
ghost use Rattle.mgs_buffers.specs.Changing.{writes};
ghost use Rattle.mgs_buffers.specs.MarkedBuffer.{HasBuffer, marked_at};

use mgs_acl::Entry;
use mgs_buffers::{Buffers, EditFault, EntriesFault, OwnersFault, SaveFault, Store, StoreFault};
use mgs_marks::Marked;
use mgs_model::{Mask, Name};
use mgs_policy::{Decision, Directory};

// A save.
fn use_buffer<T: Marked + Drop, S: Store>(
    buffers: &mut Buffers<T>,
    directory: &Directory,
    user: &Name,
    name: &Name,
    store: &mut S,
)
    requires { HasBuffer name.now buffers.old }
{
    let saved: Result<(), SaveFault> = buffers.save_as(directory, user, name, store);
    if let Err(SaveFault::Denied(decision)) = saved {
        let _decision: Decision = decision;
    }
}

// An edit of a user.
fn use_edit<T: Marked + Drop>(
    buffers: &mut Buffers<T>,
    directory: &Directory,
    user: &Name,
    name: &Name,
    mask: Mask,
) -> Option<Decision>
    requires kept { HasBuffer name.now buffers.old }
    requires writes { writes mask ≡ true }
    requires serial { (marked_at name.now buffers.old).buffer.serial < 2 ^ 64 - 1 }
    requires room { length (marked_at name.now buffers.old).buffer.text < 1048576 }
{
    let edited: Result<(), EditFault> = buffers.edit_as(directory, user, name, mask, 0, 0, &['a']);
    match edited {
        Err(EditFault::Denied(decision)) => Some(decision),
        Ok(()) | Err(EditFault::Short) => None,
    }
}

// A change of an entry.
fn use_entries<T: Marked + Drop>(
    buffers: &mut Buffers<T>,
    directory: &Directory,
    user: &Name,
    name: &Name,
    entry: Entry,
) -> Option<Decision> {
    let inserted: Result<(), EntriesFault> = buffers.insert_entry_as(
        directory, user, name, 0, entry,
    );
    match inserted {
        Err(EntriesFault::Denied(decision)) => Some(decision),
        Ok(()) => None,
        Err(EntriesFault::NoBuffer | EntriesFault::NoSuchEntry | EntriesFault::Full) => None,
    }
}

// A new owner.
fn use_owner<T: Marked + Drop>(
    buffers: &mut Buffers<T>,
    directory: &Directory,
    user: &Name,
    name: &Name,
) -> Option<Decision> {
    let given: Result<(), OwnersFault> = buffers.give_to_user_as(directory, user, name, *user);
    match given {
        Err(OwnersFault::Denied(decision)) => Some(decision),
        Ok(()) => None,
        Err(OwnersFault::NoBuffer | OwnersFault::NoSuchUser | OwnersFault::NoSuchGroup) => None,
    }
}

// A store that counts its faults.
fn use_store<S: Store>(store: &mut S) -> u64 {
    let _saved: Result<(), StoreFault> = store.save("notes", &['a']);
    store.faults()
}
