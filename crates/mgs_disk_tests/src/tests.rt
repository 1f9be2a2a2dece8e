// What files are read and saved, and which configurations and arguments are refused.
use crate::room::is_unreadable;
use crate::steps::all_hold;
use std::fs::Files;
use std::os::fd::AsRawFd;
use std::test::Fail;

#[test]
fn a_save_keeps_what_was_there(rt: HostRuntime) -> Result<(), Fail> {
    let lists = "
        == characters of one to four bytes come into the file, and no other file is left
        file a.txt 644 old
        store a.txt
        saves new a/\u{e9}\u{20ac}\u{1f600}
        holds a.txt new a/\u{e9}\u{20ac}\u{1f600}
        saves
        holds a.txt
        saves again
        holds a.txt again
        faults 0
        count . 1
        == the mode stays
        file a.txt 600 old
        store a.txt
        saves new
        mode a.txt 600
        file a.txt 640 old
        saves new
        mode a.txt 640
        file a.txt 644 old
        saves new
        mode a.txt 644
        file a.txt 666 old
        saves new
        mode a.txt 666
        file a.txt 755 old
        saves new
        mode a.txt 755
        file a.txt 200 old
        saves new
        mode a.txt 200
        == a file that was taken away since the start is made again, for its owner alone
        file a.txt 644 old
        store a.txt
        remove a.txt
        saves new
        holds a.txt new
        mode a.txt 600
        count . 1
        == a link stays one, and the text comes into its file, also through a folder that is a link
        folder inner
        file inner/a.txt 640 old
        link outer inner
        link outer/b.txt a.txt
        store outer/b.txt
        saves new
        linked outer/b.txt
        holds inner/a.txt new
        mode inner/a.txt 640
        count inner 2
        == 100,000 characters without a line feed at their end come into the file as they are, and so do 1,048,576
        file a.txt 644 old
        store a.txt
        pieces 10000 \u{e9}123456789
        times a.txt 10000 \u{e9}123456789
        pieces 1048576 x
        times a.txt 1048576 x
        faults 0
        count . 1
        == each of two buffers comes into its own file
        file a.txt 644 old
        file b.txt 644 other
        stores a.txt $b.txt
        saves new
        holds a.txt new
        holds b.txt other
        other newer
        holds a.txt new
        holds b.txt newer
        count . 2
    ";
    all_hold(&rt, &rt, "mgs_disk_kept", lists)
}

// The old text stays, no new file is left, and the fault is counted.
#[test]
fn a_save_is_refused(rt: HostRuntime) -> Result<(), Fail> {
    let lists = "
        == a file that its owner may not write
        file a.txt 444 old
        store a.txt
        fails new
        faults 1
        holds a.txt old
        count . 1
        == a link or a folder that took the file's place since the start
        file a.txt 644 old
        file other.txt 644 other
        store a.txt
        remove a.txt
        link a.txt other.txt
        fails new
        holds other.txt other
        linked a.txt
        remove a.txt
        folder a.txt
        fails new
        faults 2
        count . 2
        == a buffer without a file
        store a.txt
        file a.txt 644 old
        fails new
        store a.txt
        unkept new
        holds a.txt old
        == the new file cannot take the old one's place
        file a.txt 644 old
        store a.txt
        keep
        fails new
        faults 1
        holds a.txt old
        count . 1
        == a link in the way of the new file is not followed, and another name is taken, of 16 that are tried
        file a.txt 644 old
        file other.txt 644 other
        link .mgd-0000000000000000 other.txt
        store a.txt
        zeros 15
        saves new
        zeros 16
        fails newer
        holds a.txt new
        holds other.txt other
        linked .mgd-0000000000000000
        count . 3
    ";
    all_hold(&rt, &rt, "mgs_disk_refused", lists)
}

#[test]
fn a_file_is_read(rt: HostRuntime) -> Result<(), Fail> {
    let lists = "
        == a file and a link to one
        file a.txt 400 a/\u{e9}\u{20ac}\u{1f600}
        link link a.txt
        reads a.txt a/\u{e9}\u{20ac}\u{1f600}
        reads link a/\u{e9}\u{20ac}\u{1f600}
        remove a.txt
        file a.txt 400
        reads a.txt
        reads link
        == what is no regular file makes nobody wait
        odd .
        odd missing
        odd /dev/zero
        odd /dev/null
        == bytes that are no text
        bytes a.txt 61 62 ff
        odd a.txt
        bytes a.txt e2 82
        odd a.txt
        bytes a.txt c0 80 61
        odd a.txt
        == the longest text is read whole, and of a longer one so much that it is known to be too long
        long a.txt 1048576 \u{1f600}
        fits a.txt
        long a.txt 1048577 \u{1f600}
        past a.txt
        long a.txt 1048582 \u{20ac}a
        past a.txt
        long a.txt 1048576 x
        fits a.txt
    ";
    all_hold(&rt, &rt, "mgs_disk_read", lists)
}

#[test]
fn a_configuration_is_read_or_refused(rt: HostRuntime) -> Result<(), Fail> {
    let lists = "
        == a buffer with a file
        file a.txt 644 hi
        file a.toml 644 [[user]]/name = \"ann\"/ticket = \"t1\"/[[buffer]]/name = \"notes\"/owner = \"ann\"/list = []/file = \"$a.txt\"
        loads a.toml hi
        remove a.txt
        fault a.toml buffer 1: File
        folder a.txt
        fault a.toml buffer 1: File
        == a file that is too long
        long a.txt 1048577 x
        file a.toml 644 [[user]]/name = \"ann\"/ticket = \"t1\"/[[buffer]]/name = \"notes\"/owner = \"ann\"/list = []/file = \"$a.txt\"
        fault a.toml buffer 1: Long
        == the configuration's own file
        fault a.toml top 0: File
        fault . top 0: File
        fault /dev/zero top 0: File
        bytes a.toml 23 20 ff
        fault a.toml top 0: Toml
        file a.toml 644 [[user]]/name = 1
        fault a.toml user 1: Key
        == a configuration of 100,000 bytes is read to its end
        padded a.toml 100000 [[user]]/name = \"ann\"/ticket = \"t1\"/[[buffer]]/name = \"notes\"/owner = \"ann\"/list = []/text = \"hi\"
        loads a.toml hi
        padded a.toml 100000 [[user]]/name = 1
        fault a.toml user 1: Key
    ";
    all_hold(&rt, &rt, "mgs_disk_loaded", lists)
}

#[test]
fn a_program_is_asked(rt: HostRuntime) -> Result<(), Fail> {
    let lists = "
        == arguments
        asked |status 2|usage: mgd replay | mgd serve CONFIG PORT
        asked mgd|status 2|usage: mgd replay | mgd serve CONFIG PORT
        asked mgd play|status 2|usage: mgd replay | mgd serve CONFIG PORT
        asked mgd replay more|status 2|usage: mgd replay | mgd serve CONFIG PORT
        asked mgd serve|status 2|usage: mgd replay | mgd serve CONFIG PORT
        asked mgd serve mgd.toml|status 2|usage: mgd replay | mgd serve CONFIG PORT
        asked mgd serve mgd.toml |status 2|usage: mgd replay | mgd serve CONFIG PORT
        asked mgd serve mgd.toml abc|status 2|usage: mgd replay | mgd serve CONFIG PORT
        asked mgd serve mgd.toml -1|status 2|usage: mgd replay | mgd serve CONFIG PORT
        asked mgd serve mgd.toml +1|status 2|usage: mgd replay | mgd serve CONFIG PORT
        asked mgd serve mgd.toml 65536|status 2|usage: mgd replay | mgd serve CONFIG PORT
        asked mgd serve mgd.toml 7000 more|status 2|usage: mgd replay | mgd serve CONFIG PORT
        asked mgd replay|replay|
        == a configuration
        asked mgd serve $a.toml 7000|status 1|top 0: File
        file a.toml 644 [[user]]/name = \"ann\"
        asked mgd serve $a.toml 7000|status 1|user 1: Key
        file a.toml 644 [[user]]/name = \"ann\"/ticket = \"t1\"
        asked mgd serve $a.toml 7000|7000|
        asked mgd serve $a.toml 65535|65535|
    ";
    all_hold(&rt, &rt, "mgs_disk_asked", lists)
}

// A pipe that nobody writes to, and no path at all.
#[test]
fn what_gives_nothing_is_not_read(rt: HostRuntime) -> Result<(), Fail> {
    let (_reader, writer) = Files::pipe(&rt)?;
    let number = writer.as_raw_fd();
    let pipe = format!(in rt.alloc(); "/proc/self/fd/{number}")?;
    assert!(rt; is_unreadable(&rt, pipe.as_str()));
    assert!(rt; is_unreadable(&rt, ""));
    Ok(())
}
