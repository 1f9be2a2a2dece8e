//! Whether a crash can leave the log beside the file of the tables as it is. If not, the log is damaged.

ghost use Rattle.std.specs.Prelude.{◌≡◌, ◌≢◌, ◌⊎◌, ◌↔◌, ◌+◌, ◌<◌, ◌≤◌, ℕ, length, slice_index, IsTrue, IsNone, IfSome, IfOk, IfErr, OnOk};
ghost use Rattle.sqlite_wal.specs.Format.{be32, checksum, stored_sum, commit_size, IsSigned, IsHeader, IsFrame};
ghost use Rattle.sqlite_wal.specs.PageSize.{IsPageSize};
ghost use Rattle.sqlite_wal.specs.Recovery.{frame_at, frame, header, sum_before, Passes};
ghost use Rattle.sqlite_wal.specs.Reads.{IsClean, AreClean, OnlyReads};
ghost use Rattle.mgs_tables.specs.LogCheck.{IsBegun, IsAlone, IsInUse, IsUsed, with_first, IsBegunAgain, IsLog, IsFirst, HasFile};

use crate::carried_over::is_carried_over;
use crate::open_file::OpenFault;
use sqlite_disk::Disk;
use sqlite_wal::{PageSize, checksum_of};
use std::alloc::Global;

type Sum = (u32, u32);

// The bytes of the log's header, and of a frame's.
pub(crate) const HEADER_LEN: usize = 32;

pub(crate) const FRAME_HEADER_LEN: usize = 24;

// Where a frame has its gate, and where the header has the salt whose first byte opens it.
const GATE: usize = 8;

const SALT: usize = 16;

const VERSION: u32 = 3007000;

// The first byte of a header.
const FIRST: u8 = 0x37;

// The length of an empty log: the header, and a frame as far as its gate.
const EMPTY_LEN: usize = 41;

// The count of checkpoints in the first header.
const FIRST_ROUND: u32 = 0xffff_ffff;

// How many frames a transaction gathers before it writes them in parts.
const SPILL: usize = 2000;

pub(crate) fn get_be32(b: &[u8], at: usize) -> u32
    requires { at + 4 ≤ length b.now }
    ensures { result ≡ be32 b.now at }
{
    b[at] as u32 * 0x100_0000
        + b[at + 1] as u32 * 0x1_0000
        + b[at + 2] as u32 * 0x100
        + b[at + 3] as u32
}

fn get_sum(b: &[u8], at: usize) -> Sum
    requires { at + 8 ≤ length b.now }
    ensures { result ≡ stored_sum b.now at }
{
    (get_be32(b, at), get_be32(b, at + 4))
}

fn header_of(log: &[u8]) -> [u8; 32]
    requires { 32 ≤ length log.now }
    ensures { result ≡ header log.now }
{
    let mut head = [0u8; 32];
    head.copy_from_slice(&log[..HEADER_LEN]);
    head
}

// Whether a header begins and ends as a header does.
fn is_signed(head: &[u8; 32]) -> bool
    ensures { IsTrue result ↔ IsSigned head.now }
{
    if head[0] != FIRST || head[1] != 0x7f || head[2] != 0x06 {
        return false;
    }
    if head[3] != 0x82 && head[3] != 0x83 {
        return false;
    }
    checksum_of(head[3] == 0x83, (0, 0), &head[..24]) == get_sum(head, 24)
}

// Whether recovery takes a frame, if the frame before it ends with this sum.
fn is_frame(head: &[u8; 32], before: Sum, frame: &[u8]) -> bool
    requires { 24 ≤ length frame.now }
    ensures { IsTrue result ↔ IsFrame head.now before frame.now }
{
    if frame[8..16] != head[16..24] || get_be32(frame, 0) == 0 {
        return false;
    }
    let big = head[3] == 0x83;
    let front = checksum_of(big, before, &frame[..8]);
    checksum_of(big, front, &frame[24..]) == get_sum(frame, 16)
}

// Whether the frame at this offset is in the file and recovery takes it.
fn passes(log: &[u8], head: &[u8; 32], page_size: usize, at: usize, before: Sum) -> bool
    requires size { page_size ≤ 65536 }
    requires head { head.now ≡ header log.now }
    ensures passes { (i : ℕ) → at ≡ frame_at page_size i → before ≡ sum_before page_size log.now i → (IsTrue result ↔ Passes page_size log.now i) }
    ensures within { IsTrue result → at + 24 + page_size ≤ length log.now }
{
    if at > log.len() || log.len() - at < FRAME_HEADER_LEN + page_size {
        return false;
    }
    is_frame(head, before, &log[at..at + (FRAME_HEADER_LEN + page_size)])
}

// Where the frames end that recovery takes.
#[derive(Clone, Copy)]
struct End {
    frames: usize,
    at: usize,
    // The sum of the last of them, and the size of the database that it commits.
    sum: Sum,
    size: u32,
}

fn end_of_frames(log: &[u8], head: &[u8; 32], page_size: usize) -> End
    requires size { page_size ≤ 65536 }
    requires long { 32 ≤ length log.now }
    requires head { head.now ≡ header log.now }
    ensures at { result.at ≡ frame_at page_size result.frames }
    ensures within { result.at ≤ length log.now }
    ensures passes { (i : ℕ) → i < result.frames → Passes page_size log.now i }
    ensures stops { ¬ Passes page_size log.now result.frames }
    ensures sum { result.sum ≡ sum_before page_size log.now result.frames }
    ensures first { result.frames ≡ 0 → result.size ≡ 1 }
    ensures commit { (i : ℕ) → i + 1 ≡ result.frames → result.size ≡ commit_size (frame page_size log.now i) }
{
    let mut end = End {
        frames: 0,
        at: HEADER_LEN,
        sum: get_sum(head, 24),
        size: 1,
    };
    while passes(log, head, page_size, end.at, end.sum) {
        end = End {
            frames: end.frames + 1,
            at: end.at + (FRAME_HEADER_LEN + page_size),
            sum: get_sum(log, end.at + 16),
            size: get_be32(log, end.at + 4),
        };
    }
    end
}

// Whether one transaction at most stands behind the gate of frame `k`.
fn is_alone(log: &[u8], head: &[u8; 32], page_size: usize, k: usize, start: usize) -> bool
    requires size { page_size ≤ 65536 }
    requires head { head.now ≡ header log.now }
    requires start { start ≡ frame_at page_size k }
    requires within { start ≤ length log.now }
    ensures { IsTrue result ↔ IsAlone page_size log.now k }
{
    let len = FRAME_HEADER_LEN + page_size;
    if log.len() >= HEADER_LEN + SPILL * len {
        return true;
    }
    let (mut j, mut at, mut stands) = (k, start, true);
    while log.len() - at >= 2 * len {
        let goes_on = passes(log, head, page_size, at + len, get_sum(log, at + 16));
        if goes_on && stands && get_be32(log, at + 4) != 0 {
            return false;
        }
        (j, at, stands) = (j + 1, at + len, goes_on);
    }
    true
}

// The end of the frames of a log with this header, if a crash can leave the log as it is used.
fn end_in_use(log: &[u8], head: &[u8; 32], page_size: usize) -> Option<End>
    requires long { 32 ≤ length log.now }
    requires head { head.now ≡ header log.now }
    requires right { IsHeader page_size head.now }
    requires size { IsPageSize page_size }
    requires salt { slice_index log.now 16 ≢ 0 }
    ensures used { IfSome result (λ end. IsInUse page_size log.now end.frames) }
    ensures commit { IfSome result (λ end. (i : ℕ) → i + 1 ≡ end.frames → end.size ≡ commit_size (frame page_size log.now i)) }
    ensures none { IsNone result → (k : ℕ) → ¬ IsInUse page_size log.now k }
{
    let end = end_of_frames(log, head, page_size);
    if end.size == 0 || log.len() - end.at <= GATE || log[end.at + GATE] != 0 {
        return None;
    }
    if !is_alone(log, head, page_size, end.frames, end.at) {
        return None;
    }
    Some(end)
}

// The size of a log's pages, how many frames it has, and the size of the database that the last of them commits.
#[derive(Clone, Copy)]
pub(crate) struct Use {
    pub(crate) page_size: usize,
    pub(crate) frames: usize,
    pub(crate) size: u32,
}

// How a log is used, if a crash can leave it as it is used.
fn use_of(log: &[u8]) -> Option<Use>
    ensures used { IfSome result (λ u. IsInUse u.page_size log.now u.frames) }
    ensures commit { IfSome result (λ u. (i : ℕ) → i + 1 ≡ u.frames → u.size ≡ commit_size (frame u.page_size log.now i)) }
    ensures none { IsNone result → ¬ IsUsed log.now }
{
    if log.len() < HEADER_LEN {
        return None;
    }
    let head = header_of(log);
    let size = PageSize::new(get_be32(&head, 8) as usize)?;
    if !is_signed(&head) || get_be32(&head, 4) != VERSION || log[SALT] == 0 {
        return None;
    }
    let end = end_in_use(log, &head, size.bytes())?;
    Some(Use {
        page_size: size.bytes(),
        frames: end.frames,
        size: end.size,
    })
}

// Whether a log has no frame yet and is being begun.
fn is_begun(log: &[u8]) -> bool
    ensures { IsTrue result ↔ IsBegun log.now }
{
    if log.len() > 0 && log[0] != 0 {
        return false;
    }
    log.len() < HEADER_LEN + FRAME_HEADER_LEN
}

// The log with the first byte of a header.
fn with_first(mut log: Vec<u8>) -> Vec<u8>
    requires { 0 < length log.items }
    ensures { result.items ≡ with_first log.items }
{
    log[0] = FIRST;
    log
}

// Whether a log is being begun again beside this file.
fn is_begun_again(alloc: Global, log: Vec<u8>, db: &[u8]) -> Result<bool, OpenFault>
    ensures again { IfOk result (λ b. IsTrue b ↔ IsBegunAgain log.items db.now) }
    ensures kind { IfErr result (λ e. e ≡ OpenFault.OutOfMemory) }
{
    if log.len() == 0 || log[0] != 0 {
        return Ok(false);
    }
    let log = with_first(log);
    let Some(used) = use_of(&log) else {
        return Ok(false);
    };
    let carried = is_carried_over(alloc, &log, db, used)?;
    Ok(carried)
}

// Whether no table was made beside this log.
fn is_first(log: &[u8]) -> bool
    ensures { IsTrue result ↔ IsFirst log.now }
{
    if log.len() > EMPTY_LEN {
        return false;
    }
    if log.len() == 0 || log[0] == 0 {
        return true;
    }
    log.len() == EMPTY_LEN && get_be32(log, 12) == FIRST_ROUND
}

// The bytes of a file.
fn read_all<D: Disk>(alloc: Global, disk: &mut D) -> Result<Vec<u8>, OpenFault>
    requires { IsTrue (D.Disk.is_usable disk.old) }
    ensures read { IfOk result (λ bytes. IsClean D.Disk disk.new → bytes.items ≡ D.Disk.seen disk.old) }
    ensures reads { OnlyReads D.Disk disk.old disk.new }
    ensures kind { IfErr result (λ e. (e ≡ OpenFault.System) ⊎ (e ≡ OpenFault.OutOfMemory)) }
{
    let Ok(len) = disk.len() else {
        return Err(OpenFault::System);
    };
    let Ok(mut bytes) = vec![in alloc; 0; len] else {
        return Err(OpenFault::OutOfMemory);
    };
    match disk.read_at(0, &mut bytes) {
        Ok(()) => Ok(bytes),
        Err(_) => Err(OpenFault::System),
    }
}

/// Tests whether a crash can leave the log and the file of the tables as they are. It only reads.
///
/// # Errors
///
/// `DamagedLog` and `NoFile` if it cannot, and `System` and `OutOfMemory` if they are not read.
pub fn test_log<D: Disk>(alloc: Global, log: &mut D, db: &mut D) -> Result<(), OpenFault>
    requires log { IsTrue (D.Disk.is_usable log.old) }
    requires db { IsTrue (D.Disk.is_usable db.old) }
    ensures whole { OnOk result (AreClean D.Disk log.new db.new
        → IsLog (D.Disk.seen log.old) (D.Disk.seen db.old) × HasFile (D.Disk.seen log.old) (D.Disk.seen db.old)) }
    ensures damaged { result ≡ Err OpenFault.DamagedLog → AreClean D.Disk log.new db.new → ¬ IsLog (D.Disk.seen log.old) (D.Disk.seen db.old) }
    ensures missing { result ≡ Err OpenFault.NoFile → AreClean D.Disk log.new db.new → ¬ HasFile (D.Disk.seen log.old) (D.Disk.seen db.old) }
    ensures reads_log { OnlyReads D.Disk log.old log.new }
    ensures reads_db { OnlyReads D.Disk db.old db.new }
{
    let bytes = read_all(alloc, log)?;
    let Ok(len) = db.len() else {
        return Err(OpenFault::System);
    };
    if len <= 1 && !is_first(&bytes) {
        return Err(OpenFault::NoFile);
    }
    if is_begun(&bytes) || use_of(&bytes).is_some() {
        return Ok(());
    }
    if bytes.len() > 0 && bytes[0] != 0 {
        return Err(OpenFault::DamagedLog);
    }
    let file = read_all(alloc, db)?;
    if !is_begun_again(alloc, bytes, &file)? {
        return Err(OpenFault::DamagedLog);
    }
    Ok(())
}
