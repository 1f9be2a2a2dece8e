//! Whether a file alone has the pages that it has with a log's frames.

ghost use Rattle.std.specs.Prelude.{◌≡◌, ◌↔◌, ◌+◌, ◌*◌, ◌<◌, ◌≤◌, ◌==◌, if◌then◌else◌, ℕ, length, slice_index, IsTrue, IfOk, IfErr};
ghost use Rattle.sqlite_wal.specs.Format.{commit_size};
ghost use Rattle.sqlite_wal.specs.Recovery.{frame_at, frame, file_page, page_after};
ghost use Rattle.mgs_tables.specs.LogCheck.{IsInUse, IsCarriedOver, page_at, AreNewest};

use crate::log_check::{FRAME_HEADER_LEN, HEADER_LEN, Use, get_be32};
use crate::open_file::OpenFault;
use std::alloc::Global;

// Notes that a frame has a page, whose bytes begin at an offset of the log.
fn note_page(newest: &mut Vec<usize>, page: u32, at: usize)
    ensures len { length newest.new.items ≡ length newest.old.items }
    ensures noted { (n : ℕ) → n < length newest.old.items → slice_index newest.new.items n ≡ (if page == n then at else slice_index newest.old.items n) }
    ensures past { (n : ℕ) → length newest.old.items ≤ n → slice_index newest.new.items n ≡ slice_index newest.old.items n }
{
    let page = page as usize;
    if page < newest.len() {
        newest[page] = at;
    }
}

// Where the log has each page up to a count: the offset of its bytes in the last frame that has it, or 0.
fn newest_pages(
    alloc: Global,
    log: &[u8],
    page_size: usize,
    frames: usize,
    count: u32,
) -> Result<Vec<usize>, OpenFault>
    requires size { page_size ≤ 65536 }
    requires within { frame_at page_size frames ≤ length log.now }
    requires some { page_size ≤ length log.now }
    ensures newest { IfOk result (λ newest. AreNewest page_size log.now count frames newest.items) }
    ensures kind { IfErr result (λ e. e ≡ OpenFault.OutOfMemory) }
{
    let Ok(mut newest) = vec![in alloc; 0usize; count as usize + 1] else {
        return Err(OpenFault::OutOfMemory);
    };
    let (mut i, mut at) = (0usize, HEADER_LEN);
    while i < frames {
        note_page(&mut newest, get_be32(log, at), at + FRAME_HEADER_LEN);
        (i, at) = (i + 1, at + (FRAME_HEADER_LEN + page_size));
    }
    Ok(newest)
}

// Whether the file has the bytes of page `n` that the log has from an offset on, unless that is 0.
fn has_page(log: &[u8], db: &[u8], page_size: usize, n: usize, at: usize) -> bool
    requires first { 1 ≤ n }
    requires in_log { at + page_size ≤ length log.now }
    requires in_file { n * page_size ≤ length db.now }
    ensures { IsTrue result ↔ (page_at page_size log.now db.now n at ≡ file_page page_size db.now n) }
{
    if at == 0 {
        return true;
    }
    let start = (n - 1) * page_size;
    log[at..at + page_size] == db[start..start + page_size]
}

// Whether the file has each page as the log has it.
fn has_pages(log: &[u8], db: &[u8], page_size: usize, newest: &[usize], count: u32) -> bool
    requires in_file { count * page_size ≤ length db.now }
    requires newest { (k : ℕ) × AreNewest page_size log.now count k newest.now }
    ensures { (k : ℕ) → AreNewest page_size log.now count k newest.now
        → (IsTrue result ↔ ((n : ℕ) → 1 ≤ n → n ≤ count → page_after page_size log.now db.now n k ≡ file_page page_size db.now n)) }
{
    for n in 1..newest.len() {
        if !has_page(log, db, page_size, n, newest[n]) {
            return false;
        }
    }
    true
}

/// Whether the file has what a log that is in use has.
///
/// # Errors
///
/// `OutOfMemory` if there is no memory.
pub(crate) fn is_carried_over(
    alloc: Global,
    log: &[u8],
    db: &[u8],
    used: Use,
) -> Result<bool, OpenFault>
    requires used { IsInUse used.page_size log.now used.frames }
    requires commit { (i : ℕ) → i + 1 ≡ used.frames → used.size ≡ commit_size (frame used.page_size log.now i) }
    ensures carried { IfOk result (λ b. IsTrue b ↔ IsCarriedOver used.page_size log.now db.now used.frames) }
    ensures kind { IfErr result (λ e. e ≡ OpenFault.OutOfMemory) }
{
    if used.frames == 0 {
        return Ok(true);
    }
    let page_size = used.page_size;
    if db.len() / page_size != used.size as usize {
        return Ok(false);
    }
    let newest = newest_pages(alloc, log, page_size, used.frames, used.size)?;
    Ok(has_pages(log, db, page_size, &newest, used.size))
}
