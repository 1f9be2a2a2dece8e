// What is asked of files and done to them.
use std::alloc::Global;
use std::fs::{self, Permissions};
use std::io;
use std::os::unix::fs::{MetadataExt, PermissionsExt};
use std::path::Path;

/// The bytes that are written in hexadecimal, with a blank between two.
pub(crate) fn bytes_of(alloc: Global, words: &str) -> io::Result<Vec<u8>> {
    let mut bytes = Vec::new(alloc);
    for word in words.split(' ') {
        bytes.push(u8::from_str_radix(word, 16).unwrap_or(0))?;
    }
    Ok(bytes)
}

// A mode that is written in octal.
fn mode_in(word: &str) -> u32 {
    u32::from_str_radix(word, 8).unwrap_or(0)
}

/// Writes a file with a mode.
pub(crate) fn write(rt: &HostRuntime, path: Path<'_>, mode: &str, text: &str) -> io::Result<()> {
    fs::write(rt, path, text)?;
    fs::set_permissions(rt, path, Permissions::from_mode(mode_in(mode)))
}

/// Whether this is the mode of the file at a path.
pub(crate) fn has_mode(rt: &HostRuntime, path: Path<'_>, mode: &str) -> io::Result<bool> {
    Ok(fs::metadata(rt, path)?.mode() & 0o7777 == mode_in(mode))
}

/// Whether a file has this text.
pub(crate) fn holds(rt: &HostRuntime, path: Path<'_>, text: &str) -> io::Result<bool> {
    Ok(fs::read_to_string(rt, path)?.as_str() == text)
}

/// Whether a link stands at a path.
pub(crate) fn is_link(rt: &HostRuntime, path: Path<'_>) -> io::Result<bool> {
    Ok(fs::symlink_metadata(rt, path)?.is_symlink())
}

/// Whether so many files, folders and links stand in a folder.
pub(crate) fn has_count(rt: &HostRuntime, folder: Path<'_>, wanted: &str) -> io::Result<bool> {
    let mut count = 0usize;
    for entry in fs::read_dir(rt, folder)? {
        entry?;
        count = count.saturating_add(1);
    }
    Ok(wanted.parse::<usize>().ok() == Some(count))
}
