// A folder of a test's own, and the calls that are tried there.
use crate::faulty::Faulty;
use mgs_command::{Work, prepare};
use mgs_config::{BufferFile, Config, Files, FilesFault};
use mgs_disk::{Disk, DiskFiles, FileStore, RegularFiles, load_config};
use mgs_marks::Marked;
use mgs_model::{Name, TEXT_LIMIT};
use mgs_store::Store;
use mgs_text::Text;
use std::alloc::{AllocError, Global};
use std::path::{Path, PathBuf};
use std::{env, fs, io};

/// A folder, and a store of the buffer `notes`.
#[derive(Drop)]
pub(crate) struct Room<'a> {
    /// The system itself.
    pub rt: &'a HostRuntime,
    /// The same, with calls that fail.
    pub faulty: &'a Faulty<'a, HostRuntime>,
    /// The folder.
    pub folder: PathBuf,
    /// The store, which works by `faulty`.
    pub store: FileStore<DiskFiles<'a, Faulty<'a, HostRuntime>>>,
}

/// Makes an empty folder of this name among the temporary files.
pub(crate) fn make_folder(rt: &HostRuntime, name: &str) -> io::Result<PathBuf> {
    let mut folder = env::temp_dir(rt)?;
    folder.push(name)?;
    let _ = fs::remove_dir_all(rt, folder.as_path());
    fs::create_dir(rt, folder.as_path())?;
    Ok(folder)
}

/// A room with an empty folder of this name. Its store has no file.
pub(crate) fn enter<'a>(
    rt: &'a HostRuntime,
    faulty: &'a Faulty<'a, HostRuntime>,
    name: &str,
) -> io::Result<Room<'a>> {
    let folder = make_folder(rt, name)?;
    let store = FileStore::new(rt.alloc(), DiskFiles::new(faulty)?, Vec::new(rt.alloc()))?;
    Ok(Room {
        rt,
        faulty,
        folder,
        store,
    })
}

/// A text in which a line feed is written `/`, and the path of the folder and a slash `$`.
pub(crate) fn text_in(room: &Room<'_>, written: &str) -> Result<String, AllocError> {
    let mut text = String::new(room.rt.alloc());
    for character in written.chars() {
        match character {
            '/' => text.push('\n')?,
            '$' => {
                text.push_str(room.folder.as_path().as_str())?;
                text.push('/')?;
            }
            _ => text.push(character)?,
        }
    }
    Ok(text)
}

/// The buffers `notes` and `other`, each with the file at a path; none where the path is empty.
pub(crate) fn files_at(
    alloc: Global,
    notes: &str,
    other: &str,
) -> Result<Vec<BufferFile>, AllocError> {
    let mut files = Vec::new(alloc);
    for (name, path) in [("notes", notes), ("other", other)] {
        if !path.is_empty() {
            let name = String::from_str(alloc, name)?;
            let path = String::from_str(alloc, path)?;
            files.push(BufferFile { name, path })?;
        }
    }
    Ok(files)
}

/// From now on the store has the file at a path for `notes`, and the one at another for `other`, where that is not empty.
pub(crate) fn open_store(room: &mut Room<'_>, notes: &str, other: &str) -> Result<(), AllocError> {
    let alloc = room.rt.alloc();
    room.store = FileStore::new(
        alloc,
        DiskFiles::new(room.faulty)?,
        files_at(alloc, notes, other)?,
    )?;
    Ok(())
}

fn characters(alloc: Global, text: &str) -> Result<Vec<char>, AllocError> {
    text.chars().collect(alloc)
}

/// Whether this text of a buffer is saved.
pub(crate) fn saves(room: &mut Room<'_>, buffer: &str, text: &str) -> Result<bool, AllocError> {
    let text = characters(room.rt.alloc(), text)?;
    Ok(room.store.save(buffer, &text).is_ok())
}

/// Whether a file is read as this text, without a fault.
pub(crate) fn reads(rt: &HostRuntime, path: &str, text: &str) -> Result<bool, AllocError> {
    let wanted = characters(rt.alloc(), text)?;
    let files = RegularFiles::new(rt);
    let mut disk = Disk::new(rt.alloc(), &files);
    match disk.read(path) {
        Ok(read) => Ok(read.as_slice() == wanted.as_slice() && disk.faults() == 0),
        Err(_) => Ok(false),
    }
}

/// Whether a file is read as a text, or as more characters than one may have.
pub(crate) fn has_size(rt: &HostRuntime, path: &str, is_text: bool) -> bool {
    let files = RegularFiles::new(rt);
    let mut disk = Disk::new(rt.alloc(), &files);
    match disk.read(path) {
        Ok(read) => (read.len() <= TEXT_LIMIT) == is_text && disk.faults() == 0,
        Err(_) => false,
    }
}

/// Whether a file cannot be read, which is one fault.
pub(crate) fn is_unreadable(rt: &HostRuntime, path: &str) -> bool {
    let files = RegularFiles::new(rt);
    let mut disk = Disk::new(rt.alloc(), &files);
    matches!(disk.read(path), Err(FilesFault::Unreadable)) && disk.faults() == 1
}

// Whether a buffer of this name has this text.
fn has_text(config: &Config, name: &str, wanted: &[char]) -> bool {
    match Name::read(name) {
        Some(name) if config.buffers.has(&name) => {
            let text = config.buffers.text(&name);
            match text.copy(0, text.len()) {
                Ok(text) => text.as_slice() == wanted,
                Err(_) => false,
            }
        }
        _ => false,
    }
}

/// Whether the configuration at a path has the buffer `notes` with this text.
pub(crate) fn loads(rt: &HostRuntime, path: &str, text: &str) -> Result<bool, AllocError> {
    let wanted = characters(rt.alloc(), text)?;
    match load_config(rt, path) {
        Ok(config) => Ok(has_text(&config, "notes", &wanted)),
        Err(_) => Ok(false),
    }
}

/// Whether the configuration at a path is refused with this fault.
pub(crate) fn is_refused(rt: &HostRuntime, path: &str, fault: &str) -> Result<bool, AllocError> {
    match load_config(rt, path) {
        Ok(_) => Ok(false),
        Err(found) => Ok(format!(in rt.alloc(); "{found}")?.as_str() == fault),
    }
}

// The number of a status.
fn status_in(word: &str) -> Option<u8> {
    word.strip_prefix("status ")?.parse::<u8>().ok()
}

// Whether work, or a status, is that of a word.
fn is_work(work: &Result<Work, u8>, word: &str) -> bool {
    match work {
        Ok(Work::Replay) => word == "replay",
        Ok(Work::Serve { config, port }) => {
            word.parse::<u16>().ok() == Some(*port) && config.directory.user("ann").is_some()
        }
        Err(status) => status_in(word) == Some(*status),
    }
}

/// Whether a program that is started with these words is to do this, and tells this line: `replay`, the port where it serves ann, or a
/// status.
pub(crate) fn is_asked(rt: &HostRuntime, words: &str, work: &str, line: &str) -> bool {
    let asked = Faulty::new(rt, words, line);
    is_work(&prepare(&asked), work) && asked.is_told()
}

/// The path of a file of this name in the folder, or of one that is told from the root.
pub(crate) fn path_of(room: &Room<'_>, name: &str) -> Result<PathBuf, AllocError> {
    room.folder.as_path().join(room.rt.alloc(), name)
}
