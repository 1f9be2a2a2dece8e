// A configuration that is served with a journal.
ghost use Rattle.std.specs.Prelude.{◌≡◌, ◌≢◌, IfErr, IfSome, get_or, is_some, option_copied};
ghost use Rattle.mgs_buffers.specs.MarkedBuffer.{marked_at};
ghost use Rattle.mgs_keeper.specs.Unsaved.{AreUnsavedWords, SaysFile, is_unsaved};

use crate::folder::{is_private_folder, journal_path, log_path};
use crate::folder_files::{begin_watch, open_files, resume_ledger, try_files};
use crate::keep_arguments::Mendings;
use crate::launch::{StartFault, start};
use crate::repair::mend_all;
use crate::shared_printer::{SharedPrinter, open_printer};
use crate::status::{FAILED, JOURNAL_FAILED, NO_SOCKETS};
use crate::turns::serve_kept;
use crate::watch::Watch;
use mgs_buffers::{Buffers, Rights};
use mgs_command::{NO_MEMORY, tell};
use mgs_config::{BufferFile, Config};
use mgs_disk::{DiskFiles, FileStore, load_config};
use mgs_gap::GapText;
use mgs_journal::{Journal, are_same};
use mgs_keep::text_sum;
use mgs_model::{BUFFER_LIMIT, Name};
use mgs_server::ListenFault;
use mgs_store::Store;
use sqlite::{Alter, Connection};
use std::fmt::Display;
use std::fs::Files;
use std::io::ErrorKind;
use std::mem;
use std::net::{Ipv4Addr, Net, SocketAddr, TcpListener};
use std::sync::Wait;
use std::time::Clock;

// Tells a cause, and gives the status of what is refused.
fn refuse<R: Eprint, E: Display + Drop>(rt: &R, cause: E) -> u8
    ensures { result ≡ FAILED }
{
    tell(rt, cause);
    FAILED
}

fn tell_of<R: Eprint>(rt: &R, name: &Name, what: &str) {
    if let Ok(name) = str::from_utf8(name.as_bytes()) {
        let _ = eprintln!(rt; "buffer {name}: {what}");
    }
}

// What is told of a buffer of the configuration, where it is not served as it stands there.
fn difference<J: Journal>(journal: &J, configured: &Rights<'_>) -> Option<&'static str> {
    if journal.is_taken(configured.name) {
        return Some("a user made or killed it, so CONFIG's is not taken");
    }
    let at = journal.place(configured.name)?;
    let kept = journal.rights(at)?;
    if are_same(configured, &kept) {
        return None;
    }
    Some("as the journal has it, not as CONFIG")
}

// Tells of each buffer of the configuration that is not served as it stands there.
fn tell_differences<R: Eprint, J: Journal>(rt: &R, config: &Buffers<GapText>, journal: &J) {
    for i in 0..config.len() {
        if let Some(configured) = config.rights(i) {
            if let Some(what) = difference(journal, &configured) {
                tell_of(rt, configured.name, what);
            }
        }
    }
}

// What is told of a text that was not saved, by the sum of its file's text as it was kept, and as it is.
fn unsaved_words(kept: i64, now: i64) -> &'static str
    ensures { AreUnsavedWords kept now result.now }
{
    if kept == now {
        return "its text was not saved, and is the journal's";
    }
    "its text was not saved, and is the journal's; its file was changed since"
}

// What is told of the text that the journal keeps of its `i`-th buffer, where that is served in the place of its file's.
fn unsaved<J: Journal>(
    journal: &J,
    config: &Buffers<GapText>,
    name: &Name,
    i: usize,
) -> Option<&'static str>
    ensures there { is_some result ≡ is_unsaved (J.taken journal.now) config.now name.now (get_or (J.texts journal.now) i None) }
    ensures words { IfSome (option_copied result) (SaysFile (marked_at name.now config.now) (get_or (J.texts journal.now) i None)) }
{
    let kept = journal.text(i)?;
    if !kept.modified || journal.is_taken(name) || !config.has(name) {
        return None;
    }
    Some(unsaved_words(kept.file, text_sum(config.find(name).text())))
}

// Tells of each text that is served in the place of its file's.
fn tell_unsaved<R: Eprint, J: Journal>(rt: &R, config: &Buffers<GapText>, journal: &J) {
    for i in 0..BUFFER_LIMIT {
        if let Some(rights) = journal.rights(i) {
            if let Some(what) = unsaved(journal, config, rights.name, i) {
                tell_of(rt, rights.name, what);
            }
        }
    }
}

// The store of these files on the system's disk.
fn open_store<'a>(
    rt: &'a HostRuntime,
    files: Vec<BufferFile>,
) -> Result<FileStore<DiskFiles<'a, HostRuntime>>, u8>
    ensures { IfErr result (λ status. status ≢ 0) }
{
    let Ok(disk) = DiskFiles::new(rt) else {
        return Err(refuse(rt, NO_MEMORY));
    };
    match FileStore::new(rt.alloc(), disk, files) {
        Ok(store) => Ok(store),
        Err(_) => Err(refuse(rt, NO_MEMORY)),
    }
}

// The program's status where nothing is served, which is told.
fn end_start<R: Eprint>(rt: &R, fault: StartFault) -> u8
    ensures { result ≢ 0 }
{
    tell(rt, fault);
    match &fault {
        StartFault::Journal(_) => JOURNAL_FAILED,
        StartFault::Resume(_) | StartFault::Short => FAILED,
    }
}

// Serves a configuration, by what a journal keeps.
fn serve_journal<
    R: AllocGlobal + Net + Clock + Files,
    W: Eprint + Wait,
    S: Store + Drop,
    J: Journal + Drop,
>(
    rt: &R,
    wait: &W,
    port: u16,
    config: Config,
    store: S,
    journal: J,
    printer: SharedPrinter<'_>,
    watch: Watch,
) -> u8
    ensures { result ≢ 0 }
{
    let Config {
        directory,
        tickets,
        buffers,
        files: _,
    } = config;
    tell_differences(wait, &buffers, &journal);
    tell_unsaved(wait, &buffers, &journal);
    match start(rt.alloc(), directory, &buffers, store, journal) {
        Ok(kept) => serve_kept(rt, wait, port, kept, tickets, rt, printer, watch),
        Err(fault) => end_start(wait, fault),
    }
}

// Tests that a port of the loopback address can be had, before a file is changed: the program's status if not, which is told, or else 0. The
// listener is closed again, since the server opens its own.
fn test_port<R: Net, W: Eprint>(rt: &R, wait: &W, port: u16) -> u8 {
    match TcpListener::bind(rt, SocketAddr::from((Ipv4Addr::LOCALHOST, port))) {
        Ok(_) => 0,
        Err(error) if error.kind() == ErrorKind::OutOfMemory => refuse(wait, NO_MEMORY),
        Err(_) => {
            tell(wait, ListenFault::Port);
            NO_SOCKETS
        }
    }
}

// Serves a configuration whose texts are saved in a store, by what a journal keeps, which is mended before.
fn serve_mended<W: Eprint + Wait, S: Store + Drop, J: Journal + Drop>(
    rt: &HostRuntime,
    wait: &W,
    port: u16,
    config: Config,
    store: S,
    mut journal: J,
    mendings: &Mendings,
    printer: SharedPrinter<'_>,
    watch: Watch,
) -> u8
    ensures { result ≢ 0 }
{
    let mended = mend_all(rt, &mut journal, &config.buffers, mendings);
    if mended != 0 {
        return mended;
    }
    serve_journal(rt, wait, port, config, store, journal, printer, watch)
}

// Serves a configuration by what open tables keep. They are any tables, since what is done with those of a file is dear to prove.
fn serve_tables<W: Eprint + Wait, A: Alter + Drop, S: Store + Drop>(
    rt: &HostRuntime,
    wait: &W,
    port: u16,
    config: Config,
    store: S,
    conn: Connection<A>,
    mendings: &Mendings,
    printer: SharedPrinter<'_>,
    watch: Watch,
) -> u8
    ensures { result ≢ 0 }
{
    match resume_ledger(rt, conn, printer) {
        Ok(journal) => serve_mended(
            rt, wait, port, config, store, journal, mendings, printer, watch,
        ),
        Err(status) => status,
    }
}

// Serves a configuration with the journal in these files, which are opened once nothing refuses the start.
fn serve_files<W: Eprint + Wait, S: Store + Drop>(
    rt: &HostRuntime,
    wait: &W,
    path: &str,
    log_path: &str,
    port: u16,
    config: Config,
    store: S,
    mendings: &Mendings,
    printer: SharedPrinter<'_>,
) -> u8
    ensures { result ≢ 0 }
{
    let refusal = test_port(rt, wait, port);
    let tried = match try_files(
        rt,
        path,
        log_path,
        &config.directory,
        &config.buffers,
        mendings,
        refusal,
    ) {
        Ok(tried) => tried,
        Err(status) => return status,
    };
    let conn = match open_files(rt, path, log_path, tried) {
        Ok(conn) => conn,
        Err(status) => return status,
    };
    match begin_watch(rt, path) {
        Ok(watch) => serve_tables(
            rt, wait, port, config, store, conn, mendings, printer, watch,
        ),
        Err(status) => status,
    }
}

// Serves a configuration with the journal in a folder.
fn serve_folder<W: Eprint + Wait, S: Store + Drop>(
    rt: &HostRuntime,
    wait: &W,
    folder: &str,
    config: Config,
    store: S,
    port: u16,
    mendings: &Mendings,
) -> u8
    ensures { result ≢ 0 }
{
    if !matches!(is_private_folder(rt, folder), Ok(true)) {
        let _ = eprintln!(rt; "{folder}: not a folder of yours with mode 0700");
        return FAILED;
    }
    let Ok(path) = journal_path(rt, folder) else {
        return refuse(rt, NO_MEMORY);
    };
    let Ok(beside) = log_path(rt, path.as_str()) else {
        return refuse(rt, NO_MEMORY);
    };
    let Ok(printer) = open_printer(rt) else {
        return refuse(rt, NO_MEMORY);
    };
    let shared = SharedPrinter { printer: &printer };
    serve_files(
        rt,
        wait,
        path.as_str(),
        beside.as_str(),
        port,
        config,
        store,
        mendings,
        shared,
    )
}

// Serves a configuration whose texts are saved in the files of the system, with the journal in a folder.
fn serve_config<W: Eprint + Wait>(
    rt: &HostRuntime,
    wait: &W,
    folder: &str,
    mut config: Config,
    port: u16,
    mendings: &Mendings,
) -> u8
    ensures { result ≢ 0 }
{
    let texts = mem::replace(&mut config.files, Vec::new(rt.alloc()));
    match open_store(rt, texts) {
        Ok(store) => serve_folder(rt, wait, folder, config, store, port, mendings),
        Err(status) => status,
    }
}

/// Serves the configuration in a file on a port of the loopback address, with the journal in a folder, which is mended before. It returns
/// where that cannot be begun, or not gone on with, and tells why on standard error. Turns are taken by a handle that waits.
pub(crate) fn serve<W: Eprint + Wait>(
    rt: &HostRuntime,
    wait: &W,
    folder: &str,
    config: &str,
    port: u16,
    mendings: &Mendings,
) -> u8
    ensures { result ≢ 0 }
{
    match load_config(rt, config) {
        Ok(config) => serve_config(rt, wait, folder, config, port, mendings),
        Err(fault) => refuse(rt, fault),
    }
}
