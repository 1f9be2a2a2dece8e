// The configuration of a server.
ghost use Rattle.std.specs.Prelude.{◌≡◌, ◌≢◌, [], ◌∷◌, ◌++◌, map, IfOk, IfErr, OnOk, IfSome, Some, None, option_map};
ghost use Rattle.toml.specs.View.{view};
ghost use Rattle.mgs_config.specs.Document.{document_in, rows_at};
ghost use Rattle.mgs_buffers.specs.MarkedBuffer.{AreUnmarked};
ghost use Rattle.mgs_config.specs.Files.{AreBuffers, GivesNoMore, IsCounted};
ghost use Rattle.mgs_config.specs.World.{fault_of, users_in, directory_in, people_refused, buffer_rows, files_in, paths_in, paths_of};
ghost use Rattle.mgs_config.specs.World.{buffers_fault, IsConfigFault};
ghost use Rattle.mgs_config.specs.declared.config_fault.TableFault.TheVariants.{Short};
ghost use Rattle.mgs_config.specs.declared.config_fault.ConfigTable.TheVariants.{Top};

use crate::buffer_tables::string_at;
use crate::config_fault::{ConfigFault, ConfigTable, TableFault};
use crate::document::{is_configuration, read_document, rows_at};
use crate::fill::read_buffers;
use crate::named_files::Files;
use crate::row::text_at;
use crate::user_tables::{read_groups, read_users};
use mgs_buffers::Buffers;
use mgs_gap::GapText;
use mgs_model::Tickets;
use mgs_policy::Directory;
use std::alloc::{AllocError, Global};
use std::marker::Model;
use toml::Value;

/// A buffer that has a file.
#[derive(Drop)]
pub struct BufferFile {
    /// The buffer's name.
    pub name: String,
    /// The file's path.
    pub path: String,
}

/// What a server starts with. None of its buffers has a mark in use.
#[derive(Drop)]
pub struct Config {
    /// The users and the groups.
    pub directory: Directory,
    /// The tickets of the users.
    pub tickets: Tickets,
    /// The buffers, with their texts.
    pub buffers: Buffers<GapText>,
    /// The buffers that have files.
    pub files: Vec<BufferFile>,
}

impl Model for Config {
    ghost use Rattle.mgs_buffers.specs.MarkedBuffer.{AreUnmarked};
    ghost use Rattle.mgs_config.specs.Configured as given;

    ghost Value = { given.Config };

    ghost view = { λ c. record { directory = c.directory; tickets = c.tickets; buffers = c.buffers; files = c.files } };

    ghost invariant = { λ c. AreUnmarked c.buffers };
}

// A fault of one of these tables. Out of memory is one of the document, whichever table was read.
fn fault_in(table: ConfigTable, index: usize, fault: TableFault) -> ConfigFault
    ensures kind { result.fault ≡ fault }
    ensures long { fault ≢ Short → result ≡ fault_of table (index, fault) }
    ensures short { fault ≡ Short → result ≡ fault_of Top (0, Short) }
{
    let (table, index) = match fault {
        TableFault::Short => (ConfigTable::Top, 0),
        _ => (table, index),
    };
    ConfigFault {
        table,
        index,
        fault,
    }
}

// The users, tickets and groups of a document.
fn read_people(alloc: Global, document: &Value) -> Result<(Directory, Tickets), ConfigFault>
    ensures due { OnOk result (people_refused (view document.now) ≡ None) }
    ensures directory { IfOk result (λ people. people.0 ≡ directory_in (view document.now)) }
    ensures tickets { IfOk result (λ people. people.1 ≡ users_in (view document.now)) }
    ensures err { IfErr result (λ e. e.fault ≢ Short → people_refused (view document.now) ≡ Some e) }
    ensures short { IfErr result (λ e. e.fault ≡ Short → e ≡ fault_of Top (0, Short)) }
{
    if !is_configuration(document) {
        return Err(fault_in(ConfigTable::Top, 0, TableFault::Key));
    }
    let (mut directory, tickets) = match read_users(alloc, rows_at(document, "user")) {
        Ok(people) => people,
        Err((index, fault)) => return Err(fault_in(ConfigTable::User, index, fault)),
    };
    match read_groups(alloc, &mut directory, rows_at(document, "group")) {
        Ok(()) => Ok((directory, tickets)),
        Err((index, fault)) => Err(fault_in(ConfigTable::Group, index, fault)),
    }
}

// Puts the path of a table's file last, where it has one.
fn push_path(alloc: Global, files: &mut Vec<BufferFile>, row: &Value) -> Result<(), AllocError>
    ensures { OnOk result (paths_of files.new.items ≡ paths_of files.old.items ++ paths_in (view row.now ∷ [])) }
{
    if let Some(path) = text_at(row, "file") {
        let name = String::from_str(alloc, string_at(row, "name"))?;
        let path = String::from_str(alloc, path)?;
        files.push(BufferFile { name, path })?;
    }
    Ok(())
}

// The buffers of these tables that have files.
#[tactic(auto, using(crate::proofs::Paths::paths_more))]
fn read_paths(alloc: Global, rows: &[Value]) -> Result<Vec<BufferFile>, AllocError>
    ensures { IfOk result (λ files. paths_of files.items ≡ paths_in (map view rows.now)) }
{
    let mut files = Vec::new(alloc);
    for row in rows {
        push_path(alloc, &mut files, row)?;
    }
    Ok(files)
}

// The configuration of a document.
fn configure<F: Files>(
    alloc: Global,
    document: &Value,
    files: &mut F,
) -> Result<Config, ConfigFault>
    ensures due { OnOk result (people_refused (view document.now) ≡ None) }
    ensures none { OnOk result (buffers_fault (F.tells files.old) (view document.now) ≡ None) }
    ensures directory { IfOk result (λ c. c.directory ≡ directory_in (view document.now)) }
    ensures tickets { IfOk result (λ c. c.tickets ≡ users_in (view document.now)) }
    ensures buffers { IfOk result (λ c. AreBuffers (F.tells files.old) (F.gives files.old) (buffer_rows (view document.now)) c.buffers) }
    ensures unmarked { IfOk result (λ c. AreUnmarked c.buffers) }
    ensures files { IfOk result (λ c. paths_of c.files.items ≡ files_in (view document.now)) }
    ensures err { IfErr result (λ e. e.fault ≢ Short → IsConfigFault (Some (view document.now)) (F.tells files.old) (F.gives files.old) e) }
    ensures short { IfErr result (λ e. e.fault ≡ Short → e ≡ fault_of Top (0, Short)) }
    ensures same { F.tells files.new ≡ F.tells files.old }
    ensures kept { GivesNoMore (F.gives files.new) (F.gives files.old) }
    ensures read { OnOk result (F.count files.new ≡ F.count files.old) }
    ensures count { IfErr result (λ e. IsCounted e.fault (F.count files.old) (F.count files.new)) }
{
    let (directory, tickets) = match read_people(alloc, document) {
        Ok(people) => people,
        Err(fault) => return Err(fault),
    };
    let rows = rows_at(document, "buffer");
    let buffers = match read_buffers(alloc, &directory, files, rows) {
        Ok(buffers) => buffers,
        Err((index, fault)) => return Err(fault_in(ConfigTable::Buffer, index, fault)),
    };
    match read_paths(alloc, rows) {
        Ok(files) => Ok(Config {
            directory,
            tickets,
            buffers,
            files,
        }),
        Err(_) => Err(fault_in(ConfigTable::Top, 0, TableFault::Short)),
    }
}

/// Reads a configuration: a TOML document with lists of tables `[[user]]` (`name`, `ticket`), `[[group]]` (`name`, `members`) and
/// `[[buffer]]` (`name`, `owner`, `list`, and `text` or `file`; neither is an empty text; it may have `group`). Members and owners are
/// users, and owning groups are groups; files are read by `files`, each in its turn.
///
/// The faults are those of the document (`top 0`: `Toml` where it is none, `Key` where it has another key, or one that is no list of
/// tables), and then the first of the first table that has one, by the order of [`TableFault`]; users come before groups, and groups
/// before buffers. `File` comes only where the count of faults of `files` rose, or stood at the last u64, and elsewhere the count is as
/// before. `Short` (`top 0`) is for out of memory, and may come at any point, also where another fault is due.
pub fn read_config<F: Files>(
    alloc: Global,
    text: &str,
    files: &mut F,
) -> Result<Config, ConfigFault>
    ensures due { OnOk result (IfSome (document_in text.now) (λ d. people_refused d ≡ None)) }
    ensures none { OnOk result (IfSome (document_in text.now) (λ d. buffers_fault (F.tells files.old) d ≡ None)) }
    ensures directory { IfOk result (λ c. Some c.directory ≡ option_map directory_in (document_in text.now)) }
    ensures tickets { IfOk result (λ c. Some c.tickets ≡ option_map users_in (document_in text.now)) }
    ensures buffers { IfOk result (λ c. IfSome (document_in text.now) (λ d. AreBuffers (F.tells files.old) (F.gives files.old) (buffer_rows d) c.buffers)) }
    ensures unmarked { IfOk result (λ c. AreUnmarked c.buffers) }
    ensures files { IfOk result (λ c. Some (paths_of c.files.items) ≡ option_map files_in (document_in text.now)) }
    ensures err { IfErr result (λ e. e.fault ≢ Short → IsConfigFault (document_in text.now) (F.tells files.old) (F.gives files.old) e) }
    ensures short { IfErr result (λ e. e.fault ≡ Short → e ≡ fault_of Top (0, Short)) }
    ensures same { F.tells files.new ≡ F.tells files.old }
    ensures kept { GivesNoMore (F.gives files.new) (F.gives files.old) }
    ensures read { OnOk result (F.count files.new ≡ F.count files.old) }
    ensures count { IfErr result (λ e. IsCounted e.fault (F.count files.old) (F.count files.new)) }
{
    match read_document(alloc, text) {
        Ok(Some(document)) => configure(alloc, &document, files),
        Ok(None) => Err(fault_in(ConfigTable::Top, 0, TableFault::Toml)),
        Err(_) => Err(fault_in(ConfigTable::Top, 0, TableFault::Short)),
    }
}
