// The buffers of a configuration, with their texts.
ghost use Rattle.std.specs.Prelude.{◌≡◌, ◌≢◌, ◌≤◌, [], ◌∷◌, ◌++◌, length, map, IfOk, IfErr, OnOk, None, Some};
ghost use Rattle.toml.specs.View.{view};
ghost use Rattle.mgs_buffers.specs.MarkedBuffer.{AreUnmarked};
ghost use Rattle.mgs_config.specs.Buffers.{listed, path_of, has_file, refused_beside};
ghost use Rattle.mgs_config.specs.Faults.{first_fault};
ghost use Rattle.mgs_config.specs.Files.{told_fault, file_fault, table_refused, GivesNoMore, IsPathFault, IsFaultAt, IsTextAt, IsTextOf, IsCounted, buffer_of};
ghost use Rattle.mgs_config.specs.Files.{IsAdded, AreBuffers, IsRowFault, IsBufferFault};
ghost use Rattle.mgs_config.specs.declared.config_fault.TableFault.TheVariants.{Short};

use crate::buffer_tables::{chars_of, listed, read_list, refusal, string_at};
use crate::config_fault::TableFault;
use crate::named_files::{Files, FilesFault};
use crate::row::text_at;
use mgs_buffers::Buffers;
use mgs_gap::GapText;
use mgs_model::TEXT_LIMIT;
use mgs_policy::Directory;
use std::alloc::Global;
use toml::Value;

// The text of the file at a path, where a server keeps it.
fn file_text<F: Files>(files: &mut F, path: &str) -> Result<Vec<char>, TableFault>
    ensures text { IfOk result (λ text. IsTextAt (F.tells files.old) (F.gives files.old) path.now text.items) }
    ensures none { OnOk result (told_fault (F.tells files.old path.now) ≡ None) }
    ensures err { IfErr result (λ f. f ≢ Short → IsPathFault (F.tells files.old) (F.gives files.old) path.now f) }
    ensures same { F.tells files.new ≡ F.tells files.old }
    ensures kept { GivesNoMore (F.gives files.new) (F.gives files.old) }
    ensures read { OnOk result (F.count files.new ≡ F.count files.old) }
    ensures count { IfErr result (λ f. IsCounted f (F.count files.old) (F.count files.new)) }
{
    match files.read(path) {
        Ok(text) => if text.len() > TEXT_LIMIT {
            Err(TableFault::Long)
        } else {
            Ok(text)
        },
        Err(FilesFault::Unreadable) => Err(TableFault::File),
        Err(FilesFault::Short) => Err(TableFault::Short),
    }
}

// The text of a table: that of its file, where it has one.
fn row_text<F: Files>(alloc: Global, files: &mut F, row: &Value) -> Result<Vec<char>, TableFault>
    ensures text { IfOk result (λ text. IsTextOf (F.tells files.old) (F.gives files.old) (view row.now) text.items) }
    ensures none { OnOk result (file_fault (F.tells files.old) (path_of (view row.now)) ≡ None) }
    ensures err { IfErr result (λ f. f ≢ Short → IsFaultAt (F.tells files.old) (F.gives files.old) (path_of (view row.now)) f) }
    ensures same { F.tells files.new ≡ F.tells files.old }
    ensures kept { GivesNoMore (F.gives files.new) (F.gives files.old) }
    ensures read { OnOk result (F.count files.new ≡ F.count files.old) }
    ensures count { IfErr result (λ f. IsCounted f (F.count files.old) (F.count files.new)) }
{
    match text_at(row, "file") {
        Some(path) => file_text(files, path),
        None => match chars_of(alloc, string_at(row, "text")) {
            Ok(text) => Ok(text),
            Err(_) => Err(TableFault::Short),
        },
    }
}

fn has_file(row: &Value) -> bool
    ensures { result ≡ has_file (view row.now) }
{
    text_at(row, "file").is_some()
}

// Adds the buffer of a table with a text. Its other faults were checked.
#[tactic(auto, using(crate::proofs::RowLemmas::values_count))]
fn put_buffer(buffers: &mut Buffers<GapText>, row: &Value, text: &[char]) -> Result<(), TableFault>
    requires { length (listed (view row.now)) ≤ 64 }
    ensures ok { OnOk result (buffers.new ≡ buffers.old ++ buffer_of (view row.now) text.now ∷ []) }
    ensures unmarked { AreUnmarked buffers.old → AreUnmarked buffers.new }
    ensures err { IfErr result (λ f. f ≡ Short) }
{
    let list = read_list(listed(row));
    let (name, owner) = (string_at(row, "name"), string_at(row, "owner"));
    let group = text_at(row, "group");
    match buffers.add(name, owner, group, list, text, has_file(row)) {
        Ok(()) => Ok(()),
        Err(_) => Err(TableFault::Short),
    }
}

// Adds the buffer of a table.
#[tactic(auto, using(crate::proofs::Filling::listed_few))]
fn add_buffer<F: Files>(
    alloc: Global,
    directory: &Directory,
    buffers: &mut Buffers<GapText>,
    files: &mut F,
    row: &Value,
) -> Result<(), TableFault>
    ensures due { OnOk result (refused_beside buffers.old directory.now (view row.now) ≡ None) }
    ensures none { OnOk result (file_fault (F.tells files.old) (path_of (view row.now)) ≡ None) }
    ensures added { OnOk result (IsAdded (F.tells files.old) (F.gives files.old) (view row.now) buffers.old buffers.new) }
    ensures unmarked { AreUnmarked buffers.old → AreUnmarked buffers.new }
    ensures err { IfErr result (λ f. f ≢ Short → IsRowFault (F.tells files.old) (F.gives files.old) buffers.old directory.now (view row.now) f) }
    ensures same { F.tells files.new ≡ F.tells files.old }
    ensures kept { GivesNoMore (F.gives files.new) (F.gives files.old) }
    ensures read { OnOk result (F.count files.new ≡ F.count files.old) }
    ensures count { IfErr result (λ f. IsCounted f (F.count files.old) (F.count files.new)) }
{
    match refusal(directory, buffers, row) {
        Some(fault) => return Err(fault),
        None => {}
    }
    match row_text(alloc, files, row) {
        Ok(text) => put_buffer(buffers, row, text.as_slice()),
        Err(fault) => Err(fault),
    }
}

/// The buffers of these tables, or the fault of the first that has one, and its number, counted from 1.
pub(crate) fn read_buffers<F: Files>(
    alloc: Global,
    directory: &Directory,
    files: &mut F,
    rows: &[Value],
) -> Result<Buffers<GapText>, (usize, TableFault)>
    ensures none { OnOk result (first_fault (table_refused (F.tells files.old) directory.now) [] (map view rows.now) ≡ None) }
    ensures buffers { IfOk result (λ buffers. AreBuffers (F.tells files.old) (F.gives files.old) (map view rows.now) buffers) }
    ensures unmarked { IfOk result (λ buffers. AreUnmarked buffers) }
    ensures err { IfErr result (λ f. f.1 ≢ Short → IsBufferFault (F.tells files.old) (F.gives files.old) directory.now (map view rows.now) f) }
    ensures same { F.tells files.new ≡ F.tells files.old }
    ensures kept { GivesNoMore (F.gives files.new) (F.gives files.old) }
    ensures read { OnOk result (F.count files.new ≡ F.count files.old) }
    ensures count { IfErr result (λ f. IsCounted f.1 (F.count files.old) (F.count files.new)) }
{
    let mut buffers = Buffers::new(alloc);
    for (before, row) in rows.iter().enumerate() {
        match add_buffer(alloc, directory, &mut buffers, files, row) {
            Ok(()) => {}
            Err(fault) => return Err((before + 1, fault)),
        }
    }
    Ok(buffers)
}
