// The configuration that is served.
ghost use Rattle.std.specs.Prelude.{◌≡◌, ◌≢◌, None, IfOk, IfErr, IfSome};
ghost use Rattle.mgs_buffers.specs.MarkedBuffer.{AreUnmarked};
ghost use Rattle.mgs_config.specs.World.{fault_of};
ghost use Rattle.mgs_config.specs.declared.config_fault.ConfigTable.TheVariants.{Top};
ghost use Rattle.mgs_config.specs.declared.config_fault.TableFault.TheVariants.{File, Short};
ghost use Rattle.mgs_disk.specs.Reading.{IsLoaded, IsLoadedFrom, IsLoadFault, IsRefusedBy};

use crate::disk::{Disk, cause_of};
use crate::open_file::RegularFiles;
use mgs_config::{Config, ConfigFault, ConfigTable, FilesFault, TableFault, read_config};
use mgs_written::{Opens, read_at};
use std::alloc::Global;
use std::{fs, str};

// A fault of the document as a whole.
fn top(fault: TableFault) -> ConfigFault
    ensures { result ≡ fault_of Top (0, fault) }
{
    ConfigFault {
        table: ConfigTable::Top,
        index: 0,
        fault,
    }
}

// The bytes of the file at a path, all of them.
fn document_at<O: Opens>(opens: &O, alloc: Global, path: &str) -> Result<Vec<u8>, ConfigFault>
    ensures read { IfOk result (λ bytes. IfSome (O.holds opens.now path.now) (λ all. bytes.items ≡ all)) }
    ensures err { IfErr result (λ e. e ≢ fault_of Top (0, File) → e ≡ fault_of Top (0, Short)) }
{
    match read_at(opens, alloc, path) {
        Ok(bytes) => Ok(bytes),
        Err(error) => match cause_of(error) {
            FilesFault::Unreadable => Err(top(TableFault::File)),
            FilesFault::Short => Err(top(TableFault::Short)),
        },
    }
}

// The configuration that these bytes write, with the files that its buffers name.
fn config_in<O: Opens>(opens: &O, alloc: Global, bytes: &[u8]) -> Result<Config, ConfigFault>
    ensures loaded { IfOk result (λ c. IsLoaded (O.holds opens.now) c bytes.now) }
    ensures unmarked { IfOk result (λ c. AreUnmarked c.buffers) }
    ensures short { IfErr result (λ e. e.fault ≡ Short → e ≡ fault_of Top (0, Short)) }
    ensures refused { IfErr result (λ e. e.fault ≢ Short → IsRefusedBy (O.holds opens.now) bytes.now e) }
{
    let mut disk = Disk::new(alloc, opens);
    match str::from_utf8(bytes) {
        Ok(text) => read_config(alloc, text, &mut disk),
        Err(_) => Err(top(TableFault::Toml)),
    }
}

/// Reads the configuration in the file at a path, with the files that its buffers name: all of it, and it is UTF-8.
///
/// Its faults are those of `read_config`, and for the file itself, all of them `top 0`: `File` where it cannot be read, `Toml` where it
/// is no UTF-8, `Short` for out of memory.
pub fn load_config_from<O: Opens>(
    opens: &O,
    alloc: Global,
    path: &str,
) -> Result<Config, ConfigFault>
    ensures loaded { IfOk result (λ c. IsLoadedFrom (O.holds opens.now) path.now c) }
    ensures unmarked { IfOk result (λ c. AreUnmarked c.buffers) }
    ensures err { IfErr result (λ e. IsLoadFault (O.holds opens.now) path.now e) }
{
    match document_at(opens, alloc, path) {
        Ok(bytes) => config_in(opens, alloc, &bytes),
        Err(fault) => Err(fault),
    }
}

/// The same of the regular files of the disk. What these hold is not known to proofs: the configuration is what the bytes say that were
/// read, and is refused for what they say.
pub fn load_config<R: fs::Files + AllocGlobal>(rt: &R, path: &str) -> Result<Config, ConfigFault>
    ensures loaded { IfOk result (λ c. IsLoadedFrom (λ file. None) path.now c) }
    ensures unmarked { IfOk result (λ c. AreUnmarked c.buffers) }
    ensures err { IfErr result (λ e. IsLoadFault (λ file. None) path.now e) }
{
    load_config_from(&RegularFiles::new(rt), rt.alloc(), path)
}
