//! The table that a text is.
ghost use Rattle.std.specs.Prelude.{◌≡◌, ◌≢◌, IfOk, IfErr, IsUtf8, None, Some};
ghost use Rattle.toml.specs.View.{table_view};
ghost use Rattle.toml.specs.Parse.{parse_document};
ghost use Rattle.problem_files.specs.declared.energy_fault.EnergyFault.TheVariants.{BadToml};
ghost use Rattle.problem_files.specs.declared.energy_fault.EnergyFault.TheVariants.{OutOfMemory};

use crate::EnergyFault;
use std::alloc::Global;
use toml::Table;

/// The table that the bytes of a TOML text are. `OutOfMemory` may come of any bytes. Any other
/// refusal is `BadToml`, which comes of UTF-8 only where it is no TOML text.
pub fn read_table(alloc: Global, bytes: &[u8]) -> Result<Table, EnergyFault>
    ensures ok { IfOk result (λ table.
        IsUtf8 bytes.now × (parse_document bytes.now ≡ Some (table_view
        table))) }
    ensures refused { IfErr result
        (λ fault. fault ≢ OutOfMemory → (fault ≡ BadToml) × (IsUtf8 bytes.now
        → parse_document bytes.now ≡ None)) }
{
    match toml::table_from_slice(alloc, bytes) {
        Ok(table) => Ok(table),
        Err(error) => Err(if error.is_memory() {
            EnergyFault::OutOfMemory
        } else {
            EnergyFault::BadToml
        }),
    }
}
