//! A labelling problem, read from TOML.
ghost use Rattle.std.specs.Prelude.{◌≡◌, ◌≢◌, IfOk, IfErr, IsUtf8};
ghost use Rattle.toml.specs.View.{table_view};
ghost use Rattle.label_field.specs.LabelFields.{AreSizes};
ghost use Rattle.problem_files.specs.LabelFieldNames.{IsFirstFault};
ghost use Rattle.problem_files.specs.declared.label_fault.LabelFault.TheVariants.{BadToml};
ghost use Rattle.problem_files.specs.declared.label_fault.LabelFault.TheVariants.{OutOfMemory};
ghost use Rattle.problem_files.specs.Limits.{AreCostsInLimits, IsInLimits};
ghost use Rattle.problem_files.specs.Names.{problem_of_table, names_rest, problem_in, problem_view};
ghost use Rattle.problem_files.specs.StatedLabels.{StatesProblem, TextStatesProblem};

use crate::costs::{data_in, label_costs_in};
use crate::move_names::moves_in;
use crate::numbers::{number_in, number_or};
use crate::pairs::pairs_in;
use crate::smooth::smooth_in;
use crate::start::start_in;
use crate::table::read_table;
use crate::{EnergyFault, LabelFault, LabelKey, LabelProblem};
use label_field::{LABEL_LIMIT, SITE_LIMIT};
use run_options::{CYCLE_LIMIT, TRUNC_LIMIT};
use std::alloc::Global;
use toml::Table;

/// The problem of labels that the bytes of a TOML text name, or its first fault.
pub fn read_label(alloc: Global, bytes: &[u8]) -> Result<LabelProblem, LabelFault>
    ensures ok { IfOk result (λ problem.
        IsUtf8 bytes.now × (problem_in bytes.now ≡ Ok (problem_view problem))) }
    ensures stated { IfOk result (λ problem. TextStatesProblem bytes.now (problem_view problem)) }
    ensures limits { IfOk result (λ problem. IsInLimits (problem_view problem)) }
    ensures refused { IfErr result (λ fault. fault ≢ OutOfMemory →
        IsUtf8 bytes.now → problem_in bytes.now ≡ Err fault) }
    ensures text { IfErr result
        (λ fault. fault ≢ OutOfMemory → fault ≢ BadToml → IsUtf8 bytes.now) }
{
    let table = match read_table(alloc, bytes) {
        Ok(table) => table,
        Err(EnergyFault::OutOfMemory) => return Err(LabelFault::OutOfMemory),
        Err(_) => return Err(LabelFault::BadToml),
    };
    problem_of(alloc, &table)
}

/// The problem of labels that a table names, or its first fault. The fields are read in the order
/// `sites`, `labels`, `data`, `smooth`, `trunc`, `pairs`, `start`, `moves`, `cycles`,
/// `label_costs`; other fields are ignored.
pub fn problem_of(alloc: Global, table: &Table) -> Result<LabelProblem, LabelFault>
    ensures ok { IfOk result (λ problem.
        problem_of_table (table_view table.now) ≡ Ok (problem_view problem)) }
    ensures stated { IfOk result
        (λ problem. StatesProblem (table_view table.now) (problem_view problem)) }
    ensures limits { IfOk result (λ problem. IsInLimits (problem_view problem)) }
    ensures refused { IfErr result
        (λ fault. fault ≢ OutOfMemory → problem_of_table (table_view table.now) ≡ Err fault) }
{
    let sites = number_in(table, LabelKey::Sites, 0, SITE_LIMIT)?;
    let labels = number_in(table, LabelKey::Labels, 1, LABEL_LIMIT)?;
    let data = data_in(alloc, table, sites as usize * labels as usize)?;
    let smooth = smooth_in(alloc, table, labels)?;
    let most = number_or(table, LabelKey::Trunc, 1, TRUNC_LIMIT, 1)?;
    let Ok(smooth) = smooth.into_table(alloc, labels, most) else {
        return Err(LabelFault::OutOfMemory);
    };
    rest_of(alloc, table, sites, labels, data, smooth)
}

/// The problem of these sizes and costs whose other fields a table names, or the first fault of
/// these.
fn rest_of(
    alloc: Global,
    table: &Table,
    sites: u32,
    labels: u32,
    data: Vec<u32>,
    smooth: Vec<i64>,
) -> Result<LabelProblem, LabelFault>
    requires sizes { AreSizes sites labels }
    requires costs { AreCostsInLimits sites labels data.items smooth.items }
    ensures ok { IfOk result (λ problem.
        names_rest (table_view table.now) sites labels data.items smooth.items
        ≡ Ok (problem_view problem)) }
    ensures limits { IfOk result (λ problem. IsInLimits (problem_view problem)) }
    ensures refused { IfErr result
        (IsFirstFault (names_rest (table_view table.now) sites labels data.items smooth.items)) }
{
    let pairs = pairs_in(alloc, table, sites)?;
    let start = start_in(alloc, table, sites, labels)?;
    let moves = moves_in(table)?;
    let cycles = number_or(table, LabelKey::Cycles, 0, CYCLE_LIMIT, 100)?;
    let label_costs = label_costs_in(alloc, table, labels)?;
    Ok(LabelProblem {
        sites,
        labels,
        data,
        smooth,
        pairs,
        start,
        moves,
        cycles,
        label_costs,
    })
}
