//! What two labels cost each pair, as a table in parts of a unit.
ghost use Rattle.std.specs.Prelude.{◌≡◌, ℕ, ◌+◌, ◌*◌, ◌<◌, ◌≤◌, length, slice_index, IfOk};
ghost use Rattle.cost_store.specs.Posed.{IsPosed, WhereMeant};
ghost use Rattle.label_field.specs.Limits.{label_limit, weight_limit};
ghost use Rattle.label_field.specs.PairLists.{IsWeightIn};
ghost use Rattle.message_bound.specs.Costs.{parts, IsOfForm};
ghost use Rattle.message_bound.specs.PairTables.{ServesPairs, ArePairCosts};

use crate::costs::{Form, PARTS, form_of, smooth_costs};
use cost_store::Problem;
use std::alloc::{AllocError, Global};
use std::marker::Model;

/// The table of what two labels cost a pair, in parts of a unit: of weighted pairs one table for
/// all, that of a pair of weight 1, else that of the pair that was loaded last.
#[derive(Drop)]
pub struct PairCosts {
    labels: usize,
    entries: Vec<u32>,
    form: Form,
}

impl Model for PairCosts {
    ghost use Rattle.message_bound.specs.PairTables.{PairTable, IsPairTable};

    ghost Value = { PairTable };

    ghost view = { λ t. record {
      labels = t.labels;
      entries = t.entries.items;
      form = t.form;
    } };

    ghost invariant = { λ t. IsPairTable (record {
      labels = t.labels;
      entries = t.entries.items;
      form = t.form;
    }) };
}

impl PairCosts {
    /// The table for the pairs of a problem, before any of them is loaded. It takes 4 bytes for
    /// each two labels, and refuses only where memory runs out.
    pub fn new<F: Fn(u32, u32) -> i64 + Sync, V: Fn(u32, u32) -> i64 + Sync>(
        alloc: Global,
        problem: &Problem<F, V>,
    ) -> Result<PairCosts, AllocError>
        requires posed { IsPosed F.Fn V.Fn problem.now }
        requires few { problem.now.data_cost.labels ≤ label_limit }
        ensures { IfOk result (ServesPairs F.Fn V.Fn problem.now) }
    {
        let labels = problem.data_cost.labels as usize;
        if problem.pairs.are_numbered() {
            let entries = vec![in alloc; 0u32; labels * labels]?;
            return Ok(PairCosts {
                labels,
                entries,
                form: Form::Table,
            });
        }
        let entries = smooth_costs(alloc, problem)?;
        let form = form_of(entries.as_slice(), labels);
        Ok(PairCosts {
            labels,
            entries,
            form,
        })
    }

    /// Makes the table that of a pair, by its weight or its number, and tells how many times its
    /// entries count. Where pairs have weights the table stays, and the answer is the weight. It
    /// takes no memory.
    pub fn load<F: Fn(u32, u32) -> i64 + Sync, V: Fn(u32, u32) -> i64 + Sync>(
        &mut self,
        problem: &Problem<F, V>,
        weight: u32,
    ) -> u32
        requires posed { IsPosed F.Fn V.Fn problem.now }
        requires weight { IsWeightIn problem.now.pairs weight }
        requires serves { ServesPairs F.Fn V.Fn problem.now self.old }
        ensures serves { ServesPairs F.Fn V.Fn problem.now self.new }
        ensures costs { WhereMeant F.Fn V.Fn problem.now (λ m. ArePairCosts m
            problem.now.data_cost.labels weight self.new.entries result) }
        ensures small { result ≤ weight_limit }
    {
        if problem.pairs.are_numbered() {
            self.form = Form::Table;
            fill(problem, weight, self.entries.as_mut_slice());
            1
        } else {
            weight
        }
    }

    /// The entries of the table, row after row.
    pub fn as_slice(&self) -> &[u32]
        ensures entries { result.now ≡ self.now.entries }
        ensures size { length result.now ≡ self.now.labels * self.now.labels }
    {
        self.entries.as_slice()
    }

    /// Of what form the entries are.
    pub fn form(&self) -> Form
        ensures { IsOfForm self.now.labels self.now.entries result }
    {
        self.form
    }
}

/// What two labels cost a pair of this weight, or of this number, in parts.
fn parts_of<F: Fn(u32, u32) -> i64 + Sync, V: Fn(u32, u32) -> i64 + Sync>(
    problem: &Problem<F, V>,
    weight: u32,
    first: u32,
    second: u32,
) -> u32
    requires posed { IsPosed F.Fn V.Fn problem.now }
    requires weight { IsWeightIn problem.now.pairs weight }
    requires inside { (first < problem.now.data_cost.labels)
        × (second < problem.now.data_cost.labels) }
    ensures { WhereMeant F.Fn V.Fn problem.now
        (λ m. result ≡ parts * m.smooth_cost weight first second) }
{
    (PARTS * problem.pair_cost(weight, first, second).unsigned_abs()) as u32
}

/// Writes what a label of the first site and each of the second cost a pair.
fn fill_row<F: Fn(u32, u32) -> i64 + Sync, V: Fn(u32, u32) -> i64 + Sync>(
    problem: &Problem<F, V>,
    weight: u32,
    first: u32,
    row: &mut [u32],
)
    requires posed { IsPosed F.Fn V.Fn problem.now }
    requires weight { IsWeightIn problem.now.pairs weight }
    requires first { first < problem.now.data_cost.labels }
    requires size { length row.old ≡ problem.now.data_cost.labels }
    ensures { WhereMeant F.Fn V.Fn problem.now (λ m. (b : ℕ) → b < length row.old
        → slice_index row.new b ≡ parts * m.smooth_cost weight first b) }
{
    for second in 0..problem.data_cost.labels {
        row[second as usize] = parts_of(problem, weight, first, second);
    }
}

/// Writes what each two labels cost a pair.
fn fill<F: Fn(u32, u32) -> i64 + Sync, V: Fn(u32, u32) -> i64 + Sync>(
    problem: &Problem<F, V>,
    weight: u32,
    entries: &mut [u32],
)
    requires posed { IsPosed F.Fn V.Fn problem.now }
    requires weight { IsWeightIn problem.now.pairs weight }
    requires size { length entries.old
        ≡ problem.now.data_cost.labels * problem.now.data_cost.labels }
    ensures { WhereMeant F.Fn V.Fn problem.now
        (λ m. ArePairCosts m problem.now.data_cost.labels weight entries.new 1) }
{
    let labels = problem.data_cost.labels;
    for first in 0..labels {
        let from = first as usize * labels as usize;
        let row = &mut entries[from..from + labels as usize];
        fill_row(problem, weight, first, row);
    }
}
