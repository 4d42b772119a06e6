//! The net of a form: its weights as capacities at the source and at the sink.
ghost use Rattle.std.specs.Prelude.{◌≡◌, ℕ, ◌+◌, ◌<◌, ◌≤◌, ◌⊎◌, Bool, All, map, sum, pos};
ghost use Rattle.std.specs.Prelude.{◌+ℤ◌, ◌-ℤ◌, unsigned_abs, vec_len, slice_index, IfOk};
ghost use Rattle.pseudo_bool.specs.Limits.{term_limit};
ghost use Rattle.flow_network.specs.Cut.{nodes, capacity_of, total_capacity, IsNet};
ghost use Rattle.compile_cut.specs.Limits.{form_nodes, form_size, form_constant, compiled_constant};
ghost use Rattle.compile_cut.specs.Weights.{weights_size, arcs_size, source_part, sink_part};
ghost use Rattle.compile_cut.specs.Weights.{IsAbove};
ghost use Rattle.compile_cut.specs.Quadratics.{quadratic_value, IsQuadraticBounded};

use crate::Compiled;
use crate::quadratic::Quadratic;
use flow_network::Net;
use std::alloc::{AllocError, Global};

/// What the source sends a node of this weight.
fn source_capacity(weight: i64) -> u64
    ensures { result ≡ source_part weight }
{
    if weight > 0 { weight.unsigned_abs() } else { 0 }
}

/// What a node of this weight sends the sink.
fn sink_capacity(weight: i64) -> u64
    ensures { result ≡ sink_part weight }
{
    if weight < 0 { weight.unsigned_abs() } else { 0 }
}

/// What the source sends each node.
pub fn source_capacities(alloc: Global, weights: &[i64]) -> Result<Vec<u64>, AllocError>
    ensures { IfOk result (λ v. v.items ≡ map source_part weights.now) }
{
    weights
        .iter()
        .map(|weight| source_capacity(*weight))
        .collect(alloc)
}

/// What each node sends the sink.
pub fn sink_capacities(alloc: Global, weights: &[i64]) -> Result<Vec<u64>, AllocError>
    ensures { IfOk result (λ v. v.items ≡ map sink_part weights.now) }
{
    weights
        .iter()
        .map(|weight| sink_capacity(*weight))
        .collect(alloc)
}

/// A number less the numbers of a list.
fn less_all(constant: i64, numbers: &[u64]) -> i64
    requires constant { unsigned_abs constant ≤ form_constant }
    requires numbers { sum numbers.now ≤ form_size }
    ensures value { result ≡ constant -ℤ pos (sum numbers.now) }
    ensures bounded { unsigned_abs result ≤ compiled_constant }
{
    let total: u64 = numbers.iter().sum();
    constant - total as i64
}

/// The net of a sum of terms, the second half of `compile`: a weight above 0 is a capacity of the
/// source, one below 0 a capacity of the sink and a constant. Refuses only where memory runs out.
pub fn net_of(alloc: Global, form: Quadratic) -> Result<Compiled, AllocError>
    requires bounded { IsQuadraticBounded term_limit form }
    requires len { vec_len form.weights ≤ form_nodes }
    ensures value { IfOk result (λ c. (x : ℕ → Bool) → pos (capacity_of c.net x) +ℤ c.constant
        ≡ quadratic_value form x) }
    ensures constant { IfOk result (λ c. unsigned_abs c.constant ≤ compiled_constant) }
    ensures nodes { IfOk result (λ c. nodes c.net ≡ vec_len form.weights) }
    ensures limits { IfOk result (λ c. IsNet c.net) }
    ensures total { IfOk result (λ c. total_capacity c.net
        ≡ weights_size form.weights.items + arcs_size form.arcs.items) }
    ensures one_sided { IfOk result (λ c. (v : ℕ) → (slice_index c.net.sources v ≡ 0)
        ⊎ (slice_index c.net.sinks v ≡ 0)) }
    ensures arcs { IfOk result (λ c. All IsAbove c.net.arcs) }
{
    let sources = source_capacities(alloc, form.weights.as_slice())?;
    let sinks = sink_capacities(alloc, form.weights.as_slice())?;
    let constant = less_all(form.constant, sinks.as_slice());
    Ok(Compiled {
        net: Net::new(sources, sinks, form.arcs),
        constant,
    })
}
