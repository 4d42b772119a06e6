//! Forms: the terms of an energy, added up as weights and arcs.
ghost use Rattle.std.specs.Prelude.{◌≡◌, ℕ, ◌+◌, ◌*◌, ◌<◌, ◌≤◌, Bool, All, ◌+ℤ◌, pos, vec_len};
ghost use Rattle.std.specs.Prelude.{OnOk, IfOk};
ghost use Rattle.pseudo_bool.specs.Limits.{term_limit};
ghost use Rattle.pseudo_bool.specs.Energies.{entry, digit, IsValue, IsTerm, IsEnergy};
ghost use Rattle.regular.specs.Regularity.{IsRegular, IsRegularTerm, IsRegularTable};
ghost use Rattle.compile_cut.specs.Limits.{form_nodes};
ghost use Rattle.compile_cut.specs.Quadratics.{quadratic_value, IsQuadraticBounded, IsConstant};
ghost use Rattle.compile_cut.specs.Quadratics.{HasRoomForTerm, StaysBounded, AddsTerm, SaysValues};
ghost use Rattle.compile_cut.specs.Shown.{three_count};
ghost use Rattle.compile_cut.specs.Three.{AreNodesBelow, IsRegularOfThree};

use crate::adding::{
    Nodes, add_arc, add_hidden_arcs, add_three_arcs, add_three_weights, add_weight,
};
use crate::parts::{split_one, split_pair};
use crate::three::split_three;
use flow_network::Arc;
use pseudo_bool::{Energy, Term};
use std::alloc::{AllocError, Global};

/// A number, a weight for each node, and arcs: what the terms of an energy add up to. Its value at
/// a set of nodes is the number, the weights of the nodes of the set and the capacities of the arcs
/// that lead into it from outside, all in the unit of the energy (Kolmogorov and Zabih, PAMI 2004,
/// section 4). Terms may be added one after another, without an energy that lists them, and
/// `net_of` makes the net.
#[derive(Drop)]
pub struct Quadratic {
    /// What each assignment costs.
    pub constant: i64,
    /// What each node costs where it is 1: a node for each variable, in their order, and then
    /// hidden nodes, at most one for each term of three variables.
    pub weights: Vec<i64>,
    /// What a pair of nodes costs where the first is 0 and the second is 1.
    pub arcs: Vec<Arc>,
}

impl Quadratic {
    /// The form 0 of no nodes. It takes no memory.
    pub fn new(alloc: Global) -> Quadratic
        ensures { IsConstant (pos 0) 0 result }
    {
        Quadratic {
            constant: 0,
            weights: Vec::new(alloc),
            arcs: Vec::new(alloc),
        }
    }

    /// The form 0 of so many nodes, numbered from 0. Refuses only where memory runs out.
    pub fn zero(alloc: Global, nodes: u32) -> Result<Quadratic, AllocError>
        ensures { IfOk result (IsConstant (pos 0) nodes) }
    {
        Ok(Quadratic {
            constant: 0,
            weights: vec![in alloc; 0; nodes as usize]?,
            arcs: Vec::new(alloc),
        })
    }

    /// Adds a term of one variable, whose node is there: what it costs where the variable is 0 and
    /// where it is 1, each number from `-VALUE_LIMIT` to `VALUE_LIMIT` of `pseudo_bool`. As many
    /// terms as an energy has at most may be added to a form; `IsQuadraticBounded` counts them. It
    /// takes no memory (Kolmogorov and Zabih, PAMI 2004, section 4.1).
    pub fn add_one(&mut self, first: u32, table: &[i64; 2])
        requires bounded { IsQuadraticBounded term_limit self.old }
        requires first { first < vec_len self.old.weights }
        requires values { All IsValue table.now }
        ensures len { vec_len self.new.weights ≡ vec_len self.old.weights }
        ensures bounded { StaysBounded self.old self.new }
        ensures value { (x : ℕ → Bool) → quadratic_value self.new x ≡ quadratic_value self.old x
            +ℤ entry table.now (digit (x first)) }
    {
        let part = split_one(table);
        add_weight(&mut self.weights, first, part.weight);
        self.constant += part.constant;
    }

    /// Adds a regular term of two variables, whose nodes are there: what it costs at 00, 01, 10 and
    /// 11, where the first variable is the first digit, each number from `-VALUE_LIMIT` to
    /// `VALUE_LIMIT`. As many terms as an energy has at most may be added to a form. Refuses only
    /// where memory runs out, and then nothing is said of the form (Kolmogorov and Zabih, PAMI
    /// 2004, section 4.1).
    pub fn add_pair(&mut self, first: u32, second: u32, table: &[i64; 4]) -> Result<(), AllocError>
        requires bounded { IsQuadraticBounded term_limit self.old }
        requires first { first < vec_len self.old.weights }
        requires second { second < vec_len self.old.weights }
        requires values { All IsValue table.now }
        requires regular { IsRegularTable table.now }
        ensures len { vec_len self.new.weights ≡ vec_len self.old.weights }
        ensures bounded { OnOk result (StaysBounded self.old self.new) }
        ensures value { OnOk result ((x : ℕ → Bool) → quadratic_value self.new x
            ≡ quadratic_value self.old x
            +ℤ entry table.now (2 * digit (x first) + digit (x second))) }
    {
        let part = split_pair(table);
        add_arc(&mut self.arcs, first, second, part.arc)?;
        add_weight(&mut self.weights, first, part.first);
        add_weight(&mut self.weights, second, part.second);
        self.constant += part.constant;
        Ok(())
    }

    /// Adds a regular table over three variables, with a hidden node.
    fn add_three(&mut self, nodes: Nodes, table: &[i64; 8]) -> Result<(), AllocError>
        requires form { HasRoomForTerm self.old }
        requires nodes { AreNodesBelow (vec_len self.old.weights) nodes }
        requires table { IsRegularOfThree table.now }
        ensures { OnOk result (AddsTerm self.old self.new
            (Term.Three nodes.first nodes.second nodes.third table.now)) }
    {
        let part = split_three(table);
        let hidden = self.weights.len() as u32;
        self.weights.push(part.hidden)?;
        add_three_weights(&mut self.weights, nodes, &part);
        add_three_arcs(&mut self.arcs, nodes, &part.arcs)?;
        add_hidden_arcs(&mut self.arcs, hidden, nodes, part.hidden)?;
        self.constant += part.constant;
        Ok(())
    }

    /// Adds a regular term over variables that have their nodes.
    fn add_term(&mut self, term: &Term) -> Result<(), AllocError>
        requires form { HasRoomForTerm self.old }
        requires term { IsTerm (vec_len self.old.weights) term.now }
        requires regular { IsRegularTerm term.now }
        ensures { OnOk result (AddsTerm self.old self.new term.now) }
    {
        match term {
            Term::One(first, table) => {
                self.add_one(*first, table);
                Ok(())
            }
            Term::Two(first, second, table) => self.add_pair(*first, *second, table),
            Term::Three(first, second, third, table) => {
                let nodes = Nodes {
                    first: *first,
                    second: *second,
                    third: *third,
                };
                self.add_three(nodes, table)
            }
        }
    }
}

/// What an energy comes to before its terms are added: its constant, and a node for each variable.
fn without_terms(alloc: Global, energy: &Energy) -> Result<Quadratic, AllocError>
    ensures start { IfOk result (IsConstant energy.now.constant energy.now.variables) }
    ensures limits { IfOk result (λ form. IsEnergy energy.now) }
{
    let mut form = Quadratic::zero(alloc, energy.variables())?;
    form.constant = energy.constant();
    Ok(form)
}

/// The terms of a regular energy, added up: the first half of `compile`. The energy is needed no
/// more afterwards, so who owns it may give its memory back before `net_of` makes the net. Refuses
/// only where memory runs out.
pub fn quadratic_of(alloc: Global, energy: &Energy) -> Result<Quadratic, AllocError>
    requires { IsRegular energy.now }
    ensures values { IfOk result (λ form. SaysValues energy.now form) }
    ensures bounded { IfOk result (λ form. IsQuadraticBounded term_limit form) }
    ensures variables { IfOk result (λ form. energy.now.variables ≤ vec_len form.weights) }
    ensures hidden { IfOk result (λ form. vec_len form.weights ≤ energy.now.variables
        + three_count energy.now) }
    ensures limits { IfOk result (λ form. IsEnergy energy.now) }
{
    let mut form = without_terms(alloc, energy)?;
    for index in 0..energy.term_count() {
        form.add_term(&energy.term(index))?;
    }
    Ok(form)
}
