//! One move.
ghost use Rattle.std.specs.Prelude.{◌≡◌, ℕ, ◌+◌, ◌≤◌, length, IfOk, IfErr, OnErr, IsTrue, IsFalse};
ghost use Rattle.std.specs.Prelude.{vec_len, max, ◌<◌};
ghost use Rattle.one_move.specs.Building.{later_nodes};
ghost use Rattle.one_move.specs.Prelude.{site_limit, label_limit, IsQuadraticBounded};
ghost use Rattle.one_move.specs.Prelude.{quadratic_value};
ghost use Rattle.one_move.specs.Prelude.{assignment, term_limit, IsPosed, WhereMeant};
ghost use Rattle.one_move.specs.Prelude.{FitsProblem};
ghost use Rattle.one_move.specs.Prelude.{AreOfOneSize, IsSmallestLeast, Expand, IsOfProblem};
ghost use Rattle.one_move.specs.Prelude.{site_values, HasTaken, costs_of as costs_in};
ghost use Rattle.one_move.specs.Prelude.{AreCostly};
ghost use Rattle.one_move.specs.Prelude.{IsSwap, IsFreeFor, IsMade, IsMoved, IsCutRefusal};
ghost use Rattle.one_move.specs.Prelude.{IsMoveRefusal, TellsPair, made_value};
ghost use Rattle.one_move.specs.Prelude.{labelling as labelling_of};

use crate::MoveError;
use crate::building::build_move;
use crate::left::cut_left;
use crate::paying::pay;
use crate::taking::take_best;
use crate::workspace::{Workspace, give_numbers_back};
use compile_cut::{Quadratic, net_of};
use cost_store::{Problem, costs_of, has_cost};
use cut_ways::{Alone, Sharing};
use label_energies::Move;
use label_field::Labelling;
use move_energy::BuildError;
use std::alloc::Global;

/// The fewest nodes of a net that is left to a way with parts once it had one in the run. One
/// thread cuts smaller ones in less time than several take to share them.
const LATER_NODES: usize = 1 << 16;

/// How many nodes a net of a move over so many sites has at least that is left to a way to cut. A
/// way whose threads share nets gets that of a move of which no site was decided before: the first
/// of a run, and later ones if they are large. What is left of others is cut on the thread of the
/// caller. Another way gets all nets. The number says who cuts a net, never what its cut is.
pub fn least_nodes(shared: bool, sites: usize, later: bool) -> usize
    ensures all { IsFalse shared → result ≡ 0 }
    ensures first { IsTrue shared → IsFalse later → result ≡ sites }
    ensures large { IsTrue shared → IsTrue later → result ≡ max sites later_nodes }
{
    if !shared {
        return 0;
    }
    if later { sites.max(LATER_NODES) } else { sites }
}

/// Of how many open sites a move has at least to be left its form, where nets of as many nodes as
/// `small` or more are left to the way to cut: what is left of others is cut in rows, on the thread
/// of the caller. That cuts all nets where it is alone.
fn row_nodes<H: Sharing>(how: &H, small: usize) -> usize {
    if how.is_alone() { usize::MAX } else { small }
}

/// The least assignment of a form with the fewest ones, a bit for each node.
fn minimise<H: Sharing>(
    alloc: Global,
    form: Quadratic,
    how: &H,
    cutting: &mut plain_cut::Workspace,
) -> Result<Vec<bool>, MoveError>
    requires ready { H.ready how.now }
    requires bounded { IsQuadraticBounded term_limit form }
    requires few { vec_len form.weights ≤ site_limit + label_limit }
    ensures count { IfOk result (λ bits. length bits.items ≡ vec_len form.weights) }
    ensures least { IfOk result
        (λ bits. IsSmallestLeast (vec_len form.weights) (quadratic_value form)
        (assignment bits.items)) }
    ensures refused { IfErr result (IsCutRefusal (H.refuses how.now)) }
{
    let compiled = net_of(alloc, form)?;
    let side = how.side_in(alloc, compiled.net, cutting)?;
    Ok(side)
}

/// The least assignment of a form with the fewest ones. A form of fewer nodes than these is cut on
/// the thread of the caller: workers would take longer to share it than one takes to cut it. Of
/// nodes there are at most as many as sites and labels together. Refused: what `how` refuses, and
/// `OutOfMemory`.
pub fn cut_small<H: Sharing>(
    alloc: Global,
    form: Quadratic,
    small: usize,
    how: &H,
    cutting: &mut plain_cut::Workspace,
) -> Result<Vec<bool>, MoveError>
    requires ready { H.ready how.now }
    requires bounded { IsQuadraticBounded term_limit form }
    requires few { vec_len form.weights ≤ site_limit + label_limit }
    ensures count { IfOk result (λ bits. length bits.items ≡ vec_len form.weights) }
    ensures least { IfOk result (λ bits. IsSmallestLeast (vec_len form.weights)
        (quadratic_value form) (assignment bits.items)) }
    ensures refused { IfErr result (IsCutRefusal (H.refuses how.now)) }
{
    if form.weights.len() < small {
        return minimise(alloc, form, &Alone, cutting);
    }
    minimise(alloc, form, how, cutting)
}

/// One move, its energy built in the workspace: takes the best labelling that the move reaches, the
/// labels as they are where none of a lower energy is reached, and of the least labellings of an
/// expansion the one whose sites of its label are fewest. Yes where a label changed. Refused, the
/// first that holds: `NoSuchLabel` where a label of the move is not below the number of labels;
/// `LabelCostInSwap` where a swap is asked for and some label costs something by itself;
/// `PairNotRegular`, the first pair of the list whose term is not regular; what `how` refuses.
/// `OutOfMemory` may come at any growth. A refused move leaves the labels as they were. The
/// workspace is of one problem: its pairs, once they are grouped, are that problem's. It has the
/// least values of the sites with the fewest ones afterwards.
pub fn make_move<F: Fn(u32, u32) -> i64 + Sync, V: Fn(u32, u32) -> i64 + Sync, H: Sharing>(
    alloc: Global,
    problem: &Problem<F, V>,
    space: &mut Workspace,
    labelling: &mut Labelling,
    change: Move,
    how: &H,
) -> Result<bool, MoveError>
    requires ready { H.ready how.now }
    requires fits { FitsProblem problem.now labelling.old }
    requires posed { IsPosed F.Fn V.Fn problem.now }
    requires of_problem { IsOfProblem F.Fn V.Fn problem.now space.old }
    ensures of_problem { IsOfProblem F.Fn V.Fn problem.now space.new }
    ensures sizes { AreOfOneSize labelling.old labelling.new }
    ensures moved { WhereMeant F.Fn V.Fn problem.now
        (λ m. IsMoved m change labelling.old.at labelling.new.at
        result) }
    ensures made { IfOk result (IsMade change labelling.old.at labelling.new.at) }
    ensures taken { IfOk result (λ _. (a : ℕ) → change ≡ Expand a →
        HasTaken a (site_values space.new.built.variables.choices.items)
        labelling.old.at labelling.new.at) }
    ensures values { WhereMeant F.Fn V.Fn problem.now (λ m. IfOk result (λ _.
        IsSmallestLeast m.sites (made_value m change (labelling_of labelling.old.at))
        (site_values space.new.built.variables.choices.items))) }
    ensures unchanged { OnErr result (labelling.new ≡ labelling.old) }
    ensures refused { IfErr result (IsMoveRefusal (H.refuses how.now) labelling.old.labels change) }
{
    if !change.is_below(labelling.labels()) {
        return Err(MoveError::NoSuchLabel);
    }
    if !is_taken(&problem.label_costs, change) {
        return Err(MoveError::LabelCostInSwap);
    }
    let small = least_nodes(how.shares_nets(), labelling.sites() as usize, space.shared);
    let rows = row_nodes(how, small);
    let built = match build_move(
        alloc,
        problem,
        space,
        labelling.as_slice(),
        change,
        how,
        rows,
    ) {
        Ok(built) => built,
        Err(BuildError::PairNotRegular(pair)) => return Err(not_regular(pair, change)),
        Err(BuildError::OutOfMemory) => return Err(MoveError::OutOfMemory),
    };
    give_numbers_back(
        alloc,
        space.deciding.lists.listed,
        &mut space.built.variables.of_sites,
    );
    let price = built.price;
    let bits = cut_left(alloc, built.left, space, small, how)?;
    space.assign(&bits);
    pay(problem, space, labelling.as_slice(), change, price);
    Ok(take_best(problem, labelling, change, space))
}

/// The refusal of a move at a pair.
fn not_regular(pair: usize, change: Move) -> MoveError
    ensures { TellsPair change pair result }
{
    match change {
        Move::Expand(alpha) => MoveError::PairNotRegular {
            pair,
            alpha,
            beta: None,
        },
        Move::Swap(alpha, beta) => MoveError::PairNotRegular {
            pair,
            alpha,
            beta: Some(beta),
        },
    }
}

/// Whether a move is made at all: a swap is not where some label costs something by itself.
fn is_taken(label_costs: &Option<Vec<i64>>, change: Move) -> bool
    ensures taken { IsTrue result → IsFreeFor change (costs_in label_costs.now) }
    ensures refused { IsFalse result → IsSwap change × AreCostly (costs_in label_costs.now) }
{
    match change {
        Move::Expand(_) => true,
        Move::Swap(_, _) => !has_cost(costs_of(label_costs)),
    }
}
