//! A run of moves that is under way.
ghost use Rattle.std.specs.Prelude.{◌≡◌, ◌+◌, ◌<◌, ◌≤◌, ℕ, List, length, IfOk, IfErr, IfSome};
ghost use Rattle.std.specs.Prelude.{OnOk, OnErr, None, Some, All};
ghost use Rattle.label_energies.specs.declared.cycles.Moves.{Moves as Kind};
ghost use Rattle.label_energies.specs.declared.change.Move.{Move as Change};
ghost use Rattle.label_field.specs.Limits.{site_limit};
ghost use Rattle.run_steps.specs.Prelude.{IsPosed, WhereMeant, FitsProblem, AreOfOneSize};
ghost use Rattle.run_steps.specs.Prelude.{IsRunRefusal};
ghost use Rattle.run_steps.specs.Prelude.{IsRunFrom, IsSomeRun, IsStepOf, TellsStep, LeadsBest};
ghost use Rattle.run_steps.specs.Prelude.{IsAhead};
ghost use Rattle.run_steps.specs.Prelude.{ended_of, cycles_of, left_of, moves_made_by};
ghost use Rattle.run_steps.specs.Prelude.{labels_changed};
ghost use Rattle.run_steps.specs.Prelude.{IsRunOver, IsRunIn, IsStepIn};
ghost use Rattle.run_steps.specs.Prelude.{labelling as labelling_of, moves_of, LeadMoves};
ghost use Rattle.run_steps.specs.Prelude.{AreMovesStamped};

use crate::course::{Course, Ended};
use crate::{MoveError, Sharing};
use cost_store::Problem;
use label_energies::{Move, Moves};
use label_field::Labelling;
use later_expansions::begin_changes;
use later_swaps::begin_swaps;
use near_changes::Changes;
use one_move::Workspace;
use std::alloc::{AllocError, Global};

/// A run of moves of one kind that is under way: what it works with, what it remembers of its
/// moves, the labels before its last step, and where it stands. The labels stay with the caller,
/// who lends them to each step, with the problem and the way to cut: those of the beginning.
#[derive(Drop)]
pub struct RunUnderWay {
    pub(crate) space: Workspace,
    pub(crate) changes: Changes,
    pub(crate) swaps: Changes,
    pub(crate) before: Vec<u8>,
    pub(crate) course: Course,
}

/// One step of a run: how many whole cycles were done before it, the move, and how many sites have
/// another label since.
#[derive(Clone, Copy, Debug, PartialEq, Eq)]
pub struct Step {
    pub cycle: u32,
    pub change: Move,
    pub changed: u32,
}

impl RunUnderWay {
    /// A run of moves of one kind that begins at a labelling of a problem: at most so many cycles,
    /// as `run` makes them. It makes no move yet, and refuses nothing: where memory is short, it
    /// remembers less of its moves.
    pub fn begin<F: Fn(u32, u32) -> i64 + Sync, V: Fn(u32, u32) -> i64 + Sync>(
        alloc: Global,
        problem: &Problem<F, V>,
        labelling: &Labelling,
        moves: Moves,
        cycles: u32,
    ) -> RunUnderWay
        requires posed { IsPosed F.Fn V.Fn problem.now }
        requires fits { FitsProblem problem.now labelling.now }
        ensures run { IsRunFrom F.Fn V.Fn problem.now moves cycles labelling.now.at labelling.now
            result }
        ensures made { moves_made_by result ≡ 0 }
    {
        RunUnderWay {
            space: Workspace::new(alloc),
            changes: begin_changes(alloc, problem, labelling, moves, cycles),
            swaps: begin_swaps(alloc, problem, labelling, moves, cycles),
            before: Vec::new(alloc),
            course: Course::begin(moves, labelling.labels(), cycles),
        }
    }

    /// How the run ended: its cycles, and whether the last of them changed nothing. `None` while it
    /// goes on.
    pub fn outcome(&self) -> Option<Ended>
        ensures { result ≡ ended_of self.now }
    {
        self.course.ended
    }

    /// How many whole cycles were done.
    pub fn cycles(&self) -> u32
        ensures { result ≡ cycles_of self.now }
    {
        match self.course.ended {
            Some(ended) => ended.cycles,
            None => self.course.done,
        }
    }

    /// Makes the next move of the chain that is not known to change nothing, and tells it. `None`,
    /// and nothing changes, once the run has ended. Refused as the move is (`expand`, `swap`): the
    /// labels are then as they were, and the run is still under way. The labels are always where a
    /// beginning of the chain ends, so a run may be left after any step.
    pub fn step<F: Fn(u32, u32) -> i64 + Sync, V: Fn(u32, u32) -> i64 + Sync, H: Sharing>(
        &mut self,
        problem: &Problem<F, V>,
        labelling: &mut Labelling,
        how: &H,
    ) -> Result<Option<Step>, MoveError>
        requires ready { H.ready how.now }
        requires under_way { IsSomeRun F.Fn V.Fn problem.now labelling.old self.old }
        ensures chain { (kind : Kind) (cycles : ℕ) (start : List ℕ) →
            IsRunFrom F.Fn V.Fn problem.now kind cycles start labelling.old self.old →
            IsStepOf F.Fn V.Fn problem.now kind cycles start labelling.new self.new result }
        ensures told { IfOk result (TellsStep self.old labelling.old.at labelling.new.at) }
        ensures best { WhereMeant F.Fn V.Fn problem.now (λ m. IfOk result (λ told. IfSome told
            (λ step. LeadsBest m step.change labelling.old.at labelling.new.at))) }
        ensures left { IfOk result (λ told. IfSome told
            (λ _. left_of self.new < left_of self.old)) }
        ensures made { IfOk result (λ told. IfSome told (λ _. ended_of self.new ≡ None →
            moves_made_by self.new ≡ moves_made_by self.old + 1)) }
        ensures sizes { AreOfOneSize labelling.old labelling.new }
        ensures unchanged { OnErr result (labelling.new ≡ labelling.old) }
        ensures refused { IfErr result (IsRunRefusal (H.refuses how.now)) }
        ensures below { All (λ label. label < labelling.new.labels) labelling.new.at }
    {
        labelling.keeps();
        if self.course.ended.is_some() {
            return Ok(None);
        }
        let cycle = self.course.done;
        let change = self.course.ahead();
        if self.remember(labelling).is_err() {
            return Err(MoveError::OutOfMemory);
        }
        self.advance(problem, labelling, how)?;
        labelling.keeps();
        Ok(Some(Step {
            cycle,
            change,
            changed: count_changed(&self.before, labelling.as_slice()),
        }))
    }

    /// Makes all moves that are left, and tells how the run ended. Refused as the move that is
    /// refused: the run is then still under way, before that move.
    pub fn finish<F: Fn(u32, u32) -> i64 + Sync, V: Fn(u32, u32) -> i64 + Sync, H: Sharing>(
        &mut self,
        problem: &Problem<F, V>,
        labelling: &mut Labelling,
        how: &H,
    ) -> Result<Ended, MoveError>
        requires ready { H.ready how.now }
        requires under_way { IsSomeRun F.Fn V.Fn problem.now labelling.old self.old }
        ensures chain { (kind : Kind) (cycles : ℕ) (start : List ℕ) →
            IsRunFrom F.Fn V.Fn problem.now kind cycles start labelling.old self.old →
            IsStepOf F.Fn V.Fn problem.now kind cycles start labelling.new self.new result }
        ensures ended { IfOk result (λ ended. ended_of self.new ≡ Some ended) }
        ensures sizes { AreOfOneSize labelling.old labelling.new }
        ensures refused { IfErr result (IsRunRefusal (H.refuses how.now)) }
        ensures below { All (λ label. label < labelling.new.labels) labelling.new.at }
    {
        loop {
            labelling.keeps();
            if let Some(ended) = self.course.ended {
                return Ok(ended);
            }
            self.advance(problem, labelling, how)?;
        }
    }

    /// Keeps the labels, for the count of those that a step changes.
    fn remember(&mut self, labelling: &Labelling) -> Result<(), AllocError>
        ensures before { OnOk result (self.new.before.items ≡ labelling.now.at) }
        ensures same { (self.new.space ≡ self.old.space) × (self.new.changes ≡ self.old.changes)
            × (self.new.swaps ≡ self.old.swaps) × (self.new.course ≡ self.old.course) }
    {
        self.before.clear();
        self.before.extend_from_slice(labelling.as_slice())
    }

    /// Makes the next move of the chain: it is the chain's where what is remembered is true.
    pub(crate) fn advance<F: Fn(u32, u32) -> i64 + Sync, V: Fn(u32, u32) -> i64 + Sync, H: Sharing>(
        &mut self,
        problem: &Problem<F, V>,
        labelling: &mut Labelling,
        how: &H,
    ) -> Result<(), MoveError>
        requires ready { H.ready how.now }
        requires over { IsRunOver F.Fn V.Fn problem.now labelling.old self.old }
        requires open { ended_of self.old ≡ None }
        ensures over { IsRunOver F.Fn V.Fn problem.now labelling.new self.new }
        ensures chain { (kind : Kind) (cycles : ℕ) (start : List ℕ) →
            IsRunFrom F.Fn V.Fn problem.now kind cycles start labelling.old self.old →
            IsStepOf F.Fn V.Fn problem.now kind cycles start labelling.new self.new result }
        ensures goes_on { WhereMeant F.Fn V.Fn problem.now (λ m.
            (kind : Kind) (cycles : ℕ) (start : List ℕ) →
            IsRunIn m kind cycles start labelling.old.at self.old →
            IsStepIn m kind cycles start labelling.new.at self.new result) }
        ensures best { WhereMeant F.Fn V.Fn problem.now
            (λ m. AreMovesStamped m (labelling_of labelling.old.at) self.old.changes
            self.old.swaps → OnOk result ((change : Change) →
            IsAhead self.old self.old.course.done change
            → LeadsBest m change labelling.old.at labelling.new.at)) }
        ensures left { OnOk result (left_of self.new < left_of self.old) }
        ensures made { OnOk result
            (ended_of self.new ≡ None → moves_made_by self.new ≡ moves_made_by self.old + 1) }
        ensures moved { WhereMeant F.Fn V.Fn problem.now (λ m.
            (kind : Kind) (cycles : ℕ) (start : List ℕ) →
            IsRunIn m kind cycles start labelling.old.at self.old → OnOk result
            (LeadMoves m (moves_of kind m.labels) (moves_made_by self.old + 1) start
            labelling.new.at)) }
        ensures same { self.new.before ≡ self.old.before }
        ensures sizes { AreOfOneSize labelling.old labelling.new }
        ensures unchanged { OnErr result (labelling.new ≡ labelling.old) }
        ensures refused { IfErr result (IsRunRefusal (H.refuses how.now)) }
    {
        let change = self.course.ahead();
        match self.make_next(problem, labelling, change, how) {
            Ok(turned) => {
                self.course = self.course.pass(turned);
                Ok(())
            }
            Err(refusal) => Err(refusal),
        }
    }
}

/// At how many sites two labellings differ.
fn count_changed(before: &[u8], now: &[u8]) -> u32
    requires sizes { (length now.now ≡ length before.now) × (length before.now ≤ site_limit) }
    ensures { result ≡ labels_changed before.now now.now }
{
    let mut changed = 0u32;
    for site in 0..before.len() {
        if now[site] != before[site] {
            changed += 1;
        }
    }
    changed
}
