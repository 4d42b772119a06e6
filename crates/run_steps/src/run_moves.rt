//! The moves of a run, which remembers them.
ghost use Rattle.std.specs.Prelude.{◌≡◌, ◌<◌, IfErr, OnErr};
ghost use Rattle.run_steps.specs.Prelude.{Expand, Swap, labelling as labelling_of, label_limit};
ghost use Rattle.run_steps.specs.Prelude.{WhereMeant, AreOfOneSize, IsMoved, IsMoveRefusal};
ghost use Rattle.run_steps.specs.Prelude.{AreStamped, AreSwapsStamped, AreMovesStamped};
ghost use Rattle.run_steps.specs.Prelude.{IsWorkingOn};

use crate::under_way::RunUnderWay;
use crate::{MoveError, Sharing};
use cost_store::Problem;
use label_energies::Move;
use label_field::Labelling;
use later_expansions::{make_later_expansion, note_later, note_whole};
use later_swaps::{note_swap, swap_labels};
use one_move::make_move;

impl RunUnderWay {
    /// The next move of a run, where its labels are those of the last. It is the chain's where what
    /// is remembered is true of the labels before. What is remembered of moves of the one kind is
    /// forgotten at one of the other.
    pub(crate) fn make_next<
        F: Fn(u32, u32) -> i64 + Sync,
        V: Fn(u32, u32) -> i64 + Sync,
        H: Sharing,
    >(
        &mut self,
        problem: &Problem<F, V>,
        labelling: &mut Labelling,
        change: Move,
        how: &H,
    ) -> Result<bool, MoveError>
        requires ready { H.ready how.now }
        requires working { IsWorkingOn F.Fn V.Fn problem.now labelling.old self.old.space }
        ensures working { IsWorkingOn F.Fn V.Fn problem.now labelling.new self.new.space }
        ensures stamped { WhereMeant F.Fn V.Fn problem.now
            (λ m. AreMovesStamped m (labelling_of labelling.old.at) self.old.changes
            self.old.swaps → AreMovesStamped m (labelling_of labelling.new.at)
            self.new.changes self.new.swaps) }
        ensures same { (self.new.course ≡ self.old.course) × (self.new.before ≡ self.old.before) }
        ensures sizes { AreOfOneSize labelling.old labelling.new }
        ensures moved { WhereMeant F.Fn V.Fn problem.now
            (λ m. AreMovesStamped m (labelling_of labelling.old.at) self.old.changes
            self.old.swaps → IsMoved m change labelling.old.at labelling.new.at result) }
        ensures unchanged { OnErr result (labelling.new ≡ labelling.old) }
        ensures refused { IfErr result
            (IsMoveRefusal (H.refuses how.now) labelling.old.labels change) }
    {
        match change {
            Move::Expand(alpha) => {
                self.swaps.forget();
                self.make_expansion(problem, labelling, alpha, how)
            }
            Move::Swap(alpha, beta) => {
                self.changes.forget();
                self.make_swap(problem, labelling, alpha, beta, how)
            }
        }
    }

    /// An expansion of a run, near what changed since its label's last where that is known, and
    /// else whole.
    fn make_expansion<F: Fn(u32, u32) -> i64 + Sync, V: Fn(u32, u32) -> i64 + Sync, H: Sharing>(
        &mut self,
        problem: &Problem<F, V>,
        labelling: &mut Labelling,
        alpha: u32,
        how: &H,
    ) -> Result<bool, MoveError>
        requires ready { H.ready how.now }
        requires working { IsWorkingOn F.Fn V.Fn problem.now labelling.old self.old.space }
        ensures working { IsWorkingOn F.Fn V.Fn problem.now labelling.new self.new.space }
        ensures stamped { WhereMeant F.Fn V.Fn problem.now
            (λ m. AreStamped m (labelling_of labelling.old.at) self.old.changes →
            AreStamped m (labelling_of labelling.new.at) self.new.changes) }
        ensures same { (self.new.course ≡ self.old.course) × (self.new.before ≡ self.old.before)
            × (self.new.swaps ≡ self.old.swaps) }
        ensures sizes { AreOfOneSize labelling.old labelling.new }
        ensures moved { WhereMeant F.Fn V.Fn problem.now
            (λ m. AreStamped m (labelling_of labelling.old.at) self.old.changes →
            IsMoved m (Expand alpha) labelling.old.at labelling.new.at result) }
        ensures unchanged { OnErr result (labelling.new ≡ labelling.old) }
        ensures refused { IfErr result
            (IsMoveRefusal (H.refuses how.now) labelling.old.labels (Expand alpha)) }
    {
        let later = make_later_expansion(
            problem,
            &mut self.space,
            labelling,
            alpha,
            &self.changes,
            how,
        )?;
        if let Some(changed) = later {
            note_later(problem, &mut self.changes, alpha, &self.space.stage);
            return Ok(changed);
        }
        let alloc = *self.changes.stamps.allocator();
        let change = Move::Expand(alpha);
        let changed = make_move(alloc, problem, &mut self.space, labelling, change, how)?;
        note_whole(
            problem,
            &mut self.changes,
            alpha,
            &self.space.built.variables.choices,
        );
        Ok(changed)
    }

    /// A swap of a run that remembers its swaps, near what changed since the last of its labels
    /// where that is known, and else whole. `before` are the labels.
    fn make_noted_swap<F: Fn(u32, u32) -> i64 + Sync, V: Fn(u32, u32) -> i64 + Sync, H: Sharing>(
        &mut self,
        problem: &Problem<F, V>,
        labelling: &mut Labelling,
        alpha: u32,
        beta: u32,
        how: &H,
        before: &[u8],
    ) -> Result<bool, MoveError>
        requires ready { H.ready how.now }
        requires working { IsWorkingOn F.Fn V.Fn problem.now labelling.old self.old.space }
        requires before { before.now ≡ labelling.old.at }
        requires labels { (alpha < label_limit) × (beta < label_limit) }
        ensures working { IsWorkingOn F.Fn V.Fn problem.now labelling.new self.new.space }
        ensures stamped { WhereMeant F.Fn V.Fn problem.now
            (λ m. AreSwapsStamped m (labelling_of labelling.old.at) self.old.swaps →
            AreSwapsStamped m (labelling_of labelling.new.at) self.new.swaps) }
        ensures same { (self.new.course ≡ self.old.course) × (self.new.before ≡ self.old.before)
            × (self.new.changes ≡ self.old.changes) }
        ensures sizes { AreOfOneSize labelling.old labelling.new }
        ensures moved { WhereMeant F.Fn V.Fn problem.now
            (λ m. AreSwapsStamped m (labelling_of labelling.old.at) self.old.swaps →
            IsMoved m (Swap alpha beta) labelling.old.at labelling.new.at result) }
        ensures unchanged { OnErr result (labelling.new ≡ labelling.old) }
        ensures refused { IfErr result
            (IsMoveRefusal (H.refuses how.now) labelling.old.labels (Swap alpha beta)) }
    {
        let changed = swap_labels(
            problem,
            &mut self.space,
            labelling,
            alpha,
            beta,
            &self.swaps,
            how,
        )?;
        note_swap(
            &mut self.swaps,
            alpha,
            beta,
            before,
            labelling.as_slice(),
            &self.space.built.variables.choices,
            changed,
        );
        Ok(changed)
    }

    /// A swap of a run.
    fn make_swap<F: Fn(u32, u32) -> i64 + Sync, V: Fn(u32, u32) -> i64 + Sync, H: Sharing>(
        &mut self,
        problem: &Problem<F, V>,
        labelling: &mut Labelling,
        alpha: u32,
        beta: u32,
        how: &H,
    ) -> Result<bool, MoveError>
        requires ready { H.ready how.now }
        requires working { IsWorkingOn F.Fn V.Fn problem.now labelling.old self.old.space }
        ensures working { IsWorkingOn F.Fn V.Fn problem.now labelling.new self.new.space }
        ensures stamped { WhereMeant F.Fn V.Fn problem.now
            (λ m. AreSwapsStamped m (labelling_of labelling.old.at) self.old.swaps →
            AreSwapsStamped m (labelling_of labelling.new.at) self.new.swaps) }
        ensures same { (self.new.course ≡ self.old.course) × (self.new.before ≡ self.old.before)
            × (self.new.changes ≡ self.old.changes) }
        ensures sizes { AreOfOneSize labelling.old labelling.new }
        ensures moved { WhereMeant F.Fn V.Fn problem.now
            (λ m. AreSwapsStamped m (labelling_of labelling.old.at) self.old.swaps →
            IsMoved m (Swap alpha beta) labelling.old.at labelling.new.at result) }
        ensures unchanged { OnErr result (labelling.new ≡ labelling.old) }
        ensures refused { IfErr result
            (IsMoveRefusal (H.refuses how.now) labelling.old.labels (Swap alpha beta)) }
    {
        let alloc = *self.swaps.stamps.allocator();
        let labels = labelling.labels();
        if alpha < labels && beta < labels && !self.swaps.made.is_empty() {
            if let Ok(before) = Vec::from_slice(alloc, labelling.as_slice()) {
                return self.make_noted_swap(problem, labelling, alpha, beta, how, &before);
            }
        }
        self.swaps.forget();
        let change = Move::Swap(alpha, beta);
        make_move(alloc, problem, &mut self.space, labelling, change, how)
    }
}
