//! A run that goes on from where another was left, and what it leaves itself.
ghost use Rattle.std.specs.Prelude.{◌≡◌, ◌+◌, ◌<◌, ℕ, List, IfSome, IfErr, OnOk, None, All};
ghost use Rattle.label_energies.specs.declared.cycles.Moves.{Moves as Kind};
ghost use Rattle.run_steps.specs.Prelude.{Instance, moves_of, IsPosed, WhereMeant, FitsProblem};
ghost use Rattle.run_steps.specs.Prelude.{AreOfOneSize, IsRunRefusal, WasLeftAt, IsPastEnd};
ghost use Rattle.run_steps.specs.Prelude.{IsRunOver, IsRunIn, IsStepIn, IsBegun, ended_of};
ghost use Rattle.run_steps.specs.Prelude.{moves_made_by, moves_to, LeadMoves, LeadAtMost};

use crate::bookmark::{Bookmark, Mark};
use crate::course::Course;
use crate::under_way::RunUnderWay;
use crate::{MoveError, Sharing};
use cost_store::Problem;
use label_energies::Moves;
use label_field::Labelling;
use near_changes::Changes;
use one_move::Workspace;
use std::alloc::Global;

impl RunUnderWay {
    /// The run that was left, at the labels where it was. `None` where no run of so many cycles of
    /// these moves goes on from its mark. What the bookmark remembers is not tested: of one that is
    /// not true the labels stay in range, and nothing else is promised.
    pub fn resume<F: Fn(u32, u32) -> i64 + Sync, V: Fn(u32, u32) -> i64 + Sync>(
        alloc: Global,
        problem: &Problem<F, V>,
        labelling: &Labelling,
        moves: Moves,
        cycles: u32,
        bookmark: Bookmark,
    ) -> Option<RunUnderWay>
        requires posed { IsPosed F.Fn V.Fn problem.now }
        requires fits { FitsProblem problem.now labelling.now }
        ensures over { IfSome result (IsRunOver F.Fn V.Fn problem.now labelling.now) }
        ensures goes_on { WhereMeant F.Fn V.Fn problem.now (λ m. (start : List ℕ) →
            WasLeftAt m moves start labelling.now.at bookmark.mark bookmark.stamps.items
            bookmark.made.items →
            IfSome result (IsRunIn m moves cycles start labelling.now.at)) }
        ensures made { IfSome result (λ run.
            moves_made_by run ≡ moves_to (moves_of moves labelling.now.labels) bookmark.mark) }
        ensures none { result ≡ None →
            IsPastEnd (moves_of moves labelling.now.labels) cycles bookmark.mark }
    {
        let Some(course) = Course::resume(moves, labelling.labels(), cycles, bookmark.mark) else {
            return None;
        };
        Some(RunUnderWay {
            space: Workspace::new(alloc),
            changes: Changes {
                stamps: bookmark.stamps,
                made: bookmark.made,
                count: bookmark.mark.noted,
            },
            swaps: Changes::none(alloc),
            before: Vec::new(alloc),
            course,
        })
    }

    /// What the run leaves where it stands, for `resume`. Of one that has ended it says nothing.
    pub fn leave(self) -> Bookmark
        ensures left { (m : Instance) (cycles : ℕ) (start labels : List ℕ) →
            m.labels ≡ self.course.labels →
            IsRunIn m self.course.moves cycles start labels self → ended_of self ≡ None →
            WasLeftAt m self.course.moves start labels result.mark result.stamps.items
            result.made.items
            × IsBegun m (moves_of self.course.moves m.labels) cycles result.mark.cycles start
            labels }
        ensures made { moves_to (moves_of self.course.moves self.course.labels) result.mark
            ≡ moves_made_by self }
    {
        Bookmark {
            mark: Mark {
                cycles: self.course.done,
                place: self.course.place,
                last: self.course.last,
                changed: self.course.changed,
                noted: self.changes.count,
            },
            stamps: self.changes.stamps,
            made: self.changes.made,
        }
    }

    /// Makes so many moves of the chain, and fewer only where the run ends. Refused as the move
    /// that is refused: the run is then under way before that move.
    pub fn make_moves<F: Fn(u32, u32) -> i64 + Sync, V: Fn(u32, u32) -> i64 + Sync, H: Sharing>(
        &mut self,
        problem: &Problem<F, V>,
        labelling: &mut Labelling,
        most: u32,
        how: &H,
    ) -> Result<(), MoveError>
        requires ready { H.ready how.now }
        requires over { IsRunOver F.Fn V.Fn problem.now labelling.old self.old }
        ensures over { IsRunOver F.Fn V.Fn problem.now labelling.new self.new }
        ensures goes_on { WhereMeant F.Fn V.Fn problem.now (λ m.
            (kind : Kind) (cycles : ℕ) (start : List ℕ) →
            IsRunIn m kind cycles start labelling.old.at self.old →
            IsStepIn m kind cycles start labelling.new.at self.new result) }
        ensures made { OnOk result
            (ended_of self.new ≡ None → moves_made_by self.new ≡ moves_made_by self.old + most) }
        ensures within { WhereMeant F.Fn V.Fn problem.now (λ m.
            (kind : Kind) (cycles : ℕ) (start : List ℕ) →
            IsRunIn m kind cycles start labelling.old.at self.old →
            LeadMoves m (moves_of kind m.labels) (moves_made_by self.old) start labelling.old.at →
            OnOk result (LeadAtMost m (moves_of kind m.labels) (moves_made_by self.old) most start
            labelling.new.at)) }
        ensures sizes { AreOfOneSize labelling.old labelling.new }
        ensures refused { IfErr result (IsRunRefusal (H.refuses how.now)) }
        ensures below { All (λ label. label < labelling.new.labels) labelling.new.at }
    {
        for _made in 0..most {
            if self.course.ended.is_some() {
                break;
            }
            if let Err(refusal) = self.advance(problem, labelling, how) {
                labelling.keeps();
                return Err(refusal);
            }
        }
        labelling.keeps();
        Ok(())
    }
}
