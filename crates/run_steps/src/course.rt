//! Where a run stands in its cycles of moves.
ghost use Rattle.std.specs.Prelude.{◌≡◌, ◌<◌, ◌≤◌, length, None, IfSome};
ghost use Rattle.label_field.specs.Limits.{label_limit};
ghost use Rattle.label_energies.specs.Chains.{moves_of};

use crate::bookmark::Mark;
use label_energies::{Move, Moves};

/// How a run ended: how many cycles were done, and whether the last of them changed nothing.
#[derive(Clone, Copy, Debug, PartialEq, Eq)]
pub struct Ended {
    pub cycles: u32,
    pub settled: bool,
}

/// Where a run stands: how many whole cycles were done, the place of its next move in the cycle
/// after these, whether a move of that cycle changed a label, the place of the move that changed
/// one last, and how it ended once it has. Where no label changes before the place of the last
/// change comes again, the rest of the cycle is known to change nothing. The place is the number
/// of the moves of a cycle where none changed a label yet.
#[derive(Clone, Copy)]
pub(crate) struct Course {
    pub(crate) moves: Moves,
    pub(crate) labels: u32,
    pub(crate) allowed: u32,
    pub(crate) done: u32,
    pub(crate) place: u32,
    pub(crate) last: u32,
    pub(crate) changed: bool,
    pub(crate) ended: Option<Ended>,
    ghost some_label: { 1 ≤ labels },
    ghost few_labels: { labels ≤ label_limit },
    ghost room: { ended ≡ None → done < allowed },
    ghost inside: { ended ≡ None → place < length (moves_of moves labels) },
}

impl Course {
    ghost use Rattle.std.specs.Prelude.{ℕ, ◌+◌, List, slice_get, Some};
    ghost use Rattle.label_energies.specs.Chains.{Cycles};
    ghost use Rattle.label_energies.specs.Energies.{Instance, IsInstance};
    ghost use Rattle.label_energies.specs.Moves.{IsMoveOf, IsSwap};
    ghost use Rattle.label_energies.specs.declared.change.Move.{Move as ChangeOf};
    ghost use Rattle.run_steps.specs.Cycles.{IsSoFar};
    ghost use Rattle.run_steps.specs.Courses.{StandsOnCourse, IsBetweenMoves, LeadsBest, cycle_of};
    ghost use Rattle.run_steps.specs.Courses.{moves_left, moves_made};
    ghost use Rattle.run_steps.specs.Bookmarks.{IsMarkOf, IsPastEnd, LeadMoves};
    ghost use Rattle.one_move.specs.Building.{TellsChange};

    /// Where a run stands that begins. It has ended where no cycle is allowed, and where a cycle
    /// has no move.
    pub(crate) fn begin(moves: Moves, labels: u32, allowed: u32) -> Course
        requires { (1 ≤ labels) × (labels ≤ label_limit) }
        ensures asked { (result.moves ≡ moves) × (result.labels ≡ labels)
            × (result.allowed ≡ allowed) }
        ensures none { (result.done ≡ 0) × (result.place ≡ 0) }
        ensures stands { (m : Instance) (f : List ℕ) →
            StandsOnCourse m (cycle_of result) allowed result f f result.ended }
    {
        let count = moves.count(labels);
        let ended = if allowed == 0 {
            Some(Ended {
                cycles: 0,
                settled: false,
            })
        } else if count == 0 {
            Some(Ended {
                cycles: 1,
                settled: true,
            })
        } else {
            None
        };
        Course {
            moves,
            labels,
            allowed,
            done: 0,
            place: 0,
            last: count,
            changed: false,
            ended,
        }
    }

    /// Where a run stands that was left at a mark. `None` where no run of so many cycles of these
    /// moves goes on from there.
    pub(crate) fn resume(moves: Moves, labels: u32, allowed: u32, mark: Mark) -> Option<Course>
        requires { (1 ≤ labels) × (labels ≤ label_limit) }
        ensures asked { IfSome result (λ course. (course.moves ≡ moves) × (course.labels ≡ labels)
            × (course.allowed ≡ allowed)) }
        ensures stands { (m : Instance) (f g : List ℕ) →
            IsMarkOf m (moves_of moves labels) mark f g → IfSome result
            (λ course. StandsOnCourse m (cycle_of course) allowed course f g course.ended) }
        ensures at { IfSome result
            (λ course. (course.done ≡ mark.cycles) × (course.place ≡ mark.place)) }
        ensures none { result ≡ None → IsPastEnd (moves_of moves labels) allowed mark }
    {
        let begun = Course::begin(moves, labels, allowed);
        if mark.cycles == 0 && mark.place == 0 {
            return Some(begun);
        }
        if mark.cycles >= allowed || mark.place >= moves.count(labels) {
            return None;
        }
        Some(begun.come_to(mark.cycles, mark.place, mark.changed, mark.last))
    }

    /// The next move of a run that goes on.
    pub(crate) fn ahead(&self) -> Move
        requires open { self.now.ended ≡ None }
        ensures at { slice_get (cycle_of self.now) self.now.place ≡ Some result }
        ensures below { IsMoveOf self.now.labels result }
        ensures kind { IsSwap result → self.now.moves ≡ Moves.Swap }
    {
        self.moves.move_at(self.labels, self.place)
    }

    /// Where the run stands after its next move, which changed a label or did not.
    pub(crate) fn pass(self, turned: bool) -> Course
        requires open { self.ended ≡ None }
        ensures asked { (result.moves ≡ self.moves) × (result.labels ≡ self.labels)
            × (result.allowed ≡ self.allowed) }
        ensures stands { (m : Instance) (change : ChangeOf) (f g h : List ℕ) → IsInstance m →
            slice_get (cycle_of self) self.place ≡ Some change →
            IsBetweenMoves m (cycle_of self) self f g → LeadsBest m change g h →
            TellsChange turned g h →
            StandsOnCourse m (cycle_of self) self.allowed result f h result.ended
            × LeadMoves m (cycle_of self) (moves_made self + 1) f h }
        ensures left { moves_left result < moves_left self }
        ensures made { result.ended ≡ None → moves_made result ≡ moves_made self + 1 }
    {
        let last = if turned { self.place } else { self.last };
        let changed = turned || self.changed;
        self.come_further(changed, last)
    }

    /// Where the run stands one place further, in its cycle or at the end of it.
    fn come_further(self, changed: bool, last: u32) -> Course
        requires open { self.ended ≡ None }
        ensures asked { (result.moves ≡ self.moves) × (result.labels ≡ self.labels)
            × (result.allowed ≡ self.allowed) }
        ensures stands { (m : Instance) (f start g : List ℕ) →
            Cycles m (cycle_of self) self.done f start →
            IsSoFar m (cycle_of self) (self.place + 1) start g changed last →
            StandsOnCourse m (cycle_of self) self.allowed result f g result.ended }
        ensures left { moves_left result < moves_left self }
        ensures made { result.ended ≡ None → moves_made result ≡ moves_made self + 1 }
    {
        let count = self.moves.count(self.labels);
        let place = self.place + 1;
        if place < count {
            self.come_to(self.done, place, changed, last)
        } else {
            self.end_cycle(changed, last)
        }
    }

    /// Where the run stands at a place of its cycle: at its end where that is the place of the last
    /// change, since the rest is known.
    fn come_to(self, done: u32, place: u32, changed: bool, last: u32) -> Course
        requires room { done < self.allowed }
        requires inside { place < length (cycle_of self) }
        ensures asked { (result.moves ≡ self.moves) × (result.labels ≡ self.labels)
            × (result.allowed ≡ self.allowed) }
        ensures stands { (m : Instance) (f start g : List ℕ)
            → Cycles m (cycle_of self) done f start →
            IsSoFar m (cycle_of self) place start g changed last →
            StandsOnCourse m (cycle_of self) self.allowed result f g result.ended }
        ensures at { (result.done ≡ done) × (result.place ≡ place) }
    {
        let ended = if place == last {
            Some(Ended {
                cycles: done + 1,
                settled: true,
            })
        } else {
            None
        };
        Course {
            moves: self.moves,
            labels: self.labels,
            allowed: self.allowed,
            done,
            place,
            last,
            changed,
            ended,
        }
    }

    /// Where the run stands at the end of its cycle: at its end where the cycle changed nothing or
    /// was the last that is allowed.
    fn end_cycle(self, changed: bool, last: u32) -> Course
        requires open { self.ended ≡ None }
        ensures asked { (result.moves ≡ self.moves) × (result.labels ≡ self.labels)
            × (result.allowed ≡ self.allowed) }
        ensures stands { (m : Instance) (f start g : List ℕ) →
            Cycles m (cycle_of self) self.done f start →
            IsSoFar m (cycle_of self) (length (cycle_of self)) start g changed last →
            StandsOnCourse m (cycle_of self) self.allowed result f g result.ended }
        ensures left { result.ended ≡ None → (result.done ≡ self.done + 1) × (result.place ≡ 0) }
    {
        let done = self.done + 1;
        if changed && done < self.allowed {
            return self.come_to(done, 0, false, last);
        }
        let mut course = self;
        course.ended = Some(Ended {
            cycles: done,
            settled: !changed,
        });
        course
    }
}
