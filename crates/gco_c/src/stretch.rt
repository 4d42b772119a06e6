//! Stretches of a run for C.
ghost use Rattle.std.specs.Prelude.{◌≡◌, ◌≢◌, ◌⊎◌, ℕ, List};
ghost use Rattle.gco_arrays.specs.Calls.{IsGiven, call_arrays};
ghost use Rattle.gco_arrays.specs.Statuses.{unfinished_status};
ghost use Rattle.gco_calls.specs.Calls.{IsRunTold};
ghost use Rattle.gco_calls.specs.Stretches.{IsPauseTold, IsRunLeft, IsStretchRefusalTold};
ghost use Rattle.gco_calls.specs.Stretches.{EndsWithin, lent_arrays};

use gco_arrays::{Arrays, GcoPair};
use gco_calls::{GcoCourse, GcoOutcome, answer_stretch};
use std::alloc::Global;

/// Makes so many moves of a run of `gco_label`, fewer where it ends, from where it was left: the
/// labels and what is lent of the run. It is lent a course and numbers that are all 0 where the run
/// begins, and what the call before handed back where it goes on. The answer is 0 where the run
/// ended, 29 where it goes on, or the status of a refusal, and then all is as it was. Of numbers
/// that no call handed back no more is promised than that the labels are in range.
#[unsafe(no_mangle)]
pub extern "C" fn gco_label_stretch(
    alloc: Global,
    label_count: u32,
    data: &[i64],
    smooth: &[i64],
    label_costs: &[i64],
    pairs: &[GcoPair],
    moves: u32,
    cycles: u32,
    most: u32,
    course: &mut GcoCourse,
    stamps: &mut [u32],
    made: &mut [u32],
    labels: &mut [u32],
    outcome: &mut GcoOutcome,
) -> u32
    ensures ended { result ≡ 0 → (start : List ℕ) → IsRunLeft
        (call_arrays label_count data.now smooth.now label_costs.now pairs.now start)
        moves (lent_arrays labels.old course.old stamps.old made.old) → IsRunTold
        (call_arrays label_count data.now smooth.now label_costs.now pairs.now start)
        moves cycles labels.new outcome.new }
    ensures within { result ≡ 0 → (start : List ℕ) → IsRunLeft
        (call_arrays label_count data.now smooth.now label_costs.now pairs.now start)
        moves (lent_arrays labels.old course.old stamps.old made.old) → EndsWithin
        (call_arrays label_count data.now smooth.now label_costs.now pairs.now start)
        moves course.old most labels.new }
    ensures paused { result ≡ unfinished_status → (start : List ℕ) → IsRunLeft
        (call_arrays label_count data.now smooth.now label_costs.now pairs.now start)
        moves (lent_arrays labels.old course.old stamps.old made.old) → IsPauseTold
        (call_arrays label_count data.now smooth.now label_costs.now pairs.now start)
        moves cycles course.old most (lent_arrays labels.new course.new stamps.new made.new)
        outcome.new }
    ensures in_order { (result ≡ 0) ⊎ (result ≡ unfinished_status) → IsGiven
        (call_arrays label_count data.now smooth.now label_costs.now pairs.now labels.old)
        × IsGiven
        (call_arrays label_count data.now smooth.now label_costs.now pairs.now labels.new) }
    ensures kept { result ≢ unfinished_status
        → (course.new ≡ course.old) × (stamps.new ≡ stamps.old)
        × (made.new ≡ made.old) }
    ensures unchanged { result ≢ 0 → result ≢ unfinished_status → labels.new ≡ labels.old }
    ensures refused { result ≢ 0 → result ≢ unfinished_status → IsStretchRefusalTold
        (call_arrays label_count data.now smooth.now label_costs.now pairs.now labels.old)
        moves cycles (lent_arrays labels.old course.old stamps.old made.old) result outcome.new }
{
    let given = Arrays {
        label_count,
        data,
        smooth,
        label_costs,
        pairs,
    };
    answer_stretch(
        alloc, &given, moves, cycles, most, course, stamps, made, labels, outcome,
    )
}

/// What `gco_label_stretch` does, over costs of 32 bits.
#[unsafe(no_mangle)]
pub extern "C" fn gco_label_stretch_int32(
    alloc: Global,
    label_count: u32,
    data: &[i32],
    smooth: &[i32],
    label_costs: &[i32],
    pairs: &[GcoPair],
    moves: u32,
    cycles: u32,
    most: u32,
    course: &mut GcoCourse,
    stamps: &mut [u32],
    made: &mut [u32],
    labels: &mut [u32],
    outcome: &mut GcoOutcome,
) -> u32
    ensures ended { result ≡ 0 → (start : List ℕ) → IsRunLeft
        (call_arrays label_count data.now smooth.now label_costs.now pairs.now start)
        moves (lent_arrays labels.old course.old stamps.old made.old) → IsRunTold
        (call_arrays label_count data.now smooth.now label_costs.now pairs.now start)
        moves cycles labels.new outcome.new }
    ensures within { result ≡ 0 → (start : List ℕ) → IsRunLeft
        (call_arrays label_count data.now smooth.now label_costs.now pairs.now start)
        moves (lent_arrays labels.old course.old stamps.old made.old) → EndsWithin
        (call_arrays label_count data.now smooth.now label_costs.now pairs.now start)
        moves course.old most labels.new }
    ensures paused { result ≡ unfinished_status → (start : List ℕ) → IsRunLeft
        (call_arrays label_count data.now smooth.now label_costs.now pairs.now start)
        moves (lent_arrays labels.old course.old stamps.old made.old) → IsPauseTold
        (call_arrays label_count data.now smooth.now label_costs.now pairs.now start)
        moves cycles course.old most (lent_arrays labels.new course.new stamps.new made.new)
        outcome.new }
    ensures in_order { (result ≡ 0) ⊎ (result ≡ unfinished_status) → IsGiven
        (call_arrays label_count data.now smooth.now label_costs.now pairs.now labels.old)
        × IsGiven
        (call_arrays label_count data.now smooth.now label_costs.now pairs.now labels.new) }
    ensures kept { result ≢ unfinished_status
        → (course.new ≡ course.old) × (stamps.new ≡ stamps.old)
        × (made.new ≡ made.old) }
    ensures unchanged { result ≢ 0 → result ≢ unfinished_status → labels.new ≡ labels.old }
    ensures refused { result ≢ 0 → result ≢ unfinished_status → IsStretchRefusalTold
        (call_arrays label_count data.now smooth.now label_costs.now pairs.now labels.old)
        moves cycles (lent_arrays labels.old course.old stamps.old made.old) result outcome.new }
{
    let narrow = Arrays {
        label_count,
        data,
        smooth,
        label_costs,
        pairs,
    };
    answer_stretch(
        alloc, &narrow, moves, cycles, most, course, stamps, made, labels, outcome,
    )
}
