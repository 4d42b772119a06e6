//! What the definitions of events, of rounds and of seats compute, worked by hand over two nodes in
//! two blocks, joined by an arc of capacity 4. These functions do nothing: the contract of each
//! says what comes out, and so shows that the definitions mean what a calculation by hand gives.

ghost use Rattle.std.specs.Prelude.{◌≡◌, [], ◌∷◌};
ghost use Rattle.parcel.specs.Directions.{forward};
ghost use Rattle.parcel.specs.States.{known_of};
ghost use Rattle.parcel.specs.Soundness.{opening_state};
ghost use Rattle.parcel.specs.Rounds.{RoundOf};
ghost use Rattle.block_tests.specs.Runs.{counts, after_events, AllEnabled, one_source_net};
ghost use Rattle.block_tests.specs.Runs.{two_source_net, two_blocks_run, refused_parcel_run};
ghost use Rattle.block_tests.specs.Runs.{sent_again_run};
ghost use Rattle.block_tests.specs.Rounds.{opened_blocks, parcel_on_the_way};
ghost use Rattle.block_tests.specs.Seats.{BlocksComeBack};

/// A source of 4 at node 0 and a sink of 3 at node 1: the count after each event, and the end,
/// where 1 is left at node 1, which is cut off.
pub fn counts_of_two_blocks_run()
    ensures counts { counts (opening_state one_source_net 2) two_blocks_run ≡
        1072 ∷ 1021 ∷ 1020 ∷ 939 ∷ 938 ∷ 887 ∷ 875 ∷ 812 ∷
        811 ∷ 675 ∷ 674 ∷ 548 ∷ 547 ∷ 411 ∷ 410 ∷ 284 ∷ [] }
    ensures got { (after_events (opening_state one_source_net 2) two_blocks_run).got ≡ 3 }
    ensures excess { (after_events (opening_state one_source_net 2)
        two_blocks_run).excess ≡ 0 ∷ 1 ∷ [] }
    ensures labels { (after_events (opening_state one_source_net 2)
        two_blocks_run).labels ≡ 3 ∷ 4 ∷ [] }
{}

/// As before with a source of 1 at node 1 too, up to a refusal: node 0 has its excess again and
/// knows the label that stood against it.
pub fn counts_of_refused_parcel_run()
    ensures counts { counts (opening_state two_source_net 2) refused_parcel_run ≡
        1328 ∷ 1261 ∷ 1260 ∷ 1181 ∷ 1180 ∷ 1099 ∷ [] }
    ensures excess { (after_events (opening_state two_source_net 2)
        refused_parcel_run).excess ≡ 4 ∷ 1 ∷ [] }
    ensures known { known_of (after_events (opening_state two_source_net 2) refused_parcel_run)
        (forward 0) ≡ 1 }
    ensures more { (after_events (after_events (opening_state two_source_net 2) refused_parcel_run)
        sent_again_run).labels
        ≡ 2 ∷ 1 ∷ [] }
{}

/// Each event of the first run is enabled where it stands.
pub fn two_blocks_run_is_enabled()
    ensures { AllEnabled (opening_state one_source_net 2) two_blocks_run }
{}

/// Each event of the second run is enabled where it stands, and so are three more, by which the
/// parcel goes out again and is taken.
pub fn refused_parcel_run_is_enabled()
    ensures first { AllEnabled (opening_state two_source_net 2) refused_parcel_run }
    ensures more { AllEnabled
        (after_events (opening_state two_source_net 2) refused_parcel_run) sent_again_run }
{}

/// There are rounds: of the two nodes one sends a parcel that the other does not take.
pub fn round_leaves_parcel()
    ensures { RoundOf opened_blocks parcel_on_the_way }
{}

/// And there are blocks that come back from such a round.
pub fn blocks_come_back()
    ensures { BlocksComeBack }
{}
