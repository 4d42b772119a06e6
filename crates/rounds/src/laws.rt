//! Laws of hands that come back from work. These functions do nothing: the contract of each is a
//! law.

ghost use Rattle.rounds.specs.Laws.{HandsComeBack, SeatsAreWorked};

/// Hands that come back from work are hands for as many seats: so they can be collected.
pub fn hands_come_back()
    ensures { HandsComeBack }
{}

/// Seats that were dealt to workers, worked on there and collected again were worked on, each in
/// its place.
pub fn seats_are_worked()
    ensures { SeatsAreWorked }
{}
