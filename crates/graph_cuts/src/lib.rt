//! Labels and yes-no variables by minimum cuts: all that a caller needs, under one name. The crate
//! has no code of its own. docs/CALLING.md lists the calls, and what each promises.
#![tactic(auto)]

pub use compile_cut::{Compiled, compile};
pub use cost_store::{
    CostError, DataCost, LabelCostError, Problem, SmoothCost, check_table, is_metric, laws as costs,
};
pub use cut_ways::{Alone, Fork, How, InOrder, Sharing, SolveError};
pub use dual_bound::{BoundError, LowerBound, laws as duality, lower_bound, search_bytes};
pub use flow_network::{Arc, Net, Solved, check_cut};
pub use label_energies::{Move, Moves};
pub use label_field::{LabelFieldError, Labelling, Pair, Pairs};
pub use minimum::{Minimum, minimise, minimise_by};
pub use moves::{
    Bookmark, Bound, Columns, Ended, LabelPrices, Mark, MoveError, Request, Run, RunUnderWay, Step,
    expand, expansion_bound, laws, potts_run_is_near, run, run_expansion, run_swap, run_tables,
    run_with_table, settled_run_is_near, swap,
};
pub use pgm_image::{
    Image, PgmError, Sink, Watched, WriteError, put_image, read_image, write_image,
};
pub use plain_cut::solve;
pub use pseudo_bool::{Energy, EnergyError, Term};
pub use regular::{Fixed, NotRegular, Regular, check, is_regular_table};
pub use rounds::{
    BadOptions, ByThreads, Gate, Open, Options, ParallelError, Workers, solve_parallel,
};
pub use shared_minimum::minimise_shared;
pub use vision::{
    Neighbours, Report, RestoreOptions, SegmentOptions, Shape, StereoOptions, VisionError,
    run_restore, run_segment, run_stereo,
};
