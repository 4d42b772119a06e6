//! The ranges of what an image command is told.
/// The greatest cost of two labels at the sites of a pair of weight 1. The least is 0.
pub const SMOOTH_LIMIT: u32 = 10_000;

/// The greatest cost of a label at a site: as much as a pair costs at the greatest weight. The
/// least is 0.
pub const DATA_LIMIT: u32 = 10_000_000;

/// The greatest cost of a label by itself, wherever some site has it. The least is 0.
pub const LABEL_COST_LIMIT: u32 = DATA_LIMIT;

/// The greatest cost at which a cost by distance may be cut off, that of two labels. The least is
/// 1.
pub const TRUNC_LIMIT: u32 = SMOOTH_LIMIT;

/// The most cycles of a run. The least is 0.
pub const CYCLE_LIMIT: u32 = 1000;

/// The greatest cost at which that of a label at a pixel may be cut off. The least is 0.
pub const CAP_LIMIT: u32 = DATA_LIMIT;

/// The greatest sample of a picture, which is the greatest maxval (the Netpbm project's PGM page).
/// The least is 0.
pub const MAXVAL_LIMIT: u32 = 65_535;
