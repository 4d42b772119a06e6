//! What strips are built from: values that are lent, so that steps pass them on as one.

use move_energy::Choice;
use plain_cut::Workspace;
use sink_distances::Laying;
use site_bounds::SiteForm;
use std::alloc::Global;

/// What a strip is built from: the form of its move, what was known at the start, and what is known
/// by now.
#[derive(Clone, Copy)]
pub struct Material<'a> {
    pub form: SiteForm<'a>,
    pub start: &'a [Choice],
    pub known: &'a [Choice],
}

/// The sites of a strip: from one to before another, a list of those that are open, and what each
/// of these weighed at the start.
#[derive(Clone, Copy)]
pub struct StripSites<'a> {
    pub from: u32,
    pub to: u32,
    pub opened: &'a [u32],
    pub weights: &'a [i64],
}

/// Where the neighbours of each site begin, and the neighbours, as they stand in the form. A loop
/// that writes lists would read these again of the form at each place.
#[derive(Clone, Copy)]
pub(crate) struct Places<'a> {
    pub starts: &'a [u32],
    pub heads: &'a [u32],
}

/// The form of a strip whose pairs stand in rows: what its nodes weigh, and what its pairs save.
#[derive(Drop)]
pub(crate) struct RowForm {
    pub weights: Vec<i64>,
    pub laying: Laying,
}

/// The lists that a strip is built and cut with. They keep their memory from strip to strip.
#[derive(Drop)]
pub struct Room {
    /// The node of each site of the strip, counted from its first site. A caller may put a list of
    /// its own in: what stands there before a strip means nothing.
    pub numbers: Vec<u32>,
    /// What the nodes weigh.
    pub(crate) weights: Vec<i64>,
    /// The form in rows.
    pub(crate) form: RowForm,
    /// What each node can send the sink more at the second cut.
    pub(crate) more: Vec<u64>,
    /// The lists of the solver.
    pub(crate) space: Workspace,
}

impl Room {
    /// Of no strip. It takes no memory.
    pub fn new(alloc: Global) -> Room {
        Room {
            numbers: Vec::new(alloc),
            weights: Vec::new(alloc),
            form: RowForm {
                weights: Vec::new(alloc),
                laying: Laying::new(alloc),
            },
            more: Vec::new(alloc),
            space: Workspace::new(alloc),
        }
    }

    /// The rows of the next strip stand in what those of the last one stood in, where that was cut.
    pub(crate) fn stand_again(&mut self, alloc: Global) {
        if self.form.laying.cells.capacity() > 0 {
            return;
        }
        let rows = self.space.take_rows(alloc);
        self.form.laying.starts = rows.starts;
        self.form.laying.nexts = rows.ends;
        self.form.laying.cells = rows.cells;
    }
}
