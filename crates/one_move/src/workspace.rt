//! What the moves of a run work with, from one move to the next.
ghost use Rattle.std.specs.Prelude.{◌≡◌, [], OnOk, IsTrue};
ghost use Rattle.move_energy.specs.BySite.{AreBySite};
ghost use Rattle.move_energy.specs.Choices.{AreOpenSites, AreAssigned};
ghost use Rattle.form_lists.specs.Lists.{HasNoCosts};
ghost use Rattle.one_move.specs.Building.{IsOfProblem};

use cost_store::Problem;
use move_energy::{MoveEnergy, group_pairs};
use near_changes::Stage;
use site_bounds::Deciding;
use std::alloc::{AllocError, Global};
use strips::Strips;

/// The most sites whose variables' numbers keep their memory for the next move. Those of more
/// sites, over 1 MB, are given back once nothing is built by them any more: the values of a cut are
/// taken in the order of the sites.
const KEPT_SITES: usize = 1 << 18;

/// Gives the memory of the numbers of many sites' variables back, but where the open sites are
/// listed.
pub fn give_numbers_back(alloc: Global, listed: bool, of_sites: &mut Vec<u32>) {
    if !listed && of_sites.len() > KEPT_SITES {
        *of_sites = Vec::new(alloc);
    }
}

/// The workspace of a run: what decides the sites of its moves, once the pairs were grouped by
/// their sites, the energy of its moves, the strips in which they are closed in, where its later
/// expansions look, and the lists of its cuts. And whether the way to cut had a net of the run.
#[derive(Drop)]
pub struct Workspace {
    pub shared: bool,
    pub deciding: Deciding,
    pub built: MoveEnergy,
    pub strips: Strips,
    pub stage: Stage,
    pub cutting: plain_cut::Workspace,
}

impl Workspace {
    /// A workspace of which nothing is taken yet. It takes no memory.
    pub fn new(alloc: Global) -> Workspace
        ensures ends { result.deciding.ends.starts.items ≡ [] }
        ensures numbers { HasNoCosts result.deciding.numbers }
    {
        Workspace {
            shared: false,
            deciding: Deciding::empty(alloc),
            built: MoveEnergy::new(alloc),
            strips: Strips::new(alloc),
            stage: Stage::empty(alloc),
            cutting: plain_cut::Workspace::new(alloc),
        }
    }

    /// Groups the pairs by their sites, where that was not done before. Refuses only where memory
    /// runs out.
    pub fn group<F: Fn(u32, u32) -> i64 + Sync, V: Fn(u32, u32) -> i64 + Sync>(
        &mut self,
        alloc: Global,
        problem: &Problem<F, V>,
    ) -> Result<(), AllocError>
        requires of_problem { IsOfProblem F.Fn V.Fn problem.now self.old }
        ensures grouped { OnOk result (AreBySite problem.now.pairs self.new.deciding.ends) }
        ensures of_problem { IsOfProblem F.Fn V.Fn problem.now self.new }
        ensures same { (self.new.built ≡ self.old.built) × (self.new.stage ≡ self.old.stage) }
    {
        if self.deciding.ends.starts.is_empty() {
            self.deciding.ends = group_pairs(alloc, &problem.pairs)?;
        }
        Ok(())
    }

    /// Gives each open site its value, the listed ones alone where they are listed.
    pub(crate) fn assign(&mut self, bits: &[bool])
        requires { IsTrue self.old.deciding.lists.listed →
            AreOpenSites self.old.built.variables.choices.items
            self.old.deciding.lists.opened.items }
        ensures assigned { AreAssigned self.old.built.variables.choices.items bits.now
            self.new.built.variables.choices.items }
        ensures same { self.new.deciding ≡ self.old.deciding }
    {
        if self.deciding.lists.listed {
            self.built
                .variables
                .assign_listed(&self.deciding.lists.opened, bits);
        } else {
            self.built.variables.assign(bits);
        }
    }
}
