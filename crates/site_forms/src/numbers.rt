//! The numbers of a move.
ghost use Rattle.site_forms.specs.Fields.{AreReadable, AreFlagsOf};

use crate::by_known::ToldRises;
use label_field::Pairs;
use move_energy::{EndRises, Neighbours};

/// What a move is read of: the pairs and by site the neighbours, each site's own rise and its
/// label, what each label becomes where the site's value is 0 and where it is 1, and what two
/// labels cost a pair of weight 1, and whether that is the same in both orders. Where there are few
/// labels, a table has the rises of such a pair by the labels of its ends; and where in addition
/// all costs are the same in both orders, another has rises by what is known of the other end:
/// those of a pair of the weight that all have, or of weight 1 where weights differ. Where each
/// pair has costs of its own, the rises of both ends are listed, by place.
#[derive(Clone, Copy)]
pub struct SiteForm<'a> {
    pub pairs: &'a Pairs,
    pub ends: &'a Neighbours,
    pub own: &'a [i32],
    pub at: &'a [u8],
    pub stays: &'a [u8],
    pub turns: &'a [u8],
    pub smooth: &'a [u16],
    pub symmetric: bool,
    pub few: bool,
    pub table: &'a [EndRises],
    pub uniform: bool,
    pub scaled: bool,
    pub told: &'a [ToldRises],
    pub listed: bool,
    pub rises: &'a [EndRises],
    pub expanding: bool,
    pub alpha: u8,
    /// `rising`, `even` and `weight` of the neighbours, which are the same at all places.
    pub rising: bool,
    pub even: bool,
    pub weight: u32,
    pub ghost form: { AreReadable ends.now own.now at.now stays.now turns.now smooth.now
        symmetric few table.now uniform scaled told.now listed rises.now expanding alpha },
    pub ghost flags: { AreFlagsOf ends.now rising even weight },
}
