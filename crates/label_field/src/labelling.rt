//! A label for each site.
ghost use Rattle.std.specs.Prelude.{◌≡◌, ◌<◌, ◌≤◌, ◌↔◌, IsTrue, IfOk, OnOk, OnErr, IsOk, IsErrOf};
ghost use Rattle.std.specs.Prelude.{length, ok_or, replicate, slice_set};
ghost use Rattle.std.specs.List.{All, slice_get};
ghost use Rattle.label_field.specs.LabelFields.{AreSizes, IsLabelField};

use crate::LabelFieldError;
use std::alloc::{AllocError, Global};
use std::marker::Model;

/// The greatest number of sites of a labelling or a list of pairs; the least is 0. It is that of
/// the pixels of a picture of 1,024 by 1,024.
pub const SITE_LIMIT: u32 = 1_048_576;

/// The greatest number of labels of a labelling; the least is 1. A label below it takes one byte.
pub const LABEL_LIMIT: u32 = 256;

/// A labelling: to each of its sites, numbered from 0, one of its labels, numbered from 0 (Boykov,
/// Veksler, Zabih 2001, section 1). There are 0 to `SITE_LIMIT` sites and 1 to `LABEL_LIMIT`
/// labels, and these two numbers stay as they were at the beginning. It keeps one byte a site.
#[derive(Drop)]
pub struct Labelling {
    labels: u32,
    at: Vec<u8>,
}

impl Model for Labelling {
    ghost use Rattle.label_field.specs.LabelFields.{LabelField, IsLabelField};

    ghost Value = { LabelField };

    ghost view = { λ l. record { labels = l.labels; at = l.at.items } };

    ghost invariant = { λ l. IsLabelField (record { labels = l.labels; at = l.at.items }) };
}

impl Labelling {
    /// Whether a labelling may have these numbers of sites and labels: 0 to `SITE_LIMIT` sites, and
    /// 1 to `LABEL_LIMIT` labels.
    pub fn fits(sites: u32, labels: u32) -> bool
        ensures { IsTrue result ↔ AreSizes sites labels }
    {
        sites <= SITE_LIMIT && 1 <= labels && labels <= LABEL_LIMIT
    }

    /// The labelling that gives each site the label 0. `Labelling::fits` tells whether there is one
    /// of these sizes. It asks for `sites` bytes of memory, and is refused for that alone.
    pub fn new(alloc: Global, sites: u32, labels: u32) -> Result<Labelling, AllocError>
        requires { AreSizes sites labels }
        ensures { IfOk result (λ l. l ≡ record { labels = labels; at = replicate sites 0 }) }
    {
        let at = vec![in alloc; 0u8; sites as usize]?;
        Ok(Labelling { labels, at })
    }

    /// That it is a labelling, told to a proof: it has at most `SITE_LIMIT` sites, 1 to
    /// `LABEL_LIMIT` labels, and each site one of them. It does nothing.
    pub fn keeps(&self)
        ensures { IsLabelField self.now }
    {
        let _read = self.labels;
    }

    /// How many sites it labels, from 0 to `SITE_LIMIT`.
    pub fn sites(&self) -> u32
        ensures value { result ≡ length self.now.at }
        ensures sizes { AreSizes result self.now.labels }
    {
        self.at.len() as u32
    }

    /// How many labels there are, from 1 to `LABEL_LIMIT`, whether or not a site has each.
    pub fn labels(&self) -> u32
        ensures value { result ≡ self.now.labels }
        ensures sizes { AreSizes (length self.now.at) result }
    {
        self.labels
    }

    /// The label of each site, in the order of the sites.
    pub fn as_slice(&self) -> &[u8]
        ensures value { result.now ≡ self.now.at }
        ensures below { All (λ label. label < self.now.labels) result.now }
    {
        &self.at
    }

    /// The label of a site, or `NoSuchSite` where the site is not below the number of sites. It
    /// takes no memory.
    pub fn label(&self, site: u32) -> Result<u32, LabelFieldError>
        ensures value { result ≡ ok_or (slice_get self.now.at site) LabelFieldError.NoSuchSite }
        ensures below { IfOk result (λ label. label < self.now.labels) }
    {
        let Some(label) = self.at.get(site as usize) else {
            return Err(LabelFieldError::NoSuchSite);
        };
        Ok(u32::from(*label))
    }

    /// Gives one site a label, and leaves every other site as it is. It takes no memory. Refused,
    /// and nothing is changed: `NoSuchSite` where the site is not below the number of sites, and
    /// else `NoSuchLabel` where the label is not below the number of labels.
    pub fn set_label(&mut self, site: u32, label: u32) -> Result<(), LabelFieldError>
        ensures no_site { IsErrOf result LabelFieldError.NoSuchSite ↔ (length self.old.at ≤ site) }
        ensures no_label { IsErrOf result LabelFieldError.NoSuchLabel
            ↔ ((site < length self.old.at) × (self.old.labels ≤ label)) }
        ensures succeeds { IsOk result ↔ ((site < length self.old.at) × (label < self.old.labels)) }
        ensures ok { OnOk result (self.new
            ≡ record self.old { at = slice_set self.old.at site label }) }
        ensures err { OnErr result (self.new ≡ self.old) }
    {
        if site as usize >= self.at.len() {
            return Err(LabelFieldError::NoSuchSite);
        }
        if label >= self.labels {
            return Err(LabelFieldError::NoSuchLabel);
        }
        self.at[site as usize] = label as u8;
        Ok(())
    }
}
