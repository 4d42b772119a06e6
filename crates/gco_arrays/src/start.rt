//! The labels from which a call begins.
ghost use Rattle.std.specs.Prelude.{◌≡◌, ◌<◌, All, length, IfOk, IfErr};
ghost use Rattle.label_field.specs.LabelFields.{AreSizes};
ghost use Rattle.gco_arrays.specs.Refusals.{IsStartRefusal};

use crate::refusal::Refusal;
use label_field::Labelling;
use std::alloc::Global;

/// The labelling that was given, of so many labels.
pub(crate) fn start_of(alloc: Global, labels: u32, given: &[u32]) -> Result<Labelling, Refusal>
    requires { AreSizes (length given.now) labels }
    ensures start { IfOk result (λ start. start ≡ record { labels = labels; at = given.now }) }
    ensures below { IfOk result (λ start. All (λ label. label < labels) given.now) }
    ensures refused { IfErr result (IsStartRefusal labels given.now) }
{
    match Labelling::new(alloc, given.len() as u32, labels) {
        Ok(start) => fill(start, given),
        Err(_) => Err(Refusal::OutOfMemory),
    }
}

/// The labelling with the labels that were given.
fn fill(start: Labelling, given: &[u32]) -> Result<Labelling, Refusal>
    requires { length start.at ≡ length given.now }
    ensures start { IfOk result (λ filled. filled ≡ record start { at = given.now }) }
    ensures below { IfOk result (λ filled. All (λ label. label < start.labels) given.now) }
    ensures refused { IfErr result (IsStartRefusal start.labels given.now) }
{
    let mut start = start;
    for (site, label) in given.iter().enumerate() {
        match start.set_label(site as u32, *label) {
            Ok(()) => {}
            Err(_) => return Err(Refusal::NoSuchLabel(site)),
        }
    }
    let _labels = start.as_slice();
    Ok(start)
}
