//! The text of the answer to a problem of labels.
ghost use Rattle.std.specs.Prelude.{◌≡◌, ◌++◌, codes, decimal, OnOk, IfOk};
ghost use Rattle.program_texts.specs.Lines.{label_text, numbers_text};

use crate::lines::{EnergyParts, Near, bound_line, energy_words};
use itoa::Buffer;
use std::alloc::{AllocError, Global};

/// The text of labels: their energy with its parts, that of the labels by themselves where it is
/// to be told, the label of each site, and how near the energy is to the least where that is asked
/// for.
pub fn label_text(
    alloc: Global,
    parts: EnergyParts,
    labels: &[u8],
    near: Option<Near>,
    tells: bool,
    asked: bool,
) -> Result<Vec<u8>, AllocError>
    ensures { IfOk result (λ text. text.items ≡ label_text tells asked parts labels.now near) }
{
    let mut text = Vec::new(alloc);
    text.extend_from_slice(energy_words(parts, tells).as_str().as_bytes())?;
    text.extend_from_slice(b"\nlabels")?;
    push_labels(&mut text, labels)?;
    text.push(b'\n')?;
    text.extend_from_slice(bound_line(near, asked).as_str().as_bytes())?;
    Ok(text)
}

fn push_labels(text: &mut Vec<u8>, labels: &[u8]) -> Result<(), AllocError>
    ensures { OnOk result (text.new.items ≡ text.old.items ++ numbers_text labels.now) }
{
    for label in labels {
        push_label(text, *label)?;
    }
    Ok(())
}

// A blank, and a label after it.
fn push_label(text: &mut Vec<u8>, label: u8) -> Result<(), AllocError>
    ensures { OnOk result (text.new.items ≡ text.old.items ++ codes " " ++ decimal label) }
{
    let mut digits = Buffer::new();
    text.push(b' ')?;
    text.extend_from_slice(digits.format(label).as_bytes())
}
