//! The text of the answer to an energy.
ghost use Rattle.std.specs.Prelude.{◌≡◌, ◌++◌, IfOk, IfErr, OnOk};
ghost use Rattle.program_texts.specs.Answer.{AnswersEnergy, answer_text, digits_text};
ghost use Rattle.program_texts.specs.Faults.{IsCutFault};

use crate::fault::Fault;
use cut_ways::Sharing;
use itoa::Buffer;
use regular::Regular;
use shared_minimum::minimise_shared;
use std::alloc::{AllocError, Global};

/// The text of the answer to an energy. Refused where memory runs out, and as the cut is refused.
pub fn energy_answer<H: Sharing>(
    alloc: Global,
    energy: Regular<'_>,
    how: &H,
) -> Result<Vec<u8>, Fault>
    requires { H.ready how.now }
    ensures told { IfOk result (λ text. AnswersEnergy energy.entry text.items) }
    ensures refused { IfErr result (IsCutFault (H.refuses how.now)) }
{
    match minimise_shared(alloc, energy, how) {
        Ok(minimum) => Ok(text_of(alloc, minimum.value, minimum.assignment.as_slice())?),
        Err(error) => Err(Fault::from(error)),
    }
}

fn text_of(alloc: Global, minimum: i64, bits: &[bool]) -> Result<Vec<u8>, AllocError>
    ensures { IfOk result (λ text. text.items ≡ answer_text minimum bits.now) }
{
    let mut digits = Buffer::new();
    let mut text = Vec::from_slice(alloc, b"minimum ")?;
    text.extend_from_slice(digits.format(minimum).as_bytes())?;
    text.extend_from_slice(b"\nassignment")?;
    push_digits(&mut text, bits)?;
    text.push(b'\n')?;
    Ok(text)
}

fn push_digits(text: &mut Vec<u8>, bits: &[bool]) -> Result<(), AllocError>
    ensures { OnOk result (text.new.items ≡ text.old.items ++ digits_text bits.now) }
{
    if bits.is_empty() {
        return Ok(());
    }
    text.push(b' ')?;
    for bit in bits {
        text.push(if *bit { b'1' } else { b'0' })?;
    }
    Ok(())
}
