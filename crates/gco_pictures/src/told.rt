//! What a call hands over: its picture, what is told beside it, and its status.
ghost use Rattle.std.specs.Prelude.{◌≡◌, ◌≢◌, ◌<◌, ◌⊎◌, Ok, Err, length};
ghost use Rattle.gco_pictures.specs.Answers.{IsHandedOver, bound_pair, report_told};
ghost use Rattle.gco_pictures.specs.Refusals.{TellsRefusal};
ghost use Rattle.gco_pictures.specs.declared.refusal.Refusal.{Refusal};

use crate::making::Made;
use crate::refusal::Refusal;
use moves::Bound;
use vision::Report;

/// What a call tells beside its status. All of it is written by each call, 0 where nothing is said.
#[repr(C)]
#[derive(Clone, Copy)]
pub struct GcoPictureTold {
    /// The energy of the labels, which is the sum of the next three.
    pub energy: i64,
    /// What the labels cost the pixels.
    pub data: i64,
    /// What the labels cost the pairs of pixels.
    pub smooth: i64,
    /// What the labels that some pixel has cost by themselves.
    pub label: i64,
    /// How many bytes the picture has, also where the buffer has fewer.
    pub bytes: u64,
    /// The place that a refusal names.
    pub place: u64,
    /// Where a bound is known, `vmin` times the energy is at most twice `vmax` times that of any
    /// labelling; else 0 and 0.
    pub vmin: u64,
    pub vmax: u64,
    /// The labels of the move that a refusal names: twice the same of an expansion.
    pub alpha: u32,
    pub beta: u32,
}

/// Writes the picture that was made to the front of a buffer, and tells its report, and answers 0;
/// or tells why there is none, and answers the status of that. A buffer that is too small is left
/// as it was.
pub(crate) fn hand_over(
    made: Result<Made, Refusal>,
    out: &mut [u8],
    told: &mut GcoPictureTold,
) -> u32
    ensures handed { result ≡ 0 → (picture : Made) × (made ≡ Ok picture)
        × IsHandedOver picture.bytes.items picture.report out.old out.new told.new }
    ensures unchanged { result ≢ 0 → out.new ≡ out.old }
    ensures refused { result ≢ 0 → (refusal : Refusal) × TellsRefusal refusal result told.new
        × ((made ≡ Err refusal) ⊎ ((picture : Made) × (made ≡ Ok picture)
        × (length out.old < length picture.bytes.items)
        × (refusal ≡ Refusal.NoRoom (length picture.bytes.items)))) }
{
    match made {
        Ok(picture) => {
            let bytes = picture.bytes.as_slice();
            if bytes.len() > out.len() {
                return refuse(told, Refusal::NoRoom(bytes.len()));
            }
            out[..bytes.len()].copy_from_slice(bytes);
            tell(told, &picture.report, bytes.len());
            0
        }
        Err(refusal) => refuse(told, refusal),
    }
}

/// Tells a report and the length of a picture, and nothing else.
fn tell(told: &mut GcoPictureTold, report: &Report, bytes: usize)
    ensures { told.new ≡ report_told report.now bytes }
{
    let (vmin, vmax) = numbers(report.bound);
    *told = GcoPictureTold {
        energy: report.energy,
        data: report.data_part,
        smooth: report.smooth_part,
        label: report.label_part,
        bytes: bytes as u64,
        place: 0,
        vmin,
        vmax,
        alpha: 0,
        beta: 0,
    };
}

/// The two numbers of a bound, or 0 and 0.
fn numbers(bound: Option<Bound>) -> (u64, u64)
    ensures { result ≡ bound_pair bound }
{
    match bound {
        Some(bound) => (bound.vmin, bound.vmax),
        None => (0, 0),
    }
}

/// Tells a refusal, and nothing else.
fn refuse(told: &mut GcoPictureTold, refusal: Refusal) -> u32
    ensures some { result ≢ 0 }
    ensures told { TellsRefusal refusal result told.new }
{
    let (alpha, beta) = refusal.labels();
    *told = GcoPictureTold {
        energy: 0,
        data: 0,
        smooth: 0,
        label: 0,
        bytes: refusal.bytes() as u64,
        place: refusal.place() as u64,
        vmin: 0,
        vmax: 0,
        alpha,
        beta,
    };
    refusal.status()
}
