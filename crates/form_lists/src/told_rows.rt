//! The table of rises by what is known, as it is written.
ghost use Rattle.std.specs.Prelude.{◌≡◌, ◌⊎◌, ◌<◌, ◌≤◌, ◌+◌, ◌*◌, ℕ, true, length};
ghost use Rattle.label_field.specs.Limits.{weight_limit};
ghost use Rattle.move_energy.specs.declared.choice.Choice.{Choice as AnyChoice};
ghost use Rattle.move_energy.specs.Rising.{table_labels};
ghost use Rattle.site_forms.specs.Fields.{code_of, known_place, told_in, unit_rises_at};
ghost use Rattle.form_lists.specs.ToldRows.{known_rises, AreTimes, AreUnitsSmall};

use move_energy::{Choice, EndRises};
use site_forms::{ToldRises, place_told, times, unit_rises};

/// Writes the rises of a pair from a place on, for each that can be known of its other end, by its
/// rises while that is at 0 and while it is at 1.
fn write_told(told: &mut [ToldRises], place: usize, low: i32, high: i32)
    requires { place + 2 < length told.old }
    ensures each { (choice : AnyChoice) →
        told_in told.new (place + code_of choice) ≡ known_rises low high choice }
    ensures others { (k : ℕ) → (k < place) ⊎ (place + 3 ≤ k) →
        told_in told.new k ≡ told_in told.old k }
{
    told[place] = ToldRises {
        least: high,
        greatest: low,
    };
    told[place + 1] = ToldRises {
        least: low,
        greatest: low,
    };
    told[place + 2] = ToldRises {
        least: high,
        greatest: high,
    };
}

/// Writes the rises of pairs of this weight whose first end has the one label, by those of pairs of
/// weight 1.
fn write_told_row(told: &mut [ToldRises], table: &[EndRises], weight: u32, own: u8, labels: u32)
    requires few { (own < labels) × (labels ≤ table_labels) }
    requires room { labels * 256 ≤ length told.old }
    requires table { length table.now ≡ 8192 }
    requires small { AreUnitsSmall labels table.now }
    requires weight { weight ≤ weight_limit }
    ensures each { (other : ℕ) (choice : AnyChoice) → other < labels →
        AreTimes weight (unit_rises_at table.now true own other) choice
        (told_in told.new (known_place own other choice)) }
    ensures others { (k : ℕ) → (k < own * 256) ⊎ (own * 256 + 256 ≤ k) →
        told_in told.new k ≡ told_in told.old k }
{
    for other in 0..labels {
        let rises = unit_rises(table, true, own, other as u8);
        let low = times(weight, rises.low);
        let high = times(weight, rises.high);
        let place = place_told(own, other as u8, Choice::Open);
        write_told(told, place, low, high);
    }
}

/// Writes the rises of pairs of this weight, by those of pairs of weight 1, for so many labels.
pub(crate) fn write_told_rows(told: &mut [ToldRises], table: &[EndRises], weight: u32, labels: u32)
    requires few { labels ≤ table_labels }
    requires room { labels * 256 ≤ length told.old }
    requires table { length table.now ≡ 8192 }
    requires small { AreUnitsSmall labels table.now }
    requires weight { weight ≤ weight_limit }
    ensures { (own other : ℕ) (choice : AnyChoice) → own < labels → other < labels →
        AreTimes weight (unit_rises_at table.now true own other) choice
        (told_in told.new (known_place own other choice)) }
{
    for own in 0..labels {
        write_told_row(told, table, weight, own as u8, labels);
    }
}
