//! The lines that tell an energy, and how near it is to the least. They take no memory.
ghost use Rattle.std.specs.Prelude.{◌≡◌, ◌≤◌, ◌+◌, ◌++◌};
ghost use Rattle.arrayvec.specs.ArrayString.{array_string_len};
ghost use Rattle.program_texts.specs.Lines.{bound_line, energy_words, label_words, near_words};
ghost use Rattle.program_texts.specs.Lines.{picture_lines};

use crate::line::{Line, push_number};
use arrayvec::ArrayString;

/// An energy and its parts.
#[derive(Clone, Copy)]
pub struct EnergyParts {
    pub energy: u64,
    /// What the labels cost the sites.
    pub data: u64,
    /// What the labels cost the pairs of sites.
    pub smooth: u64,
    /// What the labels that some site has cost by themselves.
    pub label: u64,
}

/// How near an energy is to the least: the first number times it is at most the second times that
/// of any labelling.
#[derive(Clone, Copy)]
pub struct Near {
    pub first: u64,
    pub second: u64,
}

/// What is said beside a picture: the line of its energy, in which the cost of the labels by
/// themselves stands where it is to be told, and the line of how near it is to the least where that
/// is asked for.
pub fn picture_lines(parts: EnergyParts, near: Option<Near>, tells: bool, asked: bool) -> Line
    ensures { result.bytes ≡ picture_lines tells asked parts near }
{
    let mut line = energy_words(parts, tells);
    line.push_str("\n");
    line.push_str(bound_line(near, asked).as_str());
    line
}

// The words that tell an energy and its parts, that of the labels where it is to be told.
pub(crate) fn energy_words(parts: EnergyParts, tells: bool) -> Line
    ensures bytes { result.bytes ≡ energy_words tells parts }
    ensures len { array_string_len result ≤ 160 }
{
    let mut line = ArrayString::new();
    push_number(&mut line, "energy ", parts.energy);
    push_number(&mut line, " data ", parts.data);
    push_number(&mut line, " smooth ", parts.smooth);
    push_label(&mut line, parts.label, tells);
    line
}

// The part of the labels, where it is to be told.
fn push_label(line: &mut Line, labels: u64, tells: bool)
    requires { array_string_len line.old ≤ 120 }
    ensures bytes { line.new.bytes ≡ line.old.bytes ++ label_words tells labels }
    ensures len { array_string_len line.new ≤ array_string_len line.old + 40 }
{
    if tells {
        push_number(line, " label ", labels);
    }
}

// The line of how near an energy is to the least, where it is asked for.
pub(crate) fn bound_line(near: Option<Near>, asked: bool) -> Line
    ensures bytes { result.bytes ≡ bound_line asked near }
    ensures len { array_string_len result ≤ 90 }
{
    let mut line = ArrayString::new();
    if asked {
        line.push_str("bound ");
        push_near(&mut line, near);
        line.push_str("\n");
    }
    line
}

// How near an energy is to the least, where it is known.
fn push_near(line: &mut Line, near: Option<Near>)
    requires { array_string_len line.old ≤ 6 }
    ensures bytes { line.new.bytes ≡ line.old.bytes ++ near_words near }
    ensures len { array_string_len line.new ≤ array_string_len line.old + 80 }
{
    match near {
        None => line.push_str("none"),
        Some(near) => {
            push_number(line, "", near.first);
            push_number(line, " ", near.second);
        }
    }
}
