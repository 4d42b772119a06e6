//! The line of a fault, made in a buffer of fixed size.
ghost use Rattle.std.specs.Prelude.{◌≡◌, ◌≤◌, ◌+◌, ◌++◌, length, decimal, codes};
ghost use Rattle.arrayvec.specs.ArrayString.{array_string_len};
ghost use Rattle.program_texts.specs.FaultLine.{beta_words, cost_words, energy_file_words};
ghost use Rattle.program_texts.specs.FaultLine.{fault_line};
ghost use Rattle.program_texts.specs.FaultLine.{fault_words, fixed_words, image_words};
ghost use Rattle.program_texts.specs.FaultLine.{label_file_words};
ghost use Rattle.program_texts.specs.FaultLine.{move_words, option_words};

use crate::fault::Fault;
use crate::line::{Line, push_number};
use arrayvec::ArrayString;
use command_line::OptionName;
use pgm_image::PgmError;
use problem_files::{EnergyFault, LabelFault, LabelKey};
use regular::Fixed;

/// The line of a fault, its end included. It takes no memory.
pub fn line_of(fault: Fault) -> Line
    ensures { result.bytes ≡ fault_line fault }
{
    let mut line = ArrayString::new();
    line.push_str("refused ");
    push_words(&mut line, fault);
    line.push_str("\n");
    line
}

// The words of a fault.
fn push_words(line: &mut Line, fault: Fault)
    requires { array_string_len line.old ≤ 60 }
    ensures bytes { line.new.bytes ≡ line.old.bytes ++ fault_words fault }
    ensures len { array_string_len line.new ≤ array_string_len line.old + 180 }
{
    match fault {
        Fault::OutOfMemory => line.push_str("0"),
        Fault::Image(reason) => push_image(line, reason),
        Fault::Write(failed) => push_number(line, "9 after ", failed.count as u64),
        Fault::LabelFile(reason) => push_label_file(line, reason),
        Fault::EnergyFile(reason) => push_energy_file(line, reason),
        Fault::TermNotRegular(failing) => push_term(line, failing.term, failing.fixed),
        Fault::Workers => line.push_str("22"),
        Fault::BadOptions => line.push_str("23"),
        Fault::PairNotRegular { pair, alpha, beta } => push_move(line, pair, alpha, beta),
        Fault::SizesDiffer => line.push_str("25"),
        Fault::BadSeed(index) => push_number(line, "26 sample ", index as u64),
        Fault::LabelCostInSwap => line.push_str("27"),
        Fault::BadOption(option) => line.push_str(option_words(option)),
        Fault::TooManyLevels => line.push_str("30"),
        Fault::ReadFailed => line.push_str("31"),
        Fault::InputTooLong => line.push_str("32"),
    }
}

// Why no image stands where one is to begin.
fn push_image(line: &mut Line, reason: PgmError)
    requires { array_string_len line.old ≤ 60 }
    ensures bytes { line.new.bytes ≡ line.old.bytes ++ image_words reason }
    ensures len { array_string_len line.new ≤ array_string_len line.old + 40 }
{
    match reason {
        PgmError::OutOfMemory => line.push_str("0"),
        PgmError::NotPgm => line.push_str("1"),
        PgmError::BadHeader(at) => push_number(line, "2 at ", at as u64),
        PgmError::ZeroSize => line.push_str("3"),
        PgmError::TooLarge => line.push_str("4"),
        PgmError::BadMaxval => line.push_str("5"),
        PgmError::Truncated => line.push_str("6"),
        PgmError::SampleAboveMax(index) => push_number(line, "7 sample ", index as u64),
        PgmError::BadSample(at) => push_number(line, "8 at ", at as u64),
    }
}

// Why a file names no energy.
fn push_energy_file(line: &mut Line, reason: EnergyFault)
    requires { array_string_len line.old ≤ 60 }
    ensures bytes { line.new.bytes ≡ line.old.bytes ++ energy_file_words reason }
    ensures len { array_string_len line.new ≤ array_string_len line.old + 90 }
{
    match reason {
        EnergyFault::OutOfMemory => line.push_str("0"),
        EnergyFault::NoSuchVariable(term) => push_number(line, "16 term ", term as u64),
        EnergyFault::SameVariable(term) => push_number(line, "17 term ", term as u64),
        EnergyFault::ValueRange(term) => push_number(line, "18 term ", term as u64),
        EnergyFault::ConstantRange => line.push_str("18 constant"),
        EnergyFault::TooManyTerms => line.push_str("19"),
        EnergyFault::BadToml => line.push_str("28"),
        EnergyFault::BadField(key) => push_field(line, "29 ", key.name()),
        EnergyFault::BadElement(key, place) => push_element(line, "29 ", key.name(), place),
    }
}

// Why a file names no problem of labels.
fn push_label_file(line: &mut Line, reason: LabelFault)
    requires { array_string_len line.old ≤ 60 }
    ensures bytes { line.new.bytes ≡ line.old.bytes ++ label_file_words reason }
    ensures len { array_string_len line.new ≤ array_string_len line.old + 90 }
{
    match reason {
        LabelFault::OutOfMemory => line.push_str("0"),
        LabelFault::NoSuchSite(pair) => push_number(line, "10 pair ", pair as u64),
        LabelFault::NoSuchLabel(site) => push_number(line, "11 site ", site as u64),
        LabelFault::SamePair(pair) => push_number(line, "12 pair ", pair as u64),
        LabelFault::TooManyPairs => line.push_str("13"),
        LabelFault::WeightRange(pair) => push_number(line, "14 pair ", pair as u64),
        LabelFault::CostRange(key, place) => push_cost(line, key, place),
        LabelFault::BadToml => line.push_str("28"),
        LabelFault::BadField(key) => push_field(line, "29 ", key.name()),
        LabelFault::BadElement(key, place) => push_element(line, "29 ", key.name(), place),
    }
}

// A cost out of its range: a label goes by its number, another cost by its place in the list of its
// field.
fn push_cost(line: &mut Line, key: LabelKey, place: usize)
    requires { array_string_len line.old ≤ 60 }
    ensures bytes { line.new.bytes ≡ line.old.bytes ++ codes "15 " ++ cost_words key place }
    ensures len { array_string_len line.new ≤ array_string_len line.old + 90 }
{
    match key {
        LabelKey::LabelCosts => push_number(line, "15 label ", place as u64),
        key => push_element(line, "15 ", key.name(), place),
    }
}

// A field after its number, and the place of an element.
fn push_element(line: &mut Line, number: &str, name: &str, place: usize)
    requires room { array_string_len line.old ≤ 60 }
    requires short { length number.now ≤ 3 }
    requires name { length name.now ≤ 20 }
    ensures bytes { line.new.bytes
        ≡ line.old.bytes ++ number.now ++ name.now ++ codes " " ++ decimal place }
    ensures len { array_string_len line.new ≤ array_string_len line.old + 90 }
{
    push_field(line, number, name);
    push_number(line, " ", place as u64);
}

// A field after its number.
fn push_field(line: &mut Line, number: &str, name: &str)
    requires room { array_string_len line.old ≤ 60 }
    requires short { length number.now ≤ 3 }
    requires name { length name.now ≤ 20 }
    ensures bytes { line.new.bytes ≡ line.old.bytes ++ number.now ++ name.now }
    ensures len { array_string_len line.new ≤ array_string_len line.old + 23 }
{
    line.push_str(number);
    line.push_str(name);
}

// A term that is not regular, and which projection of it failed, where it was one of a term of
// three.
fn push_term(line: &mut Line, term: usize, fixed: Option<Fixed>)
    requires { array_string_len line.old ≤ 60 }
    ensures bytes { line.new.bytes
        ≡ line.old.bytes ++ codes "20 term " ++ decimal term ++ fixed_words fixed }
    ensures len { array_string_len line.new ≤ array_string_len line.old + 130 }
{
    push_number(line, "20 term ", term as u64);
    if let Some(fixed) = fixed {
        push_number(line, " fixed ", fixed.position as u64);
        line.push_str(if fixed.value { " at 1" } else { " at 0" });
    }
}

// A pair that is not regular in a move of one label or of two.
fn push_move(line: &mut Line, pair: usize, alpha: u32, beta: Option<u32>)
    requires { array_string_len line.old ≤ 60 }
    ensures bytes { line.new.bytes ≡ line.old.bytes ++ move_words pair alpha beta }
    ensures len { array_string_len line.new ≤ array_string_len line.old + 180 }
{
    push_number(line, "24 pair ", pair as u64);
    push_number(line, " alpha ", u64::from(alpha));
    push_beta(line, beta);
}

// The second label of a swap.
fn push_beta(line: &mut Line, beta: Option<u32>)
    requires { array_string_len line.old ≤ 180 }
    ensures bytes { line.new.bytes ≡ line.old.bytes ++ beta_words beta }
    ensures len { array_string_len line.new ≤ array_string_len line.old + 60 }
{
    if let Some(beta) = beta {
        push_number(line, " beta ", u64::from(beta));
    }
}

// The words of an option whose value is no name that it takes.
fn option_words(option: OptionName) -> &'static str
    ensures words { result.now ≡ option_words option }
    ensures short { length result.now ≤ 13 }
{
    match option {
        OptionName::Smooth => "29 smooth",
        OptionName::Neighbours => "29 neighbours",
        OptionName::Moves => "29 moves",
    }
}
