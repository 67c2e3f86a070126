//! Names of hypotheses.
ghost use Rattle.std.specs.Prelude.{◌≡◌};
ghost use Rattle.std.specs.List.{list_all, list_any};
ghost use Rattle.std.specs.Str.{bytes_eq};
ghost use Rattle.case_model.specs.Draft.{is_name_byte, is_name};
ghost use Rattle.case_model.specs.CaseFaults.{name_form, duplicate_name, names_fault};

use crate::CaseFault;
use field_core::Text;

fn is_name_byte(byte: u8) -> bool
    ensures { result ≡ is_name_byte byte }
{
    byte.is_ascii_alphanumeric() || byte == b'_' || byte == b'.' || byte == b'-'
}

fn are_name_bytes(bytes: &[u8]) -> bool
    ensures { result ≡ list_all is_name_byte bytes.now }
{
    bytes.iter().all(|byte| is_name_byte(*byte))
}

/// Whether a name has 1 to 32 bytes, each an ASCII letter or digit, `_`, `.` or `-`.
#[tactic(auto, unfolding(crate::specs::Draft::is_name))]
fn is_name(name: &[u8]) -> bool
    ensures { result ≡ is_name name.now }
{
    !name.is_empty() && name.len() <= 32 && are_name_bytes(name)
}

/// Whether one of the names is this one.
fn has(names: &[Text], name: &[u8]) -> bool
    ensures { result ≡ list_any (bytes_eq name.now) names.now }
{
    names.iter().any(|other| name == other.as_bytes())
}

/// Returns the fault of the first name that isn't well formed.
#[tactic(auto, unfolding(crate::specs::CaseFaults::name_form, crate::specs::CaseFaults::first_from), using(crate::proofs::FirstFaults::walks))]
fn name_form(names: &[Text]) -> Option<CaseFault>
    ensures { result ≡ name_form names.now }
{
    for i in 0..names.len() {
        if !is_name(names[i].as_bytes()) {
            return Some(CaseFault::NameForm(i));
        }
    }
    None
}

/// Returns the fault of the first name that is equal to an earlier one.
#[tactic(auto, unfolding(crate::specs::CaseFaults::duplicate_name, crate::specs::CaseFaults::first_from), using(crate::proofs::FirstFaults::walks))]
fn duplicate_name(names: &[Text]) -> Option<CaseFault>
    ensures { result ≡ duplicate_name names.now }
{
    for i in 0..names.len() {
        if has(&names[..i], names[i].as_bytes()) {
            return Some(CaseFault::DuplicateName(i));
        }
    }
    None
}

/// Returns the first fault of the names.
#[tactic(auto, unfolding(crate::specs::CaseFaults::names_fault, crate::specs::CaseFaults::no_hypothesis, crate::specs::CaseFaults::too_many))]
pub fn names_fault(names: &[Text]) -> Option<CaseFault>
    ensures { result ≡ names_fault names.now }
{
    let count = names.len() as u64;
    if count == 0 {
        return Some(CaseFault::NoHypothesis);
    }
    if count > 64 {
        return Some(CaseFault::TooMany(count));
    }
    name_form(names).or_else(|| duplicate_name(names))
}
