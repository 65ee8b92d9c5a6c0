// Names that are declared twice, and jumps that leave too much.
ghost use Rattle.std.specs.Prelude.{◌≡◌, ℕ, List, ◌∷◌, ◌++◌, not, ◌||◌, IfOk, OnOk};
ghost use Rattle.std.specs.List.{list_any};
ghost use Rattle.std.specs.Option.{option_map};
ghost use Rattle.std.specs.Str.{bytes_eq, str_to_ascii_lowercase};
ghost use Rattle.app_load.specs.Findings as spec_found;
ghost use Rattle.app_load.specs.Findings.{name_of, finding_of, findings_of};
ghost use Rattle.app_load.specs.Twice as spec;
ghost use Rattle.app_load.specs.Seen.{has, Noted, Continues};

use crate::finding::{Finding, Name, Sort};
use std::alloc::{AllocError, Global};
use std::collections::BTreeSet;

fn letter(sort: Sort) -> u8
    ensures { result ≡ spec.letter sort }
{
    match sort {
        Sort::Function => b'f',
        Sort::Class => b'c',
        Sort::Constant => b'k',
        Sort::Property => b'p',
        Sort::Method => b'm',
        Sort::Parameter => b'v',
    }
}

// Puts a word behind the bytes, in lower case.
fn push_lower(bytes: &mut Vec<u8>, word: &[u8]) -> Result<(), AllocError>
    ensures { OnOk result (bytes.new.items ≡ bytes.old.items ++ str_to_ascii_lowercase word.now) }
{
    for byte in word {
        bytes.push(byte.to_ascii_lowercase())?;
    }
    Ok(())
}

// Puts a name behind the bytes, as names of its sort are compared.
fn push_compared(bytes: &mut Vec<u8>, sort: Sort, word: &[u8]) -> Result<(), AllocError>
    ensures { OnOk result (bytes.new.items ≡ bytes.old.items ++ spec.compared sort word.now) }
{
    match sort {
        Sort::Function | Sort::Class | Sort::Method => push_lower(bytes, word)?,
        Sort::Constant | Sort::Property | Sort::Parameter => bytes.extend_from_slice(word)?,
    }
    Ok(())
}

// What is equal exactly for names of one thing.
fn key(alloc: Global, name: &Name<'_>) -> Result<Vec<u8>, AllocError>
    ensures { IfOk result (λ key. key.items ≡ spec.key (name_of name.now)) }
{
    let mut bytes = Vec::new(alloc);
    bytes.push(letter(name.sort))?;
    push_lower(&mut bytes, name.class)?;
    bytes.push(b' ')?;
    push_lower(&mut bytes, name.function)?;
    bytes.push(b' ')?;
    push_compared(&mut bytes, name.sort, name.word)?;
    Ok(bytes)
}

#[tactic(auto, using(crate::proofs::Keys::contains_has, crate::proofs::Keys::has_insert))]
// Puts a key into the set, and tells whether it was not there.
fn is_new(seen: &mut BTreeSet<Vec<u8>>, key: Vec<u8>) -> Result<bool, AllocError>
    ensures new { IfOk result (λ is_new. is_new ≡ not (has seen.old.keys key.items)) }
    ensures added { OnOk result ((k : List ℕ) → has seen.new.keys k ≡ (bytes_eq k key.items || has seen.old.keys k)) }
{
    let is_new = seen.insert(key)?;
    Ok(is_new)
}

// Notes a name, and gives it where it was there.
#[tactic(auto, using(crate::proofs::Keys::step_new, crate::proofs::Keys::step_again, crate::proofs::Keys::noted_jump))]
fn note<'t>(
    alloc: Global,
    seen: &mut BTreeSet<Vec<u8>>,
    finding: &Finding<'t>,
) -> Result<Option<Name<'t>>, AllocError>
    ensures { IfOk result (λ again. (left all : List spec_found.Finding) → Noted seen.old.keys (finding_of finding.now ∷ left) all → Continues (option_map name_of again) seen.new.keys left all) }
{
    match finding {
        Finding::Leaves(_) => Ok(None),
        Finding::Declares(name) => {
            let key = key(alloc, name)?;
            if is_new(seen, key)? {
                return Ok(None);
            }
            Ok(Some(*name))
        }
    }
}

/// The first name that is declared a second time. It takes time in proportion to n log n for n names.
pub fn first_twice<'t>(alloc: Global, found: &[Finding<'t>]) -> Result<Option<Name<'t>>, AllocError>
    ensures { IfOk result (λ name. option_map name_of name ≡ spec.first_twice (findings_of found.now)) }
{
    let mut seen = BTreeSet::new(alloc);
    for finding in found {
        if let Some(name) = note(alloc, &mut seen, finding)? {
            return Ok(Some(name));
        }
    }
    Ok(None)
}

/// The line of the first jump out of more loops and switches than there are around it.
pub fn first_leaving(found: &[Finding<'_>]) -> Option<u32>
    ensures { result ≡ spec.first_leaving (findings_of found.now) }
{
    for finding in found {
        if let Finding::Leaves(line) = finding {
            return Some(*line);
        }
    }
    None
}
