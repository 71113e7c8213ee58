//! What is found in an application, from what is found in the function and in the arguments.

ghost use Rattle.std.specs.Prelude.{◌≡◌, ◌&&◌, ◌||◌, ◌∷◌, not, map, min, nat_lt, replicate, ◌++◌, [], true, false, if◌then◌else◌, IfOk, OnOk};
ghost use Rattle.std.specs.List.{list_any, AllZip};
ghost use Rattle.meaning.specs.Faults as definition;
ghost use Rattle.meaning.specs.Faults.{OfAny, finding_of, faults_in, value_with};
ghost use Rattle.plain_faults.specs.Found.{fault_as, kind_as, Adds, IsSameFinding, IsSameKnown};

use crate::fault::{Fault, add_all, add_if, has_kind_fault};
use crate::finding::{Finding, KnownName, wrong};
use crate::kind::{Kind, either, is_relation, is_set};
use crate::scope::unknown;
use std::alloc::{AllocError, Global};

// Puts the faults of the findings behind the others.
fn add_found(faults: &mut Vec<Fault>, findings: &[Finding]) -> Result<(), AllocError>
    ensures { OnOk result ((fs : _) → AllZip IsSameFinding findings.now fs
        → Adds (faults_in fs) faults.old.items faults.new.items) }
{
    match findings.split_first() {
        Some((first, rest)) => {
            add_all(faults, &first.faults)?;
            add_found(faults, rest)
        }
        None => Ok(()),
    }
}

fn is_any(kind: Kind) -> bool
    ensures { result ≡ (definition.is_set (kind_as kind) && definition.is_relation (kind_as kind)) }
{
    is_set(kind) && is_relation(kind)
}

// Whether a finding is of any kind.
fn has_any(findings: &[Finding]) -> bool
    ensures { (fs : _) → AllZip IsSameFinding findings.now fs → result
        ≡ list_any (λ a. definition.is_set a.kind && definition.is_relation a.kind) fs }
{
    match findings.split_first() {
        Some((first, rest)) => either(is_any(first.kind), has_any(rest)),
        None => false,
    }
}

/// The findings as arguments of a function. Errors: want of memory, as in all that follows.
pub fn arguments_of(alloc: Global, findings: &[Finding]) -> Result<Vec<KnownName>, AllocError>
    ensures { IfOk result (λ v. (fs : _) → AllZip IsSameFinding findings.now fs
        → AllZip IsSameKnown v.items (map (λ a. value_with a.kind a.size false) fs)) }
{
    match findings.split_first() {
        Some((first, rest)) => {
            let mut values = arguments_of(alloc, rest)?;
            let value = KnownName {
                kind: first.kind,
                size: first.size,
                recursive: false,
            };
            values.insert(0, value)?;
            Ok(values)
        }
        None => Ok(Vec::new(alloc)),
    }
}

/// The arguments that show whether the parameter at the index must not grow.
pub fn trial_arguments(alloc: Global, index: usize) -> Result<Vec<KnownName>, AllocError>
    ensures { IfOk result (λ v. AllZip IsSameKnown v.items
        (replicate index (value_with OfAny 1 false) ++ value_with OfAny 1 true ∷ [])) }
{
    let mut values = Vec::new(alloc);
    values.resize(index, unknown(false))?;
    values.push(unknown(true))?;
    Ok(values)
}

/// What is found in an application of what is no function of so many arguments.
pub fn in_wrong_application(
    alloc: Global,
    fault: Fault,
    arguments: &[Finding],
) -> Result<Finding, AllocError>
    ensures { IfOk result (λ f. (fs : _) → AllZip IsSameFinding arguments.now fs
        → IsSameFinding f (finding_of OfAny 1 (fault_as fault ∷ faults_in fs))) }
{
    let mut faults = Vec::new(alloc);
    add_if(&mut faults, true, fault)?;
    add_found(&mut faults, arguments)?;
    Ok(Finding {
        kind: Kind::Any,
        size: 1,
        faults,
    })
}

// Whether a body of this size is too large.
fn is_large(inside: bool, size: usize) -> bool
    ensures { (n : _) → size ≡ min n 4097 → result ≡ (not inside && nat_lt 4096 n) }
{
    !inside && size > 4096
}

fn kind_unless(unknown: bool, kind: Kind) -> Kind
    ensures { kind_as result ≡ (if unknown then OfAny else kind_as kind) }
{
    if unknown { Kind::Any } else { kind }
}

/// What is found in an application of a function, from what is found in its body and in its
/// arguments, inside of the body of a function or outside.
pub fn in_application(
    alloc: Global,
    inside: bool,
    body: &Finding,
    arguments: &[Finding],
) -> Result<Finding, AllocError>
    ensures { IfOk result (λ f. (b : definition.Finding) → IsSameFinding body.now b → (fs : _)
        → AllZip IsSameFinding arguments.now fs
        → IsSameFinding f (definition.in_application inside b fs)) }
{
    let large = is_large(inside, body.size);
    let unknown = either(large, has_any(arguments));
    let mut faults = Vec::new(alloc);
    add_if(&mut faults, large, Fault::TooLarge)?;
    add_if(&mut faults, has_kind_fault(&body.faults), Fault::Kind)?;
    add_found(&mut faults, arguments)?;
    Ok(Finding {
        kind: kind_unless(unknown, body.kind),
        size: body.size,
        faults,
    })
}
