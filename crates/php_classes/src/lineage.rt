// The ancestors of classes.

ghost use Rattle.std.specs.Prelude.{◌≡◌, ◌++◌, length, IfOk, OnOk};
ghost use Rattle.php_classes.specs.Ancestors.{contains, merged, with_interfaces, all_of, lineage_at, parent_lineage, lineage_of, descends};

use crate::class::{ClassEntry, Lineage};
use sqlite_items::{Items, at};
use std::alloc::{AllocError, Global};

/// Whether a number is in a list.
pub fn contains(number: u32, numbers: &[u32]) -> bool
    ensures { result ≡ contains number numbers.now }
{
    numbers.iter().any(|n| *n == number)
}

// Some numbers, and then others, but for those that are there.
fn merge(numbers: &mut Items<u32>, more: &[u32]) -> Result<(), AllocError>
    ensures { OnOk result (numbers.new ≡ merged numbers.old more.now) }
{
    for number in more {
        if !contains(*number, numbers.as_slice()) {
            numbers.push(*number)?;
        }
    }
    Ok(())
}

// Some numbers, and then those of a class and its ancestors.
#[tactic(auto, using(crate::proofs::Lineages::merged_twice))]
fn merge_lineage(
    numbers: &mut Items<u32>,
    lineages: &[Lineage],
    class: u32,
) -> Result<(), AllocError>
    ensures { OnOk result (numbers.new ≡ merged numbers.old (all_of (lineage_at lineages.now class))) }
{
    if let Some(lineage) = at(lineages, class as usize) {
        merge(numbers, lineage.classes.as_slice())?;
        merge(numbers, lineage.interfaces.as_slice())?;
    }
    Ok(())
}

fn add_interfaces(
    numbers: &mut Items<u32>,
    lineages: &[Lineage],
    interfaces: &[u32],
) -> Result<(), AllocError>
    ensures { OnOk result (numbers.new ≡ with_interfaces lineages.now numbers.old interfaces.now) }
{
    for interface in interfaces {
        merge_lineage(numbers, lineages, *interface)?;
    }
    Ok(())
}

// The parent's ancestors behind a class, and its interfaces behind the class's own.
fn add_parent(
    alloc: Global,
    own: Lineage,
    lineages: &[Lineage],
    parent: Option<u32>,
) -> Result<Lineage, AllocError>
    ensures { IfOk result (λ lineage. lineage ≡ record {
      classes = own.classes ++ (parent_lineage lineages.now parent).classes;
      interfaces = merged own.interfaces (parent_lineage lineages.now parent).interfaces;
    }) }
{
    let Some(parent) = parent else {
        return Ok(own);
    };
    let Some(above) = at(lineages, parent as usize) else {
        return Ok(own);
    };
    let Lineage {
        mut classes,
        mut interfaces,
    } = own;
    classes.append(Items::from_slice(alloc, above.classes.as_slice())?)?;
    merge(&mut interfaces, above.interfaces.as_slice())?;
    Ok(Lineage {
        classes,
        interfaces,
    })
}

/// The ancestors of a class that stands behind those of some lineages.
pub fn lineage_of(
    alloc: Global,
    lineages: &[Lineage],
    number: u32,
    class: &ClassEntry,
) -> Result<Lineage, AllocError>
    requires { number ≡ length lineages.now }
    ensures { IfOk result (λ lineage. lineage ≡ lineage_of lineages.now class.now) }
{
    let mut classes = Items::new(alloc);
    classes.push(number)?;
    let mut interfaces = Items::new(alloc);
    add_interfaces(&mut interfaces, lineages, class.interfaces.as_slice())?;
    let own = Lineage {
        classes,
        interfaces,
    };
    add_parent(alloc, own, lineages, class.parent)
}

/// Whether a class is another or descends from it.
pub fn descends(lineages: &[Lineage], class: u32, other: u32) -> bool
    ensures { result ≡ descends lineages.now class other }
{
    match at(lineages, class as usize) {
        Some(lineage) => {
            contains(other, lineage.classes.as_slice())
                || contains(other, lineage.interfaces.as_slice())
        }
        None => false,
    }
}
