//! The shelf of the program: the rules that a command line or a report may name.
//! A further rule is one more entry; its box the caller makes, and a condition says which rule is in it.
ghost use Rattle.std.specs.Prelude.{◌≡◌, IfOk};
ghost use Rattle.shape_rules.specs.Ruled.{rules_on};
ghost use Rattle.shape_cli.specs.Rules.{no_ends, curve_ends, few_ends, program_rules};

use shape_rules::{EndRule, Entry, Name, Shelf};
use shape_space::NoMemory;
use std::alloc::Global;

/// A shelf with the rules `none`, `curve` and `few`: no ends are kept, those of curves, or the first two of them.
pub fn shelf(
    alloc: Global,
    none: Box<dyn EndRule>,
    curve: Box<dyn EndRule>,
    few: Box<dyn EndRule>,
) -> Result<Shelf, NoMemory>
    requires none { means none ≡ no_ends }
    requires curve { means curve ≡ curve_ends }
    requires few { means few ≡ few_ends 2 }
    ensures { IfOk result (λ s. rules_on means s ≡ program_rules) }
{
    let names = (Name::new(b"none"), Name::new(b"curve"), Name::new(b"few"));
    let (Some(first), Some(second), Some(third)) = names else {
        unreachable!()
    };
    let mut rules: Vec<Entry> = Vec::new(alloc);
    rules.push(Entry {
        name: first,
        rule: none,
    })?;
    rules.push(Entry {
        name: second,
        rule: curve,
    })?;
    rules.push(Entry {
        name: third,
        rule: few,
    })?;
    Ok(Shelf::new(rules))
}
