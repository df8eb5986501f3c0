//! From statements to the netlist that they mean.
ghost use Rattle.std.specs.Prelude.{◌≡◌, ◌≤◌, [], length, map, IfOk, IfErr};
ghost use Rattle.cmb_bench.specs.declared.fault.ReadError.TheVariants.{Memory};
ghost use Rattle.cmb_bench.specs.Statement.{driven};
ghost use Rattle.cmb_bench.specs.Grammar.{AreLawful};
ghost use Rattle.cmb_bench.specs.Meaning.{driver_from};
ghost use Rattle.cmb_bench.specs.Inner.Reading.{Gives};
ghost use Rattle.cmb_bench.specs.Inner.Building.{number_in, numbers_in, built, Adds};
ghost use Rattle.cmb_bench.specs.Inner.Views.{mention, mentions, statement};

use crate::fault::{BenchFault, FaultKind, ReadError};
use crate::parser::{Item, Use};
use cmb_netlist::{Cell, Driver, MAX_NETS, Name, Netlist, Operands, Pins, Spelled};
use indexmap::IndexSet;
use std::alloc::Global;

/// The number of the net that is used.
#[tactic(auto, unfolding(crate::specs::Inner::Building::number_in))]
fn number_of(names: &IndexSet<Name>, used: Use) -> Result<u32, ReadError>
    requires { length names.now.keys ≤ MAX_NETS }
    ensures { Gives (λ n. n) result (number_in names.now.keys (mention used.entry)) }
{
    match names.get_index_of(Spelled { bytes: used.name }) {
        Some(number) => Ok(number as u32),
        None => Err(ReadError::Fault(BenchFault {
            line: used.line,
            kind: FaultKind::Undriven,
        })),
    }
}

fn numbers_of(alloc: Global, names: &IndexSet<Name>, uses: &[Use]) -> Result<Pins, ReadError>
    requires { length names.now.keys ≤ MAX_NETS }
    ensures { Gives (λ v. v.items) result (numbers_in names.now.keys (mentions uses.now)) }
{
    let mut numbers = Pins::with_capacity(alloc, uses.len())?;
    for used in uses {
        let number = number_of(names, *used)?;
        numbers.push(number)?;
    }
    Ok(numbers)
}

// A flip-flop of a statement that was read has one operand; a list without any, which none has, gives net 0.
fn driver_from(cell: Cell, numbers: Pins) -> Driver
    ensures { result ≡ driver_from cell numbers.items }
{
    match cell {
        Cell::Gate(kind) => Driver::Gate(kind, Operands::new(numbers)),
        Cell::Flop => match numbers.as_slice().first() {
            Some(number) => Driver::Flop(*number),
            None => Driver::Flop(0),
        },
    }
}

/// Adds what a statement drives, or the output that it names.
fn add_item(
    alloc: Global,
    names: &IndexSet<Name>,
    item: &Item,
    drivers: &mut Vec<Driver>,
    outputs: &mut IndexSet<u32>,
) -> Result<(), ReadError>
    requires { length names.now.keys ≤ MAX_NETS }
    ensures { Adds names.now.keys (statement item.now)
        drivers.old.items outputs.old.keys drivers.new.items outputs.new.keys result }
{
    match item {
        Item::Input(_) => {
            drivers.push(Driver::Input)?;
            Ok(())
        }
        Item::Output(used) => {
            let number = number_of(names, *used)?;
            outputs.insert(number)?;
            Ok(())
        }
        Item::Drive(_, cell, uses) => {
            let numbers = numbers_of(alloc, names, uses.as_slice())?;
            drivers.push(driver_from(*cell, numbers))?;
            Ok(())
        }
    }
}

/// Adds what the statements drive to an empty list, and the outputs that they name to an empty set.
fn add_items(
    alloc: Global,
    names: &IndexSet<Name>,
    items: &[Item],
    drivers: &mut Vec<Driver>,
    outputs: &mut IndexSet<u32>,
) -> Result<(), ReadError>
    requires few { length names.now.keys ≤ MAX_NETS }
    requires no_drivers { drivers.old.items ≡ [] }
    requires no_outputs { outputs.old.keys ≡ [] }
    ensures { Gives (λ _. (drivers.new.items, outputs.new.keys)) result
        (built names.now.keys [] (map statement items.now)) }
{
    for item in items {
        add_item(alloc, names, item, drivers, outputs)?;
    }
    Ok(())
}

/// The netlist of the statements, where these nets are driven.
pub(crate) fn build(
    alloc: Global,
    names: IndexSet<Name>,
    items: &[Item],
) -> Result<Netlist, ReadError>
    requires named { names.keys ≡ driven (map statement items.now) }
    requires lawful { AreLawful [] (map statement items.now) }
    requires few { length names.keys ≤ MAX_NETS }
    ensures read { Gives (λ n. (n.drivers, n.outputs)) result (built names.keys [] (map statement items.now)) }
    ensures names { IfOk result (λ n. n.names ≡ names.keys) }
{
    let mut drivers = Vec::with_capacity(alloc, names.len())?;
    let mut outputs = IndexSet::new(alloc);
    match add_items(alloc, &names, items, &mut drivers, &mut outputs) {
        Ok(()) => Ok(Netlist::new(names, drivers, outputs)),
        Err(error) => {
            drop((names, drivers, outputs));
            Err(error)
        }
    }
}
