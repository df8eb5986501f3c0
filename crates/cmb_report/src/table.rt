//! In which table a fault stands.

ghost use Rattle.std.specs.Prelude.{◌≤◌, length};

use crate::designs::{Texts, read_design};
use crate::words::Given;
use cmb_cli_line::Task;
use cmb_design_model::{Design, DesignFault, Settings};
use cmb_design_tables::{read_clocks, read_delays, read_initial, read_stimuli};
use cmb_netlist::MAX_TEXT;
use std::alloc::Global;

/// A table.
#[derive(Clone, Copy, Debug, PartialEq, Eq)]
pub(crate) enum Table {
    Delays,
    Stimuli,
    Clocks,
    /// Of first levels.
    Initial,
    /// Of what is expected of a run. A design is made without it.
    Expected,
}

/// The tables of which a design is made, in the order in which they are read and checked.
const TABLES: [Table; 4] = [Table::Delays, Table::Stimuli, Table::Clocks, Table::Initial];

/// The text of a table.
pub(crate) fn text_of<'a>(given: &Given<'a>, table: Table) -> &'a [u8] {
    match table {
        Table::Delays => given.delays,
        Table::Stimuli => given.stimuli,
        Table::Clocks => given.clocks,
        Table::Initial => given.initial,
        Table::Expected => given.list,
    }
}

// The text, where it is this table's; else that of a table which isn't given.
fn text_if<'a>(given: &Given<'a>, table: Table, wanted: Table) -> &'a [u8]
    ensures { length result.now ≤ MAX_TEXT }
{
    let text = text_of(given, table);
    if table == wanted && text.len() <= MAX_TEXT {
        text
    } else {
        &[]
    }
}

// A design of the netlist with one table alone, each flip-flop having a clock. Without a netlist it is out of memory.
fn design_with(alloc: Global, given: &Given<'_>, table: Table) -> Result<Design, DesignFault> {
    if given.bench.len() > MAX_TEXT {
        return Err(DesignFault::Memory);
    }
    let texts = Texts {
        bench: given.bench,
        delays: text_if(given, Table::Delays, table),
        stimuli: text_if(given, Table::Stimuli, table),
        clocks: text_if(given, Table::Clocks, table),
        initial: text_if(given, Table::Initial, table),
    };
    let settings = Settings {
        clock: Some((0, 1)),
        ..given.settings
    };
    read_design(alloc, texts, settings)
}

// The fault of a table's text alone.
fn reading_fault(alloc: Global, given: &Given<'_>, table: Table) -> Option<DesignFault> {
    let text = text_if(given, table, table);
    match table {
        Table::Delays => read_delays(alloc, text).err(),
        Table::Stimuli | Table::Expected => read_stimuli(alloc, text).err(),
        Table::Clocks => read_clocks(alloc, text).err(),
        Table::Initial => read_initial(alloc, text).err(),
    }
}

/// The table in which a fault stands that was found by reading and checking: all tables are read in order, and then
/// their rows are checked in order, so it is the first that has a fault there; where none has, it is that of what is
/// expected, if the line has one. `None` where memory was wanting, or where none has this fault.
pub(crate) fn table_of(alloc: Global, given: &Given<'_>, fault: DesignFault) -> Option<Table> {
    for table in TABLES {
        if let Some(found) = reading_fault(alloc, given, table) {
            return (found == fault).then_some(table);
        }
    }
    for table in TABLES {
        if let Some(found) = design_with(alloc, given, table).err() {
            return (found == fault).then_some(table);
        }
    }
    match given.line.task {
        Task::Expect => Some(Table::Expected),
        _ => None,
    }
}
