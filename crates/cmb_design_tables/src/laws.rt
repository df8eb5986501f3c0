//! The laws of tables that were read: their numbers are in range.

ghost use Rattle.std.specs.Prelude.{◌≡◌, ℕ, ◌≤◌, false, List, All, Some, None, unwrap_or};
ghost use Rattle.std.specs.Option.{option_or};
ghost use Rattle.cmb_netlist.specs.Netlist.{Netlist, driver_of};
ghost use Rattle.cmb_design_model.specs.declared.rows.Clock.{Clock};
ghost use Rattle.cmb_design_model.specs.declared.rows.ClockRow.{ClockRow};
ghost use Rattle.cmb_design_model.specs.declared.rows.DelayRow.{DelayRow};
ghost use Rattle.cmb_design_model.specs.Checks.{first_fault};
ghost use Rattle.cmb_design_model.specs.Nets.{driver_cell};
ghost use Rattle.cmb_design_model.specs.Settings.{is_bad_clock};
ghost use Rattle.cmb_design_model.specs.Timing.{clock_of_row};
ghost use Rattle.cmb_design_model.specs.Timing.{delay_by, delay_in, is_of_pin, is_of_net, is_of_kind, common_clock};
ghost use Rattle.cmb_design_tables.specs.Readers.{clock_header, clock_record_checks, clock_row_of, delay_header};
ghost use Rattle.cmb_design_tables.specs.Readers.{delay_record_checks, delay_row_of, table_checks, table_rows};

/// Each delay of a table that was read is at least one tick, and then the bound in the definition of a pin's delay
/// changes nothing: it is that of the pin's row, else of its net's, else of its kind's, else 1.
pub fn read_delays_are_positive()
    ensures rows { (records : List (List (List ℕ)))
        → first_fault (table_checks delay_header delay_record_checks records) ≡ None
        → All (λ row. 1 ≤ row.delay) (table_rows delay_row_of records) }
    ensures delay { (netlist : Netlist) (rows : List DelayRow) (net pin : ℕ) → All (λ row. 1 ≤ row.delay) rows
        → delay_by netlist rows net pin
        ≡ unwrap_or (option_or (delay_in (is_of_pin netlist net pin) rows)
        (option_or (delay_in (is_of_net netlist net) rows)
        (delay_in (is_of_kind (driver_cell (driver_of netlist net))) rows))) 1 }
{}

/// Each period of a table that was read is at least one tick, and so is that of a common clock that passed its check.
/// Then the bound in the definition of a clock changes nothing.
pub fn read_periods_are_positive()
    ensures rows { (records : List (List (List ℕ)))
        → first_fault (table_checks clock_header clock_record_checks records) ≡ None
        → All (λ row. 1 ≤ row.period) (table_rows clock_row_of records) }
    ensures row { (row : ClockRow) → 1 ≤ row.period
        → clock_of_row row ≡ record { first = row.first; period = row.period } }
    ensures checked { (clock : Clock) → is_bad_clock (Some clock) ≡ false → 1 ≤ clock.period }
    ensures common { (clock : Clock) → 1 ≤ clock.period → common_clock (Some clock) ≡ clock }
{}
