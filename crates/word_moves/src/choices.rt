// The net whose value a case or a bus takes.

ghost use Rattle.std.specs.Prelude.{◌≡◌, slice_index};
ghost use Rattle.word_moves.specs.Inner.Choices.{case_target, driver_target};

use cycle_sim::value_at;

// The net of the row with this number, or the rest.
pub(crate) fn target_of(key: u64, rows: &[(u64, u32)], rest: Option<u32>) -> Option<u32>
    ensures { result ≡ case_target key rows.now rest }
{
    for row in rows {
        if row.0 == key {
            return Some(row.1);
        }
    }
    rest
}

// The net of the first driver whose enable is 1.
pub(crate) fn driver_of(values: &[u64], drivers: &[(u32, u32)]) -> Option<u32>
    ensures { result ≡ driver_target (slice_index values.now) drivers.now }
{
    for driver in drivers {
        if value_at(values, driver.1) == 1 {
            return Some(driver.0);
        }
    }
    None
}
