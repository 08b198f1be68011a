//! The tests that decide which row of a case, or which driver of a bus, a word takes.

ghost use Rattle.std.specs.Prelude.{◌≡◌, ℕ, ◌^◌, ◌<◌, ◌≤◌, length, IfOk};
ghost use Rattle.std.specs.List.{AllByRecursion};
ghost use Rattle.bit_bdd.specs.Diagrams.{Extends};
ghost use Rattle.ctl_bdd.specs.Bits.{AreSets, number_at};
ghost use Rattle.route_trace.specs.Inner.Gates.{DriverTests, RowTests};
ghost use Rattle.route_trace.specs.Inner.Routing.{AllTests};
ghost use Rattle.route_trace.specs.Inner.Tests.{sets_in};

use bit_bdd::{Book, SetId};
use ctl_bdd::{ControlBits, equals};
use rec_bits::{Items, NoMemory};
use std::alloc::Global;

// The sets of the bits of a net, and none where the net isn't a static one in a control place.
pub(crate) fn sets_of(controls: &ControlBits, net: u32) -> &[SetId]
    ensures { result.now ≡ sets_in controls.now.bits net }
{
    for entry in controls.bits.as_slice() {
        if entry.0 == net {
            return entry.1.as_slice();
        }
    }
    &[]
}

// The test of each row of a case: the words under which the selector of these bits has the row's
// number.
pub(crate) fn row_tests(
    alloc: Global,
    book: &mut Book,
    bits: &[SetId],
    rows: &[(u64, u32)],
) -> Result<Items<(SetId, u32)>, NoMemory>
    requires bits { AreSets book.old bits.now }
    requires few { length bits.now ≤ 64 }
    requires keys { AllByRecursion (λ row. row.0 < 2 ^ length bits.now) rows.now }
    ensures book { Extends book.old book.new }
    ensures sets { IfOk result (AllTests book.new) }
    ensures tests { IfOk result (λ tests.
        (word : ℕ) → RowTests book.new word (number_at book.old bits.now word) tests rows.now) }
{
    let mut tests = Items::new(alloc);
    for row in rows {
        let set = equals(alloc, book, bits, row.0)?;
        tests.push((set, row.1))?;
    }
    Ok(tests)
}

// The test of each driver of a bus: the words under which it is enabled.
pub(crate) fn driver_tests(
    alloc: Global,
    book: &Book,
    controls: &ControlBits,
    drivers: &[(u32, u32)],
) -> Result<Items<(SetId, u32)>, NoMemory>
    requires sets { AllByRecursion (λ driver. AreSets book.now (sets_in controls.now.bits driver.1)) drivers.now }
    requires one { AllByRecursion (λ driver. length (sets_in controls.now.bits driver.1) ≡ 1) drivers.now }
    ensures sets { IfOk result (AllTests book.now) }
    ensures tests { IfOk result (λ tests. (word : ℕ) →
        DriverTests book.now word (λ n. number_at book.now (sets_in controls.now.bits n) word) tests drivers.now) }
{
    let mut tests = Items::new(alloc);
    for driver in drivers {
        let enable = sets_of(controls, driver.1)[0];
        tests.push((enable, driver.0))?;
    }
    Ok(tests)
}
