// The symbolic values of all nets under an instruction word, one net after the other.

ghost use Rattle.std.specs.Prelude.{◌≡◌, IfOk, slice_index};
ghost use Rattle.net_model.specs.Symbolic.{no_state, is_static};
ghost use Rattle.net_model.specs.Value.{value_of};
ghost use Rattle.sym_expr.specs.Pools.{Grows};
ghost use Rattle.net_model.specs.Flags.{flag_at};
ghost use Rattle.word_moves.specs.Inner.Ids.{AreIds};

use crate::gates::{AtWord, gate_id};
use cycle_sim::zeros;
use net_model::Checked;
use rec_bits::{Items, NoMemory};
use std::alloc::Global;
use sym_expr::{ExprId, Pool};

// The id of each net's symbolic value under the instruction word.
pub(crate) fn ids_of(
    alloc: Global,
    checked: &Checked,
    pool: &mut Pool,
    at: &AtWord<'_>,
) -> Result<Items<ExprId>, NoMemory>
    requires values { slice_index at.now.values.now ≡ value_of checked.now.netlist no_state at.now.word }
    requires statics { flag_at at.now.statics.now ≡ is_static checked.now.netlist }
    ensures grows { Grows pool.old pool.new }
    ensures ids { IfOk result (λ ids. AreIds checked.now.netlist at.now.word pool.new ids) }
{
    let netlist = checked.netlist();
    let nets = netlist.nets.as_slice();
    let order = checked.order().as_slice();
    let mut ids = zeros(alloc, nets.len())?;
    for id in order {
        let place = *id as usize;
        let current = ids.as_slice();
        let found = gate_id(alloc, netlist, pool, current, at, &nets[place])?;
        ids.set(place, found);
    }
    Ok(ids)
}
