//! The temporary cells of a cover's cuts.
//!
//! Promise: `cells` gives as many cells as the cover has cuts, 0, 1 and so on in the order of their
//! evaluation (`numbered`), and these are the cells that the steps of an orderly cover fill, in
//! this order (`filled`). `law_of_cells`: the steps fill as many cells as there are cuts (`many`),
//! all below this count (`below`) and none twice (`once`).
//!
//! Files:
//!
//! - `cut_cells`: `Cells`, the list that is answered.
//! - `numbering`: the cells, added one by one.
//! - `laws`: `law_of_cells`.
//! - `specs/`: `Filled`, cited by public contracts: the steps of `form_model/specs/Steps` with the
//!   cell of each cut in place of its steps.
//! - `proofs/`: `InOrder` carries both.
//!
//! Only `row_texts` calls it; `emit_seq` gives cells as it goes.
#![tactic(auto)]

mod cut_cells;
mod laws;
mod numbering;

pub use cut_cells::Cells;
pub use laws::law_of_cells;
pub use numbering::cells;
