//! Laws of images that follow programs.

ghost use Rattle.std.specs.Prelude.{ℕ, ◌≡◌, ◌≢◌, ◌≤◌, ◌<◌, ◌^◌, ◌↔◌, true, List, [], Some};
ghost use Rattle.net_model.specs.declared.hardware.Netlist.{Netlist};
ghost use Rattle.src_model.specs.declared.program.Var.{Var as Declared};
ghost use Rattle.src_model.specs.Names.{declared, is_plain};
ghost use Rattle.src_model.specs.Written.{ProgramModel};
ghost use Rattle.code_model.specs.declared.views.Viewed.{Viewed};
ghost use Rattle.form_model.specs.declared.flow.Flow.{Flow};
ghost use Rattle.src_trees.specs.Held.{HoldsVars};
ghost use Rattle.src_trees.specs.Lowered.{JobModel, MemoryMap, base_of};
ghost use Rattle.follow.specs.Checked.{PassesCheck};
ghost use Rattle.follow.specs.Paths.{Path, path_from};
ghost use Rattle.follow.specs.Relations.{Relation};
ghost use Rattle.follow.specs.RightByViews.{IsRightAsSeen, IsRightByViews};
ghost use Rattle.follow.specs.Safe.{IsElement};

/// An image that passes the check, by whatever relations, is right code for the program, each
/// variable seen through its view or in its place where it isn't hidden.
pub fn law_of_followed()
    ensures { (netlist : Netlist) (width : ℕ) (l : ProgramModel) (viewed : Viewed) (relation : ℕ → Relation) →
        PassesCheck netlist width l viewed relation → IsRightByViews netlist width l viewed }
{}

/// From a place of a flow there is one path, however many places it may have.
pub fn law_of_paths()
    ensures { (flow : List Flow) (jobs : List JobModel) (n k at : ℕ) (path other : Path) →
        path_from flow jobs n at ≡ Some path → path_from flow jobs k at ≡ Some other → path ≡ other }
{}

/// Where nothing is hidden, an image is right code by views just where every variable is seen at
/// every mark as the program has it.
pub fn law_of_none_hidden()
    ensures { (netlist : Netlist) (width : ℕ) (l : ProgramModel) (viewed : Viewed) → viewed.hidden ≡ [] →
        (IsRightByViews netlist width l viewed ↔ IsRightAsSeen netlist width l viewed) }
{}

/// An element of an array lies behind the temporary cells, in reach of an address, and is neither
/// the cell of a plain variable nor an element of another array.
pub fn law_of_elements()
    ensures within { (m : MemoryMap) (temps : ℕ) (vars : List Declared) → HoldsVars temps vars m →
        (base address : ℕ) → IsElement m vars base address → (temps ≤ address) × (address < 2 ^ m.addr) }
    ensures plain { (m : MemoryMap) (temps : ℕ) (vars : List Declared) → HoldsVars temps vars m →
        (base address : ℕ) (name : List ℕ) → IsElement m vars base address →
        is_plain (declared vars name) ≡ true → address ≢ base_of m.places name }
    ensures other { (m : MemoryMap) (temps : ℕ) (vars : List Declared) → HoldsVars temps vars m →
        (base address other place : ℕ) → IsElement m vars base address → IsElement m vars other place →
        base ≢ other → address ≢ place }
{}
