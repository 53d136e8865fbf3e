//! What holds of every network and state, as contracts of functions that do nothing.
ghost use Rattle.std.specs.Prelude.{◌≡◌, ◌↔◌, List, None, All};
ghost use Rattle.std.specs.List.Sorted.{IsStrictlySortedBy};
ghost use Rattle.csdn_core.specs.declared.program.Parts.{Parts as AnyParts};
ghost use Rattle.csdn_core.specs.Network.{IsNetwork};
ghost use Rattle.net_structs.specs.declared.read.NetParts.{NetParts as AnyNetParts};
ghost use Rattle.net_structs.specs.declared.row.Row.{Row as AnyRow};
ghost use Rattle.net_structs.specs.Rows.{held, row_cmp};
ghost use Rattle.net_structs.specs.Networks.{IsDeclared, as_listed};
ghost use Rattle.net_structs.specs.Refusals.{first_refusal};

/// Parts whose rows are of declared relations are refused exactly where they are no network of the program.
pub fn networks_are_accepted_exactly()
    ensures { (P : AnyParts) (parts : AnyNetParts) → All (λ row. IsDeclared row.pred) parts.rows → first_refusal P parts ≡ None ↔ IsNetwork P (as_listed parts) }
{}

/// A state has at most one list of rows that rises: so what is printed of a state is fixed by the state.
pub fn states_have_one_list()
    ensures { (xs ys : List AnyRow) → IsStrictlySortedBy row_cmp xs → IsStrictlySortedBy row_cmp ys → held xs ≡ held ys → xs ≡ ys }
{}
