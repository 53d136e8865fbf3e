//! What holds of every tree.
ghost use Rattle.std.specs.Prelude.{◌≡◌, ◌+◌, ◌≤◌, ℕ, [], length};
ghost use Rattle.csdn_core.specs.declared.terms.FormulaPlace.{FormulaPlace};
ghost use Rattle.csdn_core.specs.Sorted.{Signature, IsAllowed, most_variables, bound_in};
ghost use Rattle.csdn_core.specs.SortedIn.{Scope as SortedScope, IsSortedIn};
ghost use Rattle.csdn_core.specs.Depth.{depth, command_depth};
ghost use Rattle.csdn_tree.specs.declared.syntax.RawFormula.{RawFormula};
ghost use Rattle.csdn_types.specs.Scope.{Scope};
ghost use Rattle.csdn_types.specs.Typed.{typed};
ghost use Rattle.csdn_tree.specs.Binders.{binders};
ghost use Rattle.csdn_types.specs.Faults.{faults};
ghost use Rattle.csdn_types.specs.Signed.{IsPart, IsScopeOf, FormulaNumerals, CommandNumerals, counted, seen};
ghost use Rattle.csdn_core.specs.WellSorted.{IsCommand, IsHandler, command_bound_in};
ghost use Rattle.csdn_tree.specs.declared.syntax.RawCommand.{RawCommand};
ghost use Rattle.csdn_types.specs.declared.own.OwnTerms.{OwnTerms};
ghost use Rattle.csdn_types.specs.Commands.{command_faults, command_typed};
ghost use Rattle.csdn_tree.specs.Binders.{command_binders};

/// A formula that breaks no rule is well-sorted, and with those that it binds no variable too many is in scope.
pub fn typed_formulas_are_sorted()
    ensures { (S : Signature) (place : FormulaPlace) (s : Scope) (scope : SortedScope) (p : RawFormula) → IsPart s S → IsScopeOf s scope → FormulaNumerals S p → faults place s p ≡ [] → IsSortedIn S (IsAllowed S place) scope (typed s p) × (length s.variables + depth (typed s p) ≤ most_variables) }
{}

/// The bound variables of a typed formula have the next numbers, each its own.
pub fn bound_variables_are_numbered_apart()
    ensures { (s : Scope) (p : RawFormula) → bound_in (typed s p) ≡ counted s.next (binders p) }
{}

/// A command that breaks no rule is well-sorted, and with those that it binds no variable too many is in scope.
pub fn typed_commands_are_sorted()
    ensures { (S : Signature) (own : OwnTerms) (s : Scope) (scope : SortedScope) (x : RawCommand) → IsPart s S → IsScopeOf s scope → CommandNumerals S x → command_faults own s x ≡ [] → IsCommand S (seen own) scope (command_typed s x) × (length s.variables + command_depth (command_typed s x) ≤ most_variables) }
{}

/// The bound variables of a typed command have the next numbers, each its own.
pub fn command_variables_are_numbered_apart()
    ensures { (s : Scope) (x : RawCommand) → command_bound_in (command_typed s x) ≡ counted s.next (command_binders x) }
{}

/// A handler that breaks no rule is well-sorted.
pub fn typed_handlers_are_sorted()
    ensures { (S : Signature) (s : Scope) (count : ℕ) (h : RawHandler) → s.variables ≡ [] → IsPart s S → CommandNumerals S h.body → handler_faults s count h ≡ [] → IsHandler S (handler_of s h) }
{}

/// The parts of a program that keeps every rule are well-sorted.
pub fn parts_are_well_sorted()
    ensures { (raw : RawProgram) → IsFromText raw → broken_rules raw ≡ [] → IsWellSorted (parts_of raw) }
{}

ghost use Rattle.csdn_core.specs.WellSorted.{IsWellSorted};
ghost use Rattle.csdn_tree.specs.FromText.{IsFromText};
ghost use Rattle.csdn_tree.specs.declared.syntax.RawProgram.{RawProgram};
ghost use Rattle.csdn_types.specs.Resolved.{broken_rules, parts_of};
ghost use Rattle.csdn_tree.specs.declared.syntax.RawHandler.{RawHandler};
ghost use Rattle.csdn_types.specs.Items.{handler_faults, handler_of};
