// The toggle as a typed program: each fact is the contract of a function that does nothing.
ghost use Rattle.std.specs.Prelude.{◌≡◌, []};
ghost use Rattle.rw_core.specs.Systems.{leaf};
ghost use Rattle.specialise_rules.specs.Instances.{first_instances, next_instance};
ghost use Rattle.specialise_rules.specs.Tables.{IsTableOf};
ghost use Rattle.inline_ho_rules.specs.TypedPrograms.{IsFlatOf};
ghost use Rattle.rw_guard_rules.specs.Rules.{IsMustSignal, IsWeighed};
ghost use Rattle.flat_worked.specs.TypedToggle.{depths, functions, instances, signalling, table, typed, weights, world};

/// Its instances are `start`, `device` and `flip`, in this order, and there is no other one.
pub fn instances_are_listed()
    ensures listed { first_instances typed 5 ≡ instances }
    ensures all { next_instance typed instances ≡ [] }
{}

/// Their closed data types are that of bits and the unit type, in this order.
pub fn data_types_are_listed()
    ensures { IsTableOf world typed instances table }
{}

/// Its flat program has three functions, and its system is the first of them.
pub fn the_toggle_flattens()
    ensures { IsFlatOf world typed instances table functions (leaf 0) }
{}

/// `start` and `device` must signal and `flip` doesn't; they weigh 10, 8 and 6, and are 5, 4 and 2 deep.
pub fn the_toggle_is_weighed()
    ensures signalling { IsMustSignal functions signalling }
    ensures weighed { IsWeighed functions signalling weights depths }
{}
