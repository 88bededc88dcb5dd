//! A small grammar as an example: programs of sums in braces.
ghost use Rattle.std.specs.Prelude.{ℕ};
ghost use Rattle.campl_gram.specs.Example as example;

use crate::laws::{
    Grammar, fault_is_at_a_token, name_is_read_as_its_rule, one_tree, proper_front_is_open,
    reading_is_exact,
};

/// Programs as `{ 1 + (2 + 3), 4 }`.
struct Sums;

impl Grammar for Sums {
    ghost Token = { example.Token };

    ghost Kind = { example.Kind };

    ghost Place = { ℕ };

    ghost terminals = { example.terminals };

    ghost same = { example.same };

    ghost distinct = { example.distinct_kinds };

    ghost Name = { example.Name };

    ghost Value = { example.Value };

    ghost rule = { example.rule };

    ghost tables = { example.tables };

    ghost passes = { example.passes };
}

/// Each law at the sums, so there is a grammar of which it speaks.
pub fn laws_of_sums() {
    one_tree::<Sums>();
    reading_is_exact::<Sums>();
    name_is_read_as_its_rule::<Sums>();
    proper_front_is_open::<Sums>();
    fault_is_at_a_token::<Sums>();
}
