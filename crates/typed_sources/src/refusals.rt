//! The laws of refused sources, functions with nothing to do, whose contracts they are.
ghost use Rattle.std.specs.Prelude.{codes};
ghost use Rattle.campl_seqcheck.specs.Judged.{Is, Fails, fine};
ghost use Rattle.campl_seqcheck.specs.declared.fault.SeqFault.TheVariants.{TypeDiffers, NeedsType, NotExhaustive, ArgumentCount, NameTwiceInPattern};
ghost use Rattle.typed_sources.specs.IllTyped.{IsIllTyped};
ghost use Rattle.typed_sources.specs.Trees.{place};
ghost use Rattle.typed_sources.specs.CallsWithoutAnArgument.{calls_without_an_argument};
ghost use Rattle.typed_sources.specs.ComparesPairs.{compares_pairs};
ghost use Rattle.typed_sources.specs.FirstOfANumber.{first_of_a_number};
ghost use Rattle.typed_sources.specs.ForksToAHeldName.{forks_to_a_held_name};
ghost use Rattle.typed_sources.specs.HaltsAClosedChannel.{halts_a_closed_channel};
ghost use Rattle.typed_sources.specs.HandsOverAnOutput.{hands_over_an_output};
ghost use Rattle.typed_sources.specs.HasAPatternTooMany.{has_a_pattern_too_many};
ghost use Rattle.typed_sources.specs.HasARowTwice.{has_a_row_twice};
ghost use Rattle.typed_sources.specs.LeavesAChannel.{leaves_a_channel};
ghost use Rattle.typed_sources.specs.LinksTwoInputs.{links_two_inputs};
ghost use Rattle.typed_sources.specs.MissesAColour.{misses_a_colour};
ghost use Rattle.typed_sources.specs.MissesAConstructor.{misses_a_constructor};
ghost use Rattle.typed_sources.specs.NamesAVariableTwice.{names_a_variable_twice};
ghost use Rattle.typed_sources.specs.PlugsOnePart.{plugs_one_part};
ghost use Rattle.typed_sources.specs.PutsAtAGet.{puts_at_a_get};
ghost use Rattle.typed_sources.specs.RacesAtAPick.{races_at_a_pick};
ghost use Rattle.typed_sources.specs.SizesNothing.{sizes_nothing};
ghost use Rattle.typed_sources.specs.UsesALinkThrice.{uses_a_link_thrice};

/// `data/refused/calls_without_an_argument.campl` is ill-typed: E33 ArgumentCount at 4:8: found 1, wanted 2.
pub fn law_calls_without_an_argument_is_refused()
    ensures { IsIllTyped calls_without_an_argument (Fails (ArgumentCount (place 4 8) 1 2)) }
{}

/// `data/refused/compares_pairs.campl` is ill-typed: E30 TypeDiffers at 2:10: found (Int, Int), wanted Int, Char, Bool or [Char].
pub fn law_compares_pairs_is_refused()
    ensures { IsIllTyped compares_pairs (Fails (TypeDiffers (place 2 10) (codes "(Int, Int)") (codes "Int, Char, Bool or [Char]"))) }
{}

/// `data/refused/first_of_a_number.campl` is ill-typed: its functions are fine, and its processes aren't.
pub fn law_first_of_a_number_is_refused()
    ensures { IsIllTyped first_of_a_number (Is fine) }
{}

/// `data/refused/forks_to_a_held_name.campl` is ill-typed: its functions are fine, and its processes aren't.
pub fn law_forks_to_a_held_name_is_refused()
    ensures { IsIllTyped forks_to_a_held_name (Is fine) }
{}

/// `data/refused/halts_a_closed_channel.campl` is ill-typed: its functions are fine, and its processes aren't.
pub fn law_halts_a_closed_channel_is_refused()
    ensures { IsIllTyped halts_a_closed_channel (Is fine) }
{}

/// `data/refused/hands_over_an_output.campl` is ill-typed: its functions are fine, and its processes aren't.
pub fn law_hands_over_an_output_is_refused()
    ensures { IsIllTyped hands_over_an_output (Is fine) }
{}

/// `data/refused/has_a_pattern_too_many.campl` is ill-typed: E33 ArgumentCount at 2:5: found 2, wanted 1.
pub fn law_has_a_pattern_too_many_is_refused()
    ensures { IsIllTyped has_a_pattern_too_many (Fails (ArgumentCount (place 2 5) 2 1)) }
{}

/// `data/refused/has_a_row_twice.campl` is ill-typed: its functions are fine, and its processes aren't.
pub fn law_has_a_row_twice_is_refused()
    ensures { IsIllTyped has_a_row_twice (Is fine) }
{}

/// `data/refused/leaves_a_channel.campl` is ill-typed: its functions are fine, and its processes aren't.
pub fn law_leaves_a_channel_is_refused()
    ensures { IsIllTyped leaves_a_channel (Is fine) }
{}

/// `data/refused/links_two_inputs.campl` is ill-typed: its functions are fine, and its processes aren't.
pub fn law_links_two_inputs_is_refused()
    ensures { IsIllTyped links_two_inputs (Is fine) }
{}

/// `data/refused/misses_a_colour.campl` is ill-typed: E32 NotExhaustive at 5:1: missing Green.
pub fn law_misses_a_colour_is_refused()
    ensures { IsIllTyped misses_a_colour (Fails (NotExhaustive (place 5 1) (codes "Green"))) }
{}

/// `data/refused/misses_a_constructor.campl` is ill-typed: its functions are fine, and its processes aren't.
pub fn law_misses_a_constructor_is_refused()
    ensures { IsIllTyped misses_a_constructor (Is fine) }
{}

/// `data/refused/names_a_variable_twice.campl` is ill-typed: E34 NameTwiceInPattern at 2:8: name x.
pub fn law_names_a_variable_twice_is_refused()
    ensures { IsIllTyped names_a_variable_twice (Fails (NameTwiceInPattern (place 2 8) (codes "x"))) }
{}

/// `data/refused/plugs_one_part.campl` is ill-typed: its functions are fine, and its processes aren't.
pub fn law_plugs_one_part_is_refused()
    ensures { IsIllTyped plugs_one_part (Is fine) }
{}

/// `data/refused/puts_at_a_get.campl` is ill-typed: its functions are fine, and its processes aren't.
pub fn law_puts_at_a_get_is_refused()
    ensures { IsIllTyped puts_at_a_get (Is fine) }
{}

/// `data/refused/races_at_a_pick.campl` is ill-typed: its functions are fine, and its processes aren't.
pub fn law_races_at_a_pick_is_refused()
    ensures { IsIllTyped races_at_a_pick (Is fine) }
{}

/// `data/refused/sizes_nothing.campl` is ill-typed: E31 NeedsType at 25:13.
pub fn law_sizes_nothing_is_refused()
    ensures { IsIllTyped sizes_nothing (Fails (NeedsType (place 25 13))) }
{}

/// `data/refused/uses_a_link_thrice.campl` is ill-typed: its functions are fine, and its processes aren't.
pub fn law_uses_a_link_thrice_is_refused()
    ensures { IsIllTyped uses_a_link_thrice (Is fine) }
{}
