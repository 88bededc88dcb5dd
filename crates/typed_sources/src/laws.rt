//! The laws of typed sources, functions with nothing to do, whose contracts they are.
ghost use Rattle.campl_types.specs.Typed.{IsTyped};
ghost use Rattle.typed_sources.specs.Bank.{bank};
ghost use Rattle.typed_sources.specs.ChainOfStages.{chain_of_stages};
ghost use Rattle.typed_sources.specs.EndsTravel.{ends_travel};
ghost use Rattle.typed_sources.specs.FillsAText.{fills_a_text};
ghost use Rattle.typed_sources.specs.FirstOfNone.{first_of_none};
ghost use Rattle.typed_sources.specs.FirstOfTexts.{first_of_texts};
ghost use Rattle.typed_sources.specs.FirstRowWins.{first_row_wins};
ghost use Rattle.typed_sources.specs.GivesABox.{gives_a_box};
ghost use Rattle.typed_sources.specs.HaltsAtOnce.{halts_at_once};
ghost use Rattle.typed_sources.specs.LeavesAPartApart.{leaves_a_part_apart};
ghost use Rattle.typed_sources.specs.LinksBehindASend.{links_behind_a_send};
ghost use Rattle.typed_sources.specs.LinksThroughNeg.{links_through_neg};
ghost use Rattle.typed_sources.specs.NeverReturns.{never_returns};
ghost use Rattle.typed_sources.specs.PrintsHello.{prints_hello};
ghost use Rattle.typed_sources.specs.RacesADoor.{races_a_door};
ghost use Rattle.typed_sources.specs.RacesTwoTerminals.{races_two_terminals};
ghost use Rattle.typed_sources.specs.ReadsALine.{reads_a_line};
ghost use Rattle.typed_sources.specs.SendsAhead.{sends_ahead};
ghost use Rattle.typed_sources.specs.SharesTwoChannels.{shares_two_channels};
ghost use Rattle.typed_sources.specs.UsesAllCommands.{uses_all_commands};
ghost use Rattle.typed_sources.specs.UsesAllExpressions.{uses_all_expressions};

/// `data/bank.campl` is typed.
pub fn law_bank()
    ensures { IsTyped bank }
{}

/// `data/chain_of_stages.campl` is typed.
pub fn law_chain_of_stages()
    ensures { IsTyped chain_of_stages }
{}

/// `data/ends_travel.campl` is typed.
pub fn law_ends_travel()
    ensures { IsTyped ends_travel }
{}

/// `data/fills_a_text.campl` is typed.
pub fn law_fills_a_text()
    ensures { IsTyped fills_a_text }
{}

/// `data/first_of_none.campl` is typed.
pub fn law_first_of_none()
    ensures { IsTyped first_of_none }
{}

/// `data/first_of_texts.campl` is typed.
pub fn law_first_of_texts()
    ensures { IsTyped first_of_texts }
{}

/// `data/first_row_wins.campl` is typed.
pub fn law_first_row_wins()
    ensures { IsTyped first_row_wins }
{}

/// `data/gives_a_box.campl` is typed.
pub fn law_gives_a_box()
    ensures { IsTyped gives_a_box }
{}

/// `data/halts_at_once.campl` is typed.
pub fn law_halts_at_once()
    ensures { IsTyped halts_at_once }
{}

/// `data/links_behind_a_send.campl` is typed.
pub fn law_links_behind_a_send()
    ensures { IsTyped links_behind_a_send }
{}

/// `data/links_through_neg.campl` is typed.
pub fn law_links_through_neg()
    ensures { IsTyped links_through_neg }
{}

/// `data/never_returns.campl` is typed.
pub fn law_never_returns()
    ensures { IsTyped never_returns }
{}

/// `data/prints_hello.campl` is typed.
pub fn law_prints_hello()
    ensures { IsTyped prints_hello }
{}

/// `data/races_a_door.campl` is typed.
pub fn law_races_a_door()
    ensures { IsTyped races_a_door }
{}

/// `data/races_two_terminals.campl` is typed.
pub fn law_races_two_terminals()
    ensures { IsTyped races_two_terminals }
{}

/// `data/reads_a_line.campl` is typed.
pub fn law_reads_a_line()
    ensures { IsTyped reads_a_line }
{}

/// `data/sends_ahead.campl` is typed.
pub fn law_sends_ahead()
    ensures { IsTyped sends_ahead }
{}

/// `data/uses_all_commands.campl` is typed.
pub fn law_uses_all_commands()
    ensures { IsTyped uses_all_commands }
{}

/// `data/uses_all_expressions.campl` is typed.
pub fn law_uses_all_expressions()
    ensures { IsTyped uses_all_expressions }
{}

/// `data/no_tree/leaves_a_part_apart.campl` is typed, though its plug is no tree.
pub fn law_leaves_a_part_apart()
    ensures { IsTyped leaves_a_part_apart }
{}

/// `data/no_tree/shares_two_channels.campl` is typed, though its plug is no tree.
pub fn law_shares_two_channels()
    ensures { IsTyped shares_two_channels }
{}
