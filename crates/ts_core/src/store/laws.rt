//! Laws of the definitions: transitions of a store and the histories that it represents, and texts of settings.
ghost use Rattle.ts_core.specs.facts.Durations.{DurationsAddUp};
ghost use Rattle.ts_core.specs.settings.SettingsWritten.{SettingsReadBack};
ghost use Rattle.ts_core.specs.moves.StoreLaws.{NewStands, RunBegins, StepMoves, CellsGo, RunEnds, Grows, LinePut, AllShow, LivesKept, LiveWays, LeftFalls};
ghost use Rattle.ts_core.specs.moves.RuleMoves.{RuleAdded, RuleDropped, RulesKeep, SettingsStayFaultless, StartsAtFirst, LowsAre, LowsAreNear, IndicesFit};

/// Does nothing: its contract has the laws of a store's transitions, for every history and any number of rules.
pub fn store_moves()
    ensures new { NewStands }
    ensures begins { RunBegins }
    ensures steps { StepMoves }
    ensures expires { CellsGo }
    ensures ends { RunEnds }
    ensures grows { Grows }
    ensures line { LinePut }
    ensures shows { AllShow }
    ensures lives { LivesKept }
    ensures ways { LiveWays }
    ensures left { LeftFalls }
{}

/// Does nothing: its contract has the laws of texts of settings.
pub fn settings_texts()
    ensures durations { DurationsAddUp }
    ensures read_back { SettingsReadBack }
{}

/// Does nothing: its contract has the laws of rules that are added and dropped.
pub fn rule_moves()
    ensures added { RuleAdded }
    ensures dropped { RuleDropped }
    ensures keep { RulesKeep }
    ensures faultless { SettingsStayFaultless }
    ensures starts { StartsAtFirst }
    ensures lows { LowsAre }
    ensures near { LowsAreNear }
    ensures fit { IndicesFit }
{}
