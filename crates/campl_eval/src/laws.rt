//! What a turn says of the source's evaluation.
ghost use Rattle.std.specs.Prelude.{ℕ, ◌+◌, List};
ghost use Rattle.campl_value.specs.Tree.{Tree};
ghost use Rattle.campl_evaluation.specs.Evaluation.{Answer};
ghost use Rattle.campl_code.specs.Instructions.{Code};
ghost use Rattle.campl_code.specs.Frames.{Frame};
ghost use Rattle.campl_code.specs.Runs.{Follows};
ghost use Rattle.campl_eval.specs.Turn.{Answers, Speaks};
ghost use Rattle.campl_eval.specs.declared.eval.Turn.{Turn};

/// Where the machine follows an evaluation, each turn says what the evaluation gives for all calls so far, and after `More` the
/// machine still follows it.
pub fn law_turn()
    ensures { (code : Code) (f : Frame) (fs : List Frame) (before calls : ℕ) (whole : ℕ → Answer (List Tree)) (turn : Turn) (g : Frame) (gs : List Frame) (spent : ℕ)
        → Follows code f fs before whole → Answers code f fs calls (before + calls) turn g gs spent → Speaks code whole (before + calls) turn g gs }
{}
