//! Laws over the definitions, functions with nothing to do, whose contracts they are.
ghost use Rattle.std.specs.Prelude.{ℕ, ◌+◌, ◌≡◌, true, List, [], Some, slice_get};
ghost use Rattle.campl_tree.specs.Plain.Decl.{Program};
ghost use Rattle.campl_tree.specs.Plain.Expr.{Exprs};
ghost use Rattle.campl_types.specs.Matching.{Bindings};
ghost use Rattle.campl_types.specs.Forms.{Form};
ghost use Rattle.campl_types.specs.Typed.{IsTyped};
ghost use Rattle.campl_types.specs.World.{World, world_of};
ghost use Rattle.campl_value.specs.Tree.{Tree};
ghost use Rattle.campl_evaluation.specs.Evaluation.{Answer, values_of};
ghost use Rattle.campl_code.specs.Compiled.{decision_for};
ghost use Rattle.campl_code.specs.Decisions.{StandsForRows};
ghost use Rattle.campl_code.specs.Forward.{AllAhead};
ghost use Rattle.campl_code.specs.Generated.{functions_code};
ghost use Rattle.campl_code.specs.Instructions as i;
ghost use Rattle.campl_code.specs.Instructions.{Instr, Block, Code, blocks};
ghost use Rattle.campl_code.specs.Frames.{Frame, frame_at, frame_size};
ghost use Rattle.campl_code.specs.Runs.{Follows, IsOver, Pauses, Says, run};
ghost use Rattle.campl_code.specs.Machine.{Enters, entry, fetch, is_command, is_return, popped, step};
ghost use Rattle.campl_code.specs.Numbers.{Numbers, Framed};
ghost use Rattle.campl_code.specs.Stands.{all_stand, FunctionsStand};

/// Where code stands for a command's expressions and a process's instruction comes behind, the machine ends from
/// their place as their evaluation does, whatever calls it is given.
pub fn law_evaluation()
    ensures { (w : World) (code : Code) → FunctionsStand w code
        → (all : Exprs) (n : ℕ) (b : Block) (p q : ℕ) (x : Instr) (numbers : Numbers) (variables : Bindings) (frame : List Tree)
        → slice_get (blocks code) n ≡ Some b → all_stand w code b.code p all numbers q → slice_get b.code q ≡ Some x → is_command x ≡ true
        → Framed (frame_size code.decisions b) numbers variables frame
        → Follows code (frame_at n p frame) [] 0 (values_of w all variables) }
{}

/// Where it pauses because all calls are spent, it goes on so, with the calls that it is given then.
pub fn law_resumed()
    ensures { (code : Code) (f : Frame) (fs : List Frame) (spent : ℕ) (whole : ℕ → Answer (List Tree)) (k m : ℕ) (g : Frame) (gs : List Frame)
        → Follows code f fs spent whole → run code k f fs m ≡ Pauses g gs → Follows code g gs (spent + m) whole }
{}

/// Whenever it is over, its end is that of the evaluation.
pub fn law_settled()
    ensures { (code : Code) (f : Frame) (fs : List Frame) (spent : ℕ) (whole : ℕ → Answer (List Tree)) (k m : ℕ)
        → Follows code f fs spent whole → IsOver (run code k f fs m) → Says (run code k f fs m) (whole (spent + m)) }
{}

/// A call that is directly followed by a return, with nothing more on the stack, leaves no frame behind.
pub fn law_tail()
    ensures { (code : Code) (f : Frame) (fs : List Frame) (g : ℕ) (b : Block) (args : List Tree) → fetch code f ≡ Some (i.Call g) → slice_get code.functions g ≡ Some b
        → popped b.variables [] f.stack ≡ Some (args, []) → is_return (fetch code (record f { at = f.at + 1; stack = [] })) ≡ true
        → step code f fs ≡ Enters (entry code g b args) fs }
{}

/// The decision that is made for rows stands for them: of values of whatever kinds it finds the first row that matches.
pub fn law_decision()
    ensures { (w : World) (n : ℕ) (rows : List (List Form)) → StandsForRows w (decision_for w n rows) rows n }
{}

/// The code that is generated for the functions of a typed source stands for them, and jumps onward alone.
pub fn law_functions_code()
    ensures stands { (source : Program) → IsTyped source → FunctionsStand (world_of source) (functions_code (world_of source)) }
    ensures ahead { (w : World) (n : ℕ) (b : Block) → slice_get (functions_code w).functions n ≡ Some b → AllAhead 0 b.code }
{}
