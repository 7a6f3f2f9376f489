//! What holds of all scripts and plans, as calls that do nothing.

ghost use Rattle.std.specs.Prelude.{ℕ, ◌≤◌, ◌<◌, ◌^◌, List, length};
ghost use Rattle.std.specs.List.{AllByRecursion, range_with_len};
ghost use Rattle.msg_wire.specs.Valid.{IsValidConfig, IsValidPlan};
ghost use Rattle.msg_wire.specs.Inputs.{IsInputOf};
ghost use Rattle.script_text.specs.Names.{Config, Input, Plan};
ghost use Rattle.script_text.specs.Scripts.{SpellsScript, IsSpellable};
ghost use Rattle.script_text.specs.Plans.{SpellsPlan};
ghost use Rattle.script_text.specs.Generated.{generated_plan, generated};

/// Each cluster and inputs of it have a text, where bodies are printable and numbers have at most 18 digits: one that
/// passes over no line, so that the inputs stand on the lines from 7 on.
pub fn each_script_has_a_text()
    ensures { (c : Config) (xs : List Input) → IsValidConfig c → AllByRecursion (IsInputOf c) xs → AllByRecursion IsSpellable xs → (text : List ℕ) × SpellsScript text c xs (range_with_len 7 (length xs)) }
{}

/// Each valid plan has a text, where its seed has at most 32 bits.
pub fn each_plan_has_a_text()
    ensures { (p : Plan) → IsValidPlan p → p.seed < 2 ^ 32 → (text : List ℕ) × SpellsPlan text p }
{}

/// What [`generate`](crate::generate) gives, the text `generated_plan`, spells the plan `generated` of the same seed and size, and is
/// short enough to be read: by the clause `only` of [`read_plan`](crate::read_plan), that plan is read, unless memory runs out.
pub fn generated_plans_are_read()
    ensures spelled { (seed size : ℕ) → seed < 2 ^ 32 → SpellsPlan (generated_plan seed size) (generated seed size) }
    ensures short { (seed size : ℕ) → seed < 2 ^ 32 → size ≤ 2000 → length (generated_plan seed size) ≤ 16777216 }
{}
