//! A law of rules that are functions, as the contract of a function with nothing to do.

ghost use Rattle.std.specs.Prelude.{◌≡◌, ◌↔◌, ◌++◌, ℕ, List, Bool, false};
ghost use Rattle.ovs_script.specs.Rules.{Says};
ghost use Rattle.ovs_script.specs.Texts.{Texts, IsOutput, IsOutputSoFar, MayHearSecond};
ghost use Rattle.ovs_script.specs.Functions.{Functions, rules_of, answers_from, state_from, second_state, script_output, is_content_with};

/// Where the rules of a script are functions of its state, they have one run over the texts: what is said to lines and
/// the state after them, the whole output and whether the script is content are those that the functions give, what is
/// said to some first lines begins the output, and a second text is heard where the functions say so.
pub fn functions_have_one_run<S>()
    ensures lines { (f : Functions S) (s t : S) (n : ℕ) (lines : List (List ℕ)) (said : List ℕ)
        → Says (rules_of f) s n lines said t ↔ ((said ≡ answers_from f s n lines) × (t ≡ state_from f s n lines)) }
    ensures output { (f : Functions S) (s : S) (t : Texts) (output : List ℕ) (is_content : Bool)
        → IsOutput (rules_of f) s t output is_content ↔ ((output ≡ script_output f s t) × (is_content ≡ is_content_with f s t)) }
    ensures begun { (f : Functions S) (s : S) (t : Texts) (output : List ℕ)
        → IsOutputSoFar (rules_of f) s t output → (others : List ℕ) × (script_output f s t ≡ output ++ others) }
    ensures second { (f : Functions S) (s : S) (input : List ℕ)
        → MayHearSecond (rules_of f) s input ↔ (f.is_over (second_state f s input) ≡ false) }
{}
