// What each operation does, as theorems over whole numbers.
#![tactic(auto)]

ghost use Rattle.effects.specs.Effects.{SignedEffects};
ghost use Rattle.effects.specs.Whole.{RepresentedOnce, SignedWord};

/// A theorem: each operation's effect, in signed terms; and that a whole number has one word, which shows its signed value.
pub fn signed_effects()
    ensures effects { SignedEffects }
    ensures once { RepresentedOnce }
    ensures signed { SignedWord }
{}
