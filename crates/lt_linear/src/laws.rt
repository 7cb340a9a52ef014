//! Laws of the definitions that the contracts cite. The functions do nothing: their contracts say it.

ghost use Rattle.lt_linear.specs.FormText.{TextsSpellOne};
ghost use Rattle.lt_linear.specs.FormValue.{IntsCompareExactly, RealsCompareExactly};

/// A comparison of two forms compares with 0 the exact difference of what the forms are at raw numbers, which
/// for ints is multiplied by the scale of reals.
pub fn comparisons_are_exact()
    ensures reals { RealsCompareExactly }
    ensures ints { IntsCompareExactly }
{}

/// A text spells at most one form.
pub fn texts_spell_one()
    ensures { TextsSpellOne }
{}
