//! Laws of the definitions that the contracts cite. The functions do nothing: their contracts say it.

ghost use Rattle.lt_diagram.specs.Flags.{SaysHolds};
ghost use Rattle.lt_diagram.specs.Laws.{ConstantsAreNumbers, OnePathAgrees, SayUnlike, PathsDiffer};

/// Truths that begin with fixed ones agree with exactly one of the paths to true within these where they make the choice
/// true, and with none where they don't.
pub fn one_path_agrees()
    ensures { OnePathAgrees }
{}

/// No path to true stands twice among those within fixed truths.
pub fn paths_differ()
    ensures { PathsDiffer }
{}

/// Two numbers of a diagram that say the same under all truths are one number; so what is always true has the number 1, and
/// what is never true the number 0.
pub fn numbers_say_unlike()
    ensures numbers { SayUnlike }
    ensures constants { ConstantsAreNumbers }
{}

/// A formula of flags holds of raw values where it is true with the truths that the flags have there.
pub fn says_holds()
    ensures { SaysHolds }
{}
