//! What a diagram says.

ghost use Rattle.std.specs.Prelude.{◌≡◌, length};
ghost use Rattle.lt_diagram.specs.Choice.{truth_of, truths};
ghost use Rattle.lt_diagram.specs.DiagramView.{NamesBelow, diagram_choice};

use crate::diagram::Diagram;

/// What a diagram says where the flags have these truths: that of flag 0 first. There must be one for each flag that the
/// diagram names; further ones count for nothing.
pub fn value_at(diagram: &Diagram, atoms: &[bool]) -> bool
    requires { NamesBelow (length atoms.now) diagram.now }
    ensures { result ≡ truth_of (truths atoms.now) (diagram_choice diagram.now) }
{
    let mut number = diagram.root();
    while let Some(branch) = diagram.branch(number) {
        number = if atoms[branch.atom as usize] {
            branch.yes
        } else {
            branch.no
        };
    }
    number == 1
}
