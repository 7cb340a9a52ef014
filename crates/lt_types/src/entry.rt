//! What names stand for.

ghost use Rattle.std.specs.Prelude.{◌≡◌};
ghost use Rattle.lt_types.specs.Environment.{group_entry};
ghost use Rattle.lt_types.specs.Refusals.{entry_type};
ghost use Rattle.lt_types.specs.inner.Scoping.{entry_view, role_view};

use lt_ast::TypeName;

// A parameter of a macro.
#[derive(Clone, Copy)]
pub(crate) struct Param {
    // The type of what it stands for.
    pub(crate) kind: TypeName,

    // Whether it stands for a variable.
    pub(crate) by_ref: bool,
}

// What a name stands for.
#[derive(Drop)]
pub(crate) enum Entry {
    // A variable, or a parameter by `ref`.
    Variable(TypeName),

    // Any other parameter.
    Parameter(TypeName),

    // A macro, with its parameters and its type.
    Macro(Vec<Param>, TypeName),
}

// What a list of groups declares.
#[derive(Clone, Copy)]
pub(crate) enum Role {
    // The inputs of a node.
    Inputs,

    // The outputs of a node, or variables of a trace.
    Variables,

    // Parameters of a macro.
    Parameters,
}

impl Entry {
    // What the names of a group stand for.
    pub(crate) fn of_group(role: Role, kind: TypeName, by_ref: bool) -> Entry
        ensures { entry_view result ≡ group_entry (role_view role) kind by_ref }
    {
        match role {
            Role::Parameters if !by_ref => Entry::Parameter(kind),
            Role::Inputs | Role::Variables | Role::Parameters => Entry::Variable(kind),
        }
    }

    // The type of what the name stands for.
    pub(crate) fn kind(&self) -> TypeName
        ensures { result ≡ entry_type (entry_view self.now) }
    {
        match self {
            Entry::Variable(kind) => *kind,
            Entry::Parameter(kind) => *kind,
            Entry::Macro(_, kind) => *kind,
        }
    }
}
