//! What entries are found by.

/// The kinds of names. A name may be one of each.
#[derive(Clone, Copy, PartialEq, Eq, Hash)]
pub(crate) enum NameKind {
    /// That of a variable, a parameter or a macro.
    Name,

    /// That of an exception.
    Exception,
}

/// What an entry is found by.
#[derive(Clone, Copy, PartialEq, Eq, Hash)]
pub(crate) struct Key<'a> {
    /// The place of the first entry of its run.
    pub(crate) run: usize,

    /// The kind of its name.
    pub(crate) kind: NameKind,

    /// The name.
    pub(crate) name: &'a str,
}
