//! The signs that a text is made of.

ghost use Rattle.std.specs.Prelude.{◌≡◌};

/// A keyword, a symbol, or what else a token can be.
#[derive(Clone, Copy, Debug, PartialEq, Eq)]
pub enum Sign {
    /// A word that is no keyword.
    Name,

    /// A number.
    Number,

    /// `node`.
    Node,

    /// `returns`.
    Returns,

    /// `let`.
    Let,

    /// `in`.
    In,

    /// `exist`.
    Exist,

    /// `bool`.
    Bool,

    /// `int`.
    Int,

    /// `real`.
    Real,

    /// `trace`.
    Trace,

    /// `ref`.
    Ref,

    /// `fby`.
    Fby,

    /// `loop`.
    Loop,

    /// `assert`.
    Assert,

    /// `raise`.
    Raise,

    /// `catch`.
    Catch,

    /// `do`.
    Do,

    /// `trap`.
    Trap,

    /// `try`.
    Try,

    /// `exception`.
    Exception,

    /// `pre`.
    Pre,

    /// `not`.
    Not,

    /// `and`.
    And,

    /// `or`.
    Or,

    /// `xor`.
    Xor,

    /// `if`.
    If,

    /// `then`.
    Then,

    /// `else`.
    Else,

    /// `div`.
    Div,

    /// `mod`.
    Mod,

    /// `true`.
    True,

    /// `false`.
    False,

    /// `run`.
    Run,

    /// `(`.
    Open,

    /// `)`.
    Close,

    /// `{`.
    OpenBrace,

    /// `}`.
    CloseBrace,

    /// `[`.
    OpenBracket,

    /// `]`.
    CloseBracket,

    /// `:`.
    Colon,

    /// `;`.
    Semicolon,

    /// `,`.
    Comma,

    /// `=`.
    Equal,

    /// `<>`.
    Unequal,

    /// `<`.
    Less,

    /// `<=`.
    LessEqual,

    /// `>`.
    Greater,

    /// `>=`.
    GreaterEqual,

    /// `+`.
    Plus,

    /// `-`.
    Minus,

    /// `*`.
    Star,

    /// `/`.
    Slash,

    /// `=>`.
    Implies,

    /// `|`.
    Bar,

    /// `|>`.
    Priority,

    /// `&>`.
    Parallel,

    /// `~`.
    Tilde,

    /// `:=`.
    Assign,
}

impl Sign {
    ghost use Rattle.lt_ast.specs.Signs.{spelled};

    /// Its letters. A name and a number have none of their own.
    pub fn text(self) -> &'static str
        ensures { result.now ≡ spelled self }
    {
        match self {
            Sign::Name | Sign::Number => "",
            Sign::Node => "node",
            Sign::Returns => "returns",
            Sign::Let => "let",
            Sign::In => "in",
            Sign::Exist => "exist",
            Sign::Bool => "bool",
            Sign::Int => "int",
            Sign::Real => "real",
            Sign::Trace => "trace",
            Sign::Ref => "ref",
            Sign::Fby => "fby",
            Sign::Loop => "loop",
            Sign::Assert => "assert",
            Sign::Raise => "raise",
            Sign::Catch => "catch",
            Sign::Do => "do",
            Sign::Trap => "trap",
            Sign::Try => "try",
            Sign::Exception => "exception",
            Sign::Pre => "pre",
            Sign::Not => "not",
            Sign::And => "and",
            Sign::Or => "or",
            Sign::Xor => "xor",
            Sign::If => "if",
            Sign::Then => "then",
            Sign::Else => "else",
            Sign::Div => "div",
            Sign::Mod => "mod",
            Sign::True => "true",
            Sign::False => "false",
            Sign::Run => "run",
            Sign::Open => "(",
            Sign::Close => ")",
            Sign::OpenBrace => "{",
            Sign::CloseBrace => "}",
            Sign::OpenBracket => "[",
            Sign::CloseBracket => "]",
            Sign::Colon => ":",
            Sign::Semicolon => ";",
            Sign::Comma => ",",
            Sign::Equal => "=",
            Sign::Unequal => "<>",
            Sign::Less => "<",
            Sign::LessEqual => "<=",
            Sign::Greater => ">",
            Sign::GreaterEqual => ">=",
            Sign::Plus => "+",
            Sign::Minus => "-",
            Sign::Star => "*",
            Sign::Slash => "/",
            Sign::Implies => "=>",
            Sign::Bar => "|",
            Sign::Priority => "|>",
            Sign::Parallel => "&>",
            Sign::Tilde => "~",
            Sign::Assign => ":=",
        }
    }
}
