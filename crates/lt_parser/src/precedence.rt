//! How tightly expressions bind.

ghost use Rattle.std.specs.Prelude.{◌≡◌};
ghost use Rattle.lt_ast.specs.View.{exp};
ghost use Rattle.lt_grammar.specs.Precedence as precedence;
ghost use Rattle.lt_parser.specs.inner.Reading as reading;

use lt_ast::{BinOp, Expr, Sign, UnOp};

/// The operator that a sign is between two operands.
pub fn operator(sign: Sign) -> Option<BinOp>
    ensures { result ≡ precedence.operator sign }
{
    match sign {
        Sign::Implies => Some(BinOp::Implies),
        Sign::Or => Some(BinOp::Or),
        Sign::Xor => Some(BinOp::Xor),
        Sign::And => Some(BinOp::And),
        Sign::Equal => Some(BinOp::Eq),
        Sign::Unequal => Some(BinOp::Ne),
        Sign::Less => Some(BinOp::Lt),
        Sign::LessEqual => Some(BinOp::Le),
        Sign::Greater => Some(BinOp::Gt),
        Sign::GreaterEqual => Some(BinOp::Ge),
        Sign::Plus => Some(BinOp::Add),
        Sign::Minus => Some(BinOp::Sub),
        Sign::Star => Some(BinOp::Mul),
        Sign::Slash => Some(BinOp::Div),
        Sign::Div => Some(BinOp::DivWord),
        Sign::Mod => Some(BinOp::Mod),
        _ => None,
    }
}

/// How tightly an operator binds: the higher, the more tightly.
pub fn rank(operator: BinOp) -> u32
    ensures { result ≡ precedence.rank operator }
{
    match operator {
        BinOp::Implies => 1,
        BinOp::Or | BinOp::Xor => 2,
        BinOp::And => 3,
        BinOp::Eq | BinOp::Ne | BinOp::Lt | BinOp::Le | BinOp::Gt | BinOp::Ge => 5,
        BinOp::Add | BinOp::Sub => 6,
        BinOp::Mul | BinOp::Div | BinOp::DivWord | BinOp::Mod => 7,
    }
}

/// How tightly an operator may bind that follows an expression, at most.
pub fn top(expr: &Expr) -> u32
    ensures { result ≡ reading.top (exp expr.now) }
{
    match expr {
        Expr::If(_, _, _, _) => 0,
        Expr::Binary(BinOp::Implies, _, _) => 0,
        Expr::Binary(BinOp::Eq | BinOp::Ne | BinOp::Lt | BinOp::Le | BinOp::Gt | BinOp::Ge, _, _) =>
            3,
        Expr::Binary(operator, _, _) => rank(*operator),
        Expr::Unary(UnOp::Not, _, _) => 3,
        _ => 7,
    }
}
