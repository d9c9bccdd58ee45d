//! The places of expressions.
ghost use Rattle.std.specs.Prelude.{◌≡◌};
ghost use Rattle.c_layout.specs.SyntaxTrees.{tree_of, place_of};

use crate::syntax_tree::expressions::Expr;
use cc_base::Place;

impl Expr {
    /// The place of the expression's operator.
    pub fn place(&self) -> Place
        ensures { result ≡ place_of (tree_of self.now) }
    {
        match self {
            Expr::Name(at, _)
            | Expr::Constant(at, _)
            | Expr::Literal(at, _)
            | Expr::Paren(at, _)
            | Expr::Subscript(at, _, _)
            | Expr::Call(at, _, _)
            | Expr::Member(at, _, _)
            | Expr::Arrow(at, _, _)
            | Expr::Postfix(at, _, _)
            | Expr::Prefix(at, _, _)
            | Expr::Unary(at, _, _)
            | Expr::SizeofExpr(at, _)
            | Expr::SizeofType(at, _, _)
            | Expr::Cast(at, _, _, _)
            | Expr::Binary(at, _, _, _)
            | Expr::Logical(at, _, _, _)
            | Expr::Conditional(at, _, _, _)
            | Expr::Assign(at, _, _, _)
            | Expr::Comma(at, _, _) => *at,
        }
    }
}
