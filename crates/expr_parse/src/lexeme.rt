use crate::magnitude::Magnitude;
use expr::Name;

/// A token, as the grammar sees it.
#[derive(Clone, Copy)]
pub(crate) enum Lexeme {
    Number(Magnitude),
    Named(Name),
    Sum,
    VarNum,
    CovNum,
    Const,
    Shift,
    Open,
    Close,
    Comma,
    Plus,
    Minus,
    Times,
}
