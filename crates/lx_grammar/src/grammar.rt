//! The grammar of a description: its left sides, the groups in its brackets and braces, and the row that a sign picks.

ghost use Rattle.std.specs.Prelude.{◌≡◌, slice_get, Some, None, MatchOption};
ghost use Rattle.lx_grammar.specs.Numbers.{number};
ghost use Rattle.lx_grammar.specs.Grammar.{rules};
ghost use Rattle.lx_grammar.specs.Pick.{pick, is_far};
ghost use Rattle.lx_grammar.specs.Derives.{label};

use crate::sign::{Sign, is_in};

/// A left side of the grammar, which a node of the tree has.
#[derive(Clone, Copy, Debug, PartialEq, Eq)]
pub enum Rule {
    File,
    Import,
    Dotted,
    Class,
    Init,
    Suite,
    Stmt,
    If,
    For,
    Names,
    Simple,
    Values,
    Place,
    Expr,
    Or,
    And,
    Not,
    Comp,
    Bor,
    Bxor,
    Band,
    Shift,
    Sum,
    Term,
    Unary,
    Power,
    Post,
    Sub,
    Args,
    Arg,
    Atom,
}

/// A left side of the grammar, or what stands in one pair of its brackets or braces.
#[derive(Clone, Copy)]
pub enum Spot {
    File,
    Import,
    Dotted,
    Class,
    Init,
    Suite,
    Stmt,
    If,
    For,
    Names,
    Simple,
    Values,
    Place,
    Expr,
    Or,
    And,
    Not,
    Comp,
    Bor,
    Bxor,
    Band,
    Shift,
    Sum,
    Term,
    Unary,
    Power,
    Post,
    Sub,
    Args,
    PlaceArg,
    NameArg,
    Atom,
    FileLine,
    Imported,
    DotName,
    CommaName,
    Remark,
    Parameter,
    Default,
    LastComma,
    NextStmt,
    Elif,
    Else,
    Action,
    CommaExpr,
    Choice,
    OrMore,
    AndMore,
    NotWord,
    Compared,
    BorMore,
    BxorMore,
    BandMore,
    ShiftMore,
    SumMore,
    TermMore,
    Prefix,
    Raised,
    Trailer,
    Arguments,
    Bound,
    CommaPlaceArg,
    CommaNameArg,
    Grouped,
    Listing,
    Listed,
    Filter,
    Pairs,
    CommaPair,
}

/// What a row of the grammar is made of: a token, a node of its own, and a group that stands once, at most once, or
/// any number of times.
#[derive(Clone, Copy)]
pub enum Symbol {
    Token(Sign),
    Node(Spot),
    One(Spot),
    Maybe(Spot),
    Many(Spot),
}

/// The left side whose nodes a spot makes.
#[tactic(auto, unfolding(crate::specs::Derives::label))]
pub fn rule_of(spot: Spot) -> Rule
    ensures { result ≡ label spot }
{
    match spot {
        Spot::File => Rule::File,
        Spot::Import => Rule::Import,
        Spot::Dotted => Rule::Dotted,
        Spot::Class => Rule::Class,
        Spot::Init => Rule::Init,
        Spot::Suite => Rule::Suite,
        Spot::Stmt => Rule::Stmt,
        Spot::If => Rule::If,
        Spot::For => Rule::For,
        Spot::Names => Rule::Names,
        Spot::Simple => Rule::Simple,
        Spot::Values => Rule::Values,
        Spot::Place => Rule::Place,
        Spot::Expr => Rule::Expr,
        Spot::Or => Rule::Or,
        Spot::And => Rule::And,
        Spot::Not => Rule::Not,
        Spot::Comp => Rule::Comp,
        Spot::Bor => Rule::Bor,
        Spot::Bxor => Rule::Bxor,
        Spot::Band => Rule::Band,
        Spot::Shift => Rule::Shift,
        Spot::Sum => Rule::Sum,
        Spot::Term => Rule::Term,
        Spot::Unary => Rule::Unary,
        Spot::Power => Rule::Power,
        Spot::Post => Rule::Post,
        Spot::Sub => Rule::Sub,
        Spot::Args => Rule::Args,
        Spot::PlaceArg => Rule::Arg,
        Spot::NameArg => Rule::Arg,
        Spot::Atom => Rule::Atom,
        Spot::FileLine => Rule::File,
        Spot::Imported => Rule::Import,
        Spot::DotName => Rule::Dotted,
        Spot::CommaName => Rule::Class,
        Spot::Remark => Rule::Class,
        Spot::Parameter => Rule::Init,
        Spot::Default => Rule::Init,
        Spot::LastComma => Rule::Init,
        Spot::NextStmt => Rule::Suite,
        Spot::Elif => Rule::If,
        Spot::Else => Rule::If,
        Spot::Action => Rule::Simple,
        Spot::CommaExpr => Rule::Values,
        Spot::Choice => Rule::Expr,
        Spot::OrMore => Rule::Or,
        Spot::AndMore => Rule::And,
        Spot::NotWord => Rule::Not,
        Spot::Compared => Rule::Comp,
        Spot::BorMore => Rule::Bor,
        Spot::BxorMore => Rule::Bxor,
        Spot::BandMore => Rule::Band,
        Spot::ShiftMore => Rule::Shift,
        Spot::SumMore => Rule::Sum,
        Spot::TermMore => Rule::Term,
        Spot::Prefix => Rule::Unary,
        Spot::Raised => Rule::Power,
        Spot::Trailer => Rule::Post,
        Spot::Arguments => Rule::Post,
        Spot::Bound => Rule::Sub,
        Spot::CommaPlaceArg => Rule::Args,
        Spot::CommaNameArg => Rule::Args,
        Spot::Grouped => Rule::Atom,
        Spot::Listing => Rule::Atom,
        Spot::Listed => Rule::Atom,
        Spot::Filter => Rule::Atom,
        Spot::Pairs => Rule::Atom,
        Spot::CommaPair => Rule::Atom,
    }
}

/// Whether a row of this spot is picked by what stands far ahead.
#[tactic(auto, unfolding(crate::specs::Pick::is_far))]
pub fn looks_far(spot: Spot) -> bool
    ensures { result ≡ is_far spot }
{
    match spot {
        Spot::File => false,
        Spot::Import => false,
        Spot::Dotted => false,
        Spot::Class => false,
        Spot::Init => false,
        Spot::Suite => false,
        Spot::Stmt => false,
        Spot::If => false,
        Spot::For => false,
        Spot::Names => false,
        Spot::Simple => false,
        Spot::Values => false,
        Spot::Place => false,
        Spot::Expr => false,
        Spot::Or => false,
        Spot::And => false,
        Spot::Not => false,
        Spot::Comp => false,
        Spot::Bor => false,
        Spot::Bxor => false,
        Spot::Band => false,
        Spot::Shift => false,
        Spot::Sum => false,
        Spot::Term => false,
        Spot::Unary => false,
        Spot::Power => false,
        Spot::Post => false,
        Spot::Sub => true,
        Spot::Args => false,
        Spot::PlaceArg => false,
        Spot::NameArg => false,
        Spot::Atom => false,
        Spot::FileLine => false,
        Spot::Imported => false,
        Spot::DotName => false,
        Spot::CommaName => false,
        Spot::Remark => false,
        Spot::Parameter => false,
        Spot::Default => false,
        Spot::LastComma => false,
        Spot::NextStmt => false,
        Spot::Elif => false,
        Spot::Else => false,
        Spot::Action => true,
        Spot::CommaExpr => false,
        Spot::Choice => false,
        Spot::OrMore => false,
        Spot::AndMore => false,
        Spot::NotWord => false,
        Spot::Compared => false,
        Spot::BorMore => false,
        Spot::BxorMore => false,
        Spot::BandMore => false,
        Spot::ShiftMore => false,
        Spot::SumMore => false,
        Spot::TermMore => false,
        Spot::Prefix => false,
        Spot::Raised => false,
        Spot::Trailer => false,
        Spot::Arguments => false,
        Spot::Bound => false,
        Spot::CommaPlaceArg => false,
        Spot::CommaNameArg => false,
        Spot::Grouped => false,
        Spot::Listing => false,
        Spot::Listed => true,
        Spot::Filter => false,
        Spot::Pairs => false,
        Spot::CommaPair => false,
    }
}

// Sets of signs, a bit for each.
const BEGINS_EXPR: u64 = 0x540200fa0001f;

const BEGINS_COMP: u64 = 0x540200f80001f;

const BEGINS_ATOM: u64 = 0x540000380001f;

const BEGINS_PLACE_ARG: u64 = 0x540201fa0001f;

const BEGINS_SIMPLE: u64 = 0x10540200fa0201f;

const BEGINS_FILE: u64 = 0xf10;

const AT_FROM: u64 = 0x200;

const AT_IMPORT: u64 = 0x400;

const ANY_NAME: u64 = 0x7;

const AT_CLASS: u64 = 0x800;

const AT_DEF: u64 = 0x1000;

const AT_NEWLINE: u64 = 0x20;

const AT_IF: u64 = 0x4000;

const AT_FOR: u64 = 0x20000;

const AT_TARGET: u64 = 0x100000000000000;

const AT_CLOSE_SQUARE: u64 = 0x2000000000000;

const AT_COLON: u64 = 0x10000000000000;

const AT_STAR: u64 = 0x10000000;

const AT_NUMBER: u64 = 0x8;

const AT_TEXT: u64 = 0x10;

const AT_NONE: u64 = 0x800000;

const AT_TRUE: u64 = 0x1000000;

const AT_FALSE: u64 = 0x2000000;

const AT_OPEN_ROUND: u64 = 0x400000000000;

const AT_OPEN_SQUARE: u64 = 0x1000000000000;

const AT_OPEN_CURLY: u64 = 0x4000000000000;

const BEGINS_FILE_LINE0: u64 = 0x600;

const AT_DOT: u64 = 0x40000000000000;

const AT_COMMA: u64 = 0x20000000000000;

const BEGINS_PARAMETER: u64 = 0x820000000000000;

const AT_ASSIGN: u64 = 0x100000000000;

const AT_LAST_COMMA: u64 = 0x400000000000000;

const BEGINS_NEXT_STMT: u64 = 0x10540200fa2601f;

const AT_ELIF: u64 = 0x8000;

const AT_ELSE: u64 = 0x10000;

const AT_PASS: u64 = 0x2000;

const AT_ADD_ASSIGN: u64 = 0x200000000000;

const AT_OR: u64 = 0x80000;

const AT_AND: u64 = 0x100000;

const AT_NOT: u64 = 0x200000;

const AT_EQUAL: u64 = 0x10000000000;

const AT_UNEQUAL: u64 = 0x20000000000;

const AT_LESS: u64 = 0x4000000000;

const AT_LESS_EQUAL: u64 = 0x8000000000;

const AT_GREATER: u64 = 0x40000000000;

const AT_GREATER_EQUAL: u64 = 0x80000000000;

const AT_IN: u64 = 0x40000;

const AT_IS: u64 = 0x400000;

const AT_BAR: u64 = 0x800000000;

const AT_CARET: u64 = 0x1000000000;

const AT_AMPERSAND: u64 = 0x400000000;

const AT_SHIFT_LEFT: u64 = 0x100000000;

const AT_SHIFT_RIGHT: u64 = 0x200000000;

const AT_PLUS: u64 = 0x4000000;

const AT_MINUS: u64 = 0x8000000;

const AT_FLOOR: u64 = 0x20000000;

const AT_PERCENT: u64 = 0x40000000;

const AT_TILDE: u64 = 0x2000000000;

const AT_POWER: u64 = 0x80000000;

const BEGINS_ARGUMENTS: u64 = 0x10540201fa0001f;

const AT_KEY_COMMA: u64 = 0x800000000000000;

/// The row of a spot that a sign picks, if there is one.
#[tactic(auto, unfolding(crate::specs::Grammar::rules, crate::specs::Pick::pick))]
pub fn production(spot: Spot, sign: Sign) -> Option<&'static [Symbol]>
    ensures { MatchOption result (slice_get (rules spot) (pick spot (number sign)) ≡ None) (λ row. slice_get (rules spot) (pick spot (number sign)) ≡ Some row.now) }
{
    match spot {
        Spot::File => {
            if is_in(BEGINS_FILE, sign) {
                Some(&[Symbol::Many(Spot::FileLine), Symbol::Token(Sign::End)])
            } else {
                None
            }
        }
        Spot::Import => {
            if is_in(AT_FROM, sign) {
                Some(&[
                    Symbol::Token(Sign::From),
                    Symbol::Node(Spot::Dotted),
                    Symbol::Token(Sign::Import),
                    Symbol::One(Spot::Imported),
                    Symbol::Token(Sign::Newline),
                ])
            } else if is_in(AT_IMPORT, sign) {
                Some(&[
                    Symbol::Token(Sign::Import),
                    Symbol::Node(Spot::Dotted),
                    Symbol::Token(Sign::Newline),
                ])
            } else {
                None
            }
        }
        Spot::Dotted => {
            if is_in(ANY_NAME, sign) {
                Some(&[Symbol::Token(Sign::Name), Symbol::Many(Spot::DotName)])
            } else {
                None
            }
        }
        Spot::Class => {
            if is_in(AT_CLASS, sign) {
                Some(&[
                    Symbol::Token(Sign::Class),
                    Symbol::Token(Sign::Name),
                    Symbol::Token(Sign::OpenRound),
                    Symbol::Token(Sign::Name),
                    Symbol::Many(Spot::CommaName),
                    Symbol::Token(Sign::CloseRound),
                    Symbol::Token(Sign::Colon),
                    Symbol::Token(Sign::Newline),
                    Symbol::Token(Sign::Indent),
                    Symbol::Maybe(Spot::Remark),
                    Symbol::Node(Spot::Init),
                    Symbol::Token(Sign::Dedent),
                ])
            } else {
                None
            }
        }
        Spot::Init => {
            if is_in(AT_DEF, sign) {
                Some(&[
                    Symbol::Token(Sign::Def),
                    Symbol::Token(Sign::Init),
                    Symbol::Token(Sign::OpenRound),
                    Symbol::Token(Sign::SelfName),
                    Symbol::Many(Spot::Parameter),
                    Symbol::Maybe(Spot::LastComma),
                    Symbol::Token(Sign::CloseRound),
                    Symbol::Token(Sign::Colon),
                    Symbol::Node(Spot::Suite),
                ])
            } else {
                None
            }
        }
        Spot::Suite => {
            if is_in(BEGINS_SIMPLE, sign) {
                Some(&[Symbol::Node(Spot::Simple)])
            } else if is_in(AT_NEWLINE, sign) {
                Some(&[
                    Symbol::Token(Sign::Newline),
                    Symbol::Token(Sign::Indent),
                    Symbol::Node(Spot::Stmt),
                    Symbol::Many(Spot::NextStmt),
                    Symbol::Token(Sign::Dedent),
                ])
            } else {
                None
            }
        }
        Spot::Stmt => {
            if is_in(BEGINS_SIMPLE, sign) {
                Some(&[Symbol::Node(Spot::Simple)])
            } else if is_in(AT_IF, sign) {
                Some(&[Symbol::Node(Spot::If)])
            } else if is_in(AT_FOR, sign) {
                Some(&[Symbol::Node(Spot::For)])
            } else {
                None
            }
        }
        Spot::If => {
            if is_in(AT_IF, sign) {
                Some(&[
                    Symbol::Token(Sign::If),
                    Symbol::Node(Spot::Expr),
                    Symbol::Token(Sign::Colon),
                    Symbol::Node(Spot::Suite),
                    Symbol::Many(Spot::Elif),
                    Symbol::Maybe(Spot::Else),
                ])
            } else {
                None
            }
        }
        Spot::For => {
            if is_in(AT_FOR, sign) {
                Some(&[
                    Symbol::Token(Sign::For),
                    Symbol::Node(Spot::Names),
                    Symbol::Token(Sign::In),
                    Symbol::Node(Spot::Expr),
                    Symbol::Token(Sign::Colon),
                    Symbol::Node(Spot::Suite),
                ])
            } else {
                None
            }
        }
        Spot::Names => {
            if is_in(ANY_NAME, sign) {
                Some(&[Symbol::Token(Sign::Name), Symbol::Many(Spot::CommaName)])
            } else {
                None
            }
        }
        Spot::Simple => {
            if is_in(BEGINS_SIMPLE, sign) {
                Some(&[Symbol::One(Spot::Action), Symbol::Token(Sign::Newline)])
            } else {
                None
            }
        }
        Spot::Values => {
            if is_in(BEGINS_EXPR, sign) {
                Some(&[
                    Symbol::Node(Spot::Expr),
                    Symbol::Many(Spot::CommaExpr),
                    Symbol::Maybe(Spot::LastComma),
                ])
            } else {
                None
            }
        }
        Spot::Place => {
            if is_in(AT_TARGET, sign) {
                Some(&[Symbol::Token(Sign::Name)])
            } else if is_in(BEGINS_ATOM, sign) {
                Some(&[
                    Symbol::Node(Spot::Post),
                    Symbol::Token(Sign::Dot),
                    Symbol::Token(Sign::Name),
                ])
            } else {
                None
            }
        }
        Spot::Expr => {
            if is_in(BEGINS_EXPR, sign) {
                Some(&[Symbol::Node(Spot::Or), Symbol::Many(Spot::Choice)])
            } else {
                None
            }
        }
        Spot::Or => {
            if is_in(BEGINS_EXPR, sign) {
                Some(&[Symbol::Node(Spot::And), Symbol::Many(Spot::OrMore)])
            } else {
                None
            }
        }
        Spot::And => {
            if is_in(BEGINS_EXPR, sign) {
                Some(&[Symbol::Node(Spot::Not), Symbol::Many(Spot::AndMore)])
            } else {
                None
            }
        }
        Spot::Not => {
            if is_in(BEGINS_EXPR, sign) {
                Some(&[Symbol::Many(Spot::NotWord), Symbol::Node(Spot::Comp)])
            } else {
                None
            }
        }
        Spot::Comp => {
            if is_in(BEGINS_COMP, sign) {
                Some(&[Symbol::Node(Spot::Bor), Symbol::Maybe(Spot::Compared)])
            } else {
                None
            }
        }
        Spot::Bor => {
            if is_in(BEGINS_COMP, sign) {
                Some(&[Symbol::Node(Spot::Bxor), Symbol::Many(Spot::BorMore)])
            } else {
                None
            }
        }
        Spot::Bxor => {
            if is_in(BEGINS_COMP, sign) {
                Some(&[Symbol::Node(Spot::Band), Symbol::Many(Spot::BxorMore)])
            } else {
                None
            }
        }
        Spot::Band => {
            if is_in(BEGINS_COMP, sign) {
                Some(&[Symbol::Node(Spot::Shift), Symbol::Many(Spot::BandMore)])
            } else {
                None
            }
        }
        Spot::Shift => {
            if is_in(BEGINS_COMP, sign) {
                Some(&[Symbol::Node(Spot::Sum), Symbol::Many(Spot::ShiftMore)])
            } else {
                None
            }
        }
        Spot::Sum => {
            if is_in(BEGINS_COMP, sign) {
                Some(&[Symbol::Node(Spot::Term), Symbol::Many(Spot::SumMore)])
            } else {
                None
            }
        }
        Spot::Term => {
            if is_in(BEGINS_COMP, sign) {
                Some(&[Symbol::Node(Spot::Unary), Symbol::Many(Spot::TermMore)])
            } else {
                None
            }
        }
        Spot::Unary => {
            if is_in(BEGINS_COMP, sign) {
                Some(&[Symbol::Many(Spot::Prefix), Symbol::Node(Spot::Power)])
            } else {
                None
            }
        }
        Spot::Power => {
            if is_in(BEGINS_ATOM, sign) {
                Some(&[Symbol::Node(Spot::Post), Symbol::Maybe(Spot::Raised)])
            } else {
                None
            }
        }
        Spot::Post => {
            if is_in(BEGINS_ATOM, sign) {
                Some(&[Symbol::Node(Spot::Atom), Symbol::Many(Spot::Trailer)])
            } else {
                None
            }
        }
        Spot::Sub => {
            if is_in(AT_CLOSE_SQUARE, sign) {
                Some(&[Symbol::Node(Spot::Expr)])
            } else if is_in(AT_COLON, sign) {
                Some(&[
                    Symbol::Maybe(Spot::Bound),
                    Symbol::Token(Sign::Colon),
                    Symbol::Maybe(Spot::Bound),
                ])
            } else {
                None
            }
        }
        Spot::Args => {
            if is_in(BEGINS_PLACE_ARG, sign) {
                Some(&[
                    Symbol::Node(Spot::PlaceArg),
                    Symbol::Many(Spot::CommaPlaceArg),
                    Symbol::Many(Spot::CommaNameArg),
                    Symbol::Maybe(Spot::LastComma),
                ])
            } else if is_in(AT_TARGET, sign) {
                Some(&[
                    Symbol::Node(Spot::NameArg),
                    Symbol::Many(Spot::CommaNameArg),
                    Symbol::Maybe(Spot::LastComma),
                ])
            } else {
                None
            }
        }
        Spot::PlaceArg => {
            if is_in(BEGINS_EXPR, sign) {
                Some(&[Symbol::Node(Spot::Expr)])
            } else if is_in(AT_STAR, sign) {
                Some(&[Symbol::Token(Sign::Star), Symbol::Node(Spot::Expr)])
            } else {
                None
            }
        }
        Spot::NameArg => {
            if is_in(AT_TARGET, sign) {
                Some(&[
                    Symbol::Token(Sign::Name),
                    Symbol::Token(Sign::Assign),
                    Symbol::Node(Spot::Expr),
                ])
            } else {
                None
            }
        }
        Spot::Atom => {
            if is_in(ANY_NAME, sign) {
                Some(&[Symbol::Token(Sign::Name)])
            } else if is_in(AT_NUMBER, sign) {
                Some(&[Symbol::Token(Sign::Number)])
            } else if is_in(AT_TEXT, sign) {
                Some(&[Symbol::Token(Sign::Text)])
            } else if is_in(AT_NONE, sign) {
                Some(&[Symbol::Token(Sign::None)])
            } else if is_in(AT_TRUE, sign) {
                Some(&[Symbol::Token(Sign::True)])
            } else if is_in(AT_FALSE, sign) {
                Some(&[Symbol::Token(Sign::False)])
            } else if is_in(AT_OPEN_ROUND, sign) {
                Some(&[
                    Symbol::Token(Sign::OpenRound),
                    Symbol::Maybe(Spot::Grouped),
                    Symbol::Token(Sign::CloseRound),
                ])
            } else if is_in(AT_OPEN_SQUARE, sign) {
                Some(&[
                    Symbol::Token(Sign::OpenSquare),
                    Symbol::Maybe(Spot::Listing),
                    Symbol::Token(Sign::CloseSquare),
                ])
            } else if is_in(AT_OPEN_CURLY, sign) {
                Some(&[
                    Symbol::Token(Sign::OpenCurly),
                    Symbol::Maybe(Spot::Pairs),
                    Symbol::Token(Sign::CloseCurly),
                ])
            } else {
                None
            }
        }
        Spot::FileLine => {
            if is_in(BEGINS_FILE_LINE0, sign) {
                Some(&[Symbol::Node(Spot::Import)])
            } else if is_in(AT_CLASS, sign) {
                Some(&[Symbol::Node(Spot::Class)])
            } else if is_in(AT_TEXT, sign) {
                Some(&[Symbol::Token(Sign::Text), Symbol::Token(Sign::Newline)])
            } else {
                None
            }
        }
        Spot::Imported => {
            if is_in(AT_STAR, sign) {
                Some(&[Symbol::Token(Sign::Star)])
            } else if is_in(ANY_NAME, sign) {
                Some(&[Symbol::Token(Sign::Name), Symbol::Many(Spot::CommaName)])
            } else {
                None
            }
        }
        Spot::DotName => {
            if is_in(AT_DOT, sign) {
                Some(&[Symbol::Token(Sign::Dot), Symbol::Token(Sign::Name)])
            } else {
                None
            }
        }
        Spot::CommaName => {
            if is_in(AT_COMMA, sign) {
                Some(&[Symbol::Token(Sign::Comma), Symbol::Token(Sign::Name)])
            } else {
                None
            }
        }
        Spot::Remark => {
            if is_in(AT_TEXT, sign) {
                Some(&[Symbol::Token(Sign::Text), Symbol::Token(Sign::Newline)])
            } else {
                None
            }
        }
        Spot::Parameter => {
            if is_in(BEGINS_PARAMETER, sign) {
                Some(&[
                    Symbol::Token(Sign::Comma),
                    Symbol::Token(Sign::Name),
                    Symbol::Maybe(Spot::Default),
                ])
            } else {
                None
            }
        }
        Spot::Default => {
            if is_in(AT_ASSIGN, sign) {
                Some(&[Symbol::Token(Sign::Assign), Symbol::Node(Spot::Expr)])
            } else {
                None
            }
        }
        Spot::LastComma => {
            if is_in(AT_LAST_COMMA, sign) {
                Some(&[Symbol::Token(Sign::Comma)])
            } else {
                None
            }
        }
        Spot::NextStmt => {
            if is_in(BEGINS_NEXT_STMT, sign) {
                Some(&[Symbol::Node(Spot::Stmt)])
            } else {
                None
            }
        }
        Spot::Elif => {
            if is_in(AT_ELIF, sign) {
                Some(&[
                    Symbol::Token(Sign::Elif),
                    Symbol::Node(Spot::Expr),
                    Symbol::Token(Sign::Colon),
                    Symbol::Node(Spot::Suite),
                ])
            } else {
                None
            }
        }
        Spot::Else => {
            if is_in(AT_ELSE, sign) {
                Some(&[
                    Symbol::Token(Sign::Else),
                    Symbol::Token(Sign::Colon),
                    Symbol::Node(Spot::Suite),
                ])
            } else {
                None
            }
        }
        Spot::Action => {
            if is_in(AT_PASS, sign) {
                Some(&[Symbol::Token(Sign::Pass)])
            } else if is_in(AT_NEWLINE, sign) {
                Some(&[Symbol::Node(Spot::Values)])
            } else if is_in(AT_ASSIGN, sign) {
                Some(&[
                    Symbol::Node(Spot::Place),
                    Symbol::Token(Sign::Assign),
                    Symbol::Node(Spot::Values),
                ])
            } else if is_in(AT_ADD_ASSIGN, sign) {
                Some(&[
                    Symbol::Node(Spot::Place),
                    Symbol::Token(Sign::AddAssign),
                    Symbol::Node(Spot::Values),
                ])
            } else {
                None
            }
        }
        Spot::CommaExpr => {
            if is_in(AT_COMMA, sign) {
                Some(&[Symbol::Token(Sign::Comma), Symbol::Node(Spot::Expr)])
            } else {
                None
            }
        }
        Spot::Choice => {
            if is_in(AT_IF, sign) {
                Some(&[
                    Symbol::Token(Sign::If),
                    Symbol::Node(Spot::Or),
                    Symbol::Token(Sign::Else),
                    Symbol::Node(Spot::Or),
                ])
            } else {
                None
            }
        }
        Spot::OrMore => {
            if is_in(AT_OR, sign) {
                Some(&[Symbol::Token(Sign::Or), Symbol::Node(Spot::And)])
            } else {
                None
            }
        }
        Spot::AndMore => {
            if is_in(AT_AND, sign) {
                Some(&[Symbol::Token(Sign::And), Symbol::Node(Spot::Not)])
            } else {
                None
            }
        }
        Spot::NotWord => {
            if is_in(AT_NOT, sign) {
                Some(&[Symbol::Token(Sign::Not)])
            } else {
                None
            }
        }
        Spot::Compared => {
            if is_in(AT_EQUAL, sign) {
                Some(&[Symbol::Token(Sign::Equal), Symbol::Node(Spot::Bor)])
            } else if is_in(AT_UNEQUAL, sign) {
                Some(&[Symbol::Token(Sign::Unequal), Symbol::Node(Spot::Bor)])
            } else if is_in(AT_LESS, sign) {
                Some(&[Symbol::Token(Sign::Less), Symbol::Node(Spot::Bor)])
            } else if is_in(AT_LESS_EQUAL, sign) {
                Some(&[Symbol::Token(Sign::LessEqual), Symbol::Node(Spot::Bor)])
            } else if is_in(AT_GREATER, sign) {
                Some(&[Symbol::Token(Sign::Greater), Symbol::Node(Spot::Bor)])
            } else if is_in(AT_GREATER_EQUAL, sign) {
                Some(&[Symbol::Token(Sign::GreaterEqual), Symbol::Node(Spot::Bor)])
            } else if is_in(AT_IN, sign) {
                Some(&[Symbol::Token(Sign::In), Symbol::Node(Spot::Bor)])
            } else if is_in(AT_IS, sign) {
                Some(&[
                    Symbol::Token(Sign::Is),
                    Symbol::Maybe(Spot::NotWord),
                    Symbol::Token(Sign::None),
                ])
            } else {
                None
            }
        }
        Spot::BorMore => {
            if is_in(AT_BAR, sign) {
                Some(&[Symbol::Token(Sign::Bar), Symbol::Node(Spot::Bxor)])
            } else {
                None
            }
        }
        Spot::BxorMore => {
            if is_in(AT_CARET, sign) {
                Some(&[Symbol::Token(Sign::Caret), Symbol::Node(Spot::Band)])
            } else {
                None
            }
        }
        Spot::BandMore => {
            if is_in(AT_AMPERSAND, sign) {
                Some(&[Symbol::Token(Sign::Ampersand), Symbol::Node(Spot::Shift)])
            } else {
                None
            }
        }
        Spot::ShiftMore => {
            if is_in(AT_SHIFT_LEFT, sign) {
                Some(&[Symbol::Token(Sign::ShiftLeft), Symbol::Node(Spot::Sum)])
            } else if is_in(AT_SHIFT_RIGHT, sign) {
                Some(&[Symbol::Token(Sign::ShiftRight), Symbol::Node(Spot::Sum)])
            } else {
                None
            }
        }
        Spot::SumMore => {
            if is_in(AT_PLUS, sign) {
                Some(&[Symbol::Token(Sign::Plus), Symbol::Node(Spot::Term)])
            } else if is_in(AT_MINUS, sign) {
                Some(&[Symbol::Token(Sign::Minus), Symbol::Node(Spot::Term)])
            } else {
                None
            }
        }
        Spot::TermMore => {
            if is_in(AT_STAR, sign) {
                Some(&[Symbol::Token(Sign::Star), Symbol::Node(Spot::Unary)])
            } else if is_in(AT_FLOOR, sign) {
                Some(&[Symbol::Token(Sign::Floor), Symbol::Node(Spot::Unary)])
            } else if is_in(AT_PERCENT, sign) {
                Some(&[Symbol::Token(Sign::Percent), Symbol::Node(Spot::Unary)])
            } else {
                None
            }
        }
        Spot::Prefix => {
            if is_in(AT_MINUS, sign) {
                Some(&[Symbol::Token(Sign::Minus)])
            } else if is_in(AT_PLUS, sign) {
                Some(&[Symbol::Token(Sign::Plus)])
            } else if is_in(AT_TILDE, sign) {
                Some(&[Symbol::Token(Sign::Tilde)])
            } else {
                None
            }
        }
        Spot::Raised => {
            if is_in(AT_POWER, sign) {
                Some(&[Symbol::Token(Sign::Power), Symbol::Node(Spot::Unary)])
            } else {
                None
            }
        }
        Spot::Trailer => {
            if is_in(AT_DOT, sign) {
                Some(&[Symbol::Token(Sign::Dot), Symbol::Token(Sign::Name)])
            } else if is_in(AT_OPEN_ROUND, sign) {
                Some(&[
                    Symbol::Token(Sign::OpenRound),
                    Symbol::Maybe(Spot::Arguments),
                    Symbol::Token(Sign::CloseRound),
                ])
            } else if is_in(AT_OPEN_SQUARE, sign) {
                Some(&[
                    Symbol::Token(Sign::OpenSquare),
                    Symbol::Node(Spot::Sub),
                    Symbol::Token(Sign::CloseSquare),
                ])
            } else {
                None
            }
        }
        Spot::Arguments => {
            if is_in(BEGINS_ARGUMENTS, sign) {
                Some(&[Symbol::Node(Spot::Args)])
            } else {
                None
            }
        }
        Spot::Bound => {
            if is_in(BEGINS_EXPR, sign) {
                Some(&[Symbol::Node(Spot::Expr)])
            } else {
                None
            }
        }
        Spot::CommaPlaceArg => {
            if is_in(AT_COMMA, sign) {
                Some(&[Symbol::Token(Sign::Comma), Symbol::Node(Spot::PlaceArg)])
            } else {
                None
            }
        }
        Spot::CommaNameArg => {
            if is_in(AT_KEY_COMMA, sign) {
                Some(&[Symbol::Token(Sign::Comma), Symbol::Node(Spot::NameArg)])
            } else {
                None
            }
        }
        Spot::Grouped => {
            if is_in(BEGINS_EXPR, sign) {
                Some(&[Symbol::Node(Spot::Values)])
            } else {
                None
            }
        }
        Spot::Listing => {
            if is_in(BEGINS_EXPR, sign) {
                Some(&[Symbol::One(Spot::Listed)])
            } else {
                None
            }
        }
        Spot::Listed => {
            if is_in(AT_CLOSE_SQUARE, sign) {
                Some(&[Symbol::Node(Spot::Values)])
            } else if is_in(AT_FOR, sign) {
                Some(&[
                    Symbol::Node(Spot::Expr),
                    Symbol::Token(Sign::For),
                    Symbol::Node(Spot::Names),
                    Symbol::Token(Sign::In),
                    Symbol::Node(Spot::Or),
                    Symbol::Maybe(Spot::Filter),
                ])
            } else {
                None
            }
        }
        Spot::Filter => {
            if is_in(AT_IF, sign) {
                Some(&[Symbol::Token(Sign::If), Symbol::Node(Spot::Or)])
            } else {
                None
            }
        }
        Spot::Pairs => {
            if is_in(BEGINS_EXPR, sign) {
                Some(&[
                    Symbol::Node(Spot::Expr),
                    Symbol::Token(Sign::Colon),
                    Symbol::Node(Spot::Expr),
                    Symbol::Many(Spot::CommaPair),
                    Symbol::Maybe(Spot::LastComma),
                ])
            } else {
                None
            }
        }
        Spot::CommaPair => {
            if is_in(AT_COMMA, sign) {
                Some(&[
                    Symbol::Token(Sign::Comma),
                    Symbol::Node(Spot::Expr),
                    Symbol::Token(Sign::Colon),
                    Symbol::Node(Spot::Expr),
                ])
            } else {
                None
            }
        }
    }
}
