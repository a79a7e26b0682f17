//! Lines nested by their indentation and cut into tokens, in one pass over the pieces.

ghost use Rattle.std.specs.Prelude.{◌≡◌, ◌++◌, ◌∷◌, [], ◌+◌, ◌-◌, ◌^◌, ◌<◌, ◌≤◌, false, length, OnOk, IfOk, Some, None, Ok, Err};
ghost use Rattle.lx_token.specs.Tokens.{dedents, ending_tokens, closed, nested};
ghost use Rattle.lx_token.specs.Lines.{first_tab};
ghost use Rattle.lx_token.specs.Machine.{Gives, Nests, blank, tab_in, line_end, put_token, begin_line, take_piece, last_line, finished};

use crate::levels::{Levels, MOST_LEVELS};
use crate::pieces::{Piece, fault_at, token_at};
use crate::tokens::{Token, TokenKind};
use lx_text::{Fault, Kind, List, NoMemory, Refusal};
use std::alloc::Global;

/// The tokens so far, the widths of the open levels from the outermost on, the width of this line's leading blanks and
/// the line of the first tab among them, whether the line has begun behind them, and the line of the last Newline.
#[derive(Drop)]
pub struct Lines {
    pub tokens: List<Token>,
    pub levels: Levels,
    pub width: u32,
    pub tab: Option<u32>,
    pub begun: bool,
    pub newline: u32,
}

// Adds so many Dedents.
fn put_dedents(
    tokens: &mut List<Token>,
    count: usize,
    place: u32,
    line: u32,
) -> Result<(), NoMemory>
    ensures { OnOk result (tokens.new ≡ tokens.old ++ dedents count place line) }
{
    for _ in 0..count {
        tokens.push(token_at(TokenKind::Dedent, place, 0, line))?;
    }
    Ok(())
}

// The fault as a refusal.
fn refused<T>(fault: Fault) -> Result<T, Refusal>
    ensures { result ≡ Err (Refusal.Fault fault) }
{
    Err(Refusal::Fault(fault))
}

impl Lines {
    pub(crate) fn new(alloc: Global) -> Lines
        ensures { result ≡ record { tokens = []; levels = []; width = 0; tab = None; begun = false; newline = 1 } }
    {
        Lines {
            tokens: List::new(alloc),
            levels: Levels::new(),
            width: 0,
            tab: None,
            begun: false,
            newline: 1,
        }
    }

    #[tactic(auto, unfolding(crate::specs::Machine::blank))]
    fn blank(&mut self)
        requires { self.old.width < 2 ^ 31 }
        ensures { self.new ≡ blank self.old }
    {
        if !self.begun {
            self.width += 1;
        }
    }

    #[tactic(auto, unfolding(crate::specs::Machine::tab_in))]
    fn tab(&mut self, line: u32)
        requires { self.old.width < 2 ^ 31 }
        ensures { self.new ≡ tab_in line self.old }
    {
        if !self.begun {
            self.width += 1;
            self.tab = first_tab(self.tab, line);
        }
    }

    #[tactic(auto, unfolding(crate::specs::Machine::line_end))]
    fn line_end(&mut self, token: Token) -> Result<(), NoMemory>
        ensures { OnOk result (self.new ≡ line_end token self.old) }
    {
        if self.begun {
            self.tokens.push(token)?;
            self.newline = token.line;
        }
        self.width = 0;
        self.tab = None;
        self.begun = false;
        Ok(())
    }

    #[tactic(auto, unfolding(crate::specs::Machine::put_token))]
    fn put_token(&mut self, token: Token) -> Result<(), NoMemory>
        ensures { OnOk result (self.new ≡ put_token token self.old) }
    {
        self.tokens.push(token)?;
        Ok(())
    }

    // Opens a level at this place and line, or closes those that are wider than the line.
    #[tactic(auto, unfolding(crate::specs::Tokens::nested))]
    fn nest(&mut self, place: u32, line: u32) -> Result<(), Refusal>
        ensures { Nests result self.old self.new (nested self.old.levels self.old.width place line) }
    {
        if self.width > self.levels.innermost() {
            if self.levels.len() < MOST_LEVELS {
                self.tokens
                    .push(token_at(TokenKind::Indent, place, 0, line))?;
                self.levels.push(self.width);
                Ok(())
            } else {
                refused(fault_at(line, Kind::TooDeep))
            }
        } else {
            self.close(place, line)
        }
    }

    #[tactic(auto, unfolding(crate::specs::Tokens::closed))]
    // Closes the levels that are wider than the line; the innermost one that is left is as wide as the line.
    fn close(&mut self, place: u32, line: u32) -> Result<(), Refusal>
        ensures { Nests result self.old self.new (closed self.old.levels self.old.width place line) }
    {
        let count = self.levels.len();
        let left = self.levels.within(self.width);
        self.levels.keep(left);
        if self.levels.innermost() == self.width {
            put_dedents(&mut self.tokens, count - left, place, line)?;
            Ok(())
        } else {
            refused(fault_at(line, Kind::BadIndent))
        }
    }

    // The indentation of a line, where this is its first piece that is no blank.
    #[tactic(auto, unfolding(crate::specs::Machine::begin_line))]
    fn begin_line(&mut self, place: u32, line: u32) -> Result<(), Refusal>
        ensures { Gives result self.new (begin_line place line self.old) }
    {
        if self.begun {
            return Ok(());
        }
        match self.tab {
            Some(tab_line) => refused(fault_at(tab_line, Kind::BadIndent)),
            None => {
                self.nest(place, line)?;
                self.begun = true;
                Ok(())
            }
        }
    }

    // The piece that ends a line.
    #[tactic(auto, unfolding(crate::specs::Machine::take_piece))]
    fn take_end(&mut self, token: Token) -> Result<(), Refusal>
        ensures { Gives result self.new (take_piece (Piece.LineEnd token) self.old) }
    {
        self.line_end(token)?;
        Ok(())
    }

    // A piece that is a token.
    #[tactic(auto, unfolding(crate::specs::Machine::take_piece))]
    fn take_whole(&mut self, token: Token) -> Result<(), Refusal>
        ensures { Gives result self.new (take_piece (Piece.Whole token) self.old) }
    {
        self.begin_line(token.start, token.line)?;
        self.put_token(token)?;
        Ok(())
    }

    // A piece with a fault.
    #[tactic(auto, unfolding(crate::specs::Machine::take_piece))]
    fn take_wrong(&mut self, line: u32, fault: Fault) -> Result<(), Refusal>
        ensures { Gives result self.new (take_piece (Piece.Wrong line fault) self.old) }
    {
        match self.begin_line(0, line) {
            Ok(()) => refused(fault),
            Err(first) => {
                drop(fault);
                Err(first)
            }
        }
    }

    // One more piece.
    #[tactic(auto, unfolding(crate::specs::Machine::take_piece))]
    pub(crate) fn take(&mut self, piece: Piece) -> Result<(), Refusal>
        requires { self.old.width < 2 ^ 31 }
        ensures { Gives result self.new (take_piece piece self.old) }
    {
        match piece {
            Piece::Blank => {
                self.blank();
                Ok(())
            }
            Piece::Tab(line) => {
                self.tab(line);
                Ok(())
            }
            Piece::LineEnd(token) => self.take_end(token),
            Piece::Whole(token) => self.take_whole(token),
            Piece::Wrong(line, fault) => self.take_wrong(line, fault),
        }
    }

    // The end of the last line, which may have no LF.
    #[tactic(auto, unfolding(crate::specs::Machine::last_line))]
    fn last_line(&mut self, last: Token) -> Result<(), NoMemory>
        ensures { OnOk result (self.new ≡ last_line last self.old) }
    {
        if self.begun {
            self.line_end(last)?;
        }
        Ok(())
    }

    // The tokens with those that end the text.
    #[tactic(auto, unfolding(crate::specs::Machine::finished))]
    pub(crate) fn finish(mut self, last: Token) -> Result<List<Token>, NoMemory>
        ensures { IfOk result (λ tokens. tokens ≡ finished last self) }
    {
        self.last_line(last)?;
        let place = last.start;
        let line = self.newline;
        put_dedents(&mut self.tokens, self.levels.len(), place, line)?;
        self.tokens.push(token_at(TokenKind::End, place, 0, line))?;
        let Lines { tokens, .. } = self;
        Ok(tokens)
    }
}

// The line of the earlier tab.
fn first_tab(tab: Option<u32>, line: u32) -> Option<u32>
    ensures { result ≡ first_tab tab line }
{
    match tab {
        None => Some(line),
        Some(earlier) => Some(earlier),
    }
}
