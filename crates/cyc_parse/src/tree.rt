//! Turns the tokens of a text into its tree, or into its fault.
ghost use Rattle.std.specs.Prelude.{◌≡◌, ◌≤◌, ◌⊎◌, [], ◌∷◌, length, map, fold, All, Ok, IfOk, IfErr, OnOk};
ghost use Rattle.cyc_words.specs.Decision.{Decides};
ghost use Rattle.cyc_words.specs.Fault.{memory_fault};
ghost use Rattle.cyc_syntax.specs.Names.{with_text, distinct_texts};
ghost use Rattle.cyc_syntax.specs.Tokens.{token_of};
ghost use Rattle.cyc_syntax.specs.TokenRule.{LiesIn, AreTokensOf, max_bytes};
ghost use Rattle.cyc_syntax.specs.Symbols.{texts_in, symbol_of};
ghost use Rattle.cyc_syntax.specs.inside.TreeView.{place_of_span, view_declaration, declarations_of};
ghost use Rattle.cyc_syntax.specs.inside.Weight.{tree_weight};
ghost use Rattle.cyc_parse.specs.inside.Code.{Gives, view_reason, view_symbol};
ghost use Rattle.cyc_parse.specs.Faults.{end_of, code_of, fault_of};
ghost use Rattle.cyc_parse.specs.inside.Answers.{whole_program, IsAnswer};
ghost use Rattle.cyc_parse.specs.inside.Answers as answers;
ghost use Rattle.cyc_parse.specs.Acceptance.{IsAccepted, IsRefused, IsFaulty};

use crate::cursor::Parser;
use crate::stop::{Reason, Stop};
use crate::symbol::{Symbol, Terminal};
use cyc_syntax::{Declaration, Names, Token, TokenKind, Tree, place_after};
use cyc_words::{Code, Fault, Span};
use std::alloc::{AllocError, Global};

/// Parses the tokens of a text into its tree, or returns its fault.
///
/// A token is rejected if no program continues with it. A token is also rejected if it is nested too deep, or if it begins one element
/// more than the maximal number in a list. The end of the text is rejected if its tokens are not yet a program. Any growth of the tree
/// may fail for lack of memory.
pub fn parse(alloc: Global, tokens: &[Token], text: &[u8]) -> Result<Tree, Fault>
    requires short { length text.now ≤ max_bytes }
    requires tokens { AreTokensOf text.now tokens.now }
    // An accepted text has a tree, which `parse` returns. A fault holds for the reason that its code gives, at its source position. A
    // program that breaks a limit is rejected for the first limit that it breaks.
    ensures decides { Decides (IsAccepted (map (token_of text.now) tokens.now)) (λ tree t. declarations_of t ≡ tree)
        (IsRefused text.now (map (token_of text.now) tokens.now)) (IsFaulty text.now (map (token_of text.now) tokens.now)) result }
    // Names are numbered in the order of the first occurrence of their texts.
    ensures names { IfOk result (λ t. t.names ≡ distinct_texts (texts_in (map (token_of text.now) tokens.now))) }
    // The weight of a tree is the number of its tokens.
    ensures weight { IfOk result (λ t. tree_weight (declarations_of t) ≡ length tokens.now) }
{
    answer(alloc, tokens, text)
}

/// Returns the result of the parser of symbols, as the tree or the fault of a text.
fn answer(alloc: Global, tokens: &[Token], text: &[u8]) -> Result<Tree, Fault>
    requires short { length text.now ≤ max_bytes }
    requires tokens { AreTokensOf text.now tokens.now }
    ensures { IsAnswer text.now (map (token_of text.now) tokens.now) result }
{
    let mut names = Names::new(alloc)?;
    let symbols = symbols_of_tokens(alloc, tokens, text, &mut names)?;
    let declarations = declarations_of(alloc, &symbols, text)?;
    Ok(Tree {
        declarations,
        names,
    })
}

// ---- from tokens to symbols

/// Returns the symbol of a token. The name of the token, if it has one, is interned.
fn symbol_of_token(token: Token, text: &[u8], names: &mut Names) -> Result<Symbol, AllocError>
    requires { LiesIn text.now token }
    ensures names { OnOk result (names.new ≡ fold with_text names.old (texts_in (token_of text.now token ∷ []))) }
    ensures symbol { IfOk result (λ s. view_symbol s ≡ symbol_of names.new (token_of text.now token)) }
{
    let spelling = &text[token.start..token.end];
    let terminal = match token.kind {
        TokenKind::Identifier => Terminal::Identifier(names.intern(spelling)?),
        TokenKind::RegionName => Terminal::RegionName(names.intern(&spelling[1..])?),
        TokenKind::Number(value) => Terminal::Number(value),
        TokenKind::Character(value) => Terminal::Character(value),
        TokenKind::Keyword(word) => Terminal::Word(word),
        TokenKind::Sign(sign) => Terminal::Mark(sign),
    };
    Ok(Symbol {
        terminal,
        span: token.span,
    })
}

/// Returns the symbols of tokens, in which each name is identified by a number, in the order of the names' first occurrence.
fn symbols_of_tokens(
    alloc: Global,
    tokens: &[Token],
    text: &[u8],
    names: &mut Names,
) -> Result<Vec<Symbol>, AllocError>
    requires { All (LiesIn text.now) tokens.now }
    ensures names { OnOk result (names.new ≡ fold with_text names.old (texts_in (map (token_of text.now) tokens.now))) }
    ensures symbols { IfOk result (λ v. map view_symbol v.items ≡ map (symbol_of names.new) (map (token_of text.now) tokens.now)) }
{
    let mut symbols = Vec::with_capacity(alloc, tokens.len())?;
    for token in tokens {
        let symbol = symbol_of_token(*token, text, names)?;
        symbols.push(symbol)?;
    }
    Ok(symbols)
}

// ---- from symbols to declarations

/// Returns the declarations that the symbols spell, or the fault in the given text.
#[tactic(auto, using(crate::proofs::Ends::whole_ends))]
fn declarations_of(
    alloc: Global,
    symbols: &[Symbol],
    text: &[u8],
) -> Result<Vec<Declaration>, Fault>
    requires { length text.now ≤ max_bytes }
    ensures read { IfOk result (λ v. whole_program (map view_symbol symbols.now) ≡ Ok (map view_declaration v.items, [])) }
    ensures refused { IfErr result (λ f. (f ≡ memory_fault) ⊎ answers.IsRefused (end_of text.now) (map view_symbol symbols.now) f) }
{
    let mut parser = Parser::new(alloc, symbols);
    match parser.parse_whole_program() {
        Ok(declarations) => Ok(declarations),
        Err(Stop::Memory) => Err(Fault::memory()),
        Err(Stop::Refused(reason)) => {
            let end = place_after(Span { line: 1, column: 1 }, text);
            Err(parser.fault(reason, end))
        }
    }
}

impl<'a> Parser<'a> {
    /// Parses a program that must consume all symbols.
    fn parse_whole_program(&mut self) -> Result<Vec<Declaration>, Stop>
        ensures { Gives (λ v. map view_declaration v.items) result (whole_program self.old) self.new }
    {
        let declarations = self.parse_program()?;
        match self.next() {
            Some(_) => Err(Stop::Refused(Reason::Unexpected)),
            None => Ok(declarations),
        }
    }

    fn code(&self, reason: Reason) -> Code
        ensures { result ≡ code_of (view_reason reason) self.now }
    {
        match (reason, self.next()) {
            (Reason::Unexpected, None) => Code::UnexpectedEnd,
            (Reason::Unexpected, Some(_)) => Code::UnexpectedToken,
            (Reason::TooDeep, _) => Code::NestingTooDeep,
            (Reason::TooLong, _) => Code::ListTooLong,
        }
    }

    /// Returns the fault for a rejection at the next symbol, in a text that ends at the given position.
    fn fault(&self, reason: Reason, end: Span) -> Fault
        ensures { result ≡ fault_of (place_of_span end) (record { reason = view_reason reason; left = self.now }) }
    {
        let place = self.place(end);
        Fault::new(self.code(reason), place.line, place.column)
    }
}
