//! Joins a program with the library declarations that it needs to one text: the program's own text, and then the needed declarations. A
//! library declaration is needed if its name occurs as a token in the program or in a needed declaration.
use cyc_places::Part;
use cyc_syntax::{Keyword, Names, Sign, Token, TokenKind};
use cyc_words::Span;
use std::alloc::{AllocError, Global};

/// A library file, whose declarations programs may use.
#[derive(Drop)]
pub struct Library<'a> {
    pub name: &'a str,
    pub text: Vec<u8>,
    pub tokens: Vec<Token>,
}

/// A declaration of a library: the library's index, and the range of the declaration's tokens.
#[derive(Clone, Copy)]
struct Declaration {
    library: usize,
    first: usize,
    end: usize,
    is_reached: bool,
}

/// The facts recorded about a name: its declarations in a library and in the program, and a flag. The flag is true once the search for
/// the needed library declarations has reached the name.
#[derive(Clone, Copy)]
struct Known {
    /// The library declaration that declares the name, if any.
    declared_by: Option<usize>,
    /// The source position at which the program itself declares the name, if it does.
    own: Option<Span>,
    was_met: bool,
}

/// The reasons for which a program cannot be joined with libraries.
#[derive(Clone, Copy)]
pub enum Clash {
    Memory,
    /// Two libraries declare the same name; `token` is the index of the name's token in the second library.
    Twice {
        first: usize,
        second: usize,
        token: usize,
    },
    /// The program declares, at `own`, a name that a library also declares. A needed library declaration uses this name at the
    /// token with index `token`; `by` is the index of the token with the name that this library declaration declares.
    Taken {
        own: Span,
        declared_in: usize,
        library: usize,
        token: usize,
        by: usize,
    },
}

impl From<AllocError> for Clash {
    fn from(_error: AllocError) -> Clash {
        Clash::Memory
    }
}

/// Appends an element to a list.
fn put<T: Drop>(list: &mut Vec<T>, item: T) -> Result<(), AllocError> {
    list.push(item)?;
    Ok(())
}

/// Returns the bytes of a token in the source text.
pub fn spelled<'a>(text: &'a [u8], token: &Token) -> &'a [u8] {
    text.get(token.start..token.end).unwrap_or(&[])
}

/// Returns by how much a token increases the nesting depth of brackets; a closing bracket returns -1.
fn deeper(kind: TokenKind) -> i64 {
    match kind {
        TokenKind::Sign(Sign::LeftParen | Sign::LeftBracket | Sign::LeftBrace) => 1,
        TokenKind::Sign(Sign::RightParen | Sign::RightBracket | Sign::RightBrace) => -1,
        _ => 0,
    }
}

/// Returns true if the first tokens of a declaration are those of a function declaration; of the other declarations, only exceptions
/// contain parentheses.
fn is_function(tokens: &[Token]) -> bool {
    let mut has_bracket = false;
    for token in tokens {
        has_bracket = has_bracket || token.kind == TokenKind::Sign(Sign::LeftParen);
    }
    match tokens.first() {
        Some(token) => has_bracket && token.kind != TokenKind::Keyword(Keyword::Datatype),
        None => false,
    }
}

/// Returns true if a token outside all brackets ends the declaration at the start of a token list; a function declaration ends with its
/// body.
fn ends_declaration(tokens: &[Token], place: usize, kind: TokenKind) -> bool {
    match kind {
        TokenKind::Sign(Sign::Semicolon) => true,
        TokenKind::Sign(Sign::RightBrace) => is_function(tokens.get(..place).unwrap_or(&[])),
        _ => false,
    }
}

/// Returns the end of the declaration at the start of a token list, if it ends.
fn end_of_declaration(tokens: &[Token]) -> Option<usize> {
    let mut depth: i64 = 0;
    for (place, token) in tokens.iter().enumerate() {
        depth = depth.saturating_add(deeper(token.kind));
        if depth == 0 && ends_declaration(tokens, place, token.kind) {
            return Some(place.saturating_add(1));
        }
    }
    None
}

/// Returns true if a token of an exception declaration is the name of an exception, that is, follows a brace or a semicolon.
fn is_constructor(tokens: &[Token], place: usize) -> bool {
    match place.checked_sub(1).and_then(|before| tokens.get(before)) {
        Some(token) => matches!(
            token.kind,
            TokenKind::Sign(Sign::LeftBrace | Sign::Semicolon)
        ),
        None => false,
    }
}

/// Returns true if the token is one that comes directly after the name in a declaration of a function or global.
fn ends_name(kind: TokenKind) -> bool {
    matches!(
        kind,
        TokenKind::Sign(Sign::LeftParen | Sign::Assign | Sign::Semicolon)
    )
}

/// Returns true if the tokens declare a struct, rather than a function or global with a struct type.
fn is_struct(tokens: &[Token]) -> bool {
    matches!(
        tokens,
        [first, _, brace, ..] if first.kind == TokenKind::Keyword(Keyword::Struct)
            && matches!(brace.kind, TokenKind::Sign(Sign::LeftBrace | Sign::Less))
    ) && matches!(
        tokens,
        [.., brace, _] if brace.kind == TokenKind::Sign(Sign::RightBrace)
    )
}

/// Returns the index of the name among the tokens of a function or global declaration: the last token before its parentheses or its value.
fn place_of_name(tokens: &[Token]) -> usize {
    let mut found: usize = 0;
    for (place, token) in tokens.iter().enumerate() {
        if ends_name(token.kind) {
            return found;
        }
        if token.kind == TokenKind::Identifier {
            found = place;
        }
    }
    found
}

/// Returns true if the token at an index declares a name for the whole program.
fn declares(tokens: &[Token], place: usize) -> bool {
    match tokens.first() {
        Some(token) if token.kind == TokenKind::Keyword(Keyword::Datatype) => {
            is_constructor(tokens, place)
        }
        _ if is_struct(tokens) => place == 1,
        _ => place == place_of_name(tokens),
    }
}

/// The declarations of all libraries, with a flag for each declaration that a program needs.
#[derive(Drop)]
pub struct Shelf<'a> {
    alloc: Global,
    libraries: Vec<Library<'a>>,
    declarations: Vec<Declaration>,
    names: Names,
    /// The facts recorded about each name, indexed by the number that identifies the name.
    known: Vec<Known>,
}

impl<'a> Shelf<'a> {
    /// Returns a collection of the given libraries, whose declarations have not been found yet.
    pub fn new(alloc: Global, libraries: Vec<Library<'a>>) -> Result<Shelf<'a>, AllocError> {
        Ok(Shelf {
            alloc,
            libraries,
            declarations: Vec::new(alloc),
            names: Names::new(alloc)?,
            known: Vec::new(alloc),
        })
    }

    /// Finds the declarations of all libraries.
    pub fn split(&mut self) -> Result<(), Clash> {
        for library in 0..self.libraries.len() {
            self.split_one(library)?;
        }
        Ok(())
    }

    /// The libraries.
    pub fn libraries(&self) -> &[Library<'a>] {
        self.libraries.as_slice()
    }

    /// Returns the tokens of a library from index `first` to index `end`.
    fn tokens(&self, library: usize, first: usize, end: usize) -> &[Token] {
        match self.libraries.get(library) {
            Some(library) => {
                let end = end.min(library.tokens.len());
                library.tokens.get(first..end).unwrap_or(&[])
            }
            None => &[],
        }
    }

    /// Returns the number that identifies a name; a new name gets the next number.
    fn number_of(&mut self, name: &[u8]) -> Result<usize, AllocError> {
        let number = self.names.intern(name)?.number;
        if number >= self.known.len() {
            self.known.push(Known {
                declared_by: None,
                own: None,
                was_met: false,
            })?;
        }
        Ok(number)
    }

    /// Returns the number that identifies the name at a token of a library, if the token is a name.
    fn name_at(&mut self, library: usize, place: usize) -> Result<Option<usize>, AllocError> {
        let Some(found) = self.libraries.get(library) else {
            return Ok(None);
        };
        match found.tokens.get(place) {
            Some(token) if token.kind == TokenKind::Identifier => {
                let name = Vec::from_slice(self.alloc, spelled(&found.text, token))?;
                Ok(Some(self.number_of(&name)?))
            }
            _ => Ok(None),
        }
    }

    /// Finds the declarations of one library.
    fn split_one(&mut self, library: usize) -> Result<(), Clash> {
        let mut first: usize = 0;
        for _ in 0..u32::MAX {
            let Some(length) = end_of_declaration(self.tokens(library, first, usize::MAX)) else {
                return Ok(());
            };
            let end = first.saturating_add(length);
            self.add(Declaration {
                library,
                first,
                end,
                is_reached: false,
            })?;
            first = end;
        }
        Ok(())
    }

    /// Adds a library declaration, and records the names that it declares.
    fn add(&mut self, declaration: Declaration) -> Result<(), Clash> {
        let Declaration {
            library,
            first,
            end,
            ..
        } = declaration;
        let number = self.declarations.len();
        put(&mut self.declarations, declaration)?;
        for place in first..end {
            let is_name = declares(
                self.tokens(library, first, end),
                place.saturating_sub(first),
            );
            if !is_name {
                continue;
            }
            if let Some(name) = self.name_at(library, place)? {
                self.note(name, number, library, place)?;
            }
        }
        Ok(())
    }

    /// Records that a library declaration declares a name.
    fn note(
        &mut self,
        name: usize,
        number: usize,
        library: usize,
        token: usize,
    ) -> Result<(), Clash> {
        let Some(known) = self.known.get_mut(name) else {
            return Ok(());
        };
        let before = known.declared_by;
        known.declared_by = Some(number);
        match before.and_then(|before| self.declarations.get(before)) {
            Some(declaration) => Err(Clash::Twice {
                first: declaration.library,
                second: library,
                token,
            }),
            None => Ok(()),
        }
    }
}

// ---- what a program needs

impl Shelf<'_> {
    /// Records the names that the program itself declares.
    fn note_own(&mut self, text: &[u8], tokens: &[Token]) -> Result<(), AllocError> {
        let mut rest = tokens;
        for _ in 0..tokens.len() {
            let Some(length) = end_of_declaration(rest) else {
                return Ok(());
            };
            let declaration = rest.get(..length).unwrap_or(&[]);
            for (place, token) in declaration.iter().enumerate() {
                if token.kind == TokenKind::Identifier && declares(declaration, place) {
                    let number = self.number_of(spelled(text, token))?;
                    if let Some(known) = self.known.get_mut(number) {
                        known.own = Some(token.span);
                    }
                }
            }
            rest = rest.get(length..).unwrap_or(&[]);
        }
        Ok(())
    }

    /// Returns the library declaration of a name and marks the declaration as needed, if the search for needed declarations reaches the
    /// name for the first time.
    fn meet(&mut self, name: usize) -> Option<usize> {
        let known = self.known.get_mut(name)?;
        if known.was_met {
            return None;
        }
        known.was_met = true;
        let number = known.declared_by?;
        let declaration = self.declarations.get_mut(number)?;
        if declaration.is_reached {
            return None;
        }
        declaration.is_reached = true;
        Some(number)
    }

    /// If both the program and a library declare a name, returns the source position of the program's declaration and the library.
    fn taken(&self, name: usize) -> Option<(Span, usize)> {
        let known = self.known.get(name)?;
        let declaration = self.declarations.get(known.declared_by?)?;
        Some((known.own?, declaration.library))
    }

    /// Adds the names in a needed declaration to the list of names whose declarations are still to be looked up.
    fn follow(&mut self, number: usize, names: &mut Vec<usize>) -> Result<(), Clash> {
        let Some(declaration) = self.declarations.get(number) else {
            return Ok(());
        };
        let Declaration {
            library,
            first,
            end,
            ..
        } = *declaration;
        for token in first..end {
            let Some(name) = self.name_at(library, token)? else {
                continue;
            };
            if let Some((own, declared_in)) = self.taken(name) {
                let named = self.tokens(library, first, end);
                let by = match named.first() {
                    Some(begin) if begin.kind == TokenKind::Keyword(Keyword::Datatype) => 3,
                    _ if is_struct(named) => 1,
                    _ => place_of_name(named),
                };
                return Err(Clash::Taken {
                    own,
                    declared_in,
                    library,
                    token,
                    by: first.saturating_add(by),
                });
            }
            put(names, name)?;
        }
        Ok(())
    }

    /// Finds the library declarations that a program needs.
    pub fn reach(&mut self, text: &[u8], tokens: &[Token]) -> Result<(), Clash> {
        self.note_own(text, tokens)?;
        let mut names = Vec::new(self.alloc);
        for token in tokens {
            if token.kind == TokenKind::Identifier {
                let name = self.number_of(spelled(text, token))?;
                match self.known.get(name) {
                    Some(known) if known.own.is_some() => {}
                    _ => put(&mut names, name)?,
                }
            }
        }
        // The search looks up the declaration of each name at most once, so the number of iterations is at most the number of tokens.
        for _ in 0..u64::MAX {
            let Some(name) = names.pop() else {
                return Ok(());
            };
            if let Some(number) = self.meet(name) {
                self.follow(number, &mut names)?;
            }
        }
        Ok(())
    }

    /// Returns the bytes of a library declaration, and the line on which it begins.
    fn bytes_of(&self, declaration: &Declaration) -> (&[u8], u32) {
        let tokens = self.tokens(declaration.library, declaration.first, declaration.end);
        match (
            self.libraries.get(declaration.library),
            tokens.first(),
            tokens.last(),
        ) {
            (Some(library), Some(first), Some(last)) => {
                let bytes = library.text.get(first.start..last.end);
                (bytes.unwrap_or(&[]), first.span.line)
            }
            _ => (&[], 1),
        }
    }
}

/// Returns the number of line feeds among some bytes.
fn count_lines(bytes: &[u8]) -> u32 {
    let mut count: u32 = 0;
    for byte in bytes {
        if *byte == b'\n' {
            count = count.saturating_add(1);
        }
    }
    count
}

/// A joined text, with a list of the stretches of lines that come from other files.
#[derive(Drop)]
pub struct Joined<'a> {
    pub text: Vec<u8>,
    pub parts: Vec<Part<'a>>,
    /// The number of the line to which the next byte is added.
    line: u32,
}

impl<'a> Joined<'a> {
    /// Returns a joined text that consists of one file only.
    pub fn alone(alloc: Global, text: Vec<u8>) -> Joined<'a> {
        Joined {
            line: count_lines(&text).saturating_add(1),
            text,
            parts: Vec::new(alloc),
        }
    }

    /// Adds bytes at the end of the joined text.
    fn add(&mut self, bytes: &[u8]) -> Result<(), AllocError> {
        self.text.extend_from_slice(bytes)?;
        self.line = self.line.saturating_add(count_lines(bytes));
        Ok(())
    }
}

impl<'a> Shelf<'a> {
    /// Returns the text of a program, followed by the library declarations that it needs.
    pub fn join(&self, text: Vec<u8>) -> Result<Joined<'a>, AllocError> {
        let mut joined = Joined::alone(self.alloc, text);
        for declaration in &self.declarations {
            if !declaration.is_reached {
                continue;
            }
            let (bytes, line) = self.bytes_of(declaration);
            if joined.parts.is_empty() && joined.text.last() != Some(&b'\n') {
                joined.add(b"\n")?;
            }
            joined.add(b"\n")?;
            let first = joined.line;
            if let Some(library) = self.libraries.get(declaration.library) {
                joined.parts.push(Part {
                    first,
                    name: library.name,
                    line,
                })?;
            }
            joined.add(bytes)?;
            joined.add(b"\n")?;
        }
        Ok(joined)
    }
}
