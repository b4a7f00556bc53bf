//! The lines of an explanation: texts whose placeholders are filled with names, source positions, regions and types in the program's
//! notation. If memory runs out, no line of the explanation is written. The writing functions in this file never fail, so callers
//! need no error path.
use crate::homes::{Home, Homes, Origin};
use crate::lexicon::{Lexicon, NO_NAME};
use crate::messages::{Message, TEXTS};
use cyc_operands::Given;
use cyc_scope::Field;
use cyc_syntax::{BaseType, Ident, Member, PointerKind, WrittenType};
use cyc_types::typed::ValueType;
use cyc_types::{Region, Ty};
use cyc_words::Span;
use std::mem::replace;

const DIGITS: &[u8] = b"0123456789";

/// The maximum number of bytes that fill a placeholder: a longer name or type is truncated and ends in three dots.
const MOST_FILLED: usize = 160;

/// The maximum number of bytes that fill a placeholder once the text has `MOST_WHOLE` bytes; thus lines with many placeholders stay short.
const LEAST_FILLED: usize = 12;

/// The number of bytes of text after which placeholders are limited to `LEAST_FILLED` bytes.
const MOST_WHOLE: usize = 1200;

/// The values that fill the placeholders of messages, as last recorded.
#[derive(Drop)]
pub struct Notes {
    pub lexicon: Lexicon,
    /// The index of the current function's name in the lexicon; `NO_NAME` if there is none.
    pub function: usize,
    /// The constructs from which the regions of the current function, and of the called function, come.
    pub homes: Homes,
    pub theirs: Homes,
    /// The indices, in the lexicon, of the name that a message is about and of a second name.
    pub name: usize,
    pub other: usize,
    pub place: Span,
    /// The type of the value found, if the checker could find this type in spite of the fault, and the required type.
    pub found: Option<ValueType>,
    /// The message that tells for which purpose the value found is used.
    pub lead: Message,
    /// The variable whose value is the value found, if any; and true if the value found is an object just made by `new`.
    pub variable: usize,
    pub is_new: bool,
    pub wanted: Option<ValueType>,
    /// Two regions of the current function that a message mentions, and two regions of the called function that it mentions.
    pub regions: (Region, Region),
    pub their_regions: (Region, Region),
    /// The required count and the found count of something (such as arguments), for a message that states both counts.
    pub counts: (usize, usize),
}

/// The lines of an explanation that are written so far.
#[derive(Drop)]
pub struct Words {
    pub bytes: Vec<u8>,
    /// The text written in place of the name of each region, if this text is not empty.
    pub stand_in: &'static [u8],
    /// The number of bytes that the current placeholder may still take; unlimited outside placeholders.
    pub room: usize,
    /// True if the text for the current placeholder was longer than allowed and its end was left out.
    pub is_cut: bool,
    /// The last source position that the lines mention, if any.
    pub place: Option<Span>,
    /// True if memory never ran out while the lines were written, so that they lack no byte.
    pub is_whole: bool,
}

/// Returns a type in the form that the typing rules use; a type that the checker could not find is treated like that of
/// an expression without a value.
pub fn given(value: &Option<ValueType>) -> Given<'_> {
    match value {
        Some(ValueType::Value { of_type }) => Given::Value(of_type),
        Some(ValueType::Null) => Given::Null,
        Some(ValueType::Void) | None => Given::Void,
    }
}

fn mark_of(kind: PointerKind) -> &'static [u8] {
    match kind {
        PointerKind::Nullable => b" *",
        PointerKind::NonNull => b" @",
        PointerKind::Fat => b" ?",
    }
}

fn text_on_place(origin: Origin) -> &'static [u8] {
    match origin {
        Origin::Block => b"the region that begins at ",
        Origin::Caller | Origin::Item | Origin::Alias | Origin::Dynamic => b"a region left out at ",
    }
}

impl Words {
    // ---- texts of messages

    /// Writes the text of a message. Each `%` in the text and the letter after it are a placeholder, which is replaced by a recorded value.
    pub fn say(&mut self, notes: &Notes, message: Message) {
        let wanted = message as usize;
        let mut line = 0usize;
        let mut is_gap = false;
        for byte in TEXTS.as_bytes() {
            if *byte == b'\n' {
                line = line.saturating_add(1);
            } else if line == wanted {
                is_gap = self.say_byte(notes, *byte, is_gap);
            }
        }
    }

    /// Writes a byte of a message's text, or fills the placeholder that the byte denotes. Returns true if the next byte denotes a
    /// placeholder.
    fn say_byte(&mut self, notes: &Notes, byte: u8, is_gap: bool) -> bool {
        if is_gap {
            self.begin_gap();
            self.fill(notes, byte);
            self.end_gap();
        } else if byte != b'%' {
            self.put_byte(byte);
        }
        byte == b'%' && !is_gap
    }

    /// Begins a placeholder: the bytes written next fill the placeholder.
    fn begin_gap(&mut self) {
        let is_long = self.bytes.len() > MOST_WHOLE;
        self.room = if is_long { LEAST_FILLED } else { MOST_FILLED };
    }

    /// Ends a placeholder; three dots replace the end of its text if this was left out.
    fn end_gap(&mut self) {
        self.room = usize::MAX;
        if replace(&mut self.is_cut, false) {
            self.put(b"...");
        }
    }

    /// Fills the placeholder that the given letter denotes.
    fn fill(&mut self, notes: &Notes, letter: u8) {
        match letter {
            b'n' => self.put_name(&notes.lexicon, notes.name),
            b'o' => self.put_name(&notes.lexicon, notes.other),
            b'f' => self.put_name(&notes.lexicon, notes.function),
            b'p' => self.put_place(notes.place),
            b't' => self.put_found(notes),
            b'w' => self.put_value(notes, &notes.wanted),
            b'r' | b's' | b'a' | b'b' => self.fill_region(notes, letter),
            b'g' | b'h' | b'i' | b'j' | b'k' | b'm' | b'v' => self.fill_written(notes, letter),
            _ => self.fill_plain(notes, letter),
        }
    }

    /// Fills a placeholder with program text that the user should write.
    fn fill_written(&mut self, notes: &Notes, letter: u8) {
        match letter {
            b'g' => self.put_declared(notes),
            b'm' => self.put_made(notes),
            b'h' => self.put_in_one(notes, &notes.found, b"`r"),
            b'i' => self.put_in_one(notes, &notes.wanted, b"`r"),
            b'j' => self.put_in_one(notes, &notes.found, b"`H"),
            b'k' => self.put_in_one(notes, &notes.found, b"`a"),
            _ if notes.variable == NO_NAME => self.put_byte(b'p'),
            _ => self.put_name(&notes.lexicon, notes.variable),
        }
    }

    /// Fills a placeholder with the name or description of a region.
    fn fill_region(&mut self, notes: &Notes, letter: u8) {
        match letter {
            b'r' => self.put_of(notes, &notes.homes, notes.regions.0),
            b's' => self.put_of(notes, &notes.homes, notes.regions.1),
            b'a' => self.put_of(notes, &notes.theirs, notes.their_regions.0),
            _ => self.put_of(notes, &notes.theirs, notes.their_regions.1),
        }
    }

    /// Fills a placeholder with a number or a fixed text.
    fn fill_plain(&mut self, notes: &Notes, letter: u8) {
        match letter {
            b'c' => self.put_number(notes.counts.0),
            b'd' => self.put_number(notes.counts.1),
            b'e' if notes.counts.0 != 1 => self.put_byte(b's'),
            b'/' => self.put_byte(b'\n'),
            _ => {}
        }
    }

    fn put_byte(&mut self, byte: u8) {
        self.put(&[byte]);
    }

    /// Writes the first bytes of `bytes`, as many as the current placeholder may still take.
    fn put(&mut self, bytes: &[u8]) {
        let length = bytes.len().min(self.room);
        self.is_cut = self.is_cut || length < bytes.len();
        self.room = self.room.saturating_sub(length);
        if self.bytes.extend_from_slice(&bytes[..length]).is_err() {
            self.is_whole = false;
        }
    }

    /// Writes a number of at most ten digits.
    fn put_number(&mut self, number: usize) {
        let mut unit = 1_000_000_000usize;
        let mut is_begun = false;
        for _ in 0..10 {
            let digit = number.checked_div(unit).unwrap_or(0) % 10;
            is_begun = is_begun || digit > 0 || unit == 1;
            match DIGITS.get(digit) {
                Some(byte) if is_begun => self.put_byte(*byte),
                _ => {}
            }
            unit /= 10;
        }
    }

    fn put_place(&mut self, span: Span) {
        self.place = Some(span);
        self.put_number(span.line as usize);
        self.put_byte(b':');
        self.put_number(span.column as usize);
    }

    /// Writes the name with the given index in the lexicon.
    fn put_name(&mut self, lexicon: &Lexicon, number: usize) {
        self.put(lexicon.text(number));
    }

    // ---- regions

    /// Writes a region by its name; a region without a name is written by its source position, if the caller requests this.
    fn put_region(
        &mut self,
        lexicon: &Lexicon,
        region: Region,
        home: Option<Home>,
        is_placed: bool,
    ) {
        match region {
            _ if !self.stand_in.is_empty() => self.put(self.stand_in),
            Region::Heap => self.put(b"`H"),
            Region::Unique => self.put(b"`U"),
            Region::Variable(_) => {
                if let Some(home) = home {
                    self.put_home(lexicon, home, is_placed);
                }
            }
        }
    }

    /// Writes a region, described by the construct from which it comes, by its name and by its source position.
    fn put_home(&mut self, lexicon: &Lexicon, home: Home, is_placed: bool) {
        if let Some(name) = home.name {
            self.put_byte(b'`');
            self.put_name(lexicon, name);
        } else if is_placed {
            self.put(text_on_place(home.origin));
            self.put_place(home.span);
        }
    }

    /// Writes a region of the function whose regions come from the constructs in `homes`.
    fn put_of(&mut self, notes: &Notes, homes: &Homes, region: Region) {
        self.put_region(&notes.lexicon, region, homes.find(region), true);
    }

    /// Writes regions separated by commas.
    fn put_regions(&mut self, notes: &Notes, regions: &[Region]) {
        let mut is_first = true;
        for region in regions {
            if !is_first {
                self.put_byte(b',');
            }
            is_first = false;
            self.put_unplaced(notes, *region);
        }
    }

    /// Writes a region by its name; a region without a name is omitted.
    fn put_unplaced(&mut self, notes: &Notes, region: Region) {
        self.put_region(&notes.lexicon, region, notes.homes.find(region), false);
    }

    // ---- types

    /// Writes the type of the value found, and the name of the variable whose value it is.
    fn put_found(&mut self, notes: &Notes) {
        self.put_value(notes, &notes.found);
        if notes.variable != NO_NAME {
            self.put(b" (");
            self.put_name(&notes.lexicon, notes.variable);
            self.put_byte(b')');
        }
    }

    /// Writes the type of the value found, with the pointer kind (`*`, `@` or `?`) of the required type.
    fn put_declared(&mut self, notes: &Notes) {
        match (&notes.found, &notes.wanted) {
            (
                Some(
                    ValueType::Value {
                        of_type: Ty::Pointer { target, region, .. },
                    },
                ),
                Some(
                    ValueType::Value {
                        of_type: Ty::Pointer { kind, .. },
                    },
                ),
            ) => {
                self.put_type(notes, target);
                self.put(mark_of(*kind));
                self.put_unplaced(notes, *region);
            }
            _ => self.put_value(notes, &notes.found),
        }
    }

    /// Writes the struct type to be made, in the notation after `new`: the required type if the value is made by `new`, or else
    /// the type found.
    fn put_made(&mut self, notes: &Notes) {
        let made = if notes.is_new {
            &notes.wanted
        } else {
            &notes.found
        };
        if let Some(
            ValueType::Value {
                of_type: Ty::Pointer { target, .. },
            },
        ) = made
        {
            self.put_instance_of(notes, target);
        }
    }

    fn put_instance_of(&mut self, notes: &Notes, of_type: &Ty) {
        if let Ty::Struct { number, regions } = of_type {
            self.put_instance(notes, *number, regions);
        }
    }

    /// Writes a type, with one given text in place of the name of each region.
    fn put_in_one(&mut self, notes: &Notes, value: &Option<ValueType>, region: &'static [u8]) {
        self.stand_in = region;
        self.put_value(notes, value);
        self.stand_in = b"";
    }

    fn put_value(&mut self, notes: &Notes, value: &Option<ValueType>) {
        match value {
            Some(ValueType::Value { of_type }) => self.put_type(notes, of_type),
            Some(ValueType::Null) => self.put(b"NULL"),
            Some(ValueType::Void) | None => self.put(b"no value"),
        }
    }

    /// Writes a type in the program's notation; regions without a name are omitted.
    fn put_type(&mut self, notes: &Notes, of_type: &Ty) {
        match of_type {
            Ty::Pointer {
                kind,
                target,
                region,
            } => {
                self.put_type(notes, target);
                self.put(mark_of(*kind));
                self.put_unplaced(notes, *region);
            }
            _ => self.put_base(notes, of_type),
        }
    }

    /// Writes a type that is not a pointer.
    fn put_base(&mut self, notes: &Notes, of_type: &Ty) {
        match of_type {
            Ty::Int | Ty::Pointer { .. } => self.put(b"int"),
            Ty::Char => self.put(b"char"),
            Ty::Handle { region } => self.put_one(notes, b"region_t<", *region),
            Ty::Key { region } => self.put_one(notes, b"uregion_key_t<", *region),
            Ty::Struct { number, regions } => self.put_struct(notes, *number, regions),
        }
    }

    fn put_struct(&mut self, notes: &Notes, number: usize, regions: &[Region]) {
        self.put(b"struct ");
        self.put_instance(notes, number, regions);
    }

    /// Writes a struct's name with its region arguments, if it has any.
    fn put_instance(&mut self, notes: &Notes, number: usize, regions: &[Region]) {
        self.put_name(&notes.lexicon, notes.lexicon.struct_name(number));
        if !regions.is_empty() {
            self.put_byte(b'<');
            self.put_regions(notes, regions);
            self.put_byte(b'>');
        }
    }

    fn put_one(&mut self, notes: &Notes, open: &[u8], region: Region) {
        self.put(open);
        self.put_unplaced(notes, region);
        self.put_byte(b'>');
    }

    // ---- what is declared

    /// Writes the names of fields, separated by commas.
    pub fn put_fields(&mut self, lexicon: &Lexicon, fields: &[Field]) {
        let mut is_first = true;
        for field in fields {
            self.begin_gap();
            self.put_separated(lexicon, field.name, is_first);
            self.end_gap();
            is_first = false;
        }
    }

    /// Writes a name; a comma precedes the name unless it is the first.
    fn put_separated(&mut self, lexicon: &Lexicon, name: usize, is_first: bool) {
        if !is_first {
            self.put(b", ");
        }
        self.put_name(lexicon, name);
    }

    /// Writes the name of a function and its parameters, each with its type as written in the source.
    pub fn put_head(&mut self, lexicon: &Lexicon, function: Ident, members: &[Member]) {
        self.begin_gap();
        self.put_name(lexicon, function.name.number);
        self.put_byte(b'(');
        let mut is_first = true;
        for member in members {
            if !is_first {
                self.put(b", ");
            }
            is_first = false;
            self.put_parameter(lexicon, member);
        }
        self.put_byte(b')');
        self.end_gap();
    }

    /// Writes a parameter as in the source; the region arguments of a struct are left out.
    fn put_parameter(&mut self, lexicon: &Lexicon, member: &Member) {
        self.put_written_base(lexicon, &member.of_type.base);
        if member.of_type.marks.is_empty() {
            self.put_byte(b' ');
        }
        for mark in &member.of_type.marks {
            self.put(mark_of(mark.kind));
            if let Some(region) = mark.region {
                self.put_byte(b'`');
                self.put_name(lexicon, region.name.number);
                self.put_byte(b' ');
            }
        }
        self.put_name(lexicon, member.name.name.number);
    }

    /// Writes the type of a global in the program's notation; an omitted region is written as the heap.
    pub fn put_written(&mut self, lexicon: &Lexicon, written: &WrittenType) {
        self.begin_gap();
        self.put_written_base(lexicon, &written.base);
        for mark in &written.marks {
            self.put(mark_of(mark.kind));
            self.put_mark_region(lexicon, mark.region);
        }
        self.end_gap();
    }

    /// Writes the base of a written type, which precedes its pointer signs (`*`, `@` or `?`).
    fn put_written_base(&mut self, lexicon: &Lexicon, base: &BaseType) {
        match base {
            BaseType::Int => self.put(b"int"),
            BaseType::Char => self.put(b"char"),
            BaseType::Struct { name, .. } => {
                self.put(b"struct ");
                self.put_name(lexicon, name.name.number);
            }
            BaseType::Handle { region } | BaseType::Key { region } => {
                self.put(b"region_t<`");
                self.put_name(lexicon, region.name.number);
                self.put_byte(b'>');
            }
        }
    }

    /// Writes the name of the region after a pointer sign (`*`, `@` or `?`); an omitted region is written as the heap.
    fn put_mark_region(&mut self, lexicon: &Lexicon, region: Option<Ident>) {
        self.put_byte(b'`');
        match region {
            Some(region) => self.put_name(lexicon, region.name.number),
            None => self.put_byte(b'H'),
        }
    }
}
