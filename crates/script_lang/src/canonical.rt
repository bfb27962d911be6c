// The canonical lines of events.
ghost use Rattle.std.specs.Prelude.{◌≡◌, ◌≤◌, ◌<◌, ◌+◌, ◌*◌, ◌++◌, length, take, drop, decimal};
ghost use Rattle.std.specs.List.{flat_map};
ghost use Rattle.script_texts.specs.Limits.{FitsEvent};
ghost use Rattle.script_texts.specs.Script.{IsShort, Spells};
ghost use Rattle.script_texts.specs.Texts.{line_of, on_or_off, escaped, octal, field};
ghost use Rattle.script_texts.specs.declared.event.Event.{Event as AnEvent};
ghost use Rattle.script_texts.specs.declared.event.Event.TheVariants.{Login as ALogin, TypeIn as ATypeIn, Words as AWords, Poke as APoke, Start as AStart, Examine as AnExamine, Page as APage};
ghost use Rattle.script_lang.specs.Canonical.{Adds};

use crate::digits::{DECIMAL_DIGITS, decimal, escaped, octal};
use crate::names::{MOST_FILE, MOST_USER};
use crate::rows::MOST_WORDS;
use line_buffer::MOST_LINE;
use machine_names::{DirName, FileName, Tty, TypedText};
use script_texts::{Event, WordRow};
use word36::{WORD_DIGITS, Word};

/// Room for the longest line, without its line feed.
pub type LineRoom = [u8; MOST_LINE];

/// Writes the canonical line of an event, without its line feed, at the front of the room, and answers
/// its length. What lies behind it stays.
pub fn write_line(e: &Event, room: &mut LineRoom) -> usize
    requires { FitsEvent e.now }
    ensures length { result ≡ length (line_of e.now) }
    ensures line { take result room.new ≡ line_of e.now }
    ensures stays { drop result room.new ≡ drop result room.old }
{
    match e {
        Event::Login(t, user) => write_login(room, *t, user),
        Event::TypeIn(t, text) => write_type(room, *t, text),
        Event::File(name) => write_text(room, b"FILE ", name.as_slice()),
        Event::Words(name, page, offset, row) => write_words(room, name, *page, *offset, row),
        Event::Poke(t, address, word) => write_poke(room, *t, *address, *word),
        Event::Start(t, address) => write_start(room, *t, *address),
        Event::Run(n) => write_number(room, b"RUN ", *n),
        Event::Tick => add(room, 0, b"TICK"),
        Event::Evict(n) => write_number(room, b"EVICT ", *n),
        Event::Drum(n) => write_number(room, b"DRUM ", *n),
        Event::Auto(on) => write_text(room, b"AUTO ", on_or_off(*on)),
        Event::Examine(t, serial, address) => write_examine(room, *t, *serial, *address),
        Event::Forks(t) => write_number(room, b"FORKS ", u32::from(t.0)),
        Event::Page(name, page) => write_page(room, name, *page),
        Event::Trace(on) => write_text(room, b"TRACE ", on_or_off(*on)),
    }
}

/// The canonical line of an event spells it and no other event has it, and it is a line of a script: it has no
/// line feed in it and at most MOST_LINE bytes.
pub fn canonical_lines()
    ensures spells { (e : AnEvent) → FitsEvent e → Spells (line_of e) e }
    ensures apart { (e f : AnEvent) → FitsEvent e → FitsEvent f → line_of e ≡ line_of f → e ≡ f }
    ensures line { (e : AnEvent) → FitsEvent e → IsShort (line_of e) }
{}

// The word of a switch.
fn on_or_off(on: bool) -> &'static [u8]
    ensures value { result.now ≡ on_or_off on }
    ensures short { length result.now ≤ 3 }
{
    if on { b"ON" } else { b"OFF" }
}

// A keyword and a text.
fn write_text(room: &mut LineRoom, keyword: &[u8], text: &[u8]) -> usize
    requires { length keyword.now + length text.now ≤ MOST_LINE }
    ensures { Adds room.old room.new 0 result (keyword.now ++ text.now) }
{
    let at = add(room, 0, keyword);
    add(room, at, text)
}

// A keyword and a number.
fn write_number(room: &mut LineRoom, keyword: &[u8], n: u32) -> usize
    requires { length keyword.now + DECIMAL_DIGITS ≤ MOST_LINE }
    ensures value { Adds room.old room.new 0 result (keyword.now ++ decimal n) }
    ensures short { result ≤ length keyword.now + DECIMAL_DIGITS }
{
    let at = add(room, 0, keyword);
    add_decimal(room, at, n)
}

// A user who logs in.
fn write_login(room: &mut LineRoom, t: Tty, user: &DirName) -> usize
    requires { length user.now ≤ MOST_USER }
    ensures { Adds room.old room.new 0 result (line_of (ALogin t user.now)) }
{
    let at = write_number(room, b"LOGIN ", u32::from(t.0));
    add_field(room, at, user.as_slice())
}

// A word that is put at an address.
fn write_poke(room: &mut LineRoom, t: Tty, address: u32, word: Word) -> usize
    ensures { Adds room.old room.new 0 result (line_of (APoke t address word)) }
{
    let at = write_number(room, b"POKE ", u32::from(t.0));
    let at = add_octal(room, at, u64::from(address));
    add_octal(room, at, word.value())
}

// A start at an address.
fn write_start(room: &mut LineRoom, t: Tty, address: u32) -> usize
    ensures { Adds room.old room.new 0 result (line_of (AStart t address)) }
{
    let at = write_number(room, b"START ", u32::from(t.0));
    add_octal(room, at, u64::from(address))
}

// A word to be shown.
fn write_examine(room: &mut LineRoom, t: Tty, serial: u32, address: u32) -> usize
    ensures { Adds room.old room.new 0 result (line_of (AnExamine t serial address)) }
{
    let at = write_number(room, b"EXAMINE ", u32::from(t.0));
    let at = add(room, at, b" ");
    let at = add_decimal(room, at, serial);
    add_octal(room, at, u64::from(address))
}

// A page to be shown.
fn write_page(room: &mut LineRoom, name: &FileName, page: u16) -> usize
    requires { length name.now ≤ MOST_FILE }
    ensures { Adds room.old room.new 0 result (line_of (APage name.now page)) }
{
    let at = write_text(room, b"PAGE ", name.as_slice());
    add_octal(room, at, u64::from(page))
}

// Characters that are typed.
fn write_type(room: &mut LineRoom, t: Tty, text: &TypedText) -> usize
    requires { length (line_of (ATypeIn t text.now)) ≤ MOST_LINE }
    ensures { Adds room.old room.new 0 result (line_of (ATypeIn t text.now)) }
{
    let at = write_number(room, b"TYPE ", u32::from(t.0));
    let at = add(room, at, b" ");
    add_escaped(room, at, text.as_slice())
}

// Words that go into a file's page.
fn write_words(room: &mut LineRoom, name: &FileName, page: u16, offset: u16, row: &WordRow) -> usize
    requires name { length name.now ≤ MOST_FILE }
    requires count { row.now.count ≤ MOST_WORDS }
    ensures { Adds room.old room.new 0 result (line_of (AWords name.now page offset row.now)) }
{
    let at = write_text(room, b"WORDS ", name.as_slice());
    let at = add_octal(room, at, u64::from(page));
    let at = add_octal(room, at, u64::from(offset));
    add_row(room, at, &row.words[..usize::from(row.count)])
}

// Puts a text into the room behind so many bytes, and answers where it ends.
fn add(room: &mut LineRoom, at: usize, text: &[u8]) -> usize
    requires { at + length text.now ≤ MOST_LINE }
    ensures { Adds room.old room.new at result text.now }
{
    let end = at + text.len();
    room[at..end].copy_from_slice(text);
    end
}

// Puts the decimal digits of a number behind so many bytes.
fn add_decimal(room: &mut LineRoom, at: usize, n: u32) -> usize
    requires { at + DECIMAL_DIGITS ≤ MOST_LINE }
    ensures value { Adds room.old room.new at result (decimal n) }
    ensures short { result ≤ at + DECIMAL_DIGITS }
{
    let digits = decimal(u64::from(n));
    add(room, at, digits.as_slice())
}

// Puts a space and a text behind so many bytes.
fn add_field(room: &mut LineRoom, at: usize, text: &[u8]) -> usize
    requires { at + length text.now < MOST_LINE }
    ensures { Adds room.old room.new at result (field text.now) }
{
    let at = add(room, at, b" ");
    add(room, at, text)
}

// Puts a space and the octal digits of a number below 2^36 behind so many bytes.
fn add_octal(room: &mut LineRoom, at: usize, n: u64) -> usize
    requires { at + WORD_DIGITS < MOST_LINE }
    ensures value { Adds room.old room.new at result (field (octal n)) }
    ensures short { result ≤ at + WORD_DIGITS + 1 }
{
    let digits = octal(n);
    add_field(room, at, digits.as_slice())
}

// Puts typed characters behind so many bytes.
fn add_escaped(room: &mut LineRoom, at: usize, text: &[u8]) -> usize
    requires { at + length (flat_map escaped text.now) ≤ MOST_LINE }
    ensures { Adds room.old room.new at result (flat_map escaped text.now) }
{
    let mut at = at;
    for c in text {
        let c = escaped(*c);
        at = add(room, at, c.as_slice());
    }
    at
}

// Puts words as octal fields behind so many bytes.
fn add_row(room: &mut LineRoom, at: usize, words: &[Word]) -> usize
    requires count { length words.now ≤ MOST_WORDS }
    requires room { at + MOST_WORDS * (WORD_DIGITS + 1) ≤ MOST_LINE }
    ensures { Adds room.old room.new at result (flat_map (λ w. field (octal w)) words.now) }
{
    let mut at = at;
    for word in words {
        at = add_octal(room, at, word.value());
    }
    at
}
