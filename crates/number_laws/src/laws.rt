// What the constants are that definitions name. A law does nothing when it runs.
ghost use Rattle.std.specs.Prelude.{◌≡◌, ◌^◌, [], ◌∷◌, codes};
ghost use Rattle.asm_core.specs.Names.{calls};
ghost use Rattle.plain_files.specs.Bytes.{most_bytes};

use asm_core::PROGRAM_BYTES;
use command_words::LEAST_DRUM_PAGES;
use command_words::LEAST_FRAMES;
use command_words::MOST_FRAMES;
use command_words::STANDARD_DRUM_PAGES;
use command_words::STANDARD_FRAMES;
use machine_names::PAGE_ADDRESSES;
use machine_names::QUANTUM;
use machine_names::character::CARRIAGE_RETURN;
use machine_names::character::LINE_END;
use machine_names::character::LINE_FEED;
use machine_names::character::PROMPT;
use outside::MOST_DRUM_PAGES;
use outside::PAGE_WORDS;
use page_homes::MOST_HOMES;
use plain_files::LARGEST_BYTE;
use plain_files::MOST_JFNS;
use plain_model::MOST_PASSED;
use plain_model::call::AIC;
use plain_model::call::ATI;
use plain_model::call::BAD_CODE;
use plain_model::call::BAD_NAME;
use plain_model::call::BAD_PAGE;
use plain_model::call::BAD_POSITION;
use plain_model::call::BAD_SIZE;
use plain_model::call::BIN;
use plain_model::call::BOUT;
use plain_model::call::CFORK;
use plain_model::call::CLOSF;
use plain_model::call::DEBRK;
use plain_model::call::DELF;
use plain_model::call::DIC;
use plain_model::call::DIR;
use plain_model::call::DISMS;
use plain_model::call::DTI;
use plain_model::call::EIR;
use plain_model::call::FFORK;
use plain_model::call::FILE_IN_USE;
use plain_model::call::FILE_TO_FILE;
use plain_model::call::FILES_FULL;
use plain_model::call::FIRST_HANDLE;
use plain_model::call::FORK_SELF;
use plain_model::call::FORK_SUPERIOR;
use plain_model::call::FORKS_FULL;
use plain_model::call::GETER;
use plain_model::call::GTJFN;
use plain_model::call::HALTF;
use plain_model::call::HFORK;
use plain_model::call::IIC;
use plain_model::call::JFN_OPEN;
use plain_model::call::JFNS_FULL;
use plain_model::call::KFORK;
use plain_model::call::LAST_HANDLE;
use plain_model::call::NO_FILE;
use plain_model::call::NO_HANDLE;
use plain_model::call::NO_INFERIOR;
use plain_model::call::NO_JFN;
use plain_model::call::NO_PAGE;
use plain_model::call::NO_ROOM;
use plain_model::call::NOT_OPEN;
use plain_model::call::OPENF;
use plain_model::call::PBIN;
use plain_model::call::PBOUT;
use plain_model::call::PMAP;
use plain_model::call::PSOUT;
use plain_model::call::RFACS;
use plain_model::call::RFORK;
use plain_model::call::RFPTR;
use plain_model::call::RFSTS;
use plain_model::call::RLJFN;
use plain_model::call::RMAP;
use plain_model::call::RPACS;
use plain_model::call::RUNTM;
use plain_model::call::SERIALS_OUT;
use plain_model::call::SFACS;
use plain_model::call::SFORK;
use plain_model::call::SFPTR;
use plain_model::call::SIN;
use plain_model::call::SIR;
use plain_model::call::SIZEF;
use plain_model::call::SOUT;
use plain_model::call::SPACS;
use plain_model::call::TERMINAL_INPUT;
use plain_model::call::TERMINAL_OUTPUT;
use plain_model::call::TIME;
use plain_model::call::UNITS_A_TICK;
use plain_model::call::WFORK;
use plain_model::command::START_WORD;
use plain_model::interrupt::CHANNELS;
use plain_model::interrupt::LEVELS;
use plain_model::text::MOST_BYTES;
use plain_model::text::SEVEN_BIT_POINTER;
use plain_model::text::SHORT_POINTER;
use plain_typing::ASSIGNABLE_CODES;
use plain_typing::BELL;
use plain_typing::CONTROL_C;
use plain_typing::MOST_STORED;
use plain_units::MOST_REFERENCES;
use plain_units::channel::DENIED_EXECUTE;
use plain_units::channel::DENIED_READ;
use plain_units::channel::DENIED_WRITE;
use plain_units::channel::DRUM_FULL;
use plain_units::channel::END_OF_FILE;
use plain_units::channel::ILLEGAL_INSTRUCTION;
use plain_units::channel::INFERIOR_ENDED;
use plain_units::channel::OVERFLOW;
use plain_units::channel::PUSHDOWN_OVERFLOW;
use share_table::MOST_SHARES;

/// The characters with a meaning of their own: the end of a line, as it is read and as it is printed; the prompt; control-C; and the bell.
pub fn characters_are_these()
    ensures lines { LINE_END ∷ CARRIAGE_RETURN ∷ LINE_FEED ∷ [] ≡ 0o37 ∷ 0o15 ∷ 0o12 ∷ [] }
    ensures monitor { PROMPT ∷ CONTROL_C ∷ BELL ∷ [] ≡ 0o100 ∷ 0o3 ∷ 0o7 ∷ [] }
{}

/// How much there is of each thing: characters that are stored, codes that may be assigned, JFNs of a job, bits of a word, words of a page,
/// references of a unit, channels and levels, bytes of a name that is read and of a program's text, and the word of a program's first page that says where it starts.
pub fn bounds_are_these()
    ensures typing { MOST_STORED ∷ ASSIGNABLE_CODES ∷ [] ≡ 80 ∷ 0o33 ∷ [] }
    ensures files { MOST_JFNS ∷ LARGEST_BYTE ∷ PAGE_WORDS ∷ PAGE_ADDRESSES ∷ [] ≡ 20 ∷ 36 ∷ 512 ∷ 512 ∷ [] }
    ensures room { most_bytes 36 ≡ 2 ^ 18 }
    ensures units { MOST_REFERENCES ∷ CHANNELS ∷ LEVELS ∷ [] ≡ 16 ∷ 36 ∷ 3 ∷ [] }
    ensures texts { MOST_BYTES ∷ PROGRAM_BYTES ∷ START_WORD ∷ [] ≡ 40 ∷ 1048576 ∷ 0o120 ∷ [] }
{}

/// A quantum has 200 units, and fewer than 96,000 entries of a RUN in a row pass over a fork that can run.
pub fn turns_are_this_long()
    ensures { QUANTUM ∷ MOST_PASSED ∷ [] ≡ 200 ∷ 96000 ∷ [] }
{}

/// How many frames and how many pages of the drum a run may have, and has where no word says: at least, at most, and then. As many pages and
/// maps have a home, and may be shared, as the largest drum has pages.
pub fn sizes_are_these()
    ensures frames { LEAST_FRAMES ∷ MOST_FRAMES ∷ STANDARD_FRAMES ∷ [] ≡ 160 ∷ 8192 ∷ 256 ∷ [] }
    ensures drum { LEAST_DRUM_PAGES ∷ MOST_DRUM_PAGES ∷ STANDARD_DRUM_PAGES ∷ [] ≡ 256 ∷ 16384 ∷ 2048 ∷ [] }
    ensures homes { MOST_HOMES ∷ MOST_SHARES ∷ [] ≡ 16384 ∷ 16384 ∷ [] }
{}

/// The numbers of the monitor calls.
pub fn calls_have_these_numbers()
    ensures clock { TIME ∷ RUNTM ∷ DISMS ∷ [] ≡ 0o14 ∷ 0o15 ∷ 0o167 ∷ [] }
    ensures files { GETER ∷ GTJFN ∷ OPENF ∷ CLOSF ∷ RLJFN ∷ DELF ∷ [] ≡ 0o12 ∷ 0o20 ∷ 0o21 ∷ 0o22 ∷ 0o23 ∷ 0o26 ∷ [] }
    ensures bytes { SFPTR ∷ SIZEF ∷ RFPTR ∷ BIN ∷ BOUT ∷ PBIN ∷ PBOUT ∷ [] ≡ 0o27 ∷ 0o36 ∷ 0o43 ∷ 0o50 ∷ 0o51 ∷ 0o73 ∷ 0o74 ∷ [] }
    ensures strings { SIN ∷ SOUT ∷ PSOUT ∷ [] ≡ 0o52 ∷ 0o53 ∷ 0o76 ∷ [] }
    ensures maps { PMAP ∷ RPACS ∷ SPACS ∷ RMAP ∷ [] ≡ 0o56 ∷ 0o57 ∷ 0o60 ∷ 0o61 ∷ [] }
    ensures interrupts { SIR ∷ EIR ∷ DIR ∷ AIC ∷ IIC ∷ DIC ∷ DEBRK ∷ ATI ∷ DTI ∷ [] ≡ 0o125 ∷ 0o126 ∷ 0o130 ∷ 0o131 ∷ 0o132 ∷ 0o133 ∷ 0o136 ∷ 0o137 ∷ 0o140 ∷ [] }
    ensures forks { CFORK ∷ KFORK ∷ FFORK ∷ RFORK ∷ RFSTS ∷ SFORK ∷ SFACS ∷ RFACS ∷ HFORK ∷ WFORK ∷ HALTF ∷ [] ≡ 0o152 ∷ 0o153 ∷ 0o154 ∷ 0o155 ∷ 0o156 ∷ 0o157 ∷ 0o160 ∷ 0o161 ∷ 0o162 ∷ 0o163 ∷ 0o170 ∷ [] }
    ensures tick { UNITS_A_TICK ≡ 1 }
{}

/// The names of the calls, as a program's text has them, mean these numbers.
pub fn names_of_calls_mean_their_numbers()
    ensures { calls ≡
        (codes "GETER", GETER) ∷ (codes "TIME", TIME) ∷ (codes "RUNTM", RUNTM) ∷ (codes "GTJFN", GTJFN) ∷ (codes "OPENF", OPENF) ∷
        (codes "CLOSF", CLOSF) ∷ (codes "RLJFN", RLJFN) ∷ (codes "DELF", DELF) ∷ (codes "SFPTR", SFPTR) ∷ (codes "SIZEF", SIZEF) ∷
        (codes "RFPTR", RFPTR) ∷ (codes "BIN", BIN) ∷ (codes "BOUT", BOUT) ∷ (codes "SIN", SIN) ∷ (codes "SOUT", SOUT) ∷
        (codes "PMAP", PMAP) ∷ (codes "RPACS", RPACS) ∷ (codes "SPACS", SPACS) ∷ (codes "RMAP", RMAP) ∷ (codes "PBIN", PBIN) ∷
        (codes "PBOUT", PBOUT) ∷ (codes "PSOUT", PSOUT) ∷ (codes "SIR", SIR) ∷ (codes "EIR", EIR) ∷ (codes "DIR", DIR) ∷
        (codes "AIC", AIC) ∷ (codes "IIC", IIC) ∷ (codes "DIC", DIC) ∷ (codes "DEBRK", DEBRK) ∷ (codes "ATI", ATI) ∷
        (codes "DTI", DTI) ∷ (codes "CFORK", CFORK) ∷ (codes "KFORK", KFORK) ∷ (codes "FFORK", FFORK) ∷ (codes "RFORK", RFORK) ∷
        (codes "RFSTS", RFSTS) ∷ (codes "SFORK", SFORK) ∷ (codes "SFACS", SFACS) ∷ (codes "RFACS", RFACS) ∷ (codes "HFORK", HFORK) ∷
        (codes "WFORK", WFORK) ∷ (codes "DISMS", DISMS) ∷ (codes "HALTF", HALTF) ∷ [] }
{}

/// The codes of the errors, as accumulator 1 and GETER tell them.
pub fn errors_have_these_codes()
    ensures forks { NO_HANDLE ∷ NO_INFERIOR ∷ FORKS_FULL ∷ SERIALS_OUT ∷ NO_ROOM ∷ [] ≡ 0o600001 ∷ 0o600002 ∷ 0o600003 ∷ 0o600004 ∷ 0o600005 ∷ [] }
    ensures files { NO_JFN ∷ NOT_OPEN ∷ JFN_OPEN ∷ NO_FILE ∷ BAD_NAME ∷ FILES_FULL ∷ JFNS_FULL ∷ FILE_IN_USE ∷ [] ≡ 0o600006 ∷ 0o600007 ∷ 0o600010 ∷ 0o600011 ∷ 0o600012 ∷ 0o600013 ∷ 0o600014 ∷ 0o600015 ∷ [] }
    ensures others { BAD_PAGE ∷ NO_PAGE ∷ BAD_SIZE ∷ BAD_POSITION ∷ BAD_CODE ∷ FILE_TO_FILE ∷ [] ≡ 0o600016 ∷ 0o600017 ∷ 0o600020 ∷ 0o600021 ∷ 0o600022 ∷ 0o600023 ∷ [] }
{}

/// The handles of forks, the JFNs of the terminal, and how a short pointer is written out.
pub fn handles_are_these()
    ensures forks { FORK_SELF ∷ FORK_SUPERIOR ∷ FIRST_HANDLE ∷ LAST_HANDLE ∷ [] ≡ 0o400000 ∷ 0o777777 ∷ 0o400001 ∷ 0o400036 ∷ [] }
    ensures terminal { TERMINAL_INPUT ∷ TERMINAL_OUTPUT ∷ [] ≡ 0o100 ∷ 0o101 ∷ [] }
    ensures pointers { SHORT_POINTER ∷ SEVEN_BIT_POINTER ∷ [] ≡ 0o777777 ∷ 0o440700 ∷ [] }
{}

/// The channels that the machine posts by itself.
pub fn channels_have_these_numbers()
    ensures results { OVERFLOW ∷ PUSHDOWN_OVERFLOW ∷ END_OF_FILE ∷ [] ≡ 6 ∷ 9 ∷ 10 ∷ [] }
    ensures traps { ILLEGAL_INSTRUCTION ∷ DENIED_READ ∷ DENIED_WRITE ∷ DENIED_EXECUTE ∷ DRUM_FULL ∷ [] ≡ 15 ∷ 16 ∷ 17 ∷ 18 ∷ 20 ∷ [] }
    ensures ends { INFERIOR_ENDED ≡ 19 }
{}
