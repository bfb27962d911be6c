// Lines that a user types to the monitor.
use crate::same::same;
use exec_cmd::read;
use machine_names::{DirName, FileName};
use plain_typing::Command;
use std::process::Abort;

// A line of the user SMITH asks for this.
fn asks(rt: &impl Abort, line: &[u8], command: Command) {
    same(rt, read(line, &DirName::new(b"SMITH")), command);
}

#[test]
fn words_alone(rt: HostRuntime) {
    asks(&rt, b"", Command::Blank);
    asks(&rt, b"   ", Command::Blank);
    asks(&rt, b"START", Command::Start);
    asks(&rt, b"  Start ", Command::Start);
    asks(&rt, b"continue", Command::Continue);
    asks(&rt, b"DIRECTORY", Command::Directory);
    asks(&rt, b"LOGOUT", Command::Logout);
}

#[test]
fn words_with_names(rt: HostRuntime) {
    let hello = FileName::new(b"<SMITH>HELLO.SAV");
    let plain = FileName::new(b"<SMITH>HELLO.");
    let edit = FileName::new(b"<SYS>EDIT.SAV");
    asks(&rt, b"RUN HELLO", Command::Run(hello));
    asks(&rt, b" run   hello ", Command::Run(hello));
    asks(&rt, b"RUN HELLO.SAV", Command::Run(hello));
    asks(&rt, b"RUN HELLO.", Command::Run(plain));
    asks(&rt, b"RUN <SYS>EDIT", Command::Run(edit));
    asks(&rt, b"DELETE HELLO", Command::Delete(plain));
    asks(&rt, b"delete <smith>hello.sav", Command::Delete(hello));
}

const NONE: [&[u8]; 12] = [
    b"ANN",
    b"RUN",
    b"DELETE",
    b"RUN HELLO NOW",
    b"RUNHELLO",
    b"RUN HELL_O",
    b"START 100",
    b"LOGOUT NOW",
    b"STAR",
    b"STARTS",
    b"RUN\tHELLO",
    // The full name has 40 characters, and without SAV 37.
    b"RUN ABCDEFGHIJKLMNOPQRSTUVWXYZ012",
];

#[test]
fn no_commands(rt: HostRuntime) {
    for &line in &NONE {
        asks(&rt, line, Command::Unknown);
    }
}
