// The family of calls that has a number.
ghost use Rattle.std.specs.Prelude.{◌≡◌};
ghost use Rattle.call_turns.specs.Families.{family_of};

use plain_model::call::{
    AIC, ATI, BIN, BOUT, CFORK, CLOSF, DEBRK, DELF, DIC, DIR, DISMS, DTI, EIR, FFORK, GETER, GTJFN,
    HALTF, HFORK, IIC, KFORK, OPENF, PBIN, PBOUT, PMAP, PSOUT, RFACS, RFORK, RFPTR, RFSTS, RLJFN,
    RMAP, RPACS, RUNTM, SFACS, SFORK, SFPTR, SIN, SIR, SIZEF, SOUT, SPACS, TIME, WFORK,
};

/// A family of calls: those that are asked with the same, and whose changes are of one kind.
#[derive(Clone, Copy)]
pub enum CallFamily {
    /// It prints.
    Printing,
    Forks,
    /// Those on pseudo-interrupts.
    Interrupts,
    Clock,
    Maps,
    /// It changes the fork that calls alone.
    Errors,
    Jfns,
    Bytes,
    Strings,
}

/// The family that has the call of a number. None: it is no call.
pub fn family_of(number: u32) -> Option<CallFamily>
    ensures { result ≡ family_of number }
{
    match number {
        PBOUT => Some(CallFamily::Printing),
        CFORK | KFORK | FFORK | RFORK | RFSTS | SFORK | SFACS | RFACS | HFORK | WFORK | HALTF => {
            Some(CallFamily::Forks)
        }
        SIR | EIR | DIR | AIC | IIC | DIC | DEBRK | ATI | DTI => Some(CallFamily::Interrupts),
        TIME | RUNTM | DISMS => Some(CallFamily::Clock),
        PMAP | RPACS | SPACS | RMAP => Some(CallFamily::Maps),
        GETER => Some(CallFamily::Errors),
        GTJFN | OPENF | CLOSF | RLJFN | DELF => Some(CallFamily::Jfns),
        SFPTR | SIZEF | RFPTR | BIN | BOUT | PBIN => Some(CallFamily::Bytes),
        SIN | SOUT | PSOUT => Some(CallFamily::Strings),
        _ => None,
    }
}
