// Whether what is told repeats a denial or a refused login.
ghost use Rattle.std.specs.Prelude.{◌≡◌, true};
ghost use Rattle.mgs_model.specs.Rights.{bit_of};
ghost use Rattle.mgs_ledger.specs.Counting.{cause_number, is_countable, is_denial_of, is_denied_by, is_granted, is_more_of, is_not_granted, is_one_like, is_refusal_of, is_repeat, is_unnamed_refusal_of, is_user, same_cause, same_decision, same_kind, same_user};

use crate::batch::EventKind;
use mgs_journal::Told;
use mgs_model::{Decision, Name, Right};
use mgs_wire::Refusal;

fn cause_number(cause: Refusal) -> u8
    ensures { result ≡ cause_number cause }
{
    match cause {
        Refusal::Line => 1,
        Refusal::NoUser => 2,
        Refusal::Ticket => 3,
        Refusal::Size => 4,
        Refusal::Full => 5,
        Refusal::Short => 6,
    }
}

fn is_same_cause(a: Refusal, b: Refusal) -> bool
    ensures { result ≡ same_cause a b }
{
    cause_number(a) == cause_number(b)
}

fn is_denied_by(entry: usize, bit: Right, decision: Decision) -> bool
    ensures { result ≡ is_denied_by entry (bit_of bit) decision }
{
    match decision {
        Decision::DeniedBy {
            entry: other,
            bit: right,
        } => { entry == other && bit.bit() == right.bit() }
        Decision::Granted | Decision::NotGranted { bit: _ } => false,
    }
}

fn is_not_granted(bit: Right, decision: Decision) -> bool
    ensures { result ≡ is_not_granted (bit_of bit) decision }
{
    match decision {
        Decision::NotGranted { bit: right } => bit.bit() == right.bit(),
        Decision::Granted | Decision::DeniedBy { entry: _, bit: _ } => false,
    }
}

fn is_granted(decision: Decision) -> bool
    ensures { result ≡ is_granted decision }
{
    match decision {
        Decision::Granted => true,
        Decision::DeniedBy { entry: _, bit: _ } | Decision::NotGranted { bit: _ } => false,
    }
}

fn is_same_decision(a: Decision, b: Decision) -> bool
    ensures { result ≡ same_decision a b }
{
    match a {
        Decision::Granted => is_granted(b),
        Decision::DeniedBy { entry, bit } => is_denied_by(entry, bit, b),
        Decision::NotGranted { bit } => is_not_granted(bit, b),
    }
}

fn is_denial_of(user: &Name, buffer: &Name, decision: Decision, told: Told) -> bool
    ensures { result ≡ is_denial_of user.now buffer.now decision told }
{
    match told {
        Told::Denied(other, b, d) => {
            *user == other && (*buffer == b && is_same_decision(decision, d))
        }
        _ => false,
    }
}

fn is_refusal_of(user: &Name, cause: Refusal, told: Told) -> bool
    ensures { result ≡ is_refusal_of user.now cause told }
{
    match told {
        Told::Refused(other, c) => *user == other && is_same_cause(cause, c),
        _ => false,
    }
}

fn is_unnamed_refusal_of(cause: Refusal, told: Told) -> bool
    ensures { result ≡ is_unnamed_refusal_of cause told }
{
    match told {
        Told::RefusedUnnamed(c) => is_same_cause(cause, c),
        _ => false,
    }
}

fn compare(told: Told, other: Told) -> bool
    ensures { result ≡ is_repeat told other }
{
    match told {
        Told::Denied(user, buffer, decision) => is_denial_of(&user, &buffer, decision, other),
        Told::Refused(user, cause) => is_refusal_of(&user, cause, other),
        Told::RefusedUnnamed(cause) => is_unnamed_refusal_of(cause, other),
        _ => false,
    }
}

// Whether two denials, or two refused logins, are equal. Nothing else is counted with its like.
#[tactic(auto, using(crate::proofs::Repeats::repeats_are_equal, crate::proofs::Repeats::equal_repeats))]
fn is_repeat(told: Told, other: Told) -> bool
    ensures value { result ≡ is_repeat told other }
    ensures same { result ≡ true → told ≡ other }
    ensures all { told ≡ other → is_countable told ≡ true → result ≡ true }
{
    compare(told, other)
}

fn is_user(name: &Name, user: &Option<Name>) -> bool
    ensures { result ≡ is_user name.now user.now }
{
    match user {
        Some(other) => *name == *other,
        None => false,
    }
}

/// Whether two users are one, or there is none both times.
pub(crate) fn is_same_user(a: &Option<Name>, b: &Option<Name>) -> bool
    ensures { result ≡ same_user a.now b.now }
{
    match a {
        Some(name) => is_user(name, b),
        None => b.is_none(),
    }
}

fn is_one_like(told: Told, kind: EventKind) -> bool
    ensures { result ≡ is_one_like told kind }
{
    match kind {
        EventKind::One(other) => is_repeat(told, other),
        EventKind::More(_) => false,
    }
}

fn is_more_of(user: &Option<Name>, kind: EventKind) -> bool
    ensures { result ≡ is_more_of user.now kind }
{
    match kind {
        EventKind::One(_) => false,
        EventKind::More(other) => is_same_user(user, &other),
    }
}

/// Whether events of both kinds are counted together.
pub(crate) fn is_same_kind(a: EventKind, b: EventKind) -> bool
    ensures { result ≡ same_kind a b }
{
    match a {
        EventKind::One(told) => is_one_like(told, b),
        EventKind::More(user) => is_more_of(&user, b),
    }
}
