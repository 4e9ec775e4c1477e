//! The numbers that C gets for results, errors and refusals. The header repeats them.

ghost use Rattle.std.specs.Prelude.{◌≡◌, IfSome, None};
ghost use Rattle.git_refusals.specs.Kinds.{kind_of};
ghost use Rattle.c_values.specs.Codes.{HasNumber, Reports, condition_number, condition_reported, error_code, error_shown, error_total, fault_number, fault_reported, kind_code, kind_number, kind_reported, no_problem, problem_of_other, problem_of_refusal, reason_number, refusal_code, refusal_problem, write_fault_number, write_problem};

use crate::tables::{number_of, numbered};
use git_parts::front::shown_front;
use gix_url::parse::UrlKind;
use gix_url::unambiguous::Condition;
use gix_url::{Error, Reason, Refusal, RefusalKind, UrlFault, WriteFault};

/// The call succeeded.
pub const OK: u32 = 0;
/// Memory was refused.
pub const MEMORY: u32 = 1;
/// The location has no text.
pub const UNWRITABLE: u32 = 8;
/// The parts aren't a location.
pub const NO_LOCATION: u32 = 101;
/// The result doesn't fit in the buffer.
pub const NO_ROOM: u32 = 102;

/// The numbers of reasons.
macro_rules! reason_numbers {
    ($direction:ident, $it:expr) => {
        $direction! {
            $it;
            1 => Reason::Empty,
            2 => Reason::SchemeTooLong,
            3 => Reason::AuthorityTooLong,
            4 => Reason::NotUtf8,
            5 => Reason::WhiteSpace,
            6 => Reason::BrokenEscape,
            7 => Reason::SchemeMissing,
            8 => Reason::SchemeStart,
            9 => Reason::SchemeCharacter,
            10 => Reason::WhiteSpaceInHost,
            11 => Reason::Backslash,
            12 => Reason::BackslashInHost,
            13 => Reason::EscapesNotUtf8,
            14 => Reason::UnclosedBracket,
            15 => Reason::BehindBracket,
            16 => Reason::NotAnAddress,
            17 => Reason::AddressWithoutBrackets,
            18 => Reason::SecondColon,
            19 => Reason::HostBeforePort,
            20 => Reason::PortNotANumber,
            21 => Reason::HostCharacter,
            22 => Reason::PortTooLarge,
            23 => Reason::PortZero,
            24 => Reason::HostBehindUser,
            25 => Reason::HostMissing,
            26 => Reason::PathMissing,
            27 => Reason::FilePathMissing,
            28 => Reason::ScpPathMissing,
        }
    };
}

/// The report about an error, apart from its number. All of it is 0 unless the export returns 2 to 8.
#[repr(C)]
#[derive(Drop)]
pub struct Problem {
    /// The form in which the text is refused: 1 a URL, 2 the scp form, 3 a local path; otherwise 0.
    pub kind: u8,
    /// The fault of a URL or of writing: 1 to 4; otherwise 0.
    pub fault: u8,
    /// The reason for which the text is refused: 1 to 28, in the order of [`gix_url::Reason`]; 0 if the error is not
    /// about reading.
    pub reason: u8,
    /// The length of the front that an error about a long text shows, in bytes; otherwise 0.
    pub shown: usize,
    /// The length of that text, in bytes; otherwise 0.
    pub total: usize,
    /// The place of the flaw in the refused text: how many bytes are before it.
    pub at: usize,
    /// The length of the flaw, in bytes.
    pub len: usize,
}

/// The number of an error.
pub(crate) fn error_code(error: &Error) -> u32
    ensures { result ≡ error_code error.now }
{
    match error {
        Error::Memory => MEMORY,
        Error::EmptyLocal => kind_code(RefusalKind::EmptyLocal),
        Error::MissingPath { .. } => kind_code(RefusalKind::MissingPath),
        Error::NotUtf8 { .. } => kind_code(RefusalKind::NotUtf8),
        Error::TooLong { .. } => kind_code(RefusalKind::TooLong),
        Error::BadUrl { fault, .. } => kind_code(RefusalKind::BadUrl(*fault)),
        Error::HelperName { .. } => 7,
        Error::Unwritable(_) => UNWRITABLE,
        Error::NoHome(_) => 9,
        Error::PathNotUtf8 => 10,
        Error::Unresolved => 11,
    }
}

/// The report about an error. An error about reading has the reason and the place of the flaw.
pub(crate) fn problem_of(error: &Error) -> Problem
    ensures { Reports error.now result }
{
    match error.refusal() {
        Some(refusal) => problem_with(&refusal, shown_of(error), total_of(error)),
        None => problem_of_other(error),
    }
}

/// The report about an error that is not about reading.
fn problem_of_other(error: &Error) -> Problem
    ensures { result ≡ problem_of_other error.now }
{
    match error {
        Error::Unwritable(fault) => unwritable(*fault),
        _ => no_problem(),
    }
}

/// The length of the front that an error shows.
fn shown_of(error: &Error) -> usize
    ensures { result ≡ error_shown error.now }
{
    match error {
        Error::TooLong { shown, .. } => shown.len(),
        _ => 0,
    }
}

/// The length of a text that is too long, or 0.
fn total_of(error: &Error) -> usize
    ensures { result ≡ error_total error.now }
{
    match error {
        Error::TooLong { total, .. } => *total,
        _ => 0,
    }
}

/// The number of a refusal, which is that of its error.
pub fn refusal_code(refusal: &Refusal) -> u32
    ensures { result ≡ refusal_code refusal.now }
{
    kind_code(refusal.reason.kind())
}

/// The number of a kind of refusal.
fn kind_code(kind: RefusalKind) -> u32
    ensures { result ≡ kind_code kind }
{
    match kind {
        RefusalKind::EmptyLocal => 2,
        RefusalKind::MissingPath => 3,
        RefusalKind::NotUtf8 => 4,
        RefusalKind::TooLong => 5,
        RefusalKind::BadUrl(_) => 6,
    }
}

/// The report about the refusal of a text.
pub fn problem_of_refusal(text: &[u8], refusal: &Refusal) -> Problem
    ensures { result ≡ problem_of_refusal text.now refusal.now }
{
    match refusal.reason.kind() {
        RefusalKind::TooLong => problem_with(refusal, shown_front(text, refusal).len(), text.len()),
        _ => problem_with(refusal, 0, 0),
    }
}

/// The report about a refusal, with these lengths of the front and the text.
fn problem_with(refusal: &Refusal, shown: usize, total: usize) -> Problem
    ensures { result ≡ refusal_problem refusal.now shown total }
{
    Problem {
        kind: kind_reported(refusal),
        fault: fault_reported(refusal),
        reason: reason_number(refusal.reason),
        shown,
        total,
        at: refusal.at,
        len: refusal.len,
    }
}

/// The report about an error that is only a number.
pub fn no_problem() -> Problem
    ensures { result ≡ no_problem }
{
    Problem {
        kind: 0,
        fault: 0,
        reason: 0,
        shown: 0,
        total: 0,
        at: 0,
        len: 0,
    }
}

/// The report about a location without a text.
pub(crate) fn unwritable(fault: WriteFault) -> Problem
    ensures { result ≡ write_problem fault }
{
    Problem {
        fault: write_fault_number(fault),
        ..no_problem()
    }
}

/// The number of the form in which a text is refused, or 0.
fn kind_reported(refusal: &Refusal) -> u8
    ensures { result ≡ kind_reported refusal.now.form (kind_of refusal.now.reason) }
{
    match refusal.reason.kind() {
        RefusalKind::EmptyLocal | RefusalKind::TooLong => 0,
        RefusalKind::MissingPath | RefusalKind::NotUtf8 | RefusalKind::BadUrl(_) => {
            kind_number(refusal.form)
        }
    }
}

/// The number of the fault for which a URL is refused, or 0.
fn fault_reported(refusal: &Refusal) -> u8
    ensures { result ≡ fault_reported (kind_of refusal.now.reason) }
{
    match refusal.reason.kind() {
        RefusalKind::BadUrl(fault) => fault_number(fault),
        _ => 0,
    }
}

/// The number of a reason.
fn reason_number(reason: Reason) -> u8
    ensures { result ≡ reason_number reason }
{
    reason_numbers!(number_of, reason)
}

/// The reason with this number.
pub fn reason_numbered(number: u8) -> Option<Reason>
    ensures found { IfSome result (λ reason. reason_number reason ≡ number) }
    ensures none { result ≡ None → ¬ HasNumber reason_number number }
{
    reason_numbers!(numbered, number)
}

/// The number of the first condition that a location doesn't meet, or 0 if it meets all.
pub fn condition_reported(unmet: Option<Condition>) -> u8
    ensures { result ≡ condition_reported unmet }
{
    match unmet {
        None => 0,
        Some(condition) => condition_number(condition),
    }
}

/// The number of a condition.
fn condition_number(condition: Condition) -> u8
    ensures { result ≡ condition_number condition }
{
    match condition {
        Condition::Git => 1,
        Condition::Escapes => 2,
        Condition::Host => 3,
        Condition::User => 4,
        Condition::Password => 5,
        Condition::Port => 6,
        Condition::PathBytes => 7,
        Condition::PathStart => 8,
        Condition::DotSegment => 9,
        Condition::ScpHost => 10,
        Condition::ScpPath => 11,
    }
}

/// The number of a form.
fn kind_number(kind: UrlKind) -> u8
    ensures { result ≡ kind_number kind }
{
    match kind {
        UrlKind::Url => 1,
        UrlKind::Scp => 2,
        UrlKind::Local => 3,
    }
}

/// The number of a fault of a URL.
fn fault_number(fault: UrlFault) -> u8
    ensures { result ≡ fault_number fault }
{
    match fault {
        UrlFault::NoScheme => 1,
        UrlFault::BadPort => 2,
        UrlFault::BadCharacter => 3,
        UrlFault::HostRequired => 4,
    }
}

/// The number of a fault of writing.
fn write_fault_number(fault: WriteFault) -> u8
    ensures { result ≡ write_fault_number fault }
{
    match fault {
        WriteFault::HelperName => 1,
        WriteFault::HelperParts => 2,
        WriteFault::RelativeSsh => 3,
        WriteFault::UserWithoutHost => 4,
    }
}
