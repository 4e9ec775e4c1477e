//! The request to Secure Shell by its numbers, and the words of a command. With 102 only the numbers are reported.

ghost use Rattle.std.specs.Prelude.{◌≡◌, ◌<◌, IfOk, IfSome, None, length, map};
ghost use Rattle.std.specs.List.{concat};
ghost use Rattle.bstr.specs.Owned.{bstring_bytes};
ghost use Rattle.git_rules.specs.SecureShell.{ssh_refusal};
ghost use Rattle.git_rules.specs.declared.ssh.program.ProgramVariant.TheVariants.{Known};
ghost use Rattle.c_values.specs.Codes.{UnlessMemory, memory};
ghost use Rattle.c_values.specs.Left.{LeavesLengths, LeavesBuffer};
ghost use Rattle.c_values.specs.ProgramNumbers.{variant_number};
ghost use Rattle.c_values.specs.WordNumbers.{IsNoFamily, IsNoRequest, PutsWords, ReportsWords, family_numbered, refusal_number, refused_numbers, request_passed, service_numbered, variable_number, variant_numbered, version_number, version_numbered};

use crate::buffer::write_both;
use crate::codes::{MEMORY, OK};
use crate::input::present;
use crate::tables::{number_of, numbered};
use bstr::BString;
use git_rules::ssh::{
    AddressFamily, ProtocolVersion, Service, SshCommand, SshRefusal, SshRequest, SshVariant,
    ssh_command_for,
};
use gix_url::UrlRef;
use std::alloc::{AllocError, Global};

/// The numbers of the versions of Git's protocol.
macro_rules! version_numbers {
    ($direction:ident, $it:expr) => {
        $direction! { $it; 0 => ProtocolVersion::V0, 1 => ProtocolVersion::V1, 2 => ProtocolVersion::V2, }
    };
}

/// The numbers of the variants of Secure Shell.
macro_rules! variant_numbers {
    ($direction:ident, $it:expr) => {
        $direction! {
            $it;
            0 => SshVariant::Ssh,
            1 => SshVariant::Simple,
            2 => SshVariant::Plink,
            3 => SshVariant::Putty,
            4 => SshVariant::TortoisePlink,
        }
    };
}

/// The request to Secure Shell, apart from the location, as `gix_url_c_ssh_words` takes it. The bytes of a
/// missing program are ignored.
#[repr(C)]
#[derive(Clone, Copy)]
pub struct RequestBytes<'a> {
    /// The program that the server runs in place of the service.
    pub program: &'a [u8],
    /// Whether there is such a program.
    pub has_program: bool,
    /// The service: 0 `git-upload-pack`, 1 `git-receive-pack`, 2 `git-upload-archive`.
    pub service: u8,
    /// The program that runs on this machine: 0 OpenSSH, 1 `simple`, 2 `plink`, 3 `putty`, 4 `tortoiseplink`.
    pub variant: u8,
    /// The version of Git's protocol: 0 to 2.
    pub version: u8,
    /// The version of IP: 0 any, 4 or 6.
    pub family: u8,
}

/// The report of `gix_url_c_ssh_words` about a command, apart from its words.
#[repr(C)]
#[derive(Clone, Copy)]
pub struct WordNumbers {
    /// Why there is no command: 1 to 16, and then all else is 0; 0 if there is one.
    pub refusal: u8,
    /// The version for the environment variable `GIT_PROTOCOL`; 0 if it isn't set.
    pub git_protocol: u8,
    /// The number of words.
    pub words: usize,
    /// The length of all words together.
    pub bytes: usize,
}

/// Copies and reports the words of the command for the location, or reports why there is none.
pub fn write_command(
    alloc: Global,
    url: &UrlRef<'_>,
    request: &SshRequest<'_>,
    built: &mut WordNumbers,
    buffer: &mut [u8],
    lengths: &mut [usize],
) -> u32
    ensures reported { UnlessMemory result
        (ReportsWords url.now request.now built.new buffer.old buffer.new lengths.old lengths.new result) }
    ensures buffer { LeavesBuffer result buffer.old buffer.new }
    ensures lengths { LeavesBuffer result lengths.old lengths.new }
    ensures numbers { LeavesLengths result built.old built.new }
    ensures allocates { (result ≡ memory) → ssh_refusal request.now url.now ≡ None }
{
    match ssh_command_for(url, request) {
        Ok(command) => write_words(alloc, &command, built, buffer, lengths),
        Err(refusal) => {
            *built = refused_numbers(refusal);
            OK
        }
    }
}

/// Copies and reports the words of a command.
fn write_words(
    alloc: Global,
    command: &SshCommand<'_>,
    built: &mut WordNumbers,
    buffer: &mut [u8],
    lengths: &mut [usize],
) -> u32
    ensures reported { UnlessMemory result
        (PutsWords command.now built.new buffer.old buffer.new lengths.old lengths.new result) }
    ensures buffer { LeavesBuffer result buffer.old buffer.new }
    ensures lengths { LeavesBuffer result lengths.old lengths.new }
    ensures numbers { LeavesLengths result built.old built.new }
{
    let Ok(words) = command.to_words(alloc) else {
        return MEMORY;
    };
    let Ok(bytes) = joined_words(alloc, &words) else {
        return MEMORY;
    };
    let Ok(measured) = word_lengths(alloc, &words) else {
        return MEMORY;
    };
    *built = WordNumbers {
        refusal: 0,
        git_protocol: variable_number(command),
        words: words.len(),
        bytes: bytes.len(),
    };
    write_both(&bytes, &measured, buffer, lengths)
}

/// The bytes of the words, one after the other.
fn joined_words(alloc: Global, words: &[BString]) -> Result<Vec<u8>, AllocError>
    ensures { IfOk result (λ bytes. bytes.items ≡ concat (map bstring_bytes words.now)) }
{
    let mut bytes = Vec::new(alloc);
    for word in words {
        bytes.extend_from_slice(word.as_bytes())?;
    }
    Ok(bytes)
}

/// The lengths of the words.
fn word_lengths(alloc: Global, words: &[BString]) -> Result<Vec<usize>, AllocError>
    ensures { IfOk result (λ lengths. lengths.items ≡ map length (map bstring_bytes words.now)) }
{
    let mut lengths = Vec::with_capacity(alloc, words.len())?;
    for word in words {
        lengths.push(word.as_bytes().len())?;
    }
    Ok(lengths)
}

/// The numbers of a location that has no command, for this reason.
fn refused_numbers(refusal: SshRefusal) -> WordNumbers
    ensures { result ≡ refused_numbers refusal }
{
    WordNumbers {
        refusal: refusal_number(refusal),
        git_protocol: 0,
        words: 0,
        bytes: 0,
    }
}

/// The version for the environment variable of a command, or 0.
fn variable_number(command: &SshCommand<'_>) -> u8
    ensures { result ≡ variable_number command.now }
{
    match command.git_protocol() {
        None => 0,
        Some(_) => version_number(command.version),
    }
}

/// The number of a version.
fn version_number(version: ProtocolVersion) -> u8
    ensures { result ≡ version_number version }
{
    version_numbers!(number_of, version)
}

/// The request, unless one of its numbers has no meaning.
pub fn request_of<'a>(passed: &RequestBytes<'a>) -> Option<SshRequest<'a>>
    ensures built { IfSome result (λ request. request ≡ request_passed passed.now) }
    ensures whole { IfSome result (λ _. ¬ IsNoRequest passed.now) }
    ensures refused { result ≡ None → IsNoRequest passed.now }
{
    Some(SshRequest {
        service: service_numbered(passed.service)?,
        program: present(passed.has_program, passed.program),
        variant: variant_numbered(passed.variant)?,
        version: version_numbered(passed.version)?,
        family: family_numbered(passed.family)?,
    })
}

/// The service with this number.
fn service_numbered(number: u8) -> Option<Service>
    ensures built { IfSome result (λ service. service ≡ service_numbered number) }
    ensures known { IfSome result (λ _. ¬ (2 < number)) }
    ensures refused { result ≡ None → 2 < number }
{
    match number {
        0 => Some(Service::UploadPack),
        1 => Some(Service::ReceivePack),
        2 => Some(Service::UploadArchive),
        _ => None,
    }
}

/// The variant with this number.
fn variant_numbered(number: u8) -> Option<SshVariant>
    ensures built { IfSome result (λ variant. variant ≡ variant_numbered number) }
    ensures known { IfSome result (λ _. ¬ (4 < number)) }
    ensures refused { result ≡ None → 4 < number }
{
    variant_numbers!(numbered, number)
}

/// The number of a variant that is known.
pub(crate) fn known_variant_number(variant: SshVariant) -> u8
    ensures { result ≡ variant_number (Known variant) }
{
    variant_numbers!(number_of, variant)
}

/// The version with this number.
fn version_numbered(number: u8) -> Option<ProtocolVersion>
    ensures built { IfSome result (λ version. version ≡ version_numbered number) }
    ensures known { IfSome result (λ _. ¬ (2 < number)) }
    ensures refused { result ≡ None → 2 < number }
{
    version_numbers!(numbered, number)
}

/// The version of IP with this number.
fn family_numbered(number: u8) -> Option<AddressFamily>
    ensures built { IfSome result (λ family. family ≡ family_numbered number) }
    ensures known { IfSome result (λ _. ¬ IsNoFamily number) }
    ensures refused { result ≡ None → IsNoFamily number }
{
    match number {
        0 => Some(AddressFamily::Any),
        4 => Some(AddressFamily::V4),
        6 => Some(AddressFamily::V6),
        _ => None,
    }
}

/// The number of a reason why there is no command.
fn refusal_number(refusal: SshRefusal) -> u8
    ensures { result ≡ refusal_number refusal }
{
    match refusal {
        SshRefusal::NotSecureShell => 1,
        SshRefusal::Password => 2,
        SshRefusal::EmptyUser => 3,
        SshRefusal::ByteZero => 4,
        SshRefusal::OptionLikeUser => 5,
        SshRefusal::NoHost => 6,
        SshRefusal::OptionLikeHost => 7,
        SshRefusal::AtSignInHost => 8,
        SshRefusal::UrlLikeDestination => 9,
        SshRefusal::NoPath => 10,
        SshRefusal::OptionLikePath => 11,
        SshRefusal::EmptyProgram => 12,
        SshRefusal::ByteZeroInProgram => 13,
        SshRefusal::OptionLikeProgram => 14,
        SshRefusal::FamilyOfSimple => 15,
        SshRefusal::PortOfSimple => 16,
    }
}
