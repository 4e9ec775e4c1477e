//! The exports for one part of a location: whether a text or a path is safe as an argument, whether a path is `/`,
//! whether a spelling represents it, and the default port of a scheme.
//!
//! Each is a call on a location that has this part alone. Any part is accepted, so there is no error.

ghost use Rattle.std.specs.Prelude.{◌≡◌, ◌==◌, Some, None, [], ◌∷◌, bytes_eq, if◌then◌else◌};
ghost use Rattle.std.specs.Option.{option_or};
ghost use Rattle.gix_url.specs.Arguments.{is_path_argument, judgement_of};
ghost use Rattle.gix_url.specs.Bytes.{slash};
ghost use Rattle.gix_url.specs.Schemes.{default_port_of};
ghost use Rattle.gix_url.specs.Text.{matching_or};
ghost use Rattle.c_values.specs.Input.{present, scheme_numbered};
ghost use Rattle.c_values.specs.SeenLocations.{judgement_number, port_number, truth};

use c_values::part::{default_port, truth, with_path};

/// No port.
const NO_PORT: u32 = 65_536;

/// Whether a user or a host is safe as an argument of a command: 0 there is none, 1 it is safe, 2 a program may take it
/// for an option.
#[unsafe(no_mangle)]
pub extern "C" fn gix_url_c_argument(is_there: bool, text: &[u8]) -> u32
    ensures { result ≡ judgement_number (judgement_of (present is_there text.now)) }
{
    if !is_there {
        return 0;
    }
    match text {
        [b'-', ..] => 2,
        _ => 1,
    }
}

/// Whether a path is safe as an argument of a command, 1 or 0: [`gix_url::UrlRef::path_argument_safe`].
#[unsafe(no_mangle)]
pub extern "C" fn gix_url_c_path_argument(path: &[u8]) -> u32
    ensures { result ≡ truth (is_path_argument path.now) }
{
    truth(with_path(path, None).path_argument_safe().is_some())
}

/// Whether a path is `/`, 1 or 0: [`gix_url::UrlRef::path_is_root`].
#[unsafe(no_mangle)]
pub extern "C" fn gix_url_c_path_is_root(path: &[u8]) -> u32
    ensures { result ≡ truth (bytes_eq path.now (slash ∷ [])) }
{
    truth(with_path(path, None).path_is_root())
}

/// 1 if the original path is the spelling, 0 if it is the path: [`gix_url::UrlRef::original_path`].
#[unsafe(no_mangle)]
pub extern "C" fn gix_url_c_is_spelled(path: &[u8], spelling: &[u8]) -> u32
    ensures original { matching_or (Some spelling.now) path.now path.now
        ≡ (if result == 1 then spelling.now else path.now) }
    ensures spelled { result
        ≡ truth (bytes_eq (matching_or (Some spelling.now) path.now path.now) spelling.now) }
{
    truth(with_path(path, Some(spelling)).original_path().as_bytes() == spelling)
}

/// The port, or the default port of the scheme with this number; 65,536 if there is neither:
/// [`gix_url::UrlRef::port_or_default`].
#[unsafe(no_mangle)]
pub extern "C" fn gix_url_c_port_or_default(scheme: u8, has_port: bool, port: u16) -> u32
    ensures { result ≡ port_number
        (option_or (present has_port port) (default_port_of (scheme_numbered scheme []))) }
{
    if has_port {
        return u32::from(port);
    }
    match default_port(scheme) {
        Some(port) => u32::from(port),
        None => NO_PORT,
    }
}
