//! The URL that Git writes for a request.

ghost use Rattle.std.specs.Prelude.{◌≡◌, ◌++◌, IfOk, OnOk, option_map};
ghost use Rattle.percent_encoding.specs.Percent as percent;
ghost use Rattle.git_reads.specs.Views.{credential_reading};
ghost use Rattle.git_rules.specs.CredentialUrls as spec;

use git_reads::credential::Request;
use percent_encoding::{AsciiSet, NON_ALPHANUMERIC, ascii_set, percent_encode};
use std::alloc::{AllocError, Global};

/// The bytes that are escaped in a user.
const USER: AsciiSet = ascii_set!(
    NON_ALPHANUMERIC
        .remove(b'-')
        .remove(b'.')
        .remove(b'_')
        .remove(b'~')
);

/// The bytes that are escaped in a path.
const PATH: AsciiSet = ascii_set!(USER.remove(b'/'));

/// The bytes that are escaped in a host with its port.
const HOST: AsciiSet = ascii_set!(
    NON_ALPHANUMERIC
        .remove(b'.')
        .remove(b':')
        .remove(b'[')
        .remove(b']')
        .remove(b'-')
);

/// The URL for a request.
pub(super) fn credential_url(alloc: Global, request: &Request<'_>) -> Result<Vec<u8>, AllocError>
    ensures { IfOk result (λ url. url.items ≡ spec.credential_url (credential_reading request.now)) }
{
    let mut url = Vec::new(alloc);
    url.extend_from_slice(request.protocol)?;
    url.extend_from_slice(b"://")?;
    append_user(&mut url, request.user)?;
    append_escaped(&mut url, request.host, HOST)?;
    append_path(&mut url, request.path)?;
    Ok(url)
}

/// Appends a user and the `@` that ends it, unless the user is empty.
fn append_user(out: &mut Vec<u8>, user: Option<&[u8]>) -> Result<(), AllocError>
    ensures { OnOk result (out.new.items
        ≡ out.old.items ++ spec.user_text (option_map (λ t. t.now) user.entry)) }
{
    match user {
        None | Some([]) => Ok(()),
        Some(user) => {
            append_escaped(out, user, USER)?;
            out.push(b'@')?;
            Ok(())
        }
    }
}

/// Appends a `/` and the path, if there is a path.
fn append_path(out: &mut Vec<u8>, path: Option<&[u8]>) -> Result<(), AllocError>
    ensures { OnOk result (out.new.items
        ≡ out.old.items ++ spec.path_text (option_map (λ t. t.now) path.entry)) }
{
    let Some(path) = path else {
        return Ok(());
    };
    out.push(b'/')?;
    append_escaped(out, path, PATH)
}

/// Appends the text, with the bytes of the set and those outside ASCII escaped.
fn append_escaped(out: &mut Vec<u8>, text: &[u8], set: AsciiSet) -> Result<(), AllocError>
    ensures { OnOk result (out.new.items ≡ out.old.items ++ percent.percent_encode set text.now) }
{
    for slice in percent_encode(text, set) {
        out.extend_from_slice(slice.as_bytes())?;
    }
    Ok(())
}
