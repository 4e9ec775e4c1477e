//! The form of a text: how a location is written, or the fault for which it can't be.

ghost use Rattle.std.specs.Prelude.{◌≡◌};
ghost use Rattle.git_syntax.specs.Bytes.{is_helper_name};
ghost use Rattle.git_location.specs.Text.{choice, helper_choice, ssh_choice, with_host, has_authority, is_alternative, is_relative};
ghost use Rattle.git_location.specs.Internal.Pieces.{form_chosen, form_of, with_password};

use crate::url_ref::UrlRef;
use crate::write_error::WriteFault;
use git_syntax::bytes;
use git_syntax::scheme::SchemeRef;

/// The forms of a text.
#[derive(Clone, Copy, PartialEq, Eq)]
pub enum Form {
    /// The name of a remote helper, `::` and the path.
    Helper,
    /// User, host and path, all unescaped.
    Path,
    /// User, host, `:` and path, all unescaped.
    Scp,
    /// A URL.
    Canonical,
}

impl UrlRef<'_> {
    /// The form of the location with this password in place of its own.
    #[inline(always)]
    pub fn form(&self, password: Option<&str>) -> Result<Form, WriteFault>
        ensures { form_chosen result ≡ choice (with_password self.now password.entry) }
    {
        match self.scheme {
            SchemeRef::Ext => self.helper_form(b"ext", password),
            SchemeRef::Helper(name) => self.helper_form(name.as_bytes(), password),
            SchemeRef::Ssh => self.ssh_form(password),
            SchemeRef::File => {
                if self.is_alternative(password) {
                    self.with_host(Form::Path)
                } else {
                    self.with_host(Form::Canonical)
                }
            }
            SchemeRef::Git | SchemeRef::Http | SchemeRef::Https | SchemeRef::HelperUrl(_) => {
                self.with_host(Form::Canonical)
            }
        }
    }

    /// The helper form with this name. Such a location has a path only.
    fn helper_form(&self, name: &[u8], password: Option<&str>) -> Result<Form, WriteFault>
        ensures { form_chosen result
            ≡ helper_choice name.now (with_password self.now password.entry) }
    {
        if !bytes::is_helper_name(name) {
            Err(WriteFault::HelperName)
        } else if self.has_authority(password) {
            Err(WriteFault::HelperParts)
        } else {
            Ok(Form::Helper)
        }
    }

    /// The form of a location of Secure Shell.
    fn ssh_form(&self, password: Option<&str>) -> Result<Form, WriteFault>
        ensures { form_chosen result ≡ ssh_choice (with_password self.now password.entry) }
    {
        if !is_relative(self.path) {
            if self.is_alternative(password) {
                self.with_host(Form::Scp)
            } else {
                self.with_host(Form::Canonical)
            }
        } else if self.host.is_some() && password.is_none() && self.port.is_none() {
            Ok(Form::Scp)
        } else {
            Err(WriteFault::RelativeSsh)
        }
    }

    /// The form, in which a user needs a host.
    fn with_host(&self, form: Form) -> Result<Form, WriteFault>
        ensures { form_chosen result ≡ with_host self.now (form_of form) }
    {
        if self.user.is_some() && self.host.is_none() {
            Err(WriteFault::UserWithoutHost)
        } else {
            Ok(form)
        }
    }

    /// Whether there is a user, a password, a host or a port.
    fn has_authority(&self, password: Option<&str>) -> bool
        ensures { result ≡ has_authority (with_password self.now password.entry) }
    {
        self.user.is_some() || password.is_some() || self.host.is_some() || self.port.is_some()
    }

    /// Whether the alternative form, which is not a URL, is requested and possible.
    fn is_alternative(&self, password: Option<&str>) -> bool
        ensures { result ≡ is_alternative (with_password self.now password.entry) }
    {
        self.serialize_alternative_form && password.is_none() && self.port.is_none()
    }
}

/// Whether the path is not empty, not rooted and not below a home folder.
fn is_relative(path: &[u8]) -> bool
    ensures { result ≡ is_relative path.now }
{
    match path {
        [] => false,
        [first, ..] => *first != b'/' && *first != b'~',
    }
}
