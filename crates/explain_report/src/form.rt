//! The form in which a location is written, as it is reported: its name and its words.

ghost use Rattle.std.specs.Prelude.{◌≡◌};
ghost use Rattle.explain_report.specs.Forms.{file_form, form_of, ssh_form};

use gix_url::{Scheme, Url};
use serde::Serialize;
use std::fmt;

/// The form in which a location is written.
#[derive(Clone, Copy, Serialize)]
#[serde(rename_all = "snake_case")]
pub enum Form {
    RemoteHelper,
    Url,
    Scp,
    Local,
}

impl Form {
    /// Returns the form of the location.
    pub fn of(url: &Url) -> Form
        ensures { result ≡ form_of url.now }
    {
        match &url.scheme {
            Scheme::Ext | Scheme::Helper(_) => Form::RemoteHelper,
            Scheme::File => Form::of_file(url.serialize_alternative_form),
            Scheme::Ssh => Form::of_ssh(url.serialize_alternative_form),
            Scheme::Git | Scheme::Http | Scheme::Https | Scheme::HelperUrl(_) => Form::Url,
        }
    }

    /// The form of a location of a file, by its flag for the alternative form.
    fn of_file(is_alternative: bool) -> Form
        ensures { result ≡ file_form is_alternative }
    {
        if is_alternative {
            Form::Local
        } else {
            Form::Url
        }
    }

    /// The form of a location of Secure Shell, by its flag for the alternative form.
    fn of_ssh(is_alternative: bool) -> Form
        ensures { result ≡ ssh_form is_alternative }
    {
        if is_alternative { Form::Scp } else { Form::Url }
    }
}

impl fmt::Display for Form {
    fn fmt<W: fmt::Write>(&self, f: &mut fmt::Formatter<W>) -> fmt::Result {
        f.write_str(match self {
            Form::RemoteHelper => "remote helper",
            Form::Url => "URL",
            Form::Scp => "scp form",
            Form::Local => "local path",
        })
    }
}
