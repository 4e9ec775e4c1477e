//! Calls of `git_rules`: Git's rules for a location by its configuration.
//!
//! `config` is the output of `git config --list -z`. Calls that rewrite are in `rewriting`, those over a remote in
//! `remotes`, over a place in `places`, those of Secure Shell in `commands`, and `rule_outcomes` reports the results.

use crate::halt::Halt;
use crate::order::{Order, unknown};
use crate::report::{Out, report_borrowed, report_owned};
use crate::rule_outcomes::report_items;
use crate::shown::show_debug;
use crate::{
    build, commands, config_files, credentials, places, remotes, rewriting, ssh_programs,
    submodules,
};
use git_modules::config_file::law::law_one_file_reading;
use git_modules::resolve::law::law_same_place;
use git_rules::boolean::read_boolean;
use git_rules::config::law::law_one_reading;
use git_rules::config::{self, Entry, Reader, entries_of, is_listing};
use git_rules::credentials::law::law_credentials;
use git_rules::normal::law_normal_form;
use git_rules::number::read_number;
use git_rules::pattern::law_patterns;
use git_rules::pattern::settings::kind_of;
use git_rules::pattern::settings::law::law_settings;
use git_rules::protocols::text::{law_text_transport, transport_of};
use git_rules::protocols::{Protocols, law_permission, law_section, transport};
use git_rules::remote::law::law_one_remote;
use git_rules::rewrite::host::{is_same_host, names_same_host, texts_name_same_host};
use git_rules::rewrite::law::law_one_outcome;
use git_rules::ssh::law_git_words;
use git_rules::stops::{self, stop_at};
use gix_url::Url;
use std::alloc::Global;

/// Whether a call is in `git_rules`, by the module or the type in its name.
pub fn has(name: &str) -> bool {
    match name.split_once("::") {
        Some((owner, _)) => is_of_configuration(owner)
            || is_of_places(owner)
            || commands::has(owner),
        None => false,
    }
}

/// Whether calls are over a configuration, a transport or a boolean value.
fn is_of_configuration(owner: &str) -> bool {
    matches!(
        owner,
        "config"
            | "config_file"
            | "credentials"
            | "Entry"
            | "Reader"
            | "Remote"
            | "Rewrites"
            | "Rewritten"
            | "Protocols"
            | "Permission"
            | "text"
            | "boolean"
            | "number"
            | "stops"
            | "submodules"
            | "refusal"
            | "risk"
            | "defect"
    )
}

/// Whether calls are over a place, or over two locations.
fn is_of_places(owner: &str) -> bool {
    matches!(
        owner,
        "NormalUrl"
            | "normal"
            | "UrlPattern"
            | "pattern"
            | "entries"
            | "settings"
            | "place"
            | "protocols"
            | "host"
    )
}

/// Makes the call of an order, by the type of its input.
pub fn make(alloc: Global, order: Order<'_>, out: &mut Out) -> Result<(), Halt> {
    if let Some(len) = order.number("len") {
        places::over_len(order, len, out)
    } else if order.has("file") {
        config_files::over_file(alloc, order, out)
    } else if order.has("config") {
        over_config(alloc, order, out)
    } else if order.has("url") {
        over_url(alloc, order, out)
    } else if order.has("text") {
        over_text(alloc, order, out)
    } else {
        commands::over_service(order, out)
    }
}

/// Calls over the text of a configuration, and over its entries.
fn over_config(alloc: Global, order: Order<'_>, out: &mut Out) -> Result<(), Halt> {
    let text = order.bytes(alloc, "config")?;
    let outcome = match order.name() {
        "config::entries" | "config::is_listing" | "Reader::new" => over_reader(
            alloc,
            order,
            text.as_slice(),
            out,
        ),
        _ => read_entries(alloc, order, text.as_slice(), out),
    };
    drop(text);
    outcome
}

/// Calls that parse the text of a configuration.
fn over_reader(alloc: Global, order: Order<'_>, text: &[u8], out: &mut Out) -> Result<(), Halt> {
    match order.call() {
        "config::entries" => report_owned(out, config::entries(alloc, text)),
        "config::is_listing" => report_borrowed(out, &is_listing(text)),
        "Reader::new" => Ok(report_items(out, Reader::new(text))?),
        call => unknown(call),
    }
}

/// Parses the entries of a configuration, and makes a call over them.
fn read_entries(alloc: Global, order: Order<'_>, text: &[u8], out: &mut Out) -> Result<(), Halt> {
    let entries = config::entries(alloc, text)?;
    let outcome = match order.name() {
        "Protocols::permission" | "Permission::is_allowed" => {
            over_protocols(alloc, order, entries.as_slice(), out)
        }
        "Entry::is_section"
        | "Entry::is_name"
        | "Entry::sets"
        | "stops::kind_of"
        | "stops::stop_at" => { over_entry(order, entries.as_slice(), out) }
        "entries::best_entry" | "entries::entry_rank" | "settings::settings_for" => {
            places::over_entries(alloc, order, entries.as_slice(), text.len(), out)
        }
        "settings::settings_without_place" => {
            places::over_no_place(alloc, order, entries.as_slice(), out)
        }
        "config::entries_of" => over_section(alloc, order, entries.as_slice(), out),
        "credentials::credentials_for" => {
            credentials::over_entries(alloc, order, entries.as_slice(), out)
        }
        "Remote::of" => remotes::over_entries(alloc, order, entries.as_slice(), out),
        "SshProgram::of" => ssh_programs::over_entries(alloc, order, entries.as_slice(), out),
        "refusal::check" | "risk::has_risk" | "submodules::submodules" => {
            submodules::over_entries(alloc, order, entries.as_slice(), out)
        }
        "defect::defects_of" => {
            submodules::over_submodules(alloc, order, entries.as_slice(), out)
        }
        _ => rewriting::over_entries(alloc, order, entries.as_slice(), out),
    };
    drop(entries);
    outcome
}

/// Reports the entries of one section.
fn over_section(
    alloc: Global,
    order: Order<'_>,
    entries: &[Entry<'_>],
    out: &mut Out,
) -> Result<(), Halt> {
    let section = order.needed("section")?;
    match order.call() {
        "config::entries_of" => report_owned(out, entries_of(alloc, entries, section)),
        call => unknown(call),
    }
}

/// Calls that inspect the first entry.
fn over_entry(order: Order<'_>, entries: &[Entry<'_>], out: &mut Out) -> Result<(), Halt> {
    let Some(entry) = entries.first() else {
        return Err(Halt::Unprepared);
    };
    match order.call() {
        "Entry::is_section" => report_borrowed(out, &entry.is_section(order.needed("section")?)),
        "Entry::is_name" => report_borrowed(out, &entry.is_name(order.needed("name")?)),
        "Entry::sets" => report_borrowed(
            out,
            &entry.sets(order.needed("section")?, order.needed("name")?),
        ),
        "stops::kind_of" => report_borrowed(out, &stops::kind_of(entry)),
        "stops::stop_at" => report_borrowed(out, &stop_at(entry)),
        call => unknown(call),
    }
}

/// Calls over the settings that determine which transports may be used.
fn over_protocols(
    alloc: Global,
    order: Order<'_>,
    entries: &[Entry<'_>],
    out: &mut Out,
) -> Result<(), Halt> {
    let allow_list = order.some_bytes(alloc, "allow_list")?;
    let from_user = order.some_bytes(alloc, "from_user")?;
    let outcome = permit_by(order, &*entries, &allow_list, &from_user, out);
    drop(allow_list);
    drop(from_user);
    outcome
}

/// Reports whether Git allows a transport by these entries and variables.
fn permit_by<'a>(
    order: Order<'_>,
    entries: &'a [Entry<'a>],
    allow_list: &'a Option<Vec<u8>>,
    from_user: &'a Option<Vec<u8>>,
    out: &mut Out,
) -> Result<(), Halt> {
    let protocols = Protocols {
        entries,
        allow_list: bytes_of(allow_list),
        from_user: bytes_of(from_user),
    };
    permit(order, &protocols, out)
}

/// The bytes of a variable, if it is set.
fn bytes_of(value: &Option<Vec<u8>>) -> Option<&[u8]> {
    value.as_ref().map(|bytes| bytes.as_slice())
}

/// Reports whether Git allows a transport: by the name of the permission alone, or with the setting that decides.
fn permit(order: Order<'_>, protocols: &Protocols<'_>, out: &mut Out) -> Result<(), Halt> {
    let name = order.needed("name")?;
    match (order.call(), order.style()) {
        ("Protocols::permission", "") => report_borrowed(out, &protocols.permission(name)),
        ("Protocols::permission", _) => show_debug(out, &protocols.permission(name)),
        ("Permission::is_allowed", _) => report_borrowed(
            out,
            &protocols.permission(name).is_allowed(),
        ),
        (call, _) => unknown(call),
    }
}

/// Calls over a location, or over two locations.
fn over_url(alloc: Global, order: Order<'_>, out: &mut Out) -> Result<(), Halt> {
    let url = build::url(alloc, order, "url")?;
    let outcome = match order.name() {
        "protocols::transport" => over_transport(order, &url, out),
        "host::names_same_host" => over_hosts(alloc, order, &url, out),
        "place::place_in" => places::over_location(alloc, order, &url.as_ref(), out),
        _ => commands::over_url(alloc, order, &url.as_ref(), out),
    };
    drop(url);
    outcome
}

/// Reports the transport of a location.
fn over_transport(order: Order<'_>, url: &Url, out: &mut Out) -> Result<(), Halt> {
    match order.call() {
        "protocols::transport" => report_borrowed(out, &transport(&url.as_ref())),
        call => unknown(call),
    }
}

/// Compares the hosts of two locations.
fn over_hosts(alloc: Global, order: Order<'_>, url: &Url, out: &mut Out) -> Result<(), Halt> {
    let other = build::url(alloc, order, "other")?;
    let outcome = match order.call() {
        "host::names_same_host" => report_borrowed(
            out,
            &names_same_host(&url.as_ref(), &other.as_ref()),
        ),
        call => unknown(call),
    };
    drop(other);
    outcome
}

/// Calls over a text.
fn over_text(alloc: Global, order: Order<'_>, out: &mut Out) -> Result<(), Halt> {
    let text = order.bytes(alloc, "text")?;
    let outcome = match order.name() {
        "boolean::read_boolean" => over_boolean(order, text.as_slice(), out),
        "number::read_number" => over_number(order, text.as_slice(), out),
        "settings::kind_of" => over_name(order, text.as_slice(), out),
        "text::transport_of" => over_form(order, text.as_slice(), out),
        "host::texts_name_same_host" | "host::is_same_host" => {
            over_two_texts(alloc, order, text.as_slice(), out)
        }
        "Rewrites::new" | "Rewrites::add_fetch" | "Rewrites::add_push" => {
            rewriting::over_rule(alloc, order, text.as_slice(), out)
        }
        _ => places::over_text(alloc, order, text.as_slice(), out),
    };
    drop(text);
    outcome
}

/// Reports the boolean value of a text.
fn over_boolean(order: Order<'_>, text: &[u8], out: &mut Out) -> Result<(), Halt> {
    match order.call() {
        "boolean::read_boolean" => report_borrowed(out, &read_boolean(text)),
        call => unknown(call),
    }
}

/// Reports the size of the number that a text encodes.
fn over_number(order: Order<'_>, text: &[u8], out: &mut Out) -> Result<(), Halt> {
    let Some(greatest) = order.number("greatest") else {
        return Err(Halt::Unprepared);
    };
    match order.call() {
        "number::read_number" => report_borrowed(out, &read_number(text, greatest).map(u128::from)),
        call => unknown(call),
    }
}

/// Reports the kind of a name of `http.*`.
fn over_name(order: Order<'_>, text: &[u8], out: &mut Out) -> Result<(), Halt> {
    match order.call() {
        "settings::kind_of" => report_borrowed(out, &kind_of(text)),
        call => unknown(call),
    }
}

/// Reports the transport that Git uses for a text, by the form of the text.
fn over_form(order: Order<'_>, text: &[u8], out: &mut Out) -> Result<(), Halt> {
    match order.call() {
        "text::transport_of" => report_borrowed(out, &transport_of(text)),
        call => unknown(call),
    }
}

/// Compares two hosts, or the hosts of two texts, each of which is parsed with a buffer of its length.
fn over_two_texts(alloc: Global, order: Order<'_>, text: &[u8], out: &mut Out) -> Result<(), Halt> {
    let mut buffer = order.bytes(alloc, "text")?;
    let other = order.bytes(alloc, "other")?;
    let mut other_buffer = order.bytes(alloc, "other")?;
    let outcome = match order.call() {
        "host::texts_name_same_host" => report_owned(
            out,
            texts_name_same_host(text, &mut buffer, other.as_slice(), &mut other_buffer),
        ),
        "host::is_same_host" => report_borrowed(out, &is_same_host(text, other.as_slice())),
        call => unknown(call),
    };
    drop(buffer);
    drop(other);
    drop(other_buffer);
    outcome
}

/// Laws of `git_rules`, which hold for all values, and whose calls do nothing.
pub fn over_nothing(order: Order<'_>, out: &mut Out) -> Result<(), Halt> {
    match order.call() {
        "laws::law_credentials" => report_borrowed(out, &law_credentials()),
        "laws::law_git_words" => report_borrowed(out, &law_git_words()),
        "laws::law_normal_form" => report_borrowed(out, &law_normal_form()),
        "laws::law_one_file_reading" => report_borrowed(out, &law_one_file_reading()),
        "laws::law_one_outcome" => report_borrowed(out, &law_one_outcome()),
        "laws::law_one_reading" => report_borrowed(out, &law_one_reading()),
        "laws::law_one_remote" => report_borrowed(out, &law_one_remote()),
        "laws::law_patterns" => report_borrowed(out, &law_patterns()),
        "laws::law_permission" => report_borrowed(out, &law_permission()),
        "laws::law_same_place" => report_borrowed(out, &law_same_place()),
        "laws::law_section" => report_borrowed(out, &law_section()),
        "laws::law_settings" => report_borrowed(out, &law_settings()),
        "laws::law_text_transport" => report_borrowed(out, &law_text_transport()),
        call => unknown(call),
    }
}
